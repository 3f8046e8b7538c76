//! The processors as their users hold them.

ghost use Rattle.std.specs.List.{AllByRecursion};
ghost use Rattle.std.specs.Prelude.{◌≡◌, ◌*◌, ◌<◌, ◌≤◌, ◌^◌, ℕ, IfOk, List, length, replicate, slice_get};
ghost use Rattle.std.specs.Option.{option_map};
ghost use Rattle.std.specs.Int.{IsPowerOfTwo};
ghost use Rattle.lego_base.specs.declared.ids.MemId.{MemId as Owner};
ghost use Rattle.lego_msg.specs.Marks.{Mark};
ghost use Rattle.lego_msg.specs.Track.{memory_count, start};
ghost use Rattle.lego_rest.specs.Fits.{MachineFits};
ghost use Rattle.line_cache.specs.Cached.{Cached, empty_cache};
ghost use Rattle.line_cache.specs.Counting.{tally_of};
ghost use Rattle.ex_memory.specs.Seen.{world};
ghost use Rattle.split_script.specs.Now.{at_start};

use cluster::Cluster;
use lego_base::{Counts, CpuId, Halt, NoMemory, Shape};
use lego_msg::Place;
use line_cache::LineCache;
use std::alloc::Global;
use std::marker::Model;

/// The processors of a split machine, each with its cache, over the cluster of its memories and its storage.
#[derive(Drop)]
pub struct ExMemory {
    pub(crate) alloc: Global,
    pub(crate) cluster: Cluster,
    pub(crate) caches: Vec<LineCache>, // by number of the processor
    pub(crate) by: Place, // who issues operations
}

impl Model for ExMemory {
    ghost use Rattle.ex_memory.specs.Split.{Split};
    ghost use Rattle.ex_memory.specs.Sound.{InOrder};

    ghost Value = { Split };

    ghost view = { λ m. record { whole = m.cluster; caches = m.caches.items; by = m.by } };

    ghost invariant = { λ m. InOrder (record { whole = m.cluster; caches = m.caches.items; by = m.by }) };
}

impl ExMemory {
    ghost use Rattle.ex_memory.specs.Did.{Is};

    /// Processors with empty caches over a cluster that was booted, of a machine of this shape, before its first event.
    pub fn boot(alloc: Global, shape: &Shape) -> Result<ExMemory, NoMemory>
        requires few { memory_count shape.now ≤ 8 }
        requires machine { MachineFits shape.now }
        requires placement { 0 < length shape.now.placement }
        requires placed { AllByRecursion (λ (o : Owner). o.0 < memory_count shape.now) shape.now.placement }
        requires processors { 0 < shape.now.processors }
        requires power { IsPowerOfTwo shape.now.sets }
        requires ways { 0 < shape.now.ways }
        requires fits { shape.now.sets * shape.now.ways < 2 ^ 32 }
        ensures start { IfOk result (λ m. (due : List Mark) → world m due ≡ start shape.now due) }
        ensures is { IfOk result (Is (at_start shape.now)) }
    {
        let cluster = Cluster::boot(alloc, shape)?;
        let caches = empty_caches(alloc, shape.processors, shape.sets, shape.ways)?;
        Ok(ExMemory {
            alloc,
            cluster,
            caches,
            by: Place::Manager,
        })
    }

    /// The halt that is kept: each further call that can halt gives it.
    pub fn halted(&self) -> Option<Halt>
        ensures { result ≡ self.now.whole.halt }
    {
        self.cluster.halted()
    }

    /// What the cache of a processor counted, each count modulo 2^64: none where there is no such processor.
    pub fn counts(&self, cpu: CpuId) -> Option<Counts>
        ensures { option_map tally_of result ≡ option_map (λ (c : Cached). c.counts) (slice_get self.now.caches cpu.0) }
    {
        match self.caches.get(cpu.0 as usize) {
            Some(cache) => Some(cache.counts()),
            None => None,
        }
    }
}

// One empty cache of `sets` sets of `ways` lines for each processor.
fn empty_caches(
    alloc: Global,
    processors: u32,
    sets: u32,
    ways: u32,
) -> Result<Vec<LineCache>, NoMemory>
    requires power { IsPowerOfTwo sets }
    requires some { 0 < ways }
    requires fits { sets * ways < 2 ^ 32 }
    ensures { IfOk result (λ caches. caches.items ≡ replicate processors (empty_cache sets ways)) }
{
    let mut caches = Vec::new(alloc);
    for _ in 0..processors {
        caches.push(LineCache::new(alloc, sets, ways)?)?;
    }
    Ok(caches)
}

//! The fields of the machine: its components and their sizes.

ghost use Rattle.std.specs.Prelude.{◌≡◌, ◌≤◌, IfOk, length, map};
ghost use Rattle.serde_json.specs.View.{view};
ghost use Rattle.desc_read.specs.Faults.{Gives};
ghost use Rattle.desc_read.specs.Plans.{machine_of, shape_from, memory, numbers_below};

use crate::fault::DescFault;
use crate::numbers::Span;
use crate::object_reader::ObjectReader;
use lego_base::{CrashAt, MemId, NoMemory, Seq, Shape};
use std::alloc::Global;

/// The components and their sizes.
#[derive(Drop)]
pub(crate) struct MachineFields {
    pub(crate) frames: Seq<u32>,
    pub(crate) log: u32,
    pub(crate) blocks: u32,
    pub(crate) cache_blocks: u32,
    pub(crate) processors: u32,
    pub(crate) sets: u32,
    pub(crate) ways: u32,
    pub(crate) placement: Seq<MemId>,
}

impl MachineFields {
    /// The machine with these deliveries and crashes.
    pub(crate) fn into_shape(self, deliveries: Seq<u32>, crashes: Seq<CrashAt>) -> Shape
        ensures { result ≡ shape_from self deliveries crashes }
    {
        let MachineFields {
            frames,
            log,
            blocks,
            cache_blocks,
            processors,
            sets,
            ways,
            placement,
        } = self;
        Shape {
            frames,
            log,
            blocks,
            cache_blocks,
            processors,
            sets,
            ways,
            placement,
            deliveries,
            crashes,
        }
    }
}

// The fields from version to placement.
pub(crate) fn read_machine(object: &ObjectReader<'_>) -> Result<MachineFields, DescFault>
    ensures gives { Gives result (machine_of object.now.entry (view object.now.value.now)) }
    ensures few { IfOk result (λ machine. length machine.frames ≤ 8) }
{
    let _version = object.number("version", Span(1, 1), None)?;
    let frames = object.numbers("frames", Span(2, 8), Span(16, 16384), &[4096, 4096, 4096])?;
    let log = object.number("log", Span(1, 1024), Some(256))?;
    let blocks = object.number("blocks", Span(1, 131_072), Some(16384))?;
    let cache_blocks = object.number("cache_blocks", Span(1, 1024), Some(64))?;
    let processors = object.number("processors", Span(1, 8), Some(2))?;
    let sets = object.number("sets", Span(1, 1024), Some(64))?;
    object.in_range("sets", sets.is_power_of_two())?;
    let ways = object.number("ways", Span(1, 16), Some(4))?;
    let memories = frames.len() as u32;
    let last_memory = memories.saturating_sub(1);
    let each = numbers_to(object.alloc, memories)?;
    let owners = object.numbers(
        "placement",
        Span(1, 1024),
        Span(0, last_memory),
        each.as_slice(),
    )?;
    let placement = memories_of(object.alloc, owners.as_slice())?;
    Ok(MachineFields {
        frames,
        log,
        blocks,
        cache_blocks,
        processors,
        sets,
        ways,
        placement,
    })
}

// The numbers below n in rising order.
fn numbers_to(alloc: Global, n: u32) -> Result<Vec<u32>, NoMemory>
    ensures { IfOk result (λ numbers. numbers.items ≡ numbers_below n) }
{
    let mut numbers = Vec::new(alloc);
    for k in 0..n {
        numbers.push(k)?;
    }
    Ok(numbers)
}

// The memories of these numbers.
fn memories_of(alloc: Global, numbers: &[u32]) -> Result<Seq<MemId>, NoMemory>
    ensures { IfOk result (λ memories. memories ≡ map memory numbers.now) }
{
    let mut memories = Vec::with_capacity(alloc, numbers.len())?;
    for n in numbers {
        memories.push(MemId(*n))?;
    }
    Ok(Seq::from_vec(memories))
}

//! Pages of a process are unmapped.

ghost use Rattle.std.specs.Prelude.{◌≡◌, ◌+◌, ◌<◌, ◌≤◌, Err, IfErr, IfOk, None, OnOk, Some, true};
ghost use Rattle.lego_base.specs.declared.sizes.TheConstants.{PAGES_END};
ghost use Rattle.lego_base.specs.declared.stops.Halt.{Halt};
ghost use Rattle.lego_msg.specs.Places.{is_issuer};
ghost use Rattle.lego_msg.specs.Plain.{Plain};
ghost use Rattle.lego_msg.specs.Track.{memory_count};
ghost use Rattle.cluster.specs.Unmapping.{AreParts, listed_for, regions_met, unmaps_of, unmaps_parts, without_range};

use crate::Cluster;
use crate::cuts::add_parts;
use lego_base::{Area, Halt, NoMemory, PAGE_BYTES, Pid, Vpn};
use lego_msg::{Operation, Place, Watch};
use std::alloc::Global;

impl Cluster {
    ghost use Rattle.cluster.specs.Sequences.{CallsAll, MayAskAll, all_served};
    ghost use Rattle.cluster.specs.Standing.{IsAtRest, StandsFor};

    /// `pages` pages of a process, starting at `first`, aren't mapped any more, and what was written there is gone. They end
    /// within the addresses of users. Each region that they meet and that has an owner is asked for its areas first.
    pub fn unmap<W: Watch>(
        &mut self,
        by: Place,
        pid: Pid,
        first: Vpn,
        pages: u64,
        watch: &mut W,
    ) -> Result<(), Halt>
        requires issuer { is_issuer by ≡ true }
        requires most { first.0 + pages ≤ PAGES_END }
        requires rests { self.old.halt ≡ None → IsAtRest self.old }
        ensures call { (f : Plain) → StandsFor self.old f → let operations = unmaps_of (memory_count self.old.shape) f self.old.table pid first.0 pages in
            CallsAll W.told W.faults watch.old watch.new self.old self.new by operations (λ done. all_served by operations) result }
        ensures stands { OnOk result ((f : Plain) → StandsFor self.old f → StandsFor self.new (without_range pid first.0 pages f)) }
        ensures table { OnOk result (self.new.table ≡ self.old.table) }
        ensures kept { (h : Halt) → self.old.halt ≡ Some h → (result ≡ Err h) × (self.new.halt ≡ Some h) × (watch.new ≡ watch.old) }
        ensures keeps { IfErr result (λ h. self.new.halt ≡ Some h) }
        ensures goes { OnOk result ((self.old.halt ≡ None) × (self.new.halt ≡ None)) }
    {
        match self.span_areas(by, pid, first.0 * PAGE_BYTES, pages * PAGE_BYTES, watch) {
            Err(halt) => return Err(halt),
            Ok(old) => match self.unmap_parts(by, pid, first.0, pages, old.as_slice(), watch) {
                Err(halt) => return Err(halt),
                Ok(()) => return Ok(()),
            },
        }
    }

    // The pages go from the regions that they meet, whose areas are known.
    fn unmap_parts<W: Watch>(
        &mut self,
        by: Place,
        pid: Pid,
        first: u64,
        pages: u64,
        old: &[Area],
        watch: &mut W,
    ) -> Result<(), Halt>
        requires none { self.old.halt ≡ None }
        requires some { 0 < memory_count self.old.shape }
        requires most { first + pages ≤ PAGES_END }
        requires parts { AreParts old.now first pages (regions_met self.old.table pid first pages) }
        requires may { MayAskAll self.old by (unmaps_parts (memory_count self.old.shape) (listed_for old.now) first pages (regions_met self.old.table pid first pages)) }
        ensures { let operations = unmaps_parts (memory_count self.old.shape) (listed_for old.now) first pages (regions_met self.old.table pid first pages) in
            CallsAll W.told W.faults watch.old watch.new self.old self.new by operations (λ done. all_served by operations) result }
    {
        let alloc = self.alloc();
        match self.parts(alloc, pid, first, pages, old) {
            Err(_) => {
                self.out_of_memory();
                return Err(Halt::NoMemory);
            }
            Ok(operations) => match self.ask_all(by, operations, watch) {
                Err(halt) => return Err(halt),
                Ok(_) => return Ok(()),
            },
        }
    }

    // The operations that this calls for, in order.
    fn parts(
        &self,
        alloc: Global,
        pid: Pid,
        first: u64,
        pages: u64,
        old: &[Area],
    ) -> Result<Vec<Operation>, NoMemory>
        requires none { self.now.halt ≡ None }
        requires some { 0 < memory_count self.now.shape }
        requires most { first + pages ≤ PAGES_END }
        requires parts { AreParts old.now first pages (regions_met self.now.table pid first pages) }
        ensures { IfOk result (λ operations. operations.items ≡ unmaps_parts (memory_count self.now.shape) (listed_for old.now) first pages (regions_met self.now.table pid first pages)) }
    {
        let memories = self.memories();
        let entries = self.entries_met(alloc, pid, first * PAGE_BYTES, pages * PAGE_BYTES)?;
        let mut operations = Vec::new(alloc);
        add_parts(
            &mut operations,
            alloc,
            memories,
            entries.as_slice(),
            old,
            first,
            pages,
        )?;
        Ok(operations)
    }
}

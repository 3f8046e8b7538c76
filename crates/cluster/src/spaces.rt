//! Spaces of processes, as a whole.

ghost use Rattle.std.specs.Prelude.{◌≡◌, ◌<◌, ◌==◌, [], ℕ, IfOk, List, None, OnOk, false, true};
ghost use Rattle.lego_base.specs.Keys.{is_of, without};
ghost use Rattle.lego_msg.specs.Maps.{home_key, owner_of};
ghost use Rattle.lego_msg.specs.Places.{is_issuer};
ghost use Rattle.lego_msg.specs.Plain.{Plain, without_space};
ghost use Rattle.lego_msg.specs.Track.{memory_count};
ghost use Rattle.placement.specs.Owners.{handed_on, inherited};
ghost use Rattle.cluster.specs.Copying.{HasInherited, MayCopy, MayDrainFirst, copies_at, first_drained, with_space_of};
ghost use Rattle.cluster.specs.Dropping.{drops_of};
ghost use Rattle.cluster.specs.Mapping.{with_homes};
ghost use Rattle.cluster.specs.Whole.{Whole};

use crate::Cluster;
use crate::copies::{after_drain, drain_of, owners_of};
use lego_base::{Halt, HomeEntry, MemId, NoMemory, Pid};
use lego_msg::{Operation, Place, Watch};
use std::alloc::Global;

impl Cluster {
    ghost use Rattle.cluster.specs.Sequences.{CallsAll, CallsEach, MayAskEach, ReadNoLine, all_served, served_each};
    ghost use Rattle.cluster.specs.Standing.{Brings, IsAtRest, StandsFor};

    /// The space of a process goes, with all that memories and storage hold of it: the log of each memory is drained first.
    pub fn drop_space<W: Watch>(&mut self, by: Place, pid: Pid, watch: &mut W) -> Result<(), Halt>
        requires issuer { is_issuer by ≡ true }
        requires rests { self.old.halt ≡ None → IsAtRest self.old }
        ensures call { let operations = drops_of (memory_count self.old.shape) pid in
            CallsAll W.told W.faults watch.old watch.new self.old self.new by operations (λ done. all_served by operations) result }
        ensures stands { OnOk result ((f : Plain) → StandsFor self.old f → StandsFor self.new (without_space pid.0 f)) }
        ensures owners { OnOk result (self.new.table.owners ≡ without home_key (is_of pid.0) self.old.table.owners) }
    {
        match self.halted() {
            Some(halt) => return Err(halt),
            None => {}
        }
        let alloc = self.alloc();
        match drops_of(alloc, self.memories(), pid) {
            Err(_) => {
                self.out_of_memory();
                return Err(Halt::NoMemory);
            }
            Ok(operations) => match self.ask_all(by, operations, watch) {
                Err(halt) => return Err(halt),
                Ok(_) => return Ok(()),
            },
        }
    }

    /// The space of a child, which has none yet, becomes its parent's: the same areas and bytes, with the same owners.
    pub fn copy_space<W: Watch>(
        &mut self,
        by: Place,
        parent: Pid,
        child: Pid,
        watch: &mut W,
    ) -> Result<(), Halt>
        requires issuer { is_issuer by ≡ true }
        requires another { (parent.0 == child.0) ≡ false }
        requires bare { self.old.halt ≡ None → (region : ℕ) → owner_of self.old.table.owners child.0 region ≡ None }
        requires rests { self.old.halt ≡ None → IsAtRest self.old }
        ensures call { let asks = copies_at self.old parent child in
            CallsEach (inherited parent child self.old.table) W.told W.faults watch.old watch.new self.old self.new by asks (λ done. served_each by asks) result }
        ensures stands { OnOk result ((f : Plain) → StandsFor self.old f →
            StandsFor self.new (with_space_of parent child (with_homes (handed_on parent child self.old.table.owners) f))) }
        ensures table { OnOk result (self.new.table ≡ inherited parent child self.old.table) }
    {
        match self.halted() {
            Some(halt) => return Err(halt),
            None => {}
        }
        let alloc = self.alloc();
        match self.entries(alloc, parent) {
            Err(_) => {
                self.out_of_memory();
                return Err(Halt::NoMemory);
            }
            Ok(entries) => match self.inherit(parent, child) {
                Err(_) => {
                    self.out_of_memory();
                    return Err(Halt::NoMemory);
                }
                Ok(()) => match self.copy_regions(by, parent, child, entries.as_slice(), watch) {
                    Err(halt) => return Err(halt),
                    Ok(()) => return Ok(()),
                },
            },
        }
    }

    // Copies the regions of a parent. The owners of the child's are in the table already.
    fn copy_regions<W: Watch>(
        &mut self,
        by: Place,
        parent: Pid,
        child: Pid,
        entries: &[HomeEntry],
        watch: &mut W,
    ) -> Result<(), Halt>
        requires none { self.old.halt ≡ None }
        requires may { MayCopy self.old by parent child entries.now }
        ensures { (c : Whole) → HasInherited c self.old parent child entries.now → MayAskEach c by (copies_at c parent child) → let asks = copies_at c parent child in
            CallsEach self.old.table W.told W.faults watch.old watch.new c self.new by asks (λ done. served_each by asks) result }
    {
        let alloc = self.alloc();
        let memories = self.memories();
        match owners_of(alloc, memories, entries) {
            Err(_) => {
                self.out_of_memory();
                return Err(Halt::NoMemory);
            }
            Ok(owners) => {
                let whose = owners.as_slice();
                match after_drain(alloc, memories, parent, child, entries, whose) {
                    Err(_) => {
                        self.out_of_memory();
                        return Err(Halt::NoMemory);
                    }
                    Ok(rest) => match self.drain_first(by, memories, whose, rest, watch) {
                        Err(halt) => return Err(halt),
                        Ok(()) => return Ok(()),
                    },
                }
            }
        }
    }

    // Drains the secondary of the first owner, with which the owners of new regions come, and performs what follows.
    fn drain_first<W: Watch>(
        &mut self,
        by: Place,
        memories: u32,
        owners: &[u32],
        rest: Vec<Operation>,
        watch: &mut W,
    ) -> Result<(), Halt>
        requires none { self.old.halt ≡ None }
        requires some { 0 < memories }
        requires may { MayDrainFirst self.old by memories owners.now rest.items }
        requires lines { ReadNoLine rest.items }
        ensures { (new : List HomeEntry) (c : Whole) → Brings new c self.old → (owners.now ≡ [] → self.old ≡ c) → MayAskEach c by (first_drained new memories owners.now rest.items) →
            let asks = first_drained new memories owners.now rest.items in
            CallsEach self.old.table W.told W.faults watch.old watch.new c self.new by asks (λ done. served_each by asks) result }
    {
        if owners.is_empty() {
            match self.ask_all(by, rest, watch) {
                Err(halt) => return Err(halt),
                Ok(_) => return Ok(()),
            }
        }
        match self.bring_all(by, drain_of(memories, owners[0]), rest, watch) {
            Err(halt) => return Err(halt),
            Ok(()) => return Ok(()),
        }
    }
}

// A drain of each memory's log, and then the drop of a space.
fn drops_of(alloc: Global, memories: u32, pid: Pid) -> Result<Vec<Operation>, NoMemory>
    ensures { IfOk result (λ operations. operations.items ≡ drops_of memories pid) }
{
    let mut operations = Vec::new(alloc);
    for number in 0..memories {
        operations.push(Operation::Drains {
            memory: MemId(number),
        })?;
    }
    operations.push(Operation::Drops { pid })?;
    Ok(operations)
}

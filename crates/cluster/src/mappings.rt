//! Pages of a process are mapped, or get other permissions.

ghost use Rattle.std.specs.List.{AllByRecursion};
ghost use Rattle.std.specs.Prelude.{◌≡◌, ◌<◌, Err, IfErr, IfOk, None, OnErr, OnOk, Some, true};
ghost use Rattle.area_list.specs.Runs.{IsCanonical};
ghost use Rattle.lego_base.specs.declared.ids.MemId.{MemId};
ghost use Rattle.lego_msg.specs.Places.{is_issuer};
ghost use Rattle.lego_msg.specs.Plain.{Plain};
ghost use Rattle.lego_msg.specs.Track.{memory_count};
ghost use Rattle.cluster.specs.Mapping.{Covers, IsPlaced, MayTell, maps_of, new_of, table_with, tells_of, with_all_areas_of, with_homes};

use crate::Cluster;
use crate::changes::home_of;
use crate::runs::regions_of;
use area_list::Areas;
use lego_base::{Area, Halt, HomeEntry, NoMemory, Pid, Seq};
use lego_msg::{Place, Watch};
use std::alloc::Global;

impl Cluster {
    ghost use Rattle.cluster.specs.Sequences.{CallsEach, MayAskEach, served_each};
    ghost use Rattle.cluster.specs.Standing.{IsAtRestWith, StandsFor};
    ghost use Rattle.cluster.specs.Whole.{Whole};

    /// The areas of a process become these, which cover all pages that are mapped now. Regions that get their first page get an
    /// owner, by turns and in rising order.
    pub fn set_areas<W: Watch>(
        &mut self,
        by: Place,
        pid: Pid,
        want: &Areas,
        watch: &mut W,
    ) -> Result<(), Halt>
        requires issuer { is_issuer by ≡ true }
        requires placed { self.old.halt ≡ None → AllByRecursion (λ (m : MemId). m.0 < memory_count self.old.shape) self.old.table.placement }
        requires rests { self.old.halt ≡ None → IsAtRestWith self.old (Covers pid want.now) }
        ensures call { (f : Plain) → StandsFor self.old f → let asks = maps_of f self.old.table pid want.now in
            CallsEach (table_with self.old.table pid want.now) W.told W.faults watch.old watch.new self.old self.new by asks (λ done. served_each by asks) result }
        ensures stands { OnOk result ((f : Plain) → StandsFor self.old f → Covers pid want.now f →
            StandsFor self.new (with_all_areas_of pid want.now (with_homes (new_of self.old.table pid want.now) f))) }
        ensures table { OnOk result (self.new.table ≡ table_with self.old.table pid want.now) }
        ensures kept { (h : Halt) → self.old.halt ≡ Some h → (result ≡ Err h) × (self.new.halt ≡ Some h) × (watch.new ≡ watch.old) }
        ensures keeps { IfErr result (λ h. self.new.halt ≡ Some h) }
        ensures goes { OnOk result ((self.old.halt ≡ None) × (self.new.halt ≡ None)) }
    {
        match self.areas(by, pid, watch) {
            Err(halt) => return Err(halt),
            Ok(old) => match self.place(by, pid, old.as_slice(), want.runs(), watch) {
                Err(halt) => return Err(halt),
                Ok(()) => return Ok(()),
            },
        }
    }

    // Owners for regions that have none, and what follows.
    fn place<W: Watch>(
        &mut self,
        by: Place,
        pid: Pid,
        old: &[Area],
        want: &[Area],
        watch: &mut W,
    ) -> Result<(), Halt>
        requires none { self.old.halt ≡ None }
        requires canonical { IsCanonical want.now }
        requires may { MayAskEach self.old by (tells_of self.old.table old.now pid want.now) }
        ensures { let asks = tells_of self.old.table old.now pid want.now in
            CallsEach (table_with self.old.table pid want.now) W.told W.faults watch.old watch.new self.old self.new by asks (λ done. served_each by asks) result }
    {
        let alloc = self.alloc();
        match self.assign(alloc, pid, want) {
            Err(_) => {
                self.out_of_memory();
                return Err(Halt::NoMemory);
            }
            Ok(new) => match self.tell(by, pid, new.as_slice(), old, want, watch) {
                Err(halt) => return Err(halt),
                Ok(()) => return Ok(()),
            },
        }
    }

    // The homes learn the new owners, which are in the table already, and the lists that change are set.
    fn tell<W: Watch>(
        &mut self,
        by: Place,
        pid: Pid,
        new: &[HomeEntry],
        old: &[Area],
        want: &[Area],
        watch: &mut W,
    ) -> Result<(), Halt>
        requires none { self.old.halt ≡ None }
        requires canonical { IsCanonical want.now }
        requires may { MayTell self.old by pid new.now old.now want.now }
        ensures { (c : Whole) → IsPlaced c self.old pid want.now new.now → MayAskEach c by (tells_of c.table old.now pid want.now) → let asks = tells_of c.table old.now pid want.now in
            CallsEach self.old.table W.told W.faults watch.old watch.new c self.new by asks (λ done. served_each by asks) result }
    {
        let alloc = self.alloc();
        match self.changes(alloc, pid, new, old, want) {
            Err(_) => {
                self.out_of_memory();
                return Err(Halt::NoMemory);
            }
            Ok(rest) => {
                if new.is_empty() {
                    match self.ask_all(by, rest, watch) {
                        Err(halt) => return Err(halt),
                        Ok(_) => return Ok(()),
                    }
                }
                match self.bring_all(by, home_of(new[0]), rest, watch) {
                    Err(halt) => return Err(halt),
                    Ok(()) => return Ok(()),
                }
            }
        }
    }

    // Gives those of a mapping's regions that have no owner theirs.
    fn assign(&mut self, alloc: Global, pid: Pid, want: &[Area]) -> Result<Seq<HomeEntry>, NoMemory>
        requires { IsCanonical want.now }
        ensures ok { OnOk result (self.new ≡ record self.old { table = table_with self.old.table pid want.now }) }
        ensures new { IfOk result (λ new. new ≡ new_of self.old.table pid want.now) }
        ensures err { OnErr result (self.new ≡ self.old) }
    {
        match regions_of(alloc, want) {
            Err(_) => return Err(NoMemory),
            Ok(regions) => match self.place_unowned(pid, regions.as_slice()) {
                Err(_) => return Err(NoMemory),
                Ok(new) => return Ok(new),
            },
        }
    }
}

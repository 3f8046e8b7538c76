//! The cluster as its users hold it.

ghost use Rattle.std.specs.Prelude.{◌≡◌, ◌<◌, ◌≤◌, [], Bool, IfErr, IfOk, List, None, OnErr, OnOk, Some, false, length, true};
ghost use Rattle.lego_base.specs.Keys.{is_of, those};
ghost use Rattle.lego_msg.specs.Maps.{home_key, owner_of};
ghost use Rattle.lego_msg.specs.Marks.{Mark};
ghost use Rattle.lego_msg.specs.declared.event.Event.TheVariants.{Turn};
ghost use Rattle.lego_msg.specs.Files.{no_files};
ghost use Rattle.lego_msg.specs.Plain.{no_plain};
ghost use Rattle.lego_msg.specs.Track.{is_calm, memory_count, start};
ghost use Rattle.lego_rest.specs.Fits.{MachineFits};
ghost use Rattle.placement.specs.Owners.{entries_of, inherited, mapped, no_owners, placed_all};
ghost use Rattle.cluster.specs.Whole.{or_out_of_memory, track_at};
ghost use Rattle.protocol_engine.specs.Beyond.{Beyond, beginning};

use lego_base::{Halt, HomeEntry, MemId, NoMemory, Pid, RegionNo, Seq, Shape};
use lego_msg::{Operation, Place, Watch};
use protocol_engine::{Engine, Running, boot};
use std::alloc::Global;
use std::marker::Model;

/// Memories, storage and the network between them, with the manager's table of owners.
#[derive(Drop)]
pub struct Cluster {
    pub(crate) engine: Engine,
    pub(crate) halt: Option<Halt>, // once a call halted, each further one gives that halt
}

impl Model for Cluster {
    ghost use Rattle.cluster.specs.Whole.{Whole};

    ghost Value = { Whole };

    ghost use Rattle.cluster.specs.InOrder.{InOrder, whole_of};

    ghost view = { λ c. whole_of c.engine c.halt };

    ghost invariant = { λ c. InOrder c.engine c.halt };
}

impl Cluster {
    ghost use Rattle.protocol_engine.specs.Later.{called_by};
    ghost use Rattle.cluster.specs.Performing.{PerformHalts, Performs, TurnBegins, TurnEndHalts, TurnEnds, TurnHalts, WasPerformed};
    ghost use Rattle.lego_msg.specs.Plain.{Plain};
    ghost use Rattle.cluster.specs.Standing.{IsAtRest, StandsFor};
    ghost use Rattle.cluster.specs.Whole.{SameTurns, SoundCall, is_left_at};

    /// A cluster of a machine of this shape, before its first event.
    pub fn boot(alloc: Global, shape: &Shape) -> Result<Cluster, NoMemory>
        requires few { memory_count shape.now ≤ 8 }
        requires placement { 0 < length shape.now.placement }
        ensures start { IfOk result (λ c. (due : List Mark) → track_at c (beginning shape.now.blocks due) ≡ start shape.now due) }
        ensures stands { IfOk result (λ c. MachineFits shape.now → StandsFor c (no_plain (no_files shape.now.blocks))) }
        ensures table { IfOk result (λ c. c.table ≡ no_owners (memory_count shape.now) shape.now.placement) }
        ensures goes { IfOk result (λ c. c.halt ≡ None) }
    {
        let engine = boot(alloc, shape)?;
        Ok(Cluster { engine, halt: None })
    }

    /// The halt that is kept: each further call that can halt gives it.
    pub fn halted(&self) -> Option<Halt>
        ensures { result ≡ self.now.halt }
    {
        self.halt
    }

    /// Between calls no crash is due, and nothing comes first: what is the next of the marks may come.
    pub fn is_calm(&self)
        ensures { self.now.halt ≡ None → (g : Beyond) → is_calm (track_at self.now g) ≡ true }
    {
        let _halt = self.halt;
    }

    /// How many processors the machine has.
    pub fn processors(&self) -> u32
        ensures { result ≡ self.now.shape.processors }
    {
        self.engine.shape.processors
    }

    // Where memory comes from.
    pub(crate) fn alloc(&self) -> Global {
        self.engine.alloc
    }

    // How many memories there are.
    pub(crate) fn memories(&self) -> u32
        ensures { self.now.halt ≡ None → result ≡ memory_count self.now.shape }
    {
        self.engine.table.memories()
    }

    // The owners of a process's regions, in rising order.
    pub(crate) fn entries(&self, alloc: Global, pid: Pid) -> Result<Seq<HomeEntry>, NoMemory>
        ensures { IfOk result (λ entries. entries ≡ those home_key (is_of pid.0) self.now.table.owners) }
    {
        self.engine.table.of_process(alloc, pid)
    }

    // The owner of a region, by the table.
    pub(crate) fn owner(&self, pid: Pid, region: RegionNo) -> Option<MemId>
        ensures { result ≡ owner_of self.now.table.owners pid.0 region.0 }
    {
        self.engine.table.owner(pid, region)
    }

    // Gives those of these regions of a process that have no owner theirs, by turns and in their order.
    pub(crate) fn place_unowned(
        &mut self,
        pid: Pid,
        regions: &[RegionNo],
    ) -> Result<Seq<HomeEntry>, NoMemory>
        ensures ok { OnOk result (self.new ≡ record self.old { table = placed_all (mapped pid regions.now self.old.table.owners) self.old.table }) }
        ensures new { IfOk result (λ new. new ≡ entries_of self.old.table.placement self.old.table.given (mapped pid regions.now self.old.table.owners)) }
        ensures err { OnErr result (self.new ≡ self.old) }
    {
        match self.engine.table.assign_unowned(pid, regions) {
            Err(_) => return Err(NoMemory),
            Ok(new) => return Ok(new),
        }
    }

    // Gives a child's regions the owners that its parent's have.
    pub(crate) fn inherit(&mut self, parent: Pid, child: Pid) -> Result<(), NoMemory>
        ensures ok { OnOk result (self.new ≡ record self.old { table = inherited parent child self.old.table }) }
        ensures err { OnErr result (self.new ≡ self.old) }
    {
        match self.engine.table.inherit(parent, child) {
            Err(_) => return Err(NoMemory),
            Ok(()) => return Ok(()),
        }
    }

    /// Keeps that memory ran out, where no halt is kept.
    pub fn out_of_memory(&mut self)
        ensures { self.new ≡ record self.old { halt = or_out_of_memory self.old.halt } }
    {
        if self.halt.is_none() {
            self.halt = Some(Halt::NoMemory);
        }
    }

    /// Begins a turn. A crash directly after its beginning is healed.
    pub fn begin_turn<W: Watch>(&mut self, number: u64, pid: Pid, watch: &mut W) -> Result<(), Halt>
        requires left { self.old.halt ≡ None → is_left_at self.old ≡ false }
        requires rests { self.old.halt ≡ None → IsAtRest self.old }
        ensures went { OnOk result (TurnBegins W.told W.faults watch.old watch.new self.old self.new (Turn number pid)) }
        ensures stands { OnOk result ((f : Plain) → StandsFor self.old f → StandsFor self.new f) }
        ensures shape { OnOk result (self.new.shape ≡ self.old.shape) }
        ensures table { OnOk result (self.new.table ≡ self.old.table) }
        ensures halted { IfErr result (TurnHalts W.told W.faults watch.old watch.new self.old (Turn number pid)) }
        ensures kept { (h : Halt) → self.old.halt ≡ Some h → (result ≡ Err h) × (self.new.halt ≡ Some h) × (watch.new ≡ watch.old) }
        ensures keeps { IfErr result (λ h. self.new.halt ≡ Some h) }
        ensures goes { OnOk result ((self.old.halt ≡ None) × (self.new.halt ≡ None)) }
    {
        match self.halt {
            Some(halt) => return Err(halt),
            None => {}
        }
        match self.engine.begin_turn(number, pid, watch) {
            Err(halt) => {
                self.halt = Some(halt);
                return Err(halt);
            }
            Ok(()) => return Ok(()),
        }
    }

    /// Ends a turn: a crash that is left of it comes now, and is healed.
    pub fn end_turn<W: Watch>(&mut self, watch: &mut W) -> Result<(), Halt>
        requires rests { self.old.halt ≡ None → IsAtRest self.old }
        ensures went { OnOk result (TurnEnds W.told W.faults watch.old watch.new self.old self.new) }
        ensures stands { OnOk result ((f : Plain) → StandsFor self.old f → StandsFor self.new f) }
        ensures shape { OnOk result (self.new.shape ≡ self.old.shape) }
        ensures table { OnOk result (self.new.table ≡ self.old.table) }
        ensures halted { IfErr result (TurnEndHalts W.told W.faults watch.old watch.new self.old) }
        ensures over { OnOk result (is_left_at self.new ≡ false) }
        ensures kept { (h : Halt) → self.old.halt ≡ Some h → (result ≡ Err h) × (self.new.halt ≡ Some h) × (watch.new ≡ watch.old) }
        ensures keeps { IfErr result (λ h. self.new.halt ≡ Some h) }
        ensures goes { OnOk result ((self.old.halt ≡ None) × (self.new.halt ≡ None)) }
    {
        match self.halt {
            Some(halt) => return Err(halt),
            None => {}
        }
        match self.engine.end_turn(watch) {
            Err(halt) => {
                self.halt = Some(halt);
                return Err(halt);
            }
            Ok(()) => return Ok(()),
        }
    }

    // One operation, from its first message to its completion and the end of any healing.
    pub(crate) fn perform<W: Watch>(
        &mut self,
        by: Place,
        operation: Operation,
        watch: &mut W,
    ) -> Result<Running, Halt>
        requires sound { self.old.halt ≡ None → SoundCall self.old by operation }
        ensures went { IfOk result (Performs W.told W.faults watch.old watch.new self.old self.new by operation) }
        ensures halted { IfErr result (PerformHalts W.told W.faults watch.old watch.new self.old by operation) }
        ensures was { IfOk result (λ o. called_by (Some o) ≡ Some (record { number = record { 0 = self.old.next }; by = by; operation = operation })) }
        ensures opened { IfOk result (WasPerformed self.old by operation) }
        ensures turns { OnOk result (SameTurns self.old.table self.new.table) }
        ensures kept { (h : Halt) → self.old.halt ≡ Some h → (result ≡ Err h) × (self.new.halt ≡ Some h) × (watch.new ≡ watch.old) }
        ensures keeps { IfErr result (λ h. self.new.halt ≡ Some h) }
        ensures goes { OnOk result ((self.old.halt ≡ None) × (self.new.halt ≡ None)) }
    {
        match self.halt {
            Some(halt) => return Err(halt),
            None => {}
        }
        match self.engine.operate(by, operation, watch) {
            Err(halt) => {
                self.halt = Some(halt);
                return Err(halt);
            }
            Ok(running) => return Ok(running),
        }
    }
}

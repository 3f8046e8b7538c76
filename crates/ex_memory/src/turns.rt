//! Turns begin and end.

ghost use Rattle.std.specs.Prelude.{◌≡◌, ◌==◌, if◌then◌else◌, [], ◌∷◌, IfErr, List, None, OnOk, Some, false, true};
ghost use Rattle.lego_msg.specs.Marks.{Mark, is_turn_end};
ghost use Rattle.lego_msg.specs.Went.{Halted, Went};
ghost use Rattle.lego_msg.specs.declared.place.Place.TheVariants.{Manager, Processor};
ghost use Rattle.linux_model.specs.Effects.{Begins};
ghost use Rattle.cluster.specs.Whole.{is_left_at};
ghost use Rattle.ex_memory.specs.Seen.{cpu_of, held_of, world};
ghost use Rattle.ex_memory.specs.Turns.{TurnEnds};

use crate::ExMemory;
use lego_base::{CpuId, Halt, Pid};
use lego_msg::{Place, Watch};
use placement::processor_of;

impl ExMemory {
    ghost use Rattle.ex_memory.specs.Did.{Does};

    /// Begins a turn of a process, whose processor issues operations then. In turn 0, which is of no process, the manager does.
    pub fn begin_turn<W: Watch>(&mut self, number: u64, pid: Pid, watch: &mut W) -> Result<(), Halt>
        requires left { self.old.whole.halt ≡ None → is_left_at self.old.whole ≡ false }
        ensures does { Does W.told W.faults watch.old watch.new self.old self.new (Begins number pid.0 ∷ []) result }
    {
        match self.cluster.begin_turn(number, pid, watch) {
            Err(halt) => return Err(halt),
            Ok(()) => {
                self.by = issuer(number, self.processor(pid));
                return Ok(());
            }
        }
    }

    /// Ends a turn: a crash that is left of it comes now, and is healed.
    pub fn end_turn<W: Watch>(&mut self, watch: &mut W) -> Result<(), Halt>
        ensures ends { TurnEnds W.told W.faults watch.old watch.new self.old self.new result }
        ensures over { OnOk result (is_left_at self.new.whole ≡ false) }
    {
        match self.cluster.end_turn(watch) {
            Err(halt) => return Err(halt),
            Ok(()) => return Ok(()),
        }
    }

    /// The processor of a process.
    pub fn processor(&self, pid: Pid) -> CpuId
        ensures { self.now.whole.halt ≡ None → result.0 ≡ cpu_of self.now pid.0 }
    {
        let processors = self.cluster.processors();
        if pid.0 == 0 || processors == 0 {
            return CpuId(0);
        }
        processor_of(pid, processors)
    }
}

// Who issues operations in a turn.
fn issuer(number: u64, cpu: CpuId) -> Place
    ensures { result ≡ if number == 0 then Manager else Processor cpu }
{
    if number == 0 {
        Place::Manager
    } else {
        Place::Processor(cpu)
    }
}

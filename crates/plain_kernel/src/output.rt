//! Writing what was put out.

ghost use Rattle.std.specs.Prelude.{◌≡◌, IfErr};
ghost use Rattle.linux_model.specs.State.{Written};
ghost use Rattle.plain_machine.specs.Plain.{held_of};
ghost use Rattle.plain_kernel.specs.Outcomes.{told, faults, Later, Cause};
ghost use Rattle.plain_kernel.specs.Turns.{CanTurn, schedule_of};
ghost use Rattle.plain_kernel.specs.Written.{IsEmpty, TurnWent, WroteOut};

use crate::kernel::{PlainKernel, RunStop};
use desc_read::Plan;
use host_io::{Sink, write_all};
use lego_base::Pid;
use std::alloc::Global;

impl PlainKernel {
    /// A turn of a process that lives, and then what it put out goes to standard output and to standard error.
    pub fn turn_and_write<O: Sink, E: Sink>(
        &mut self,
        alloc: Global,
        plan: &Plan,
        pid: Pid,
        out: &mut O,
        err: &mut E,
    ) -> Result<(), RunStop>
        requires can { CanTurn (schedule_of plan.now) pid.0 self.old.manager (held_of self.old.machine) }
        requires empty { IsEmpty self.old.machine.output }
        ensures later { Later (faults (O.state out.old) (E.state err.old)) (faults (O.state out.new) (E.state err.new)) }
        ensures cause { IfErr result (Cause (faults (O.state out.old) (E.state err.old)) (faults (O.state out.new) (E.state err.new))) }
        ensures went { let before = told (O.state out.old) (E.state err.old) in
            let after = told (O.state out.new) (E.state err.new) in
            (written : Written) → TurnWent (schedule_of plan.now) pid.0 before after self.old self.new written result }
    {
        self.turn(alloc, plan, pid)?;
        self.write_out(out, err)
    }

    // Writes what was put out, on standard output first, and forgets it.
    fn write_out<O: Sink, E: Sink>(&mut self, out: &mut O, err: &mut E) -> Result<(), RunStop>
        ensures later { Later (faults (O.state out.old) (E.state err.old)) (faults (O.state out.new) (E.state err.new)) }
        ensures cause { IfErr result (Cause (faults (O.state out.old) (E.state err.old)) (faults (O.state out.new) (E.state err.new))) }
        ensures wrote { let before = told (O.state out.old) (E.state err.old) in
            let after = told (O.state out.new) (E.state err.new) in
            WroteOut before after self.old.machine.output self.new.machine.output result }
        ensures manager { self.new.manager ≡ self.old.manager }
        ensures held { held_of self.new.machine ≡ held_of self.old.machine }
    {
        if self.machine.output().is_lost() {
            return Err(RunStop::NoMemory);
        }
        match write_all(out, self.machine.output().out()) {
            Ok(()) => {}
            Err(_) => return Err(RunStop::OutFault),
        }
        match write_all(err, self.machine.output().err()) {
            Ok(()) => {}
            Err(_) => return Err(RunStop::ErrFault),
        }
        self.machine.output_mut().clear();
        Ok(())
    }
}

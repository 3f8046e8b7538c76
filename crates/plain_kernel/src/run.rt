//! The run: turn after turn, to its end.

ghost use Rattle.std.specs.Prelude.{◌≡◌, ◌<◌, ◌≤◌, false, length, IfErr};
ghost use Rattle.linux_model.specs.Boot.{boot_of};
ghost use Rattle.linux_model.specs.State.{nothing};
ghost use Rattle.plain_kernel.specs.Booted.{CanRun};
ghost use Rattle.plain_kernel.specs.Making.{CanMake};
ghost use Rattle.plain_kernel.specs.Outcomes.{told, faults, Later, Cause};
ghost use Rattle.plain_kernel.specs.Runs.{PlainRan, Run};
ghost use Rattle.plain_kernel.specs.Standing.{kernel_in};
ghost use Rattle.plain_kernel.specs.Turns.{schedule_of};
ghost use Rattle.plain_kernel.specs.Written.{IsEmpty};
ghost use Rattle.space_rules.specs.Start.{is_too_big};

use crate::kernel::{Next, PlainKernel, RunStop};
use crate::left::PlainEnd;
use desc_read::Plan;
use elf_image::Image;
use host_io::Sink;
use lego_base::{Bytes, Ended, FileOut};
use std::alloc::Global;

/// Runs an image as a description asks: with its arguments, environment, turns, quantum and most turns, with these files and
/// this on standard input.
///
/// A fault of a stream stops the run within the turn that wrote; lack of memory may stop it anywhere.
pub fn plain_run<O: Sink, E: Sink>(
    alloc: Global,
    plan: &Plan,
    image: &Image,
    files: &[FileOut],
    input: Bytes,
    out: &mut O,
    err: &mut E,
) -> Result<PlainEnd, RunStop>
    // A description's arguments and environment are few enough, it has a turn, and not too many.
    requires strings { is_too_big plan.now.args plan.now.env ≡ false }
    requires turns { 0 < length plan.now.turns }
    requires few { plan.now.max_turns ≤ 10000000 }
    requires files { CanMake files.now }

    // The run is the flat run on the kernel that is booted, as far as it goes.
    ensures run { let booted = boot_of image.now plan.now.args plan.now.env files.now input in
        let before = told (O.state out.old) (E.state err.old) in
        let after = told (O.state out.new) (E.state err.new) in
        PlainRan (schedule_of plan.now) booted before after result }

    // A fault of a stream comes only where its sink's count rose.
    ensures later { Later (faults (O.state out.old) (E.state err.old)) (faults (O.state out.new) (E.state err.new)) }
    ensures cause { IfErr result (Cause (faults (O.state out.old) (E.state err.old)) (faults (O.state out.new) (E.state err.new))) }
{
    let mut kernel = PlainKernel::boot(
        alloc,
        image,
        plan.args.as_slice(),
        plan.env.as_slice(),
        files,
        input,
    )?;
    kernel.run_to_its_end(alloc, plan, out, err)
}

impl PlainKernel {
    // Runs turns until no process lives, none is ready, or all turns are over, and gives what is left then.
    fn run_to_its_end<O: Sink, E: Sink>(
        &mut self,
        alloc: Global,
        plan: &Plan,
        out: &mut O,
        err: &mut E,
    ) -> Result<PlainEnd, RunStop>
        requires can { CanRun (schedule_of plan.now) (kernel_in self.old nothing) }
        requires empty { IsEmpty self.old.machine.output }
        ensures later { Later (faults (O.state out.old) (E.state err.old)) (faults (O.state out.new) (E.state err.new)) }
        ensures cause { IfErr result (Cause (faults (O.state out.old) (E.state err.old)) (faults (O.state out.new) (E.state err.new))) }
        ensures run { let before = told (O.state out.old) (E.state err.old) in
            let after = told (O.state out.new) (E.state err.new) in
            PlainRan (schedule_of plan.now) (kernel_in self.old nothing) before after result }
    {
        let ended = self.run(alloc, plan, out, err)?;
        let end = self.end(alloc, ended)?;
        Ok(end)
    }

    // The turns, and how they ended.
    fn run<O: Sink, E: Sink>(
        &mut self,
        alloc: Global,
        plan: &Plan,
        out: &mut O,
        err: &mut E,
    ) -> Result<Ended, RunStop>
        requires can { CanRun (schedule_of plan.now) (kernel_in self.old nothing) }
        requires empty { IsEmpty self.old.machine.output }
        ensures later { Later (faults (O.state out.old) (E.state err.old)) (faults (O.state out.new) (E.state err.new)) }
        ensures cause { IfErr result (Cause (faults (O.state out.old) (E.state err.old)) (faults (O.state out.new) (E.state err.new))) }
        ensures run { let before = told (O.state out.old) (E.state err.old) in
            let after = told (O.state out.new) (E.state err.new) in
            Run (schedule_of plan.now) (kernel_in self.old nothing) before after self.new result }
    {
        let mut turns = 0;
        loop {
            match self.next(alloc, plan, turns)? {
                Next::Turn(pid) => self.turn_and_write(alloc, plan, pid, out, err)?,
                Next::End(word) => return Ok(Ended { word, turns }),
            }
            turns += 1;
        }
    }
}

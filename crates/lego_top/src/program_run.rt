//! The run of a program, from its image to its report.

ghost use Rattle.std.specs.Prelude.{◌≡◌, ◌≤◌, All, false, length};
ghost use Rattle.desc_read.specs.Laws.{Bounded};
ghost use Rattle.host_io.specs.Sources.{SourceState};
ghost use Rattle.linux_model.specs.Limits.{NAME_BYTES};
ghost use Rattle.plain_kernel.specs.Making.{CanMake};
ghost use Rattle.plain_kernel.specs.Outcomes.{faults, Later};
ghost use Rattle.lego_top.specs.Outside.{outside};
ghost use Rattle.lego_top.specs.Stages.{RanProgram};
ghost use Rattle.space_rules.specs.Start.{is_too_big};

use crate::leaving::{LeaveFault, leave};
use desc_read::Plan;
use elf_image::{ImageFault, read_image};
use host_io::{Depot, Sink};
use lego_base::{Bytes, EndWord, FileOut};
use plain_kernel::{RunStop, plain_run};
use std::alloc::Global;

/// Why a program's run didn't come to its end, or left no report and archive.
#[derive(Clone, Copy, Debug, PartialEq, Eq)]
pub enum RunFault {
    /// The file isn't an image.
    Image(ImageFault),
    /// Standard output failed.
    Out,
    /// Standard error failed.
    Err,
    /// The depot failed.
    Depot,
    /// Memory ran out.
    NoMemory,
}

impl From<RunStop> for RunFault {
    ghost use Rattle.lego_top.specs.Endings.{of_stop};

    ghost from_gives = { λ stop fault. fault ≡ of_stop stop };

    fn from(stop: RunStop) -> RunFault {
        match stop {
            RunStop::OutFault => RunFault::Out,
            RunStop::ErrFault => RunFault::Err,
            RunStop::NoMemory => RunFault::NoMemory,
        }
    }
}

impl From<LeaveFault> for RunFault {
    ghost use Rattle.lego_top.specs.Endings.{of_leave};

    ghost from_gives = { λ leave fault. fault ≡ of_leave leave };

    fn from(fault: LeaveFault) -> RunFault {
        match fault {
            LeaveFault::Depot => RunFault::Depot,
            LeaveFault::NoMemory => RunFault::NoMemory,
        }
    }
}

/// Runs the program in these bytes as a plan asks, with these files, and leaves the report and the archive.
pub fn run_program<O: Sink, E: Sink, D: Depot>(
    alloc: Global,
    plan: &Plan,
    program: &[u8],
    files: &[FileOut],
    input: Bytes,
    out: &mut O,
    err: &mut E,
    depot: &mut D,
) -> Result<EndWord, RunFault>
    requires fits { is_too_big plan.now.args plan.now.env ≡ false }
    requires bounded { Bounded plan.now }
    requires files { CanMake files.now }
    requires names { All (λ file. length file.name ≤ NAME_BYTES) files.now }
    ensures later { Later (faults (O.state out.old) (E.state err.old)) (faults (O.state out.new) (E.state err.new)) }
    ensures depot_later { (D.state depot.old).faults ≤ (D.state depot.new).faults }
    ensures ran { (rest : SourceState) → let before = outside rest (O.state out.old) (E.state err.old) (D.state depot.old) in
        let after = outside rest (O.state out.new) (E.state err.new) (D.state depot.new) in
        RanProgram plan.now program.now files.now input before after result }
{
    let image = match read_image(alloc, program) {
        Ok(image) => image,
        Err(ImageFault::NoMemory) => return Err(RunFault::NoMemory),
        Err(fault) => return Err(RunFault::Image(fault)),
    };
    let end = plain_run(alloc, plan, &image, files, input, out, err)?;
    leave(alloc, plan, &end, depot)?;
    Ok(end.ended.word)
}

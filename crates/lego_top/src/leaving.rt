//! What a run leaves in the depot.

ghost use Rattle.std.specs.Prelude.{◌≡◌, ◌≤◌};
ghost use Rattle.kernel_laws.specs.Laws.{CanBeArchived};
ghost use Rattle.lego_top.specs.Stages.{Left};

use desc_read::Plan;
use host_io::{Depot, Failed};
use lego_base::NoMemory;
use plain_kernel::PlainEnd;
use report_text::{archive, report};
use std::alloc::Global;

/// Why the report and the archive weren't both put.
#[derive(Clone, Copy, Debug, PartialEq, Eq)]
pub enum LeaveFault {
    /// The depot failed.
    Depot,
    /// Memory ran out.
    NoMemory,
}

impl From<Failed> for LeaveFault {
    ghost use Rattle.lego_top.specs.declared.leaving.LeaveFault.TheVariants.{Depot as DepotFailed};

    ghost from_gives = { λ _ fault. fault ≡ DepotFailed };

    fn from(_error: Failed) -> LeaveFault {
        LeaveFault::Depot
    }
}

impl From<NoMemory> for LeaveFault {
    ghost use Rattle.lego_top.specs.declared.leaving.LeaveFault.TheVariants.{NoMemory as OutOfMemory};

    ghost from_gives = { λ _ fault. fault ≡ OutOfMemory };

    fn from(_error: NoMemory) -> LeaveFault {
        LeaveFault::NoMemory
    }
}

/// Puts the report of a run and then the archive of its files, once both texts are made.
pub fn leave<D: Depot>(
    alloc: Global,
    plan: &Plan,
    end: &PlainEnd,
    depot: &mut D,
) -> Result<(), LeaveFault>
    requires { CanBeArchived end.now.files }
    ensures later { (D.state depot.old).faults ≤ (D.state depot.new).faults }
    ensures left { Left plan.now end.now (D.state depot.old) (D.state depot.new) result }
{
    let report = report(alloc, &end.ended, end.exits.as_slice(), &[])?;
    let archive = archive(alloc, end.files.as_slice())?;
    depot.put(plan.report.as_str(), report.as_slice())?;
    depot.put(plan.archive.as_str(), archive.as_slice())?;
    Ok(())
}

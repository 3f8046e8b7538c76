//! Areas of processes: each region's owner is asked for those in it.

ghost use Rattle.std.specs.Prelude.{◌≡◌, ◌+◌, ◌<◌, ◌≤◌, [], ◌∷◌, IfOk, length, true};
ghost use Rattle.area_list.proofs.Canonical.{IsWithin};
ghost use Rattle.area_list.specs.Runs.{joined};
ghost use Rattle.area_list.specs.declared.TheConstants.{MOST_RUNS};
ghost use Rattle.lego_base.specs.declared.sizes.TheConstants.{PAGES_END, USER_END};
ghost use Rattle.linux_model.specs.Effects.{AsksSpace};
ghost use Rattle.ex_memory.specs.Seen.{held_of};

use crate::ExMemory;
use area_list::Areas;
use lego_base::{Area, Halt, NoMemory, Pid};
use lego_msg::Watch;
use std::alloc::Global;

impl ExMemory {
    ghost use Rattle.ex_memory.specs.Did.{Does};

    /// The areas of a process. The owner of each of its regions is asked.
    pub fn areas<W: Watch>(&mut self, pid: Pid, watch: &mut W) -> Result<Areas, Halt>
        ensures does { Does W.told W.faults watch.old watch.new self.old self.new (AsksSpace pid.0 ∷ []) result }
        ensures answer { IfOk result (λ areas. areas ≡ ((held_of self.old).space pid.0).areas) }
    {
        match self.cluster.areas(self.by, pid, watch) {
            Err(halt) => return Err(halt),
            Ok(runs) => match joined(self.alloc, runs.as_slice()) {
                Err(_) => {
                    self.cluster.out_of_memory();
                    return Err(Halt::NoMemory);
                }
                Ok(areas) => return Ok(areas),
            },
        }
    }
}

// Runs of areas that rise, with those that go on after another joined to it.
fn joined(alloc: Global, runs: &[Area]) -> Result<Areas, NoMemory>
    requires rise { IsWithin 0 PAGES_END runs.now }
    requires few { length (joined [] runs.now) ≤ MOST_RUNS }
    ensures { IfOk result (λ areas. areas ≡ joined [] runs.now) }
{
    let mut areas = Areas::new(alloc)?;
    for run in runs {
        match areas.put(run.first, run.pages, run.perms) {
            Err(_) => unreachable!(),
            Ok(()) => {}
        }
    }
    Ok(areas)
}

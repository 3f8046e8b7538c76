//! The plan of a description in the depot.

ghost use Rattle.std.specs.Prelude.{◌≡◌, ◌≤◌};
ghost use Rattle.lego_top.specs.Outside.{Outside, with_depot};
ghost use Rattle.lego_top.specs.Stages.{Described};

use crate::depot_file::fetch;
use crate::ending::Ending;
use desc_read::{Plan, read_plan};
use host_io::Depot;
use std::alloc::Global;

/// The plan of the description that the depot has under a name.
pub fn described<D: Depot>(alloc: Global, depot: &mut D, name: &str) -> Result<Plan, Ending>
    ensures later { (D.state depot.old).faults ≤ (D.state depot.new).faults }
    ensures same { (D.state depot.new).files ≡ (D.state depot.old).files }
    ensures described { (world : Outside) → let before = with_depot world (D.state depot.old) in
        let after = with_depot world (D.state depot.new) in
        Described name.now before after result }
{
    let bytes = fetch(alloc, depot, name)?;
    let plan = read_plan(alloc, bytes.as_slice())?;
    Ok(plan)
}

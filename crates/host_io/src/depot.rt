//! Named files.

ghost use Rattle.std.specs.Prelude.{◌≡◌, ◌≤◌};
ghost use Rattle.lego_base.specs.Counts.{HasCause};
ghost use Rattle.host_io.specs.Depots.{Put};

use crate::failed::Failed;
use lego_base::Bytes;
use std::alloc::Global;

/// What a depot has under a name.
#[derive(Debug, Drop)]
pub enum Got {
    /// These bytes.
    Found(Bytes),
    /// No entry.
    Missing,
    /// The depot failed.
    Failed,
    /// Memory for the bytes ran out.
    NoMemory,
}

/// Named files, as a host's folder.
pub trait Depot {
    ghost use Rattle.host_io.specs.Depots.{DepotState};
    ghost use Rattle.host_io.specs.Looked.{Looked};

    // What the depot tells.
    ghost state: { Self → DepotState };

    /// The bytes under the name.
    fn get(&mut self, alloc: Global, name: &str) -> Got
        ensures later { (state self.old).faults ≤ (state self.new).faults }
        ensures same { (state self.new).files ≡ (state self.old).files }
        ensures looked { Looked (state self.old) (state self.new) name.now result };

    /// Puts these bytes under the name. If the depot fails, this entry alone may have changed.
    fn put(&mut self, name: &str, bytes: &[u8]) -> Result<(), Failed>
        ensures cause { HasCause (state self.old).faults (state self.new).faults result }
        ensures put { Put (state self.old).files (state self.new).files name.now bytes.now result };
}

//! Why nothing was made.

ghost use Rattle.std.specs.Prelude.{◌≡◌};

use lego_base::NoMemory;
use proc_table::TooMany;

/// Why there is no new process. Nothing was changed.
#[derive(Clone, Copy, Debug, PartialEq, Eq)]
pub enum SpawnFault {
    /// There are 64 processes, zombies counted.
    TooMany,
    /// Memory of the host ran out.
    NoMemory,
}

impl From<NoMemory> for SpawnFault {
    ghost use Rattle.manager.specs.declared.fault.SpawnFault.TheVariants.{NoMemory as OutOfMemory};

    ghost from_gives = { λ _ fault. fault ≡ OutOfMemory };

    fn from(_error: NoMemory) -> SpawnFault {
        SpawnFault::NoMemory
    }
}

impl From<TooMany> for SpawnFault {
    ghost use Rattle.manager.specs.declared.fault.SpawnFault.TheVariants.{TooMany as Full};

    ghost from_gives = { λ _ fault. fault ≡ Full };

    fn from(_error: TooMany) -> SpawnFault {
        SpawnFault::TooMany
    }
}

/// Why no descriptor was opened. Nothing was changed.
#[derive(Clone, Copy, Debug, PartialEq, Eq)]
pub enum FdFault {
    /// EMFILE: the process has too few free descriptors.
    Emfile,
    /// ENFILE: too few descriptions are left.
    Enfile,
    /// Memory of the host ran out.
    NoMemory,
}

impl From<NoMemory> for FdFault {
    ghost use Rattle.manager.specs.declared.fault.FdFault.TheVariants.{NoMemory as OutOfMemory};

    ghost from_gives = { λ _ fault. fault ≡ OutOfMemory };

    fn from(_error: NoMemory) -> FdFault {
        FdFault::NoMemory
    }
}

//! Why a call didn't go on, and how `?` hands on that memory ran out.

ghost use Rattle.std.specs.Prelude.{◌≡◌};

use crate::ids::MemId;
use std::alloc::{AllocError, AllocFailed};

/// Memory of the host ran out.
#[derive(Clone, Copy, Debug, PartialEq, Eq)]
pub struct NoMemory;

impl From<AllocError> for NoMemory {
    fn from(_error: AllocError) -> NoMemory {
        NoMemory
    }
}

impl<T: Drop> From<AllocFailed<T>> for NoMemory {
    fn from(_error: AllocFailed<T>) -> NoMemory {
        NoMemory
    }
}

/// Why the machine halts.
#[derive(Clone, Copy, Debug, PartialEq, Eq)]
pub enum Halt {
    /// A memory component would hold more pages than it has frames.
    Full { memory: MemId, frames: u32 },
    /// The files would need more blocks than storage has.
    StoreFull { blocks: u32 },
    /// Memory of the host ran out.
    NoMemory,
}

impl From<NoMemory> for Halt {
    ghost use Rattle.lego_base.specs.declared.stops.Halt.TheVariants.{NoMemory as OutOfMemory};

    ghost from_gives = { λ _ halt. halt ≡ OutOfMemory };

    fn from(_error: NoMemory) -> Halt {
        Halt::NoMemory
    }
}

impl From<AllocError> for Halt {
    ghost use Rattle.lego_base.specs.declared.stops.Halt.TheVariants.{NoMemory as OutOfMemory};

    ghost from_gives = { λ _ halt. halt ≡ OutOfMemory };

    fn from(_error: AllocError) -> Halt {
        Halt::NoMemory
    }
}

/// Why an access to guest memory gave nothing.
#[derive(Clone, Copy, Debug, PartialEq, Eq)]
pub enum MemStop {
    /// A byte of the access isn't permitted; nothing was changed.
    Segv,
    /// The machine halts.
    Halt(Halt),
}

impl From<Halt> for MemStop {
    ghost use Rattle.lego_base.specs.declared.stops.MemStop.TheVariants.{Halt as Halts};

    ghost from_gives = { λ halt stop. stop ≡ Halts halt };

    fn from(halt: Halt) -> MemStop {
        MemStop::Halt(halt)
    }
}

impl From<NoMemory> for MemStop {
    ghost use Rattle.lego_base.specs.declared.stops.Halt.TheVariants.{NoMemory as OutOfMemory};
    ghost use Rattle.lego_base.specs.declared.stops.MemStop.TheVariants.{Halt as Halts};

    ghost from_gives = { λ _ stop. stop ≡ Halts OutOfMemory };

    fn from(_error: NoMemory) -> MemStop {
        MemStop::Halt(Halt::NoMemory)
    }
}

impl From<AllocError> for MemStop {
    ghost use Rattle.lego_base.specs.declared.stops.Halt.TheVariants.{NoMemory as OutOfMemory};
    ghost use Rattle.lego_base.specs.declared.stops.MemStop.TheVariants.{Halt as Halts};

    ghost from_gives = { λ _ stop. stop ≡ Halts OutOfMemory };

    fn from(_error: AllocError) -> MemStop {
        MemStop::Halt(Halt::NoMemory)
    }
}

/// Why a system call, a turn or a run didn't go on.
#[derive(Clone, Copy, Debug, PartialEq, Eq)]
pub enum CallStop {
    /// The machine halts.
    Halt(Halt),
    /// The host's standard output failed.
    OutFault,
    /// The host's standard error failed.
    ErrFault,
    /// The program made a call that isn't built yet.
    Unbuilt,
}

impl From<Halt> for CallStop {
    ghost use Rattle.lego_base.specs.declared.stops.CallStop.TheVariants.{Halt as Halts};

    ghost from_gives = { λ halt stop. stop ≡ Halts halt };

    fn from(halt: Halt) -> CallStop {
        CallStop::Halt(halt)
    }
}

impl From<NoMemory> for CallStop {
    ghost use Rattle.lego_base.specs.declared.stops.Halt.TheVariants.{NoMemory as OutOfMemory};
    ghost use Rattle.lego_base.specs.declared.stops.CallStop.TheVariants.{Halt as Halts};

    ghost from_gives = { λ _ stop. stop ≡ Halts OutOfMemory };

    fn from(_error: NoMemory) -> CallStop {
        CallStop::Halt(Halt::NoMemory)
    }
}

impl From<AllocError> for CallStop {
    ghost use Rattle.lego_base.specs.declared.stops.Halt.TheVariants.{NoMemory as OutOfMemory};
    ghost use Rattle.lego_base.specs.declared.stops.CallStop.TheVariants.{Halt as Halts};

    ghost from_gives = { λ _ stop. stop ≡ Halts OutOfMemory };

    fn from(_error: AllocError) -> CallStop {
        CallStop::Halt(Halt::NoMemory)
    }
}

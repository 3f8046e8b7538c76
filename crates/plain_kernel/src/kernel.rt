//! The kernel.

ghost use Rattle.std.specs.Prelude.{◌≡◌};

use lego_base::{EndWord, NoMemory, Pid};
use manager::Manager;
use plain_machine::PlainMachine;

/// Process 1, the first.
pub const FIRST: Pid = Pid(1);

/// The plain kernel: what is managed, and what a machine holds under it.
#[derive(Drop)]
pub struct PlainKernel {
    pub manager: Manager,
    pub machine: PlainMachine,
}

/// What comes after some turns.
#[derive(Clone, Copy, Debug, PartialEq, Eq)]
pub enum Next {
    /// A turn of this process.
    Turn(Pid),
    /// The end of the run.
    End(EndWord),
}

/// Why a run stopped before its end.
#[derive(Clone, Copy, Debug, PartialEq, Eq)]
pub enum RunStop {
    /// Standard output failed.
    OutFault,
    /// Standard error failed.
    ErrFault,
    /// Memory of the host ran out.
    NoMemory,
}

impl From<NoMemory> for RunStop {
    ghost use Rattle.plain_kernel.specs.declared.kernel.RunStop.TheVariants.{NoMemory as OutOfMemory};

    ghost from_gives = { λ _ stop. stop ≡ OutOfMemory };

    fn from(_error: NoMemory) -> RunStop {
        RunStop::NoMemory
    }
}

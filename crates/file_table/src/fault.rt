//! Why a change of the files was refused.

ghost use Rattle.std.specs.Prelude.{◌≡◌};

use lego_base::NoMemory;

/// Why a change of the files was refused. Nothing was changed.
#[derive(Clone, Copy, Debug, PartialEq, Eq)]
pub enum FileFault {
    /// There are as many files as there may be, those without a name counted.
    NoRoom,
    /// The files would need more blocks than there are.
    StoreFull,
    /// Memory of the host ran out, or the numbers of files did.
    NoMemory,
}

impl From<NoMemory> for FileFault {
    ghost use Rattle.file_table.specs.declared.fault.FileFault.TheVariants.{NoMemory as OutOfMemory};

    ghost from_gives = { λ _ fault. fault ≡ OutOfMemory };

    fn from(_error: NoMemory) -> FileFault {
        FileFault::NoMemory
    }
}

//! What is refused, and why.

ghost use Rattle.std.specs.Prelude.{◌≡◌, ℕ, List, IfOk};
ghost use Rattle.desc_read.specs.Faults.{word_of, IsFault};
ghost use Rattle.desc_read.specs.declared.fault.DescFault.TheVariants.{NoMemory as OutOfMemory};

use lego_base::{Bytes, NoMemory};
use std::alloc::{AllocError, AllocFailed};
use std::fmt;

/// Why a description gives no plan.
#[derive(Debug, Drop)]
pub enum DescFault {
    /// The first fault of the description, and where it is.
    Bad { kind: DescKind, place: Bytes },
    /// Memory ran out.
    NoMemory,
}

impl DescFault {
    /// The fault of this kind at a place. Naming the place may have run out of memory.
    pub(crate) fn at(kind: DescKind, place: Result<Bytes, NoMemory>) -> DescFault
        ensures { (want : List ℕ) → IfOk place (λ found. found ≡ want) → IsFault kind want result }
    {
        match place {
            Ok(place) => DescFault::Bad { kind, place },
            Err(_) => DescFault::NoMemory,
        }
    }
}

impl From<NoMemory> for DescFault {
    ghost from_gives = { λ _ e. e ≡ OutOfMemory };

    fn from(_refused: NoMemory) -> DescFault {
        DescFault::NoMemory
    }
}

impl From<AllocError> for DescFault {
    ghost from_gives = { λ _ e. e ≡ OutOfMemory };

    fn from(_refused: AllocError) -> DescFault {
        DescFault::NoMemory
    }
}

impl<T: Drop> From<AllocFailed<T>> for DescFault {
    ghost from_gives = { λ _ e. e ≡ OutOfMemory };

    fn from(_refused: AllocFailed<T>) -> DescFault {
        DescFault::NoMemory
    }
}

/// What is wrong at a place of a description.
#[derive(Clone, Copy, Debug, PartialEq, Eq)]
pub enum DescKind {
    /// The bytes are not a JSON text.
    Syntax,
    /// The value is not an object.
    Object,
    /// The object has a field that isn't known.
    Unknown,
    /// A required field is absent.
    Absent,
    /// The field's value is of a different kind.
    Kind,
    /// The field's value is of its kind but out of its range.
    Range,
}

impl DescKind {
    /// The kind in lower case, as it is printed.
    pub fn word(&self) -> &'static str
        ensures { result.now ≡ word_of self.now }
    {
        match self {
            DescKind::Syntax => "syntax",
            DescKind::Object => "object",
            DescKind::Unknown => "unknown",
            DescKind::Absent => "absent",
            DescKind::Kind => "kind",
            DescKind::Range => "range",
        }
    }
}

impl fmt::Display for DescKind {
    ghost use Rattle.std.specs.Prelude.{Some};
    ghost use Rattle.desc_read.specs.Faults.{word_of};

    ghost output = { λ kind. Some (word_of kind) };

    fn fmt<W: fmt::Write>(&self, f: &mut fmt::Formatter<W>) -> fmt::Result {
        f.write_str(self.word())
    }
}

/// What is wrong with a field's value, wherever the field is.
#[derive(Clone, Copy, Debug, PartialEq, Eq)]
pub(crate) enum Flaw {
    WrongKind,
    OutOfRange,
}

impl Flaw {
    ghost use Rattle.desc_read.specs.Faults.{kind_of};

    /// The kind of the fault that it causes.
    pub(crate) fn kind(self) -> DescKind
        ensures { result ≡ kind_of self }
    {
        match self {
            Flaw::WrongKind => DescKind::Kind,
            Flaw::OutOfRange => DescKind::Range,
        }
    }
}

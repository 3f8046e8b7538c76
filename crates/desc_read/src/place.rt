//! Where a fault is.

ghost use Rattle.std.specs.Prelude.{◌≡◌, IfOk};
ghost use Rattle.desc_read.specs.Faults.{list_name, object_place, field_place};

use lego_base::{Bytes, NoMemory};
use std::alloc::Global;

/// The lists of objects that a description has.
#[derive(Clone, Copy, Debug, PartialEq, Eq)]
pub(crate) enum EntryList {
    Crashes,
    Files,
}

impl EntryList {
    /// The field's name.
    pub(crate) fn name(self) -> &'static str
        ensures { result.now ≡ list_name self }
    {
        match self {
            EntryList::Crashes => "crashes",
            EntryList::Files => "files",
        }
    }
}

/// An entry of such a list, counted from 0.
#[derive(Clone, Copy, Debug, PartialEq, Eq)]
pub(crate) struct Entry {
    pub(crate) list: EntryList,
    pub(crate) index: usize,
}

// The place of an object, which is an entry or the description itself.
pub(crate) fn place_of_object(alloc: Global, entry: Option<Entry>) -> Result<Bytes, NoMemory>
    ensures { IfOk result (λ place. place ≡ object_place entry) }
{
    match entry {
        None => Bytes::from_slice(alloc, b"."),
        Some(entry) => {
            let list = entry.list.name();
            let index = entry.index;
            let place = format!(in alloc; "{list}[{index}]")?;
            Bytes::from_slice(alloc, place.as_bytes())
        }
    }
}

// The place of a field of such an object.
pub(crate) fn place_of_field(
    alloc: Global,
    entry: Option<Entry>,
    name: &str,
) -> Result<Bytes, NoMemory>
    ensures { IfOk result (λ place. place ≡ field_place entry name.now) }
{
    match entry {
        None => Bytes::from_slice(alloc, name.as_bytes()),
        Some(entry) => {
            let list = entry.list.name();
            let index = entry.index;
            let place = format!(in alloc; "{list}[{index}].{name}")?;
            Bytes::from_slice(alloc, place.as_bytes())
        }
    }
}

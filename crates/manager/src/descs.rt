//! The open file descriptions.

ghost use Rattle.std.specs.Prelude.{◌≡◌, ◌==◌, ◌+◌, ◌-◌, ◌^◌, ◌<◌, ◌≤◌, ℕ, [], true, None, Some, if◌then◌else◌, is_some, length, slice_index, slice_set, IfOk};
ghost use Rattle.kernel_objects.specs.Slots.{freed, held, next_slot, picks, slot, with_next};
ghost use Rattle.linux_model.specs.Effects.{sought};
ghost use Rattle.fd_table.specs.declared.fds.TheConstants.{DESCRIPTORS};
ghost use Rattle.linux_model.specs.Fits.{EntriesFit};
ghost use Rattle.linux_model.specs.Limits.{DESCRIPTIONS};
ghost use Rattle.linux_model.specs.Processes.{has_file, is_file_object};
ghost use Rattle.manager.specs.Counting.{refers, slots_with, OneFewer, OneMore};

use crate::counts::{Counts, NUMBERS};
use crate::slots::put_next;
use fd_table::{DESCRIPTORS, Fds};
use kernel_objects::{Description, Object};
use lego_base::{FileNo, NoMemory};
use std::alloc::Global;
use std::marker::Model;

/// The descriptions by slot, at most 1024, with the number of descriptors that refer to each.
#[derive(Drop)]
pub struct Descs {
    slots: Vec<Option<Description>>, // with room for `NUMBERS`
    refs: Counts,
    used: u32, // slots that hold one
}

impl Model for Descs {
    ghost use Rattle.std.specs.Prelude.{◌≡◌, ◌≤◌, length, vec_capacity};
    ghost use Rattle.kernel_objects.specs.Slots.{held};
    ghost use Rattle.manager.specs.Tables.{DescTable};
    ghost use Rattle.manager.specs.declared.counts.TheConstants.{NUMBERS};

    ghost Value = { DescTable };

    ghost view = { λ d. record { descs = d.slots.items; refs = d.refs } };

    ghost invariant = { λ d. (length d.slots.items ≤ NUMBERS) × (NUMBERS ≤ vec_capacity d.slots) × (d.used ≡ length (held d.slots.items)) };
}

impl Descs {
    /// None. Takes all memory that the table will ever need.
    pub fn new(alloc: Global) -> Result<Descs, NoMemory>
        ensures descs { IfOk result (λ d. d.descs ≡ []) }
        ensures refs { IfOk result (λ d. (n : ℕ) → slice_index d.refs n ≡ 0) }
    {
        let slots = Vec::with_capacity(alloc, NUMBERS)?;
        let refs = Counts::new(alloc)?;
        Ok(Descs {
            slots,
            refs,
            used: 0,
        })
    }

    /// How many more may be open.
    pub fn room(&self) -> u32
        ensures { result ≡ DESCRIPTIONS - length (held self.now.descs) }
    {
        NUMBERS as u32 - self.used
    }

    /// The description in a slot.
    pub fn get(&self, desc: u16) -> Option<Description>
        ensures { result ≡ slot self.now.descs desc }
    {
        *self.slots.get(desc as usize)?
    }

    /// A new description, in the lowest free slot, to which one descriptor refers.
    pub fn add(&mut self, description: Description) -> u16
        requires room { length (held self.old.descs) < DESCRIPTIONS }
        requires refs { slice_index self.old.refs (next_slot self.old.descs) < 2 ^ 32 - 1 }
        ensures slot { result ≡ next_slot self.old.descs }
        ensures descs { self.new.descs ≡ with_next description self.old.descs }
        ensures refs { OneMore result self.old.refs self.new.refs }
    {
        let desc = put_next(&mut self.slots, description) as u16;
        self.used += 1;
        self.refs.add(desc);
        desc
    }

    /// One more descriptor refers to a description.
    pub fn share(&mut self, desc: u16)
        requires there { is_some (slot self.old.descs desc) ≡ true }
        requires refs { slice_index self.old.refs desc < 2 ^ 32 - 1 }
        ensures descs { self.new.descs ≡ self.old.descs }
        ensures refs { OneMore desc self.old.refs self.new.refs }
    {
        self.refs.add(desc);
    }

    /// One more descriptor refers to the description of each of these, which are a process's.
    pub fn share_all(&mut self, fds: &Fds)
        requires entries { EntriesFit self.old.descs fds.now }
        requires slots { length fds.now ≡ DESCRIPTORS }
        requires refs { (n : ℕ) → slice_index self.old.refs n < 2 ^ 31 }
        ensures descs { self.new.descs ≡ self.old.descs }
        ensures refs { (n : ℕ) → slice_index self.new.refs n ≡ slice_index self.old.refs n + slots_with (refers n) fds.now }
    {
        for fd in 0..DESCRIPTORS {
            if let Some(entry) = fds.get(u64::from(fd)) {
                self.share(entry.desc);
            }
        }
    }

    /// One descriptor fewer refers to a description. Where it was the last, the description goes, and is returned.
    pub fn let_go(&mut self, desc: u16) -> Option<Description>
        requires there { is_some (slot self.old.descs desc) ≡ true }
        requires refs { 0 < slice_index self.old.refs desc }
        ensures ended { result ≡ (if slice_index self.old.refs desc == 1 then slot self.old.descs desc else None) }
        ensures descs { self.new.descs ≡ (if slice_index self.old.refs desc == 1 then freed self.old.descs desc else self.old.descs) }
        ensures refs { OneFewer desc self.old.refs self.new.refs }
    {
        self.refs.remove(desc);
        if self.refs.of(desc) > 0 {
            return None;
        }
        self.used -= 1;
        let description = self.slots[desc as usize];
        self.slots[desc as usize] = None;
        description
    }

    /// The offset of a description becomes this.
    pub fn seek(&mut self, desc: u16, offset: u64)
        requires { is_some (slot self.old.descs desc) ≡ true }
        ensures descs { self.new.descs ≡ slice_set self.old.descs desc (sought offset (slot self.old.descs desc)) }
        ensures refs { self.new.refs ≡ self.old.refs }
    {
        let sought = sought(self.slots[desc as usize], offset);
        self.slots[desc as usize] = sought;
    }

    /// Whether a description is open on a file.
    pub fn has_file(&self, file: FileNo) -> bool
        ensures { result ≡ has_file file.0 self.now.descs }
    {
        has_file_in(self.slots.as_slice(), file)
    }
}

// A description at another offset.
fn sought(slot: Option<Description>, offset: u64) -> Option<Description>
    ensures { result ≡ sought offset slot }
{
    let description = slot?;
    Some(Description {
        offset,
        ..description
    })
}

// Whether a description is open on a file.
fn has_file_in(slots: &[Option<Description>], file: FileNo) -> bool
    ensures { result ≡ has_file file.0 slots.now }
{
    for slot in slots.iter() {
        if is_on_file(*slot, file) {
            return true;
        }
    }
    false
}

// Whether there is a description, open on a file.
fn is_on_file(slot: Option<Description>, file: FileNo) -> bool
    ensures { result ≡ picks (λ d. is_file_object file.0 d.object) slot }
{
    match slot {
        Some(description) => match description.object {
            Object::Regular(number) => number.0 == file.0,
            _ => false,
        },
        None => false,
    }
}

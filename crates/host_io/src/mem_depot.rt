//! A depot in memory.

ghost use Rattle.std.specs.Prelude.{◌≡◌, ◌≤◌, ◌↔◌, [], ◌∷◌, ◌++◌, true, not, length, IfOk, OnOk, OnErr, is_ok, IsErr, MatchOption};
ghost use Rattle.lego_base.specs.Counts.{HasCause};
ghost use Rattle.host_io.specs.Depots.{Put, with_entry};
ghost use Rattle.host_io.specs.Objects.{looked_up};
ghost use Rattle.host_io.specs.Places.{NoneBefore, IsPlace};
ghost use Rattle.host_io.specs.Calls.{untried, is_due, counted};

use crate::depot::{Depot, Got};
use crate::fail_plan::FailPlan;
use crate::failed::Failed;
use lego_base::{Bytes, FileOut, NoMemory};
use std::alloc::Global;
use std::marker::Model;

/// A depot in memory whose calls fail by a list, or because memory runs out.
#[derive(Debug, Drop)]
pub struct MemDepot {
    files: Vec<FileOut>, // the first entry of a name counts
    plan: FailPlan,
}

impl Model for MemDepot {
    ghost use Rattle.host_io.specs.Objects.{Shelf};

    ghost Value = { Shelf };

    ghost view = { λ d. record { entries = d.files.items; calls = d.plan } };
}

impl MemDepot {
    /// A depot with no entry. `fails` has the numbers of the calls that are to fail, counted from 1.
    pub fn new(alloc: Global, fails: &[u64]) -> Result<MemDepot, NoMemory>
        ensures { IfOk result (λ d. d ≡ record { entries = []; calls = untried fails.now }) }
    {
        let plan = FailPlan::new(alloc, fails)?;
        Ok(MemDepot {
            files: Vec::new(alloc),
            plan,
        })
    }

    /// How often the depot failed.
    pub fn faults(&self) -> u64
        ensures { result ≡ self.now.calls.faults }
    {
        self.plan.faults()
    }
}

impl Depot for MemDepot {
    ghost use Rattle.std.specs.Prelude.{Some};
    ghost use Rattle.host_io.specs.Objects.{looked_up, state_of};
    ghost use Rattle.host_io.specs.Looked.{Looked};

    ghost state = { state_of };

    /// It fails just where its number is planned.
    fn get(&mut self, _alloc: Global, name: &str) -> Got
        ensures later { self.old.calls.faults ≤ self.new.calls.faults }
        ensures same { Some (looked_up self.new.entries) ≡ Some (looked_up self.old.entries) }
        ensures looked { Looked (state_of self.old) (state_of self.new) name.now result }
        ensures planned { (result ≡ Got.Failed) ↔ (is_due self.old.calls ≡ true) }
        ensures counted { self.new.calls ≡ counted (not (is_due self.old.calls)) self.old.calls }
        ensures entries { self.new.entries ≡ self.old.entries }
    {
        if self.plan.begin() {
            return Got::Failed;
        }
        match place_of(self.files.as_slice(), name.as_bytes()) {
            Some(at) => match self.files[at].bytes.clone() {
                Ok(bytes) => Got::Found(bytes),
                Err(_) => Got::NoMemory,
            },
            None => Got::Missing,
        }
    }

    /// It fails where its number is planned, and elsewhere only if memory runs out. Then nothing changed.
    fn put(&mut self, name: &str, bytes: &[u8]) -> Result<(), Failed>
        ensures cause { HasCause self.old.calls.faults self.new.calls.faults result }
        ensures put { Put (Some (looked_up self.old.entries)) (Some (looked_up self.new.entries)) name.now bytes.now result }
        ensures planned { is_due self.old.calls ≡ true → IsErr result }
        ensures counted { self.new.calls ≡ counted (is_ok result) self.old.calls }
        ensures kept { OnErr result (self.new.entries ≡ self.old.entries) }
    {
        if self.plan.begin() {
            return Err(Failed);
        }
        let alloc = *self.files.allocator();
        match set_entry(alloc, &mut self.files, name.as_bytes(), bytes) {
            Ok(()) => Ok(()),
            Err(_) => {
                self.plan.raise();
                Err(Failed)
            }
        }
    }
}

// The first entry with the name.
fn place_of(files: &[FileOut], name: &[u8]) -> Option<usize>
    ensures { MatchOption result (NoneBefore files.now name.now (length files.now)) (IsPlace files.now name.now) }
{
    for (i, file) in files.iter().enumerate() {
        if name == file.name.as_slice() {
            return Some(i);
        }
    }
    None
}

// Sets the bytes under the name. If memory runs out, nothing changes.
fn set_entry(
    alloc: Global,
    files: &mut Vec<FileOut>,
    name: &[u8],
    bytes: &[u8],
) -> Result<(), NoMemory>
    ensures ok { OnOk result (looked_up files.new.items ≡ with_entry name.now (Some bytes.now) (looked_up files.old.items)) }
    ensures err { OnErr result (files.new.items ≡ files.old.items) }
{
    let bytes = Bytes::from_slice(alloc, bytes)?;
    match place_of(files.as_slice(), name) {
        Some(at) => {
            let file = &mut files[at];
            file.bytes = bytes;
        }
        None => add_entry(alloc, files, name, bytes)?,
    }
    Ok(())
}

// Adds an entry. If memory runs out, nothing changes.
fn add_entry(
    alloc: Global,
    files: &mut Vec<FileOut>,
    name: &[u8],
    bytes: Bytes,
) -> Result<(), NoMemory>
    ensures ok { OnOk result (files.new.items ≡ files.old.items ++ record { name = name.now; bytes = bytes } ∷ []) }
    ensures err { OnErr result (files.new.items ≡ files.old.items) }
{
    let name = Bytes::from_slice(alloc, name)?;
    files.push(FileOut { name, bytes })?;
    Ok(())
}

//! The files of a runtime as a depot.

ghost use Rattle.std.specs.Prelude.{◌≡◌, ◌≤◌, None, is_ok, if◌then◌else◌};
ghost use Rattle.lego_base.specs.Counts.{risen, HasCause};
ghost use Rattle.host_io.specs.Depots.{Put};

use crate::depot::{Depot, Got};
use crate::failed::Failed;
use crate::reading::{InputStop, read_front};
use crate::std_source::StdSource;
use lego_base::{Bytes, LONGEST_FILE};
use std::alloc::Global;
use std::fs;
use std::io::{ErrorKind, Read};
use std::marker::Model;
use std::rt::Files;

/// The files of a runtime as a depot. A name is a path relative to the current folder. It doesn't tell
/// what it holds: contracts see it as its count of faults.
#[derive(Drop)]
pub struct FileDepot<R> {
    files: R,
    faults: u64,
}

impl<R> Model for FileDepot<R> {
    ghost use Rattle.std.specs.Prelude.{ℕ};

    ghost Value = { ℕ };

    ghost view = { λ d. d.faults };
}

impl<R> FileDepot<R> {
    /// A depot of this runtime's files.
    pub fn new(files: R) -> FileDepot<R>
        ensures { result ≡ 0 }
    {
        FileDepot { files, faults: 0 }
    }

    /// How often the depot failed.
    pub fn faults(&self) -> u64
        ensures { result ≡ self.now }
    {
        self.faults
    }
}

impl<R: Files> Depot for FileDepot<R> {
    ghost use Rattle.std.specs.Prelude.{None};
    ghost use Rattle.host_io.specs.Looked.{Looked, count_after};

    ghost state = { λ d. record { files = None; faults = d } };

    /// Missing where opening ends as not found. Failed at every other error of opening or reading. Of a
    /// file of more than `LONGEST_FILE` bytes it gives one byte more than that, which shows that it is longer.
    fn get(&mut self, alloc: Global, name: &str) -> Got
        ensures later { self.old ≤ self.new }
        ensures looked { Looked (record { files = None; faults = self.old }) (record { files = None; faults = self.new }) name.now result }
        ensures counted { self.new ≡ count_after result self.old }
    {
        let got = match fs::open(&self.files, name) {
            Ok(file) => read_file(alloc, file),
            Err(error) if error.kind() == ErrorKind::NotFound => Got::Missing,
            Err(_) => Got::Failed,
        };
        if let Got::Failed = got {
            self.faults = self.faults.saturating_add(1);
        }
        got
    }

    /// Makes the file, or cuts it, and writes it. Failed at every error.
    fn put(&mut self, name: &str, bytes: &[u8]) -> Result<(), Failed>
        ensures cause { HasCause self.old self.new result }
        ensures put { Put None None name.now bytes.now result }
        ensures counted { self.new ≡ (if is_ok result then self.old else risen self.old) }
    {
        match fs::write(&self.files, name, bytes) {
            Ok(()) => Ok(()),
            Err(_) => {
                self.faults = self.faults.saturating_add(1);
                Err(Failed)
            }
        }
    }
}

// The bytes of an open file, up to one more than `LONGEST_FILE`.
fn read_file<F: Read + Drop>(alloc: Global, file: F) -> Got {
    let mut source = StdSource::new(file);
    let bytes = match read_front(alloc, &mut source, LONGEST_FILE) {
        Ok(bytes) => bytes,
        Err(InputStop::NoMemory) => return Got::NoMemory,
        Err(_) => return Got::Failed,
    };
    match Bytes::from_vec(bytes) {
        Ok(bytes) => Got::Found(bytes),
        Err(_) => Got::NoMemory,
    }
}

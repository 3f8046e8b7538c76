//! The bytes of all files, by their numbers.

ghost use Rattle.std.specs.Prelude.{◌≡◌, ◌+◌, ◌^◌, ◌<◌, [], ◌∷◌, ◌++◌, length, true, OnOk, OnErr};
ghost use Rattle.lego_base.specs.Files.{file_bytes, is_file, with_file_bytes, without_file};
ghost use Rattle.lego_base.specs.Pieces.{of_size, written_at};
ghost use Rattle.file_table.specs.Numbers.{NumbersBelow, NumbersRise};

use crate::bytes;
use indexmap::IndexMap;
use lego_base::{FileNo, NoMemory};
use std::alloc::Global;
use std::marker::Model;

/// The bytes of all files. Contracts see the list of the files, in rising order of their numbers.
#[derive(Drop)]
pub struct Contents {
    alloc: Global,
    files: IndexMap<FileNo, Vec<u8>>, // in rising order of numbers
}

impl Model for Contents {
    ghost use Rattle.std.specs.Prelude.{List, map};
    ghost use Rattle.lego_base.specs.Files.{File};

    ghost Value = { List File };

    ghost use Rattle.file_table.specs.Entries.{file_of};
    ghost use Rattle.file_table.specs.Numbers.{NumbersRise};

    ghost view = { λ c. map file_of c.files.entries };

    ghost invariant = { λ c. NumbersRise (map file_of c.files.entries) };
}

impl Contents {
    /// No file.
    pub fn new(alloc: Global) -> Contents
        ensures { result ≡ [] }
    {
        Contents {
            alloc,
            files: IndexMap::new(alloc),
        }
    }

    /// The number of files.
    pub fn len(&self) -> usize
        ensures { result ≡ length self.now }
    {
        self.files.len()
    }

    /// Whether a file is there.
    pub fn has(&self, file: FileNo) -> bool
        ensures { result ≡ is_file self.now file.0 }
    {
        self.files.contains_key(&file)
    }

    /// The bytes of a file that is there.
    pub fn get(&self, file: FileNo) -> &[u8]
        requires { is_file self.now file.0 ≡ true }
        ensures bytes { result.now ≡ file_bytes self.now file.0 }
        ensures rise { NumbersRise self.now }
    {
        match self.files.get(&file) {
            Some(bytes) => bytes.as_slice(),
            None => unreachable!(),
        }
    }

    /// Adds an empty file, whose number is above those of all others.
    pub fn add(&mut self, file: FileNo) -> Result<(), NoMemory>
        requires { NumbersBelow file.0 self.old }
        ensures ok { OnOk result (self.new ≡ self.old ++ record { file = file.0; bytes = [] } ∷ []) }
        ensures err { OnErr result (self.new ≡ self.old) }
    {
        self.files.insert(file, Vec::new(self.alloc))?;
        Ok(())
    }

    /// Removes a file.
    pub fn remove(&mut self, file: FileNo)
        ensures { self.new ≡ without_file file.0 self.old }
    {
        self.files.shift_remove(&file);
    }

    /// Writes a piece of a file that is there.
    pub fn write_at(&mut self, file: FileNo, off: usize, piece: &[u8]) -> Result<(), NoMemory>
        requires there { is_file self.old file.0 ≡ true }
        requires short { off + length piece.now < 2 ^ 63 }
        ensures ok { OnOk result (self.new ≡ with_file_bytes self.old file.0 (written_at (file_bytes self.old file.0) off piece.now)) }
        ensures err { OnErr result (self.new ≡ self.old) }
    {
        match self.files.get_mut(&file) {
            Some(bytes) => bytes::write_at(bytes, off, piece),
            None => unreachable!(),
        }
    }

    /// Sets the size of a file that is there, with zeros where it grows.
    pub fn set_size(&mut self, file: FileNo, size: usize) -> Result<(), NoMemory>
        requires { is_file self.old file.0 ≡ true }
        ensures ok { OnOk result (self.new ≡ with_file_bytes self.old file.0 (of_size size (file_bytes self.old file.0))) }
        ensures err { OnErr result (self.new ≡ self.old) }
    {
        match self.files.get_mut(&file) {
            Some(bytes) => bytes::set_size(bytes, size),
            None => unreachable!(),
        }
    }
}

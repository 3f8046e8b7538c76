//! The names of files, in the order of their bytes.

ghost use Rattle.std.specs.Prelude.{◌≡◌, [], None, position, IfOk, OnOk, OnErr};
ghost use Rattle.lego_base.specs.Files.{has_name, is_before, named, with_name, without_name};

use indexmap::IndexMap;
use lego_base::{Bytes, FileNo, NameEntry, NoMemory};
use std::alloc::Global;
use std::marker::Model;

/// The names of files. Contracts see the list of the names with their files, in the order of their bytes.
#[derive(Drop)]
pub struct Names {
    alloc: Global,
    entries: IndexMap<Vec<u8>, FileNo>, // in the order of names
}

impl Model for Names {
    ghost use Rattle.std.specs.Prelude.{List, map};
    ghost use Rattle.std.specs.Str.{bytes_eq};
    ghost use Rattle.lego_base.specs.declared.records.NameEntry.{NameEntry};
    ghost use Rattle.indexmap.specs.IndexMap.{IsUnique};

    ghost Value = { List NameEntry };

    ghost use Rattle.file_table.specs.Entries.{name_of};

    ghost view = { λ n. map name_of n.entries.entries };

    ghost invariant = { λ n. IsUnique (λ a b. bytes_eq a.items b.items) n.entries };
}

impl Names {
    /// No name.
    pub fn new(alloc: Global) -> Names
        ensures { result ≡ [] }
    {
        Names {
            alloc,
            entries: IndexMap::new(alloc),
        }
    }

    /// The file with a name.
    pub fn find(&self, name: &[u8]) -> Option<FileNo>
        ensures { result ≡ named self.now name.now }
    {
        self.entries.get(name).copied()
    }

    /// Whether a file has a name.
    pub fn has(&self, file: FileNo) -> bool
        ensures { result ≡ has_name self.now file.0 }
    {
        self.entries.values().as_slice().contains(&file)
    }

    /// Adds a name that isn't there.
    pub fn add(&mut self, name: &[u8], file: FileNo) -> Result<(), NoMemory>
        requires { named self.old name.now ≡ None }
        ensures ok { OnOk result (self.new ≡ with_name (record { name = name.now; file = file }) self.old) }
        ensures err { OnErr result (self.new ≡ self.old) }
    {
        let place = first_after(self.entries.keys().as_slice(), name).unwrap_or(self.entries.len());
        let key = Vec::from_slice(self.alloc, name)?;
        self.entries.shift_insert(place, key, file)?;
        Ok(())
    }

    /// Removes a name, if it is there.
    pub fn remove(&mut self, name: &[u8])
        ensures { self.new ≡ without_name name.now self.old }
    {
        self.entries.shift_remove(name);
    }

    /// A copy of all names with their files, in the order of their bytes.
    pub fn list(&self, alloc: Global) -> Result<Vec<NameEntry>, NoMemory>
        ensures { IfOk result (λ v. v.items ≡ self.now) }
    {
        let mut list = Vec::with_capacity(alloc, self.entries.len())?;
        for (name, file) in self.entries.iter() {
            let name = Bytes::from_slice(alloc, name.as_slice())?;
            list.push(NameEntry { name, file: *file })?;
        }
        Ok(list)
    }
}

// Whether a name comes before another one in the order of bytes.
fn is_before(name: &[u8], other: &[u8]) -> bool
    ensures { result ≡ is_before name.now other.now }
{
    name < other
}

// Where the first name is that comes after this one.
fn first_after(names: &[Vec<u8>], name: &[u8]) -> Option<usize>
    ensures { result ≡ position (λ other. is_before name.now other.items) names.now }
{
    names
        .iter()
        .position(|other| is_before(name, other.as_slice()))
}

//! Files with names.

ghost use Rattle.std.specs.Prelude.{◌≡◌, ◌+◌, ◌≤◌, ◌<◌, [], ◌∷◌, ◌++◌, length, true, None, IfOk, OnOk, OnErr};
ghost use Rattle.lego_base.specs.Files.{file_bytes, is_file, named, with_file_bytes, without_name};
ghost use Rattle.lego_base.specs.Pieces.{of_size, piece, written_at};
ghost use Rattle.lego_base.specs.declared.sizes.TheConstants.{LONGEST_FILE};
ghost use Rattle.plain_files.specs.Stored.{freed, new_number, nothing, with_new};

use file_table::{Contents, Names};
use lego_base::{Bytes, FileNo, NameEntry, NoMemory};
use std::alloc::Global;
use std::marker::Model;

/// The most files that there may be, those without a name counted.
pub const MOST_FILES: usize = 1024;

/// Files with names. A file without a name stays until it is freed, and numbers aren't used again. Contracts see the record of
/// what is stored.
#[derive(Drop)]
pub struct PlainFiles {
    contents: Contents,
    names: Names,
    next: u32, // the number of the next file; the last number is not given to a file
}

impl Model for PlainFiles {
    ghost use Rattle.plain_files.specs.Stored.{Stored};
    ghost use Rattle.file_table.specs.Numbers.{NumbersBelow};

    ghost Value = { Stored };

    ghost view = { λ f. record { files = f.contents; names = f.names; next = f.next } };

    ghost invariant = { λ f. NumbersBelow f.next f.contents };
}

impl PlainFiles {
    /// No file. Takes no memory.
    pub fn new(alloc: Global) -> PlainFiles
        ensures { result ≡ nothing }
    {
        PlainFiles {
            contents: Contents::new(alloc),
            names: Names::new(alloc),
            next: 0,
        }
    }

    /// The file with a name.
    pub fn find(&self, name: &[u8]) -> Option<FileNo>
        ensures { result ≡ named self.now.names name.now }
    {
        self.names.find(name)
    }

    /// Makes an empty file under a name that none has; none where there are 1024 files. Where all numbers were given out, that
    /// counts as out of memory.
    pub fn make(&mut self, name: &[u8]) -> Result<Option<FileNo>, NoMemory>
        requires absent { named self.old.names name.now ≡ None }
        ensures file { IfOk result (λ file. file ≡ new_number self.old) }
        ensures made { OnOk result (self.new ≡ with_new name.now self.old) }
        ensures err { OnErr result (self.new ≡ self.old) }
    {
        if self.contents.len() >= MOST_FILES {
            return Ok(None);
        }
        match self.make_new(name) {
            Ok(file) => Ok(Some(file)),
            Err(stop) => Err(stop),
        }
    }

    // Makes an empty file under a new name, where there is room for it.
    fn make_new(&mut self, name: &[u8]) -> Result<FileNo, NoMemory>
        requires absent { named self.old.names name.now ≡ None }
        requires room { length self.old.files < MOST_FILES }
        ensures file { IfOk result (λ file. file.0 ≡ self.old.next) }
        ensures made { OnOk result (self.new ≡ with_new name.now self.old) }
        ensures err { OnErr result (self.new ≡ self.old) }
    {
        let Some(next) = self.next.checked_add(1) else {
            return Err(NoMemory);
        };
        let file = FileNo(self.next);
        self.contents.add(file)?;
        if let Err(_) = self.names.add(name, file) {
            self.contents.remove(file);
            return Err(NoMemory);
        }
        self.next = next;
        Ok(file)
    }

    /// Removes a name, if it is there, as `unlink(2)` does. The file stays.
    pub fn unlink(&mut self, name: &[u8])
        ensures { self.new ≡ record self.old { names = without_name name.now self.old.names } }
    {
        self.names.remove(name);
    }

    /// Removes a file, unless it has a name.
    pub fn free(&mut self, file: FileNo)
        ensures { self.new ≡ freed file.0 self.old }
    {
        if self.names.has(file) {
            return;
        }
        self.contents.remove(file);
    }

    /// The size of a file that is there, in bytes.
    pub fn size(&self, file: FileNo) -> u64
        requires { is_file self.now.files file.0 ≡ true }
        ensures { result ≡ length (file_bytes self.now.files file.0) }
    {
        self.contents.get(file).len() as u64
    }

    /// A copy of `len` bytes of a file that is there, starting at an offset. Where there is one they lie within the file.
    pub fn read(&self, alloc: Global, file: FileNo, off: u64, len: u64) -> Result<Bytes, NoMemory>
        requires there { is_file self.now.files file.0 ≡ true }
        requires within { 0 < len → off + len ≤ length (file_bytes self.now.files file.0) }
        ensures { IfOk result (λ bytes. bytes ≡ piece (file_bytes self.now.files file.0) off len) }
    {
        if len == 0 {
            return Bytes::from_slice(alloc, &[]);
        }
        Bytes::from_slice(
            alloc,
            part(self.contents.get(file), off as usize, len as usize),
        )
    }

    /// Writes bytes of a file that is there at an offset, with zeros before them where they begin past the end, as `pwrite(2)`
    /// does.
    pub fn write(&mut self, file: FileNo, off: u64, bytes: &[u8]) -> Result<(), NoMemory>
        requires there { is_file self.old.files file.0 ≡ true }
        requires short { off + length bytes.now ≤ LONGEST_FILE }
        ensures ok { let files = self.old.files in
            OnOk result (self.new ≡ record self.old { files = with_file_bytes files file.0 (written_at (file_bytes files file.0) off bytes.now) }) }
        ensures err { OnErr result (self.new ≡ self.old) }
    {
        self.contents.write_at(file, off as usize, bytes)
    }

    /// A copy of all names with their files, in the order of their bytes.
    pub fn names(&self, alloc: Global) -> Result<Vec<NameEntry>, NoMemory>
        ensures { IfOk result (λ names. names.items ≡ self.now.names) }
    {
        self.names.list(alloc)
    }

    /// Sets the size of a file that is there, with zeros where it grows, as `ftruncate(2)` does.
    pub fn cut(&mut self, file: FileNo, size: u64) -> Result<(), NoMemory>
        requires there { is_file self.old.files file.0 ≡ true }
        requires short { size ≤ LONGEST_FILE }
        ensures ok { let files = self.old.files in
            OnOk result (self.new ≡ record self.old { files = with_file_bytes files file.0 (of_size size (file_bytes files file.0)) }) }
        ensures err { OnErr result (self.new ≡ self.old) }
    {
        self.contents.set_size(file, size as usize)
    }
}

// `len` bytes, starting at an offset.
fn part(bytes: &[u8], off: usize, len: usize) -> &[u8]
    requires { off + len ≤ length bytes.now }
    ensures { result.now ≡ piece bytes.now off len }
{
    let (_, rest) = bytes.split_at(off);
    let (front, _) = rest.split_at(len);
    front
}

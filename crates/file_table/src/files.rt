//! Files with names, in a store with a number of blocks.

ghost use Rattle.std.specs.Prelude.{◌≡◌, ◌+◌, ◌-◌, ◌^◌, ◌≤◌, ◌<◌, length, true, IfOk, MatchOption};
ghost use Rattle.lego_base.specs.Files.{file_bytes, is_file, named, with_file_bytes};
ghost use Rattle.lego_base.specs.Pieces.{of_size, written_at};
ghost use Rattle.lego_base.specs.declared.sizes.TheConstants.{LONGEST_FILE};
ghost use Rattle.lego_msg.specs.Files.{block_of, freed, no_files, unnamed};
ghost use Rattle.file_table.specs.Numbers.{blocks_for, size_after};
ghost use Rattle.file_table.specs.Outcomes.{IsChanged, IsMade};

use crate::bytes::{block_of, blocks_for};
use crate::contents::Contents;
use crate::fault::FileFault;
use crate::names::Names;
use lego_base::{Bytes, FileNo, LONGEST_FILE, NameEntry, NoMemory};
use std::alloc::Global;
use std::marker::Model;

// The most files that there may be, those without a name counted.
const FILES_MOST: usize = 1024;

/// Files with names. A file without a name stays until it is freed, and numbers aren't used again. Together the files need
/// no more blocks of 4096 bytes than there are, each size rounded up. Contracts see the record of what storage holds.
#[derive(Drop)]
pub struct Files {
    blocks: u32,
    needed: u64, // blocks that the files need together
    contents: Contents,
    names: Names,
    next: u32, // the number of the next file; the last number is not given to a file
}

impl Model for Files {
    ghost use Rattle.lego_msg.specs.Files.{Files as Held};

    ghost Value = { Held };

    ghost use Rattle.file_table.specs.Holds.{Holds};

    ghost view = { λ f. record { blocks = f.blocks; files = f.contents; names = f.names; next = f.next } };

    ghost invariant = { λ f. Holds f.blocks f.needed f.next f.contents };
}

impl Files {
    /// No file, in a store of this many blocks.
    pub fn new(alloc: Global, blocks: u32) -> Result<Files, NoMemory>
        ensures { IfOk result (λ files. files ≡ no_files blocks) }
    {
        Ok(Files {
            blocks,
            needed: 0,
            contents: Contents::new(alloc),
            names: Names::new(alloc),
            next: 0,
        })
    }

    /// The file with a name.
    pub fn find(&self, name: &[u8]) -> Option<FileNo>
        ensures { result ≡ named self.now.names name.now }
    {
        self.names.find(name)
    }

    /// The file with a name, which is made, empty, where there is none: as `open(2)` with `O_CREAT` does. `NoRoom` exactly
    /// where there are 1024 files already. Where all numbers were given out, that counts as out of memory.
    pub fn make(&mut self, name: &[u8]) -> Result<FileNo, FileFault>
        ensures { IsMade self.old self.new name.now result }
    {
        if let Some(file) = self.names.find(name) {
            return Ok(file);
        }
        if self.contents.len() >= FILES_MOST {
            return Err(FileFault::NoRoom);
        }
        self.make_new(name)
    }

    // Makes an empty file under a new name.
    fn make_new(&mut self, name: &[u8]) -> Result<FileNo, FileFault>
        requires new { named self.old.names name.now ≡ None }
        requires room { length self.old.files < FILES_MOST }
        ensures { IsMade self.old self.new name.now result }
    {
        let Some(next) = self.next.checked_add(1) else {
            return Err(FileFault::NoMemory);
        };
        let file = FileNo(self.next);
        self.contents.add(file)?;
        if let Err(_) = self.names.add(name, file) {
            self.contents.remove(file);
            return Err(FileFault::NoMemory);
        }
        self.next = next;
        Ok(file)
    }

    /// Removes a name, if it is there, as `unlink(2)` does. The file stays.
    pub fn unlink(&mut self, name: &[u8])
        ensures { self.new ≡ unnamed self.old name.now }
    {
        self.names.remove(name);
    }

    /// Whether a file is there, which the calls on its bytes ask for.
    pub fn has(&self, file: FileNo) -> bool
        ensures { result ≡ is_file self.now.files file.0 }
    {
        self.contents.has(file)
    }

    /// The size of a file that is there, in bytes.
    pub fn size(&self, file: FileNo) -> u64
        requires { is_file self.now.files file.0 ≡ true }
        ensures { result ≡ length (file_bytes self.now.files file.0) }
    {
        self.contents.get(file).len() as u64
    }

    /// A copy of a block of a file that is there: 4096 bytes, with zeros past the file's end.
    pub fn read_block(&self, alloc: Global, file: FileNo, block: u64) -> Result<Bytes, NoMemory>
        requires { is_file self.now.files file.0 ≡ true }
        ensures { IfOk result (λ bytes. bytes ≡ block_of (file_bytes self.now.files file.0) block) }
    {
        block_of(alloc, self.contents.get(file), block)
    }

    /// Writes bytes of a file that is there at an offset, with zeros before them where they begin past the end, as
    /// `pwrite(2)` does. `StoreFull` exactly where the files would need more blocks than there are.
    pub fn write_at(&mut self, file: FileNo, off: u64, bytes: &[u8]) -> Result<(), FileFault>
        requires there { is_file self.old.files file.0 ≡ true }
        requires short { off + length bytes.now ≤ LONGEST_FILE }
        ensures { let files = self.old.files in
            IsChanged self.old self.new (with_file_bytes files file.0 (written_at (file_bytes files file.0) off bytes.now)) result }
    {
        let off = off as usize;
        let size = self.contents.get(file).len();
        let after = size_after(size, off, bytes.len());
        let Some(needed) = needed_after(self.needed, self.blocks, size, after) else {
            return Err(FileFault::StoreFull);
        };
        self.contents.write_at(file, off, bytes)?;
        self.needed = needed;
        Ok(())
    }

    /// Sets the size of a file that is there, with zeros where it grows, as `ftruncate(2)` does. `StoreFull` exactly where
    /// the files would need more blocks than there are.
    pub fn truncate(&mut self, file: FileNo, size: u64) -> Result<(), FileFault>
        requires there { is_file self.old.files file.0 ≡ true }
        requires short { size ≤ LONGEST_FILE }
        ensures { let files = self.old.files in
            IsChanged self.old self.new (with_file_bytes files file.0 (of_size size (file_bytes files file.0))) result }
    {
        let before = self.contents.get(file).len();
        let Some(needed) = needed_after(self.needed, self.blocks, before, size as usize) else {
            return Err(FileFault::StoreFull);
        };
        self.contents.set_size(file, size as usize)?;
        self.needed = needed;
        Ok(())
    }

    /// Removes a file that has no name.
    pub fn free(&mut self, file: FileNo)
        ensures { self.new ≡ freed self.old file.0 }
    {
        if self.names.has(file) {
            return;
        }
        if !self.contents.has(file) {
            return;
        }
        self.needed -= blocks_for(self.contents.get(file).len());
        self.contents.remove(file);
    }

    /// A copy of all names with their files, in the order of their bytes.
    pub fn names(&self, alloc: Global) -> Result<Vec<NameEntry>, NoMemory>
        ensures { IfOk result (λ list. list.items ≡ self.now.names) }
    {
        self.names.list(alloc)
    }
}

// The size of a file of `size` bytes once `len` bytes were written at an offset.
fn size_after(size: usize, off: usize, len: usize) -> usize
    requires { off + len ≤ LONGEST_FILE }
    ensures { result ≡ size_after size off len }
{
    if len == 0 { size } else { size.max(off + len) }
}

// The blocks that the files need once a file of `old` bytes has `size` bytes, where that many are there.
fn needed_after(needed: u64, blocks: u32, old: usize, size: usize) -> Option<u64>
    requires counted { blocks_for old ≤ needed }
    requires within { needed ≤ blocks }
    requires short { size < 2 ^ 63 }
    ensures { let after = needed - blocks_for old + blocks_for size in
        MatchOption result (blocks < after) (λ n. (n ≡ after) × (n ≤ blocks)) }
{
    let needed = needed - blocks_for(old) + blocks_for(size);
    (needed <= blocks as u64).then_some(needed)
}

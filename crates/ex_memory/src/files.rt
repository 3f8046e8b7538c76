//! Files: each call asks the storage of the cluster.

ghost use Rattle.std.specs.Prelude.{◌≡◌, ◌==◌, ◌+◌, ◌<◌, ◌≤◌, if◌then◌else◌, [], ◌∷◌, IfErr, IfOk, None, OnOk, length, true};
ghost use Rattle.lego_base.specs.Files.{file_bytes, is_file, named};
ghost use Rattle.lego_base.specs.Pieces.{piece};
ghost use Rattle.lego_base.specs.declared.sizes.TheConstants.{LONGEST_FILE};
ghost use Rattle.call_machine.specs.Effects.{made_file};
ghost use Rattle.linux_model.specs.Effects.{AsksSize, CutsFile, FreesFile, LooksUp, MakesFile, ReadsFile, Unlinks, WritesFile};
ghost use Rattle.ex_memory.specs.FileCalls.{Lacks};
ghost use Rattle.ex_memory.specs.Seen.{held_of};

use crate::ExMemory;
use lego_base::{Bytes, FileNo, Halt};
use lego_msg::Watch;

impl ExMemory {
    ghost use Rattle.ex_memory.specs.Did.{Does};

    /// The file with a name.
    pub fn find<W: Watch>(&mut self, name: &[u8], watch: &mut W) -> Result<Option<FileNo>, Halt>
        ensures does { Does W.told W.faults watch.old watch.new self.old self.new (LooksUp name.now ∷ []) result }
        ensures answer { IfOk result (λ file. file ≡ named (held_of self.old).names name.now) }
    {
        match self.own_copy(name) {
            Err(halt) => return Err(halt),
            Ok(name) => match self.cluster.find_name(self.by, name, watch) {
                Err(halt) => return Err(halt),
                Ok(file) => return Ok(file),
            },
        }
    }

    /// A new file under a name that none has; none where there are 1024 files.
    pub fn make<W: Watch>(&mut self, name: &[u8], watch: &mut W) -> Result<Option<FileNo>, Halt>
        requires absent { named (held_of self.old).names name.now ≡ None }
        ensures does { Does W.told W.faults watch.old watch.new self.old self.new (MakesFile name.now ∷ []) result }
        ensures answer { IfOk result (λ file. file ≡ made_file (held_of self.old)) }
    {
        match self.own_copy(name) {
            Err(halt) => return Err(halt),
            Ok(name) => match self.cluster.make_name(self.by, name, watch) {
                Err(halt) => return Err(halt),
                Ok(file) => return Ok(file),
            },
        }
    }

    /// The name goes.
    pub fn unlink<W: Watch>(&mut self, name: &[u8], watch: &mut W) -> Result<(), Halt>
        ensures does { Does W.told W.faults watch.old watch.new self.old self.new (Unlinks name.now ∷ []) result }
    {
        match self.own_copy(name) {
            Err(halt) => return Err(halt),
            Ok(name) => match self.cluster.unlink_name(self.by, name, watch) {
                Err(halt) => return Err(halt),
                Ok(()) => return Ok(()),
            },
        }
    }

    /// A file goes, unless it has a name.
    pub fn free<W: Watch>(&mut self, file: FileNo, watch: &mut W) -> Result<(), Halt>
        ensures does { Does W.told W.faults watch.old watch.new self.old self.new (FreesFile file.0 ∷ []) result }
    {
        match self.cluster.file_free(self.by, file, watch) {
            Err(halt) => return Err(halt),
            Ok(()) => return Ok(()),
        }
    }

    /// The bytes of a file, counted.
    pub fn size<W: Watch>(&mut self, file: FileNo, watch: &mut W) -> Result<u64, Halt>
        requires there { is_file (held_of self.old).files file.0 ≡ true }
        ensures does { Does W.told W.faults watch.old watch.new self.old self.new (AsksSize file.0 ∷ []) result }
        ensures answer { IfOk result (λ size. size ≡ length (file_bytes (held_of self.old).files file.0)) }
    {
        match self.cluster.file_size(self.by, file, watch) {
            Err(halt) => return Err(halt),
            Ok(size) => return Ok(size),
        }
    }

    /// `len` bytes of a file, starting at an offset.
    pub fn read<W: Watch>(
        &mut self,
        file: FileNo,
        off: u64,
        len: u64,
        watch: &mut W,
    ) -> Result<Bytes, Halt>
        requires there { is_file (held_of self.old).files file.0 ≡ true }
        requires within { 0 < len → off + len ≤ length (file_bytes (held_of self.old).files file.0) }
        ensures does { Does W.told W.faults watch.old watch.new self.old self.new (ReadsFile file.0 off len ∷ []) result }
        ensures answer { IfOk result (λ bytes. bytes ≡ piece (file_bytes (held_of self.old).files file.0) off len) }
    {
        match self.cluster.halted() {
            Some(halt) => return Err(halt),
            None => {}
        }
        let start = start_of(off, len);
        match self.cluster.read_file(self.by, file, start, len, watch) {
            Err(halt) => return Err(halt),
            Ok(bytes) => return Ok(bytes),
        }
    }

    /// Writes bytes to a file at an offset. A gap before them reads 0.
    pub fn write<W: Watch>(
        &mut self,
        file: FileNo,
        off: u64,
        bytes: &[u8],
        watch: &mut W,
    ) -> Result<(), Halt>
        requires there { is_file (held_of self.old).files file.0 ≡ true }
        requires within { off + length bytes.now ≤ LONGEST_FILE }
        ensures does { Does W.told W.faults watch.old watch.new self.old self.new (WritesFile file.0 off bytes.now ∷ []) result }
    {
        match self.cluster.write_file(self.by, file, off, bytes, watch) {
            Err(halt) => return Err(halt),
            Ok(()) => return Ok(()),
        }
    }

    /// The size of a file becomes this. A file that grows gets zeros.
    pub fn cut<W: Watch>(&mut self, file: FileNo, size: u64, watch: &mut W) -> Result<(), Halt>
        requires there { is_file (held_of self.old).files file.0 ≡ true }
        requires within { size ≤ LONGEST_FILE }
        ensures does { Does W.told W.faults watch.old watch.new self.old self.new (CutsFile file.0 size ∷ []) result }
    {
        match self.cluster.file_truncate(self.by, file, size, watch) {
            Err(halt) => return Err(halt),
            Ok(()) => return Ok(()),
        }
    }

    // A copy of bytes, unless a halt is kept. Where memory runs out for it, that is kept.
    pub(crate) fn own_copy(&mut self, bytes: &[u8]) -> Result<Bytes, Halt>
        ensures copy { IfOk result (λ copy. copy ≡ bytes.now) }
        ensures same { OnOk result (self.new ≡ self.old) }
        ensures goes { OnOk result (self.old.whole.halt ≡ None) }
        ensures err { IfErr result (Lacks self.old self.new) }
    {
        match self.cluster.halted() {
            Some(halt) => return Err(halt),
            None => {}
        }
        match Bytes::from_slice(self.alloc, bytes) {
            Err(_) => {
                self.cluster.out_of_memory();
                return Err(Halt::NoMemory);
            }
            Ok(copy) => return Ok(copy),
        }
    }
}

// Where a reading starts: no bytes may start past the end of any file.
fn start_of(off: u64, len: u64) -> u64
    ensures { result ≡ if len == 0 then 0 else off }
{
    if len == 0 { 0 } else { off }
}

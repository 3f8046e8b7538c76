//! Bytes of a file over several blocks.

ghost use Rattle.std.specs.Prelude.{◌≡◌, ◌+◌, ◌≤◌, ◌++◌, IfOk, None, OnErr, OnOk, length, true};
ghost use Rattle.lego_base.specs.Files.{file_bytes};
ghost use Rattle.lego_base.specs.Pieces.{piece};
ghost use Rattle.lego_msg.specs.Granted.{FileFits};
ghost use Rattle.lego_msg.specs.Places.{is_issuer};
ghost use Rattle.lego_msg.specs.Plain.{Plain};
ghost use Rattle.cluster.specs.Blocks.{all_bytes, bytes_told, reads_of, with_written, writes_of};

use crate::Cluster;
use lego_base::{Bytes, FileNo, Halt, NoMemory};
use lego_msg::{Body, Operation, Place, Watch};
use std::alloc::Global;

const BLOCK: u64 = 4096; // bytes of a block

impl Cluster {
    ghost use Rattle.cluster.specs.Sequences.{CallsAll, all_served};
    ghost use Rattle.cluster.specs.Standing.{IsAtRestWith, StandsFor};

    /// Bytes of a file, `len` of them starting at `off`, block by block.
    pub fn read_file<W: Watch>(
        &mut self,
        by: Place,
        file: FileNo,
        off: u64,
        len: u64,
        watch: &mut W,
    ) -> Result<Bytes, Halt>
        requires issuer { is_issuer by ≡ true }
        requires most { off + len ≤ 16777216 }
        requires rests { self.old.halt ≡ None → IsAtRestWith self.old (λ f. FileFits f file) }
        ensures call { CallsAll W.told W.faults watch.old watch.new self.old self.new by (reads_of file off len) (λ bytes. all_served by (reads_of file off len)) result }
        ensures bytes { IfOk result (λ bytes. (f : Plain) → StandsFor self.old f → FileFits f file → off + len ≤ length (file_bytes f.files.files file.0) → bytes ≡ piece (file_bytes f.files.files file.0) off len) }
    {
        match self.halted() {
            Some(halt) => return Err(halt),
            None => {}
        }
        let alloc = self.alloc();
        match reads_of(alloc, file, off, len) {
            Err(_) => {
                self.out_of_memory();
                return Err(Halt::NoMemory);
            }
            Ok(reads) => match self.ask_all(by, reads, watch) {
                Err(halt) => return Err(halt),
                Ok(answers) => match all_bytes(alloc, answers.as_slice()) {
                    Err(_) => {
                        self.out_of_memory();
                        return Err(Halt::NoMemory);
                    }
                    Ok(bytes) => return Ok(bytes),
                },
            },
        }
    }

    /// Bytes are written into a file starting at `off`, block by block. The file grows with them.
    pub fn write_file<W: Watch>(
        &mut self,
        by: Place,
        file: FileNo,
        off: u64,
        bytes: &[u8],
        watch: &mut W,
    ) -> Result<(), Halt>
        requires issuer { is_issuer by ≡ true }
        requires most { off + length bytes.now ≤ 16777216 }
        requires rests { self.old.halt ≡ None → IsAtRestWith self.old (λ f. FileFits f file) }
        ensures call { CallsAll W.told W.faults watch.old watch.new self.old self.new by (writes_of file off bytes.now) (λ done. all_served by (writes_of file off bytes.now)) result }
        ensures stands { OnOk result ((f : Plain) → StandsFor self.old f → FileFits f file → StandsFor self.new (with_written file off bytes.now f)) }
    {
        match self.halted() {
            Some(halt) => return Err(halt),
            None => {}
        }
        let alloc = self.alloc();
        match writes_of(alloc, file, off, bytes) {
            Err(_) => {
                self.out_of_memory();
                return Err(Halt::NoMemory);
            }
            Ok(writes) => match self.ask_all(by, writes, watch) {
                Err(halt) => return Err(halt),
                Ok(_) => return Ok(()),
            },
        }
    }
}

// The reads of bytes of a file, one a block.
fn reads_of(alloc: Global, file: FileNo, off: u64, len: u64) -> Result<Vec<Operation>, NoMemory>
    requires { off + len ≤ 16777216 }
    ensures { IfOk result (λ reads. reads.items ≡ reads_of file off len) }
{
    let mut reads = Vec::new(alloc);
    let mut at = off;
    let mut left = len;
    while left > 0 {
        let in_block = at % BLOCK;
        let count = left.min(BLOCK - in_block);
        reads.push(Operation::ReadsFile {
            file,
            block: at / BLOCK,
            off: in_block,
            len: count,
        })?;
        at += count;
        left -= count;
    }
    Ok(reads)
}

// The writes of bytes into a file, one a block.
fn writes_of(
    alloc: Global,
    file: FileNo,
    off: u64,
    bytes: &[u8],
) -> Result<Vec<Operation>, NoMemory>
    requires { off + length bytes.now ≤ 16777216 }
    ensures { IfOk result (λ writes. writes.items ≡ writes_of file off bytes.now) }
{
    let mut writes = Vec::new(alloc);
    let mut at = off;
    let mut rest = bytes;
    while rest.len() > 0 {
        let in_block = at % BLOCK;
        let count = rest.len().min((BLOCK - in_block) as usize);
        let (first, later) = rest.split_at(count);
        writes.push(Operation::WritesFile {
            file,
            block: at / BLOCK,
            off: in_block,
            bytes: Bytes::from_slice(alloc, first)?,
        })?;
        at += count as u64;
        rest = later;
    }
    Ok(writes)
}

// The bytes of answers, one after the other.
fn all_bytes(alloc: Global, answers: &[Body]) -> Result<Bytes, NoMemory>
    ensures { IfOk result (λ bytes. bytes ≡ all_bytes answers.now) }
{
    let mut joined = Vec::new(alloc);
    for answer in answers {
        add_bytes(&mut joined, answer)?;
    }
    Bytes::from_vec(joined)
}

// Adds the bytes of an answer that has some.
fn add_bytes(joined: &mut Vec<u8>, answer: &Body) -> Result<(), NoMemory>
    ensures ok { OnOk result (joined.new.items ≡ joined.old.items ++ bytes_told answer.now) }
    ensures err { OnErr result (joined.new.items ≡ joined.old.items) }
{
    match answer {
        Body::FileBytes { bytes } => {
            joined.extend_from_slice(bytes.as_slice())?;
            Ok(())
        }
        _ => Ok(()),
    }
}

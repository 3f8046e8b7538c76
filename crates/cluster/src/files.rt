//! Files: their lengths and their blocks.

ghost use Rattle.std.specs.Prelude.{◌≡◌, ◌≤◌, IfOk, None, length, true};
ghost use Rattle.lego_base.specs.Files.{file_bytes};
ghost use Rattle.lego_msg.specs.Form.{IsInBlock};
ghost use Rattle.lego_msg.specs.Granted.{FileFits};
ghost use Rattle.lego_msg.specs.Places.{is_issuer};
ghost use Rattle.lego_msg.specs.Plain.{Plain};
ghost use Rattle.lego_msg.specs.declared.body.Body.TheVariants.{Done, FileBytes, SizeIs};
ghost use Rattle.lego_msg.specs.declared.operation.Operation.TheVariants.{AsksSize, CutsFile, FreesFile, ReadsFile, WritesFile};
ghost use Rattle.cluster.specs.Answers.{IsBytes, IsSize, bytes_at};

use crate::Cluster;
use lego_base::{Bytes, FileNo, Halt};
use lego_msg::{Body, Operation, Place, Watch};

impl Cluster {
    ghost use Rattle.cluster.specs.Calls.{Calls};
    ghost use Rattle.cluster.specs.Standing.{IsAtRest, IsAtRestWith, StandsFor};

    /// The length of a file, in bytes.
    pub fn file_size<W: Watch>(
        &mut self,
        by: Place,
        file: FileNo,
        watch: &mut W,
    ) -> Result<u64, Halt>
        requires issuer { is_issuer by ≡ true }
        requires rests { self.old.halt ≡ None → IsAtRestWith self.old (λ f. FileFits f file) }
        ensures call { Calls W.told W.faults watch.old watch.new self.old self.new by (AsksSize file) SizeIs result }
        ensures size { IfOk result (λ size. (f : Plain) → StandsFor self.old f → FileFits f file → size ≡ length (file_bytes f.files.files file.0)) }
    {
        match self.ask(by, Operation::AsksSize { file }, watch) {
            Err(halt) => return Err(halt),
            Ok(body) => return Ok(size_in(body)),
        }
    }

    /// Bytes of one block of 4096 bytes of a file, with zeros past its end.
    pub fn read_block<W: Watch>(
        &mut self,
        by: Place,
        file: FileNo,
        block: u64,
        off: u64,
        len: u64,
        watch: &mut W,
    ) -> Result<Bytes, Halt>
        requires issuer { is_issuer by ≡ true }
        requires within { IsInBlock block off len }
        requires rests { self.old.halt ≡ None → IsAtRestWith self.old (λ f. FileFits f file) }
        ensures call { Calls W.told W.faults watch.old watch.new self.old self.new by (ReadsFile file block off len) FileBytes result }
        ensures bytes { IfOk result (λ bytes. (f : Plain) → StandsFor self.old f → FileFits f file → bytes ≡ bytes_at f file.0 block off len) }
    {
        match self.ask(
            by,
            Operation::ReadsFile {
                file,
                block,
                off,
                len,
            },
            watch,
        ) {
            Err(halt) => return Err(halt),
            Ok(body) => return Ok(bytes_in(body)),
        }
    }

    /// Bytes are written into one block of 4096 bytes of a file, which grows with them.
    pub fn write_block<W: Watch>(
        &mut self,
        by: Place,
        file: FileNo,
        block: u64,
        off: u64,
        bytes: Bytes,
        watch: &mut W,
    ) -> Result<(), Halt>
        requires issuer { is_issuer by ≡ true }
        requires within { IsInBlock block off (length bytes) }
        requires rests { self.old.halt ≡ None → IsAtRestWith self.old (λ f. FileFits f file) }
        ensures call { Calls W.told W.faults watch.old watch.new self.old self.new by (WritesFile file block off bytes) (λ done. Done) result }
    {
        match self.ask(
            by,
            Operation::WritesFile {
                file,
                block,
                off,
                bytes,
            },
            watch,
        ) {
            Err(halt) => return Err(halt),
            Ok(_) => return Ok(()),
        }
    }

    /// The length of a file becomes `size` bytes.
    pub fn file_truncate<W: Watch>(
        &mut self,
        by: Place,
        file: FileNo,
        size: u64,
        watch: &mut W,
    ) -> Result<(), Halt>
        requires issuer { is_issuer by ≡ true }
        requires most { size ≤ 16777216 }
        requires rests { self.old.halt ≡ None → IsAtRestWith self.old (λ f. FileFits f file) }
        ensures call { Calls W.told W.faults watch.old watch.new self.old self.new by (CutsFile file size) (λ done. Done) result }
    {
        match self.ask(by, Operation::CutsFile { file, size }, watch) {
            Err(halt) => return Err(halt),
            Ok(_) => return Ok(()),
        }
    }

    /// A file that has no name goes.
    pub fn file_free<W: Watch>(
        &mut self,
        by: Place,
        file: FileNo,
        watch: &mut W,
    ) -> Result<(), Halt>
        requires issuer { is_issuer by ≡ true }
        requires rests { self.old.halt ≡ None → IsAtRest self.old }
        ensures call { Calls W.told W.faults watch.old watch.new self.old self.new by (FreesFile file) (λ done. Done) result }
    {
        match self.ask(by, Operation::FreesFile { file }, watch) {
            Err(halt) => return Err(halt),
            Ok(_) => return Ok(()),
        }
    }
}

fn size_in(body: Body) -> u64
    requires { IsSize body }
    ensures { body ≡ SizeIs result }
{
    match body {
        Body::SizeIs { size } => size,
        _ => unreachable!(),
    }
}

fn bytes_in(body: Body) -> Bytes
    requires { IsBytes body }
    ensures { body ≡ FileBytes result }
{
    match body {
        Body::FileBytes { bytes } => bytes,
        _ => unreachable!(),
    }
}

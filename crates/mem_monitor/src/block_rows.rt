//! The rows of files.

ghost use Rattle.std.specs.Prelude.{◌≡◌, IfOk, OnOk};
ghost use Rattle.lego_base.specs.Pieces.{piece as piece_at};

use crate::asker::Asker;
use crate::memory::Memory;
use lego_base::{Bytes, FileNo, NoMemory};
use lego_msg::{Body, Message, Outbox, Place};
use std::alloc::Global;

impl Memory {
    ghost use Rattle.std.specs.Prelude.{◌++◌, [], ◌∷◌};
    ghost use Rattle.lego_msg.specs.Places.{memory};
    ghost use Rattle.lego_msg.specs.declared.body.Body.TheVariants.{Done};
    ghost use Rattle.lego_msg.specs.declared.message.Message.{Message};
    ghost use Rattle.lego_msg.specs.declared.place.Place.{Place};
    ghost use Rattle.lego_msg.specs.declared.place.Place.TheVariants.{Storage};
    ghost use Rattle.lego_msg.specs.Table.{block_is_row, file_cut_row, file_read_row, file_write_row};
    ghost use Rattle.mem_monitor.specs.Rows.{Row, asking};

    // A cached block answers, and stands first then; else storage is asked for it.
    pub(crate) fn file_read(
        &mut self,
        alloc: Global,
        asker: Asker,
        file: FileNo,
        block: u64,
        off: u64,
        len: u64,
        out: &mut Outbox,
    ) -> Result<(), NoMemory>
        ensures { OnOk result (Row self.old self.new out.old out.new (file_read_row self.old (asking asker) file block off len)) }
    {
        let Some(bytes) = self.blocks.peek(file, block) else {
            let body = Body::BlockGet {
                file,
                block,
                off,
                len,
                asker: asker.place,
            };
            return self.ask_storage(asker, body, out);
        };
        let bytes = piece_of(alloc, bytes.as_slice(), off, len)?;
        self.blocks.touch(file, block);
        self.answer(asker, Body::FileBytes { bytes }, out)
    }

    // The block is cached, and the asker gets its bytes.
    pub(crate) fn block_is(
        &mut self,
        alloc: Global,
        asker: Asker,
        file: FileNo,
        block: u64,
        off: u64,
        len: u64,
        bytes: Bytes,
        out: &mut Outbox,
    ) -> Result<(), NoMemory>
        ensures { (from : Place) → let m : Message = record { from = from; to = from; op = asker.op; body = Done } in
            let row = block_is_row self.old m file.0 block off len asker.place bytes in
            OnOk result (Row self.old self.new out.old out.new row) }
    {
        let asked = piece_of(alloc, bytes.as_slice(), off, len)?;
        self.blocks.fill(file, block, bytes)?;
        self.answer(asker, Body::FileBytes { bytes: asked }, out)
    }

    // The cached block goes, and storage is asked to write.
    pub(crate) fn file_write(
        &mut self,
        asker: Asker,
        file: FileNo,
        block: u64,
        off: u64,
        bytes: Bytes,
        out: &mut Outbox,
    ) -> Result<(), NoMemory>
        ensures { OnOk result (Row self.old self.new out.old out.new (file_write_row self.old (asking asker) file block off bytes)) }
    {
        self.blocks.spoil(file, block);
        let body = Body::BlockPut {
            file,
            block,
            off,
            bytes,
            asker: asker.place,
        };
        self.ask_storage(asker, body, out)
    }

    // The file's cached blocks go, and storage is asked to set the size.
    pub(crate) fn file_cut(
        &mut self,
        asker: Asker,
        file: FileNo,
        size: u64,
        out: &mut Outbox,
    ) -> Result<(), NoMemory>
        ensures { OnOk result (Row self.old self.new out.old out.new (file_cut_row self.old (asking asker) file size)) }
    {
        self.blocks.spoil_file(file);
        let body = Body::BlockCut {
            file,
            size,
            asker: asker.place,
        };
        self.ask_storage(asker, body, out)
    }

    // Asks storage on behalf of an asker.
    fn ask_storage(&self, asker: Asker, body: Body, out: &mut Outbox) -> Result<(), NoMemory>
        ensures { OnOk result (out.new ≡ out.old ++ record { from = memory self.now.id; to = Storage; op = asker.op; body = body } ∷ []) }
    {
        out.push(Message {
            from: Place::Memory(self.id),
            to: Place::Storage,
            op: asker.op,
            body,
        })
    }
}

// At most `len` bytes, starting at `off`, in a piece of memory of their own.
fn piece_of(alloc: Global, bytes: &[u8], off: u64, len: u64) -> Result<Bytes, NoMemory>
    ensures { IfOk result (λ piece. piece ≡ piece_at bytes.now off len) }
{
    let start = off.min(bytes.len() as u64) as usize;
    let rest = &bytes[start..];
    let count = len.min(rest.len() as u64) as usize;
    Bytes::from_slice(alloc, &rest[..count])
}

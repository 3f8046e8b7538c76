//! Buffers of pieces.

ghost use Rattle.std.specs.Prelude.{◌≡◌, true, is_some, OnOk, IfOk, IfSome};
ghost use Rattle.linux_model.specs.Buffers.{are_good, asks_pieces, bytes_in, copies_in, copies_out, part};
ghost use Rattle.call_parts.specs.Pieces.{Each, PastFits, Within};

use call_machine::Machine;
use kernel_objects::Piece;
use lego_base::{Bytes, Halt, NoMemory, Pid};
use std::alloc::Global;

/// The permission that a copy from a space needs.
pub const TO_READ: u8 = 1;

/// The permission that a copy to a space needs.
pub const TO_WRITE: u8 = 2;

/// Whether each byte of each piece may be read or written. The areas of the pieces are asked for, up to the first piece that
/// isn't good.
pub fn check_pieces<M: Machine>(
    machine: &mut M,
    pid: Pid,
    pieces: &[Piece],
    need: u8,
) -> Result<bool, Halt>
    ensures does { OnOk result (M.does machine.old machine.new (asks_pieces pid.0 ((M.held machine.old).space pid.0) need pieces.now)) }
    ensures answer { IfOk result (λ good. good ≡ are_good ((M.held machine.old).space pid.0) need pieces.now) }
    ensures within { IfOk result (λ good. good ≡ true → Each Within pieces.now) }
    ensures held { OnOk result (M.held machine.new ≡ M.held machine.old) }
    ensures stops { M.stops machine.old machine.new (asks_pieces pid.0 ((M.held machine.old).space pid.0) need pieces.now) }
{
    for piece in pieces.iter() {
        if !machine.check_span(pid, piece.at, piece.size, need)? {
            return Ok(false);
        }
    }
    Ok(true)
}

/// The bytes of pieces that may be read.
pub fn read_pieces<M: Machine>(
    machine: &mut M,
    alloc: Global,
    pid: Pid,
    pieces: &[Piece],
) -> Result<Vec<u8>, Halt>
    requires good { are_good ((M.held machine.old).space pid.0) 1 pieces.now ≡ true }
    ensures does { OnOk result (M.does machine.old machine.new (copies_in pid.0 ((M.held machine.old).space pid.0) pieces.now)) }
    ensures answer { IfOk result (λ bytes. bytes.items ≡ bytes_in ((M.held machine.old).space pid.0) pieces.now) }
    ensures held { OnOk result (M.held machine.new ≡ M.held machine.old) }
    ensures stops { M.stops machine.old machine.new (copies_in pid.0 ((M.held machine.old).space pid.0) pieces.now) }
{
    let mut joined = Vec::new(alloc);
    for piece in pieces.iter() {
        let Some(bytes) = machine.copy_in(alloc, pid, piece.at, piece.size)? else {
            unreachable!() // they may be read
        };
        joined.extend_from_slice(bytes.as_slice())?;
    }
    Ok(joined)
}

/// Writes bytes into pieces that may be written, in order, as far as the bytes or the pieces go.
pub fn write_pieces<M: Machine>(
    machine: &mut M,
    pid: Pid,
    pieces: &[Piece],
    bytes: &[u8],
) -> Result<(), Halt>
    requires good { are_good ((M.held machine.old).space pid.0) 2 pieces.now ≡ true }
    ensures does { OnOk result (M.does machine.old machine.new (copies_out pid.0 pieces.now bytes.now)) }
    ensures stops { M.stops machine.old machine.new (copies_out pid.0 pieces.now bytes.now) }
{
    let mut rest = bytes;
    for piece in pieces.iter() {
        let count = rest.len().min(piece.size as usize);
        let (first, later) = rest.split_at(count);
        machine.copy_out(pid, piece.at, first)?;
        rest = later;
    }
    Ok(())
}

/// The part of joined pieces that has `len` bytes and stands after `skip` bytes.
pub fn part(alloc: Global, pieces: &[Piece], skip: u64, len: u64) -> Result<Vec<Piece>, NoMemory>
    requires within { Each (PastFits skip) pieces.now }
    ensures { IfOk result (λ parts. parts.items ≡ part skip len pieces.now) }
{
    let mut parts = Vec::with_capacity(alloc, pieces.len())?;
    let mut skip = skip;
    let mut len = len;
    for piece in pieces.iter() {
        let Piece { at, size } = *piece;
        let past = skip.min(size);
        let taken = len.min(size - past);
        parts.push(Piece {
            at: at + past,
            size: taken,
        })?;
        skip -= past;
        len -= taken;
    }
    Ok(parts)
}

/// The first `len` bytes of joined pieces, where they may be written. Only their areas are asked for.
pub fn writable_part<M: Machine>(
    machine: &mut M,
    alloc: Global,
    pid: Pid,
    pieces: &[Piece],
    len: u64,
) -> Result<Option<Vec<Piece>>, Halt>
    ensures does { OnOk result (M.does machine.old machine.new (asks_pieces pid.0 ((M.held machine.old).space pid.0) 2 (part 0 len pieces.now))) }
    ensures held { OnOk result (M.held machine.new ≡ M.held machine.old) }
    ensures good { IfOk result (λ parts. is_some parts ≡ are_good ((M.held machine.old).space pid.0) 2 (part 0 len pieces.now)) }
    ensures parts { IfOk result (λ found. IfSome found (λ parts. parts.items ≡ part 0 len pieces.now)) }
    ensures stops { M.stops machine.old machine.new (asks_pieces pid.0 ((M.held machine.old).space pid.0) 2 (part 0 len pieces.now)) }
{
    let parts = part(alloc, pieces, 0, len)?;
    if check_pieces(machine, pid, parts.as_slice(), TO_WRITE)? {
        Ok(Some(parts))
    } else {
        Ok(None)
    }
}

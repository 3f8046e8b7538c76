//! readv(2) and writev(2).

ghost use Rattle.std.specs.Prelude.{◌≡◌, ◌-◌, ◌*◌, ◌^◌, ℕ, length, min, true, IfOk, OnOk};
ghost use Rattle.linux_model.specs.Buffers.{pieces_of, total};
ghost use Rattle.linux_model.specs.FileCalls.{readv_row, writev_row};
ghost use Rattle.call_machine.specs.Lent.{Ends, FitTogether, Stops};
ghost use Rattle.call_parts.specs.Numbered.{CanDie, IfDies, StaysAlive};
ghost use Rattle.manager.specs.Words.{is_alive};
ghost use Rattle.sys_io.specs.Vectors.{IsVector, vector_looks};

use crate::opened::{readable, writable};
use crate::reading::read_to;
use crate::writing::write_from;
use call_machine::errno::{EBADF, EFAULT, EINVAL};
use call_machine::{CallEnd, Machine};
use call_parts::{TO_READ, word_of};
use kernel_objects::Piece;
use lego_base::{Halt, LONGEST_FILE, NoMemory, Pid};
use manager::Manager;
use std::alloc::Global;

/// The most pieces, as IOV_MAX has it.
const MOST_PIECES: u64 = 1024;

/// Bytes of a piece in the list: an address and a length, of 8 bytes each.
const ENTRY_BYTES: u64 = 16;

/// The pieces of a list, and how many bytes they have.
#[derive(Drop)]
struct Vector {
    pieces: Vec<Piece>,
    total: u64,
}

/// readv(2): bytes of what the descriptor is open on go to pieces of the process in order. As read(2), or EINVAL for more than
/// 1024 pieces or 16 MiB.
pub fn sys_readv<M: Machine>(
    machine: &mut M,
    man: &mut Manager,
    alloc: Global,
    pid: Pid,
    fd: u64,
    address: u64,
    count: u64,
) -> Result<CallEnd, Halt>
    requires fit { FitTogether man.old (M.held machine.old) }
    ensures ends { Ends M.held M.does machine.old machine.new man.old man.new pid.0 (λ p k. readv_row p k fd address count) result }
    ensures stops { Stops M.held M.stops machine.old machine.new man.old pid.0 (λ p k. readv_row p k fd address count) }
    ensures lives { IfOk result StaysAlive }
{
    let Some(found) = readable(man, pid, fd) else {
        return Ok(CallEnd::Value(EBADF));
    };
    match read_vector(machine, alloc, pid, address, count)? {
        Ok(vector) => {
            let pieces = vector.pieces.as_slice();
            read_to(machine, man, alloc, pid, &found, pieces, vector.total)
        }
        Err(errno) => Ok(CallEnd::Value(errno)),
    }
}

/// writev(2): bytes of pieces of the process go in order to what the descriptor is open on. As write(2), or EINVAL for more
/// than 1024 pieces or 16 MiB.
pub fn sys_writev<M: Machine>(
    machine: &mut M,
    man: &mut Manager,
    alloc: Global,
    pid: Pid,
    fd: u64,
    address: u64,
    count: u64,
) -> Result<CallEnd, Halt>
    requires alive { is_alive pid.0 man.old ≡ true }
    requires fit { FitTogether man.old (M.held machine.old) }
    ensures ends { Ends M.held M.does machine.old machine.new man.old man.new pid.0 (λ p k. writev_row p k fd address count) result }
    ensures stops { Stops M.held M.stops machine.old machine.new man.old pid.0 (λ p k. writev_row p k fd address count) }
    ensures dies { IfOk result (λ end. IfDies end (CanDie man.new (M.held machine.new) pid.0)) }
{
    let Some(found) = writable(man, pid, fd) else {
        return Ok(CallEnd::Value(EBADF));
    };
    match read_vector(machine, alloc, pid, address, count)? {
        Ok(vector) => {
            let pieces = vector.pieces.as_slice();
            write_from(machine, man, alloc, pid, &found, pieces, vector.total)
        }
        Err(errno) => Ok(CallEnd::Value(errno)),
    }
}

// The list of pieces at an address.
fn read_vector<M: Machine>(
    machine: &mut M,
    alloc: Global,
    pid: Pid,
    address: u64,
    count: u64,
) -> Result<Result<Vector, u64>, Halt>
    ensures does { OnOk result (M.does machine.old machine.new (vector_looks pid.0 ((M.held machine.old).space pid.0) address count)) }
    ensures held { OnOk result (M.held machine.new ≡ M.held machine.old) }
    ensures is { IfOk result (IsVector ((M.held machine.old).space pid.0) address count) }
    ensures stops { M.stops machine.old machine.new (vector_looks pid.0 ((M.held machine.old).space pid.0) address count) }
{
    if count > MOST_PIECES {
        return Ok(Err(EINVAL));
    }
    let len = ENTRY_BYTES * count;
    if !machine.check_span(pid, address, len, TO_READ)? {
        return Ok(Err(EFAULT));
    }
    let Some(bytes) = machine.copy_in(alloc, pid, address, len)? else {
        unreachable!() // they may be read
    };
    let pieces = pieces_of(alloc, bytes.as_slice())?;
    let total = total_of(pieces.as_slice());
    if total > LONGEST_FILE as u64 {
        return Ok(Err(EINVAL));
    }
    Ok(Ok(Vector { pieces, total }))
}

// The pieces in entries of 16 bytes.
fn pieces_of(alloc: Global, bytes: &[u8]) -> Result<Vec<Piece>, NoMemory>
    ensures { (n : ℕ) → length bytes.now ≡ 16 * n → IfOk result (λ pieces. pieces.items ≡ pieces_of n bytes.now) }
{
    let mut pieces = Vec::with_capacity(alloc, bytes.len() / 16)?;
    let mut rest = bytes;
    while rest.len() >= 16 {
        let (entry, later) = rest.split_at(16);
        let (at, size) = entry.split_at(8);
        pieces.push(Piece {
            at: word_of(at),
            size: word_of(size),
        })?;
        rest = later;
    }
    Ok(pieces)
}

// How many bytes pieces have; the greatest word where that is more.
fn total_of(pieces: &[Piece]) -> u64
    ensures { result ≡ min (total pieces.now) (2 ^ 64 - 1) }
{
    let mut total: u64 = 0;
    for piece in pieces.iter() {
        total = total.saturating_add(piece.size);
    }
    total
}

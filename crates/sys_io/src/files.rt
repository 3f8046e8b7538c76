//! Bytes of files, at an offset.

ghost use Rattle.std.specs.Prelude.{◌≡◌, ◌+◌, ◌<◌, ◌^◌, true, IfOk, IfSome};
ghost use Rattle.lego_base.specs.Files.{is_file};
ghost use Rattle.linux_model.specs.Buffers.{are_good, total};
ghost use Rattle.linux_model.specs.FileCalls.{reads_file, writes_at};
ghost use Rattle.sys_io.specs.Moving.{Moves, MoveStops, Writes};
ghost use Rattle.sys_io.specs.Rows.{place_write};

use call_machine::Machine;
use call_machine::errno::{EFAULT, EFBIG};
use call_parts::{TO_READ, check_pieces, read_pieces, writable_part, write_pieces};
use kernel_objects::Piece;
use lego_base::{FileNo, Halt, LONGEST_FILE, Pid};
use std::alloc::Global;

/// The flag of open(2) that writes go to the end.
const O_APPEND: u32 = 0x400;

/// Reads at most `n` bytes of a file at an offset into pieces. How many were read; `None` where one of the bytes that they
/// would go to may not be written.
pub fn read_at<M: Machine>(
    machine: &mut M,
    alloc: Global,
    pid: Pid,
    file: FileNo,
    off: u64,
    pieces: &[Piece],
    n: u64,
) -> Result<Option<u64>, Halt>
    requires there { is_file (M.held machine.old).files file.0 ≡ true }
    ensures moves { Moves M.held M.does machine.old machine.new pid.0 (λ after p k. reads_file p k file.0 off pieces.now n after) result }
    ensures within { IfOk result (λ moved. IfSome moved (λ count. off + count < 2 ^ 64)) }
    ensures stops { MoveStops M.held M.stops machine.old machine.new pid.0 (λ after p k. reads_file p k file.0 off pieces.now n after) }
{
    let size = machine.size(file)?;
    let count = n.min(size.saturating_sub(off));
    let Some(parts) = writable_part(machine, alloc, pid, pieces, count)? else {
        return Ok(None);
    };
    let bytes = machine.read(alloc, file, off, count)?;
    write_pieces(machine, pid, parts.as_slice(), bytes.as_slice())?;
    Ok(Some(count))
}

/// Writes pieces to a file at an offset, or at its size where it is open to append. The place after what was written, or EFAULT
/// where one of the bytes may not be read, and EFBIG past 16 MiB.
pub fn write_at<M: Machine>(
    machine: &mut M,
    alloc: Global,
    pid: Pid,
    file: FileNo,
    flags: u32,
    off: u64,
    pieces: &[Piece],
    n: u64,
) -> Result<Result<u64, u64>, Halt>
    requires there { is_file (M.held machine.old).files file.0 ≡ true }
    requires all { total pieces.now ≡ n }
    ensures writes { Writes M.held M.does machine.old machine.new pid.0 n (place_write file.0 flags off pieces.now n) result }
    ensures stops { MoveStops M.held M.stops machine.old machine.new pid.0 (place_write file.0 flags off pieces.now n) }
{
    if !check_pieces(machine, pid, pieces, TO_READ)? {
        return Ok(Err(EFAULT));
    }
    if flags & O_APPEND == O_APPEND {
        let size = machine.size(file)?;
        put_at(machine, alloc, pid, file, size, pieces, n)
    } else {
        put_at(machine, alloc, pid, file, off, pieces, n)
    }
}

// Writes pieces that may be read to a file at an offset.
fn put_at<M: Machine>(
    machine: &mut M,
    alloc: Global,
    pid: Pid,
    file: FileNo,
    at: u64,
    pieces: &[Piece],
    n: u64,
) -> Result<Result<u64, u64>, Halt>
    requires there { is_file (M.held machine.old).files file.0 ≡ true }
    requires good { are_good ((M.held machine.old).space pid.0) 1 pieces.now ≡ true }
    requires all { total pieces.now ≡ n }
    ensures writes { Writes M.held M.does machine.old machine.new pid.0 n (λ after p k. writes_at p k file.0 at pieces.now n after) result }
    ensures stops { MoveStops M.held M.stops machine.old machine.new pid.0 (λ after p k. writes_at p k file.0 at pieces.now n after) }
{
    let end = at.saturating_add(n);
    if end > LONGEST_FILE as u64 {
        return Ok(Err(EFBIG));
    }
    let bytes = read_pieces(machine, alloc, pid, pieces)?;
    machine.write(file, at, bytes.as_slice())?;
    Ok(Ok(end))
}

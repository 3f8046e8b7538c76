//! write(2) and pwrite64(2).

ghost use Rattle.std.specs.Prelude.{◌≡◌, ◌-◌, ◌≤◌, length, true, Some, is_some, IfOk, OnOk};
ghost use Rattle.kernel_objects.specs.Slots.{slot};
ghost use Rattle.lego_base.specs.Files.{is_file};
ghost use Rattle.linux_model.specs.Buffers.{are_good, bytes_in, part, total};
ghost use Rattle.linux_model.specs.Effects.{bytes_in_pipe, PutsPipe};
ghost use Rattle.linux_model.specs.Limits.{PIPE_BYTES};
ghost use Rattle.linux_model.specs.Managed.{managed_after};
ghost use Rattle.linux_model.specs.FileCalls.{moved_before, pwrite64_row, write_row, writes_long, writes_pieces, writes_short};
ghost use Rattle.call_machine.specs.Lent.{Answers, Ends, FitTogether, Stops};
ghost use Rattle.call_parts.specs.Numbered.{CanDie, IfDies, StaysAlive};
ghost use Rattle.call_parts.specs.Pieces.{Each, Within};
ghost use Rattle.manager.specs.Words.{is_alive, open_of};
ghost use Rattle.sys_io.specs.Moving.{puts_part};
ghost use Rattle.sys_io.specs.Rows.{file_write, pipe_write, stream_write};

use crate::files::write_at;
use crate::opened::writable;
use call_machine::errno::{EBADF, EFAULT, EINVAL, ESPIPE};
use call_machine::{CallEnd, Machine};
use call_parts::{TO_READ, check_pieces, part, read_pieces};
use kernel_objects::{Object, Piece, Stream, Waiting};
use lego_base::{FileNo, Halt, LONGEST_FILE, Pid};
use manager::{Manager, Opened};
use std::alloc::Global;

/// The most bytes that go into a pipe at once, as in pipe(7).
const PIPE_BUF: u64 = 4096;

/// The signal that kills who writes to a pipe without readers, as the wait status.
const SIGPIPE: u32 = 13;

/// write(2): bytes of the process go to what the descriptor is open on, at most 16 MiB. How many, or EBADF where it isn't open
/// to be written, EFAULT, and EFBIG past 16 MiB of a file. At a pipe without the room the process waits, at one that nobody
/// reads it dies.
pub fn sys_write<M: Machine>(
    machine: &mut M,
    man: &mut Manager,
    alloc: Global,
    pid: Pid,
    fd: u64,
    address: u64,
    len: u64,
) -> Result<CallEnd, Halt>
    requires alive { is_alive pid.0 man.old ≡ true }
    requires fit { FitTogether man.old (M.held machine.old) }
    ensures ends { Ends M.held M.does machine.old machine.new man.old man.new pid.0 (λ p k. write_row p k fd address len) result }
    ensures stops { Stops M.held M.stops machine.old machine.new man.old pid.0 (λ p k. write_row p k fd address len) }
    ensures dies { IfOk result (λ end. IfDies end (CanDie man.new (M.held machine.new) pid.0)) }
{
    let Some(found) = writable(man, pid, fd) else {
        return Ok(CallEnd::Value(EBADF));
    };
    let piece = Piece {
        at: address,
        size: len.min(LONGEST_FILE as u64),
    };
    write_from(machine, man, alloc, pid, &found, &[piece], piece.size)
}

/// pwrite64(2): bytes of the process go to a file at an offset, or to its end where it is open to append; the offset of the
/// description stays. How many, or EINVAL for a negative offset, EBADF where the descriptor isn't open to be written, ESPIPE
/// where it isn't open on a file, EFAULT, and EFBIG.
pub fn sys_pwrite64<M: Machine>(
    machine: &mut M,
    man: &Manager,
    alloc: Global,
    pid: Pid,
    fd: u64,
    address: u64,
    len: u64,
    off: u64,
) -> Result<u64, Halt>
    requires fit { FitTogether man.now (M.held machine.old) }
    ensures answers { Answers M.held M.does machine.old machine.new man.now man.now pid.0 (λ p k. pwrite64_row p k fd address len off) result }
    ensures stops { Stops M.held M.stops machine.old machine.new man.now pid.0 (λ p k. pwrite64_row p k fd address len off) }
{
    if off >= 1 << 63 {
        return Ok(EINVAL);
    }
    let Some(found) = writable(man, pid, fd) else {
        return Ok(EBADF);
    };
    let Object::Regular(file) = found.is.object else {
        return Ok(ESPIPE);
    };
    if len == 0 {
        return Ok(0);
    }
    let n = len.min(LONGEST_FILE as u64);
    let piece = Piece {
        at: address,
        size: n,
    };
    match write_at(machine, alloc, pid, file, found.is.flags, off, &[piece], n)? {
        Ok(_end) => Ok(n),
        Err(errno) => Ok(errno),
    }
}

/// Writes pieces of `n` bytes in all to what is open.
pub fn write_from<M: Machine>(
    machine: &mut M,
    man: &mut Manager,
    alloc: Global,
    pid: Pid,
    found: &Opened,
    pieces: &[Piece],
    n: u64,
) -> Result<CallEnd, Halt>
    requires alive { is_alive pid.0 man.old ≡ true }
    requires fit { FitTogether man.old (M.held machine.old) }
    requires there { slot man.old.descs found.now.desc ≡ Some found.now.is }
    requires all { total pieces.now ≡ n }
    ensures ends { Ends M.held M.does machine.old machine.new man.old man.new pid.0 (λ p k. writes_pieces p k (open_of found.now) pieces.now n) result }
    ensures stops { Stops M.held M.stops machine.old machine.new man.old pid.0 (λ p k. writes_pieces p k (open_of found.now) pieces.now n) }
    ensures dies { IfOk result (λ end. IfDies end (CanDie man.new (M.held machine.new) pid.0)) }
{
    if n == 0 {
        return Ok(CallEnd::Value(0));
    }
    match found.is.object {
        Object::Output(stream) => write_stream(machine, man, alloc, pid, stream, pieces, n),
        Object::Regular(file) => write_file(machine, man, alloc, pid, found, file, pieces, n),
        Object::PipeWrite(pipe) => write_pipe(machine, man, alloc, pid, pipe, pieces, n),
        Object::Input | Object::PipeRead(_) => Ok(CallEnd::Value(EBADF)),
    }
}

// Writes to standard output or standard error, which take all bytes.
fn write_stream<M: Machine>(
    machine: &mut M,
    man: &Manager,
    alloc: Global,
    pid: Pid,
    stream: Stream,
    pieces: &[Piece],
    n: u64,
) -> Result<CallEnd, Halt>
    ensures ends { Ends M.held M.does machine.old machine.new man.now man.now pid.0 (stream_write stream pieces.now n) result }
    ensures stops { Stops M.held M.stops machine.old machine.new man.now pid.0 (stream_write stream pieces.now n) }
    ensures lives { IfOk result StaysAlive }
{
    if !check_pieces(machine, pid, pieces, TO_READ)? {
        return Ok(CallEnd::Value(EFAULT));
    }
    let bytes = read_pieces(machine, alloc, pid, pieces)?;
    machine.put_out(stream, bytes.as_slice());
    Ok(CallEnd::Value(n))
}

// Writes to a file at the offset of its description, or at its size where it is open to append. The offset moves past what was
// written.
fn write_file<M: Machine>(
    machine: &mut M,
    man: &mut Manager,
    alloc: Global,
    pid: Pid,
    found: &Opened,
    file: FileNo,
    pieces: &[Piece],
    n: u64,
) -> Result<CallEnd, Halt>
    requires file { is_file (M.held machine.old).files file.0 ≡ true }
    requires there { slot man.old.descs found.now.desc ≡ Some found.now.is }
    requires all { total pieces.now ≡ n }
    ensures ends { Ends M.held M.does machine.old machine.new man.old man.new pid.0 (file_write (open_of found.now) file.0 pieces.now n) result }
    ensures stops { Stops M.held M.stops machine.old machine.new man.old pid.0 (file_write (open_of found.now) file.0 pieces.now n) }
    ensures lives { IfOk result StaysAlive }
{
    let is = found.is;
    match write_at(machine, alloc, pid, file, is.flags, is.offset, pieces, n)? {
        Ok(end) => {
            man.set_offset(found.desc, end);
            Ok(CallEnd::Value(n))
        }
        Err(errno) => Ok(CallEnd::Value(errno)),
    }
}

// Writes to a pipe. Who writes to one without readers dies.
fn write_pipe<M: Machine>(
    machine: &mut M,
    man: &mut Manager,
    alloc: Global,
    pid: Pid,
    pipe: u16,
    pieces: &[Piece],
    n: u64,
) -> Result<CallEnd, Halt>
    requires alive { is_alive pid.0 man.old ≡ true }
    requires fit { FitTogether man.old (M.held machine.old) }
    requires there { is_some (slot man.old.pipes pipe) ≡ true }
    requires all { total pieces.now ≡ n }
    ensures ends { Ends M.held M.does machine.old machine.new man.old man.new pid.0 (pipe_write pipe pieces.now n) result }
    ensures stops { Stops M.held M.stops machine.old machine.new man.old pid.0 (pipe_write pipe pieces.now n) }
    ensures dies { IfOk result (λ end. IfDies end (CanDie man.new (M.held machine.new) pid.0)) }
{
    let state = man.pipe_state(pipe);
    if state.readers == 0 {
        return Ok(CallEnd::Dies(SIGPIPE));
    }
    if !check_pieces(machine, pid, pieces, TO_READ)? {
        return Ok(CallEnd::Value(EFAULT));
    }
    let room = state.room as u64;
    if n <= PIPE_BUF {
        put_short(machine, man, alloc, pid, pipe, pieces, n, room)
    } else {
        put_long(machine, man, alloc, pid, pipe, pieces, n, room)
    }
}

// Puts at most 4096 bytes of pieces that may be read into a pipe: all, or the process waits.
fn put_short<M: Machine>(
    machine: &mut M,
    man: &mut Manager,
    alloc: Global,
    pid: Pid,
    pipe: u16,
    pieces: &[Piece],
    n: u64,
    room: u64,
) -> Result<CallEnd, Halt>
    requires there { is_some (slot man.old.pipes pipe) ≡ true }
    requires good { are_good ((M.held machine.old).space pid.0) 1 pieces.now ≡ true }
    requires all { total pieces.now ≡ n }
    requires room { room ≡ PIPE_BYTES - length (bytes_in_pipe (slot man.old.pipes pipe)) }
    ensures ends { Ends M.held M.does machine.old machine.new man.old man.new pid.0 (λ p k. writes_short p k pipe pieces.now n) result }
    ensures stops { Stops M.held M.stops machine.old machine.new man.old pid.0 (λ p k. writes_short p k pipe pieces.now n) }
    ensures lives { IfOk result StaysAlive }
{
    if room < n {
        return Ok(CallEnd::Waits(Waiting { moved: 0, len: n }));
    }
    let bytes = read_pieces(machine, alloc, pid, pieces)?;
    man.pipe_put(pipe, bytes.as_slice());
    Ok(CallEnd::Value(n))
}

// Puts those of more bytes into a pipe that there is room for, after what the call has put in before; for the others the
// process waits.
fn put_long<M: Machine>(
    machine: &mut M,
    man: &mut Manager,
    alloc: Global,
    pid: Pid,
    pipe: u16,
    pieces: &[Piece],
    n: u64,
    room: u64,
) -> Result<CallEnd, Halt>
    requires alive { is_alive pid.0 man.old ≡ true }
    requires there { is_some (slot man.old.pipes pipe) ≡ true }
    requires good { are_good ((M.held machine.old).space pid.0) 1 pieces.now ≡ true }
    requires within { Each Within pieces.now }
    requires room { room ≡ PIPE_BYTES - length (bytes_in_pipe (slot man.old.pipes pipe)) }
    ensures ends { Ends M.held M.does machine.old machine.new man.old man.new pid.0 (λ p k. writes_long p k pipe pieces.now n (moved_before p.waiting)) result }
    ensures stops { Stops M.held M.stops machine.old machine.new man.old pid.0 (λ p k. writes_long p k pipe pieces.now n (moved_before p.waiting)) }
    ensures lives { IfOk result StaysAlive }
{
    let moved = moved_before(man.waiting(pid));
    if moved.saturating_add(room) < n {
        put_part(machine, man, alloc, pid, pipe, pieces, moved, room)?;
        return Ok(CallEnd::Waits(Waiting {
            moved: moved + room,
            len: n,
        }));
    }
    let left = n.saturating_sub(moved);
    put_part(machine, man, alloc, pid, pipe, pieces, moved, left)?;
    Ok(CallEnd::Value(n))
}

// Puts a part of pieces that may be read into a pipe that has room for it.
fn put_part<M: Machine>(
    machine: &mut M,
    man: &mut Manager,
    alloc: Global,
    pid: Pid,
    pipe: u16,
    pieces: &[Piece],
    skip: u64,
    count: u64,
) -> Result<(), Halt>
    requires there { is_some (slot man.old.pipes pipe) ≡ true }
    requires good { are_good ((M.held machine.old).space pid.0) 1 pieces.now ≡ true }
    requires within { Each Within pieces.now }
    requires room { count ≤ PIPE_BYTES - length (bytes_in_pipe (slot man.old.pipes pipe)) }
    ensures does { OnOk result (M.does machine.old machine.new (puts_part pid.0 ((M.held machine.old).space pid.0) pipe (part skip count pieces.now))) }
    ensures put { OnOk result (man.new ≡ managed_after (PutsPipe pipe (bytes_in ((M.held machine.old).space pid.0) (part skip count pieces.now))) man.old) }
    ensures stops { M.stops machine.old machine.new (puts_part pid.0 ((M.held machine.old).space pid.0) pipe (part skip count pieces.now)) }
{
    let parts = part(alloc, pieces, skip, count)?;
    let bytes = read_pieces(machine, alloc, pid, parts.as_slice())?;
    man.pipe_put(pipe, bytes.as_slice());
    Ok(())
}

// Bytes that a call which waits has moved at earlier tries.
fn moved_before(waiting: Option<Waiting>) -> u64
    ensures { result ≡ moved_before waiting }
{
    match waiting {
        Some(waiting) => waiting.moved,
        None => 0,
    }
}

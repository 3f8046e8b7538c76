//! read(2) and pread64(2).

ghost use Rattle.std.specs.Prelude.{◌≡◌, ◌<◌, [], nat_lt, if◌then◌else◌, true, Some, is_some, IfOk};
ghost use Rattle.kernel_objects.specs.Slots.{slot};
ghost use Rattle.lego_base.specs.Files.{is_file};
ghost use Rattle.linux_model.specs.Called.{says, Waits as WaitsWith};
ghost use Rattle.linux_model.specs.Effects.{pipe_bytes};
ghost use Rattle.linux_model.specs.FileCalls.{pread64_row, read_row, reads_pieces, reads_pipe};
ghost use Rattle.call_machine.specs.Lent.{Answers, ended, Ends, FitTogether, Stops};
ghost use Rattle.call_parts.specs.Numbered.{StaysAlive};
ghost use Rattle.manager.specs.Words.{open_of};
ghost use Rattle.sys_io.specs.Rows.{file_read, input_read};

use crate::files::read_at;
use crate::opened::readable;
use crate::sources::{take_from_pipe, take_input};
use call_machine::errno::{EBADF, EFAULT, EINVAL, ESPIPE};
use call_machine::{CallEnd, Machine};
use call_parts::{writable_part, write_pieces};
use kernel_objects::{Object, Piece, Waiting};
use lego_base::{FileNo, Halt, LONGEST_FILE, Pid};
use manager::{Manager, Opened};
use std::alloc::Global;

/// read(2): bytes of what the descriptor is open on go to the process, at most `len` of them and 16 MiB. How many, or EBADF
/// where it isn't open to be read, and EFAULT. At an empty pipe that somebody may write to the process waits.
pub fn sys_read<M: Machine>(
    machine: &mut M,
    man: &mut Manager,
    alloc: Global,
    pid: Pid,
    fd: u64,
    address: u64,
    len: u64,
) -> Result<CallEnd, Halt>
    requires fit { FitTogether man.old (M.held machine.old) }
    ensures ends { Ends M.held M.does machine.old machine.new man.old man.new pid.0 (λ p k. read_row p k fd address len) result }
    ensures stops { Stops M.held M.stops machine.old machine.new man.old pid.0 (λ p k. read_row p k fd address len) }
    ensures lives { IfOk result StaysAlive }
{
    let Some(found) = readable(man, pid, fd) else {
        return Ok(CallEnd::Value(EBADF));
    };
    let piece = Piece {
        at: address,
        size: len.min(LONGEST_FILE as u64),
    };
    read_to(machine, man, alloc, pid, &found, &[piece], piece.size)
}

/// pread64(2): bytes of a file at an offset go to the process; the offset of the description stays. How many, or EINVAL for a
/// negative offset, EBADF where the descriptor isn't open to be read, ESPIPE where it isn't open on a file, and EFAULT.
pub fn sys_pread64<M: Machine>(
    machine: &mut M,
    man: &Manager,
    alloc: Global,
    pid: Pid,
    fd: u64,
    address: u64,
    len: u64,
    off: u64,
) -> Result<u64, Halt>
    requires fit { FitTogether man.now (M.held machine.old) }
    ensures answers { Answers M.held M.does machine.old machine.new man.now man.now pid.0 (λ p k. pread64_row p k fd address len off) result }
    ensures stops { Stops M.held M.stops machine.old machine.new man.now pid.0 (λ p k. pread64_row p k fd address len off) }
{
    if off >= 1 << 63 {
        return Ok(EINVAL);
    }
    let Some(found) = readable(man, pid, fd) else {
        return Ok(EBADF);
    };
    let Object::Regular(file) = found.is.object else {
        return Ok(ESPIPE);
    };
    let piece = Piece {
        at: address,
        size: len.min(LONGEST_FILE as u64),
    };
    match read_at(machine, alloc, pid, file, off, &[piece], piece.size)? {
        Some(count) => Ok(count),
        None => Ok(EFAULT),
    }
}

/// Reads at most `n` bytes of what is open into pieces.
pub fn read_to<M: Machine>(
    machine: &mut M,
    man: &mut Manager,
    alloc: Global,
    pid: Pid,
    found: &Opened,
    pieces: &[Piece],
    n: u64,
) -> Result<CallEnd, Halt>
    requires fit { FitTogether man.old (M.held machine.old) }
    requires there { slot man.old.descs found.now.desc ≡ Some found.now.is }
    ensures ends { Ends M.held M.does machine.old machine.new man.old man.new pid.0 (λ p k. reads_pieces p k (open_of found.now) pieces.now n) result }
    ensures stops { Stops M.held M.stops machine.old machine.new man.old pid.0 (λ p k. reads_pieces p k (open_of found.now) pieces.now n) }
    ensures lives { IfOk result StaysAlive }
{
    if n == 0 {
        return Ok(CallEnd::Value(0));
    }
    match found.is.object {
        Object::Input => read_input(machine, man, alloc, pid, pieces, n),
        Object::Regular(file) => read_file(machine, man, alloc, pid, found, file, pieces, n),
        Object::PipeRead(pipe) => read_pipe(machine, man, alloc, pid, pipe, pieces, n),
        Object::Output(_) | Object::PipeWrite(_) => Ok(CallEnd::Value(EBADF)),
    }
}

// Reads a file at the offset of its description, which moves past what was read.
fn read_file<M: Machine>(
    machine: &mut M,
    man: &mut Manager,
    alloc: Global,
    pid: Pid,
    found: &Opened,
    file: FileNo,
    pieces: &[Piece],
    n: u64,
) -> Result<CallEnd, Halt>
    requires file { is_file (M.held machine.old).files file.0 ≡ true }
    requires there { slot man.old.descs found.now.desc ≡ Some found.now.is }
    ensures ends { Ends M.held M.does machine.old machine.new man.old man.new pid.0 (file_read (open_of found.now) file.0 pieces.now n) result }
    ensures stops { Stops M.held M.stops machine.old machine.new man.old pid.0 (file_read (open_of found.now) file.0 pieces.now n) }
    ensures lives { IfOk result StaysAlive }
{
    let offset = found.is.offset;
    match read_at(machine, alloc, pid, file, offset, pieces, n)? {
        Some(count) => {
            man.set_offset(found.desc, offset + count);
            Ok(CallEnd::Value(count))
        }
        None => Ok(CallEnd::Value(EFAULT)),
    }
}

// Reads standard input.
fn read_input<M: Machine>(
    machine: &mut M,
    man: &mut Manager,
    alloc: Global,
    pid: Pid,
    pieces: &[Piece],
    n: u64,
) -> Result<CallEnd, Halt>
    ensures ends { Ends M.held M.does machine.old machine.new man.old man.new pid.0 (input_read pieces.now n) result }
    ensures stops { Stops M.held M.stops machine.old machine.new man.old pid.0 (input_read pieces.now n) }
    ensures lives { IfOk result StaysAlive }
{
    let count = n.min(man.input_left() as u64);
    let Some(parts) = writable_part(machine, alloc, pid, pieces, count)? else {
        return Ok(CallEnd::Value(EFAULT));
    };
    let bytes = take_input(man, alloc, count as usize)?;
    write_pieces(machine, pid, parts.as_slice(), bytes.as_slice())?;
    Ok(CallEnd::Value(count))
}

// Reads a pipe. An empty one has ended where nobody can write to it, else the process waits.
fn read_pipe<M: Machine>(
    machine: &mut M,
    man: &mut Manager,
    alloc: Global,
    pid: Pid,
    pipe: u16,
    pieces: &[Piece],
    n: u64,
) -> Result<CallEnd, Halt>
    requires there { is_some (slot man.old.pipes pipe) ≡ true }
    requires some { 0 < n }
    ensures ends { Ends M.held M.does machine.old machine.new man.old man.new pid.0 (λ p k. reads_pipe p k pipe pieces.now n (pipe_bytes pipe k)) result }
    ensures stops { Stops M.held M.stops machine.old machine.new man.old pid.0 (λ p k. reads_pipe p k pipe pieces.now n (pipe_bytes pipe k)) }
    ensures lives { IfOk result StaysAlive }
{
    let state = man.pipe_state(pipe);
    if state.len == 0 {
        return Ok(at_empty_pipe(state.writers));
    }
    let count = n.min(state.len as u64);
    let Some(parts) = writable_part(machine, alloc, pid, pieces, count)? else {
        return Ok(CallEnd::Value(EFAULT));
    };
    let bytes = take_from_pipe(man, alloc, pipe, count as usize)?;
    write_pieces(machine, pid, parts.as_slice(), bytes.as_slice())?;
    Ok(CallEnd::Value(count))
}

// What a read of an empty pipe comes to that this many descriptions may write to.
fn at_empty_pipe(writers: u32) -> CallEnd
    ensures lives { StaysAlive result }
    ensures end { ended result [] ≡ (if nat_lt 0 writers then WaitsWith [] 0 0 else says 0) }
{
    if writers == 0 {
        return CallEnd::Value(0);
    }
    CallEnd::Waits(Waiting { moved: 0, len: 0 })
}

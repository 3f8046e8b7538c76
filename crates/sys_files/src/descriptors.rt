//! dup(2), dup3(2), close(2) and pipe2(2).

ghost use Rattle.std.specs.Prelude.{◌≡◌, ◌++◌, true, None, option_map, OnOk};
ghost use Rattle.lego_base.specs.Space.{bytes_of};
ghost use Rattle.linux_model.specs.Descriptors.{close_row, dup_row, dup3_row, pipe2_row};
ghost use Rattle.linux_model.specs.Effects.{at_fd};
ghost use Rattle.linux_model.specs.Limits.{is_cloexec_alone};
ghost use Rattle.linux_model.specs.Managed.{managed_after_all};
ghost use Rattle.linux_model.specs.Processes.{process};
ghost use Rattle.linux_model.specs.State.{Kernel};
ghost use Rattle.call_machine.specs.Lent.{Answers, AnswersAlone, Stops};
ghost use Rattle.manager.specs.Words.{is_alive};
ghost use Rattle.sys_files.specs.Freeing.{freeing};

use call_machine::Machine;
use call_machine::errno::{EBADF, EFAULT, EINVAL, EMFILE, ENFILE};
use call_parts::close_open;
use fd_table::DESCRIPTORS;
use lego_base::{Halt, Pid};
use manager::{FdFault, Manager};
use std::alloc::Global;

/// The flag that execve(2) closes a descriptor, of open(2).
const O_CLOEXEC: u64 = 0x80000;

/// The permission that a copy to a space needs.
const TO_WRITE: u8 = 2;

/// dup(2): the lowest free descriptor shares the description of another one. The descriptor, or EBADF where the other isn't
/// open, and EMFILE where none is free.
pub fn sys_dup(man: &mut Manager, pid: Pid, fd: u64) -> u64
    requires { is_alive pid.0 man.old ≡ true }
    ensures { AnswersAlone man.old man.new pid.0 (λ p k. dup_row p k fd) result }
{
    let Some(_open) = man.opened(pid, fd) else {
        return EBADF;
    };
    let Some(to) = man.lowest_free(pid, 0) else {
        return EMFILE;
    };
    man.dup(pid, fd, to, false);
    u64::from(to)
}

/// close(2): 0, or EBADF where the descriptor isn't open. Where that ends the last description of a file without a name, the
/// file goes.
pub fn sys_close<M: Machine>(
    machine: &mut M,
    man: &mut Manager,
    pid: Pid,
    fd: u64,
) -> Result<u64, Halt>
    ensures answers { Answers M.held M.does machine.old machine.new man.old man.new pid.0 (λ p k. close_row p k fd) result }
    ensures stops { Stops M.held M.stops machine.old machine.new man.old pid.0 (λ p k. close_row p k fd) }
{
    let Some(_open) = man.opened(pid, fd) else {
        return Ok(EBADF);
    };
    close_open(machine, man, pid, fd as u32)?;
    Ok(0)
}

/// dup3(2): a descriptor shares the description of another one, once it is closed where it was open. The descriptor, or EINVAL
/// for flags other than O_CLOEXEC and for twice the same descriptor, and EBADF where the other isn't open or there is no such
/// descriptor.
pub fn sys_dup3<M: Machine>(
    machine: &mut M,
    man: &mut Manager,
    pid: Pid,
    from: u64,
    to: u64,
    flags: u64,
) -> Result<u64, Halt>
    requires alive { is_alive pid.0 man.old ≡ true }
    ensures answers { Answers M.held M.does machine.old machine.new man.old man.new pid.0 (λ p k. dup3_row p k from to flags) result }
    ensures stops { Stops M.held M.stops machine.old machine.new man.old pid.0 (λ p k. dup3_row p k from to flags) }
{
    if !is_cloexec_alone(flags) || from == to {
        return Ok(EINVAL);
    }
    let Some(_open) = man.opened(pid, from) else {
        return Ok(EBADF);
    };
    if to >= u64::from(DESCRIPTORS) {
        return Ok(EBADF);
    }
    make_free(machine, man, pid, to as u32)?;
    man.dup(pid, from, to as u32, flags == O_CLOEXEC);
    Ok(to)
}

/// pipe2(2): a new pipe at the two lowest free descriptors, whose numbers are written as two words of 4 bytes, the one that is
/// read first. 0, or EINVAL for flags other than O_CLOEXEC, EFAULT where they can't be written, EMFILE and ENFILE.
pub fn sys_pipe2<M: Machine>(
    machine: &mut M,
    man: &mut Manager,
    alloc: Global,
    pid: Pid,
    address: u64,
    flags: u64,
) -> Result<u64, Halt>
    requires alive { is_alive pid.0 man.old ≡ true }
    ensures answers { Answers M.held M.does machine.old machine.new man.old man.new pid.0 (λ p k. pipe2_row p k address flags) result }
    ensures stops { Stops M.held M.stops machine.old machine.new man.old pid.0 (λ p k. pipe2_row p k address flags) }
{
    if !is_cloexec_alone(flags) {
        return Ok(EINVAL);
    }
    if !machine.check_span(pid, address, 8, TO_WRITE)? {
        return Ok(EFAULT);
    }
    let (reading, writing) = match man.add_pipe(alloc, pid, flags == O_CLOEXEC) {
        Ok(fds) => fds,
        Err(FdFault::Emfile) => return Ok(EMFILE),
        Err(FdFault::Enfile) => return Ok(ENFILE),
        Err(FdFault::NoMemory) => return Err(Halt::NoMemory),
    };
    machine.copy_out(pid, address, &two_words(reading, writing))?;
    Ok(0)
}

// Closes a descriptor of a process where it is open; nothing else of the process changes.
fn make_free<M: Machine>(machine: &mut M, man: &mut Manager, pid: Pid, fd: u32) -> Result<(), Halt>
    ensures closes { (k : Kernel) → OnOk result (M.does machine.old machine.new (freeing pid.0 fd man.old k)) }
    ensures managed { (k : Kernel) → OnOk result (managed_after_all (freeing pid.0 fd man.old k) man.old ≡ man.new) }
    ensures process { OnOk result (process man.new.procs pid.0 ≡ option_map (at_fd fd None) (process man.old.procs pid.0)) }
    ensures stops { (k : Kernel) → M.stops machine.old machine.new (freeing pid.0 fd man.old k) }
{
    match man.opened(pid, u64::from(fd)) {
        Some(_open) => close_open(machine, man, pid, fd),
        None => Ok(()),
    }
}

// Two numbers of 4 bytes each.
fn two_words(first: u32, second: u32) -> [u8; 8]
    ensures { result ≡ bytes_of 4 first ++ bytes_of 4 second }
{
    let [a, b, c, d] = first.to_le_bytes();
    let [e, f, g, h] = second.to_le_bytes();
    [a, b, c, d, e, f, g, h]
}

// No flag, or O_CLOEXEC and no other.
fn is_cloexec_alone(flags: u64) -> bool
    ensures { result ≡ is_cloexec_alone flags }
{
    flags == 0 || flags == O_CLOEXEC
}

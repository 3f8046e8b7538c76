//! openat(2) and unlinkat(2).

ghost use Rattle.std.specs.Prelude.{◌≡◌, ◌<◌, ◌==◌, ◌&&◌, ℕ, not, true, length, None, Some, OnOk};
ghost use Rattle.fd_table.specs.declared.fds.TheConstants.{DESCRIPTORS};
ghost use Rattle.lego_base.specs.Files.{is_file, named};
ghost use Rattle.kernel_objects.specs.Slots.{held, slot};
ghost use Rattle.linux_model.specs.Descriptors.{freeing};
ghost use Rattle.linux_model.specs.FileCalls.{opened_at, openat_row, opens_file, opens_name, unlinkat_row, unlinked};
ghost use Rattle.linux_model.specs.Limits.{has, mode_of, DESCRIPTIONS, O_TRUNC};
ghost use Rattle.linux_model.specs.Managed.{with_managed};
ghost use Rattle.linux_model.specs.Paths.{Named};
ghost use Rattle.linux_model.specs.Processes.{fds_of, process};
ghost use Rattle.linux_model.specs.State.{Kernel};
ghost use Rattle.call_machine.specs.Lent.{Answers, FitTogether, Stops};
ghost use Rattle.manager.specs.Words.{is_alive};
ghost use Rattle.sys_paths.specs.Reached.{found_of, IsNamed};
ghost use Rattle.sys_files.specs.Names.{cuts, flags_of, refusal};

use call_machine::Machine;
use call_machine::errno::{EEXIST, EINVAL, EISDIR, EMFILE, ENFILE, ENOENT, ENOSPC};
use kernel_objects::Object;
use lego_base::{FileNo, Halt, Pid};
use manager::Manager;
use std::alloc::Global;
use sys_paths::{Found, find_path};

/// Flags of open(2): the access mode, and the others.
const ACCESS: u32 = 3;

const O_CREAT: u32 = 0x40;

const O_EXCL: u32 = 0x80;

const O_TRUNC: u32 = 0x200;

const O_CLOEXEC: u32 = 0x80000;

/// All flags that openat(2) takes, O_APPEND and O_LARGEFILE among them.
const OPEN_FLAGS: u32 = 0x886c3;

/// openat(2): the lowest free descriptor is opened on the file that a path names, which O_CREAT makes where there is none, and
/// O_TRUNC cuts to 0 bytes. The descriptor, or EINVAL for other flags, what a path answers that names nothing, EISDIR, EEXIST,
/// ENOENT, EMFILE, ENFILE and ENOSPC.
pub fn sys_openat<M: Machine>(
    machine: &mut M,
    man: &mut Manager,
    alloc: Global,
    pid: Pid,
    dir: u64,
    path: u64,
    flags: u64,
) -> Result<u64, Halt>
    requires alive { is_alive pid.0 man.old ≡ true }
    requires fit { FitTogether man.old (M.held machine.old) }
    ensures answers { Answers M.held M.does machine.old machine.new man.old man.new pid.0 (λ p k. openat_row p k dir path flags) result }
    ensures stops { Stops M.held M.stops machine.old machine.new man.old pid.0 (λ p k. openat_row p k dir path flags) }
{
    let Some(flags) = open_flags(flags) else {
        return Ok(EINVAL);
    };
    match find_path(machine, man, alloc, pid, dir, path)? {
        Ok(found) => open_found(machine, man, pid, found, flags),
        Err(errno) => Ok(errno),
    }
}

/// unlinkat(2): the name that a path leads to goes, and the file with it where nothing is open on it. 0, or EINVAL for flags,
/// what a path answers that names nothing, EISDIR and ENOENT.
pub fn sys_unlinkat<M: Machine>(
    machine: &mut M,
    man: &Manager,
    alloc: Global,
    pid: Pid,
    dir: u64,
    path: u64,
    flags: u64,
) -> Result<u64, Halt>
    ensures answers { Answers M.held M.does machine.old machine.new man.now man.now pid.0 (λ p k. unlinkat_row p k dir path flags) result }
    ensures stops { Stops M.held M.stops machine.old machine.new man.now pid.0 (λ p k. unlinkat_row p k dir path flags) }
{
    if flags != 0 {
        return Ok(EINVAL);
    }
    match find_path(machine, man, alloc, pid, dir, path)? {
        Ok(found) => unlink_found(machine, man, found),
        Err(errno) => Ok(errno),
    }
}

// The flags, where openat(2) takes them.
fn open_flags(flags: u64) -> Option<u32>
    ensures { result ≡ flags_of flags }
{
    if flags & 3 == 3 || flags & u64::from(OPEN_FLAGS) != flags {
        return None;
    }
    Some(flags as u32)
}

// Opens what a path names.
fn open_found<M: Machine>(
    machine: &mut M,
    man: &mut Manager,
    pid: Pid,
    found: Found,
    flags: u32,
) -> Result<u64, Halt>
    requires alive { is_alive pid.0 man.old ≡ true }
    requires fit { FitTogether man.old (M.held machine.old) }
    requires named { IsNamed (M.held machine.old).names found }
    ensures answers { Answers M.held M.does machine.old machine.new man.old man.new pid.0 (λ p k. opened_at p k flags (found_of found)) result }
    ensures stops { Stops M.held M.stops machine.old machine.new man.old pid.0 (λ p k. opened_at p k flags (found_of found)) }
{
    match found {
        Found::Root => Ok(EISDIR),
        Found::Named(name, file) => open_named(machine, man, pid, name.as_slice(), file, flags),
    }
}

// Opens a name, with the file that has it.
fn open_named<M: Machine>(
    machine: &mut M,
    man: &mut Manager,
    pid: Pid,
    name: &[u8],
    file: Option<FileNo>,
    flags: u32,
) -> Result<u64, Halt>
    requires alive { is_alive pid.0 man.old ≡ true }
    requires fit { FitTogether man.old (M.held machine.old) }
    requires named { file ≡ named (M.held machine.old).names name.now }
    ensures answers { Answers M.held M.does machine.old machine.new man.old man.new pid.0 (λ p k. opened_at p k flags (Named name.now file)) result }
    ensures stops { Stops M.held M.stops machine.old machine.new man.old pid.0 (λ p k. opened_at p k flags (Named name.now file)) }
{
    if let Some(errno) = refusal(file.is_some(), flags) {
        return Ok(errno);
    }
    let Some(fd) = man.lowest_free(pid, 0) else {
        return Ok(EMFILE);
    };
    if man.room() == 0 {
        return Ok(ENFILE);
    }
    match file {
        Some(file) => open_file(machine, man, pid, fd, file, flags),
        None => open_new(machine, man, pid, fd, name, flags),
    }
}

// What stands against opening a name, by whether it has a file.
fn refusal(is_there: bool, flags: u32) -> Option<u64>
    ensures { result ≡ refusal is_there flags }
{
    let creates = flags & O_CREAT == O_CREAT;
    if is_there && creates && flags & O_EXCL == O_EXCL {
        return Some(EEXIST);
    }
    if !is_there && !creates {
        return Some(ENOENT);
    }
    None
}

// Opens a new file under a name that none has.
fn open_new<M: Machine>(
    machine: &mut M,
    man: &mut Manager,
    pid: Pid,
    fd: u32,
    name: &[u8],
    flags: u32,
) -> Result<u64, Halt>
    requires alive { is_alive pid.0 man.old ≡ true }
    requires fd { fd < DESCRIPTORS }
    requires free { slot (fds_of (process man.old.procs pid.0)) fd ≡ None }
    requires room { length (held man.old.descs) < DESCRIPTIONS }
    requires absent { named (M.held machine.old).names name.now ≡ None }
    ensures answers { Answers M.held M.does machine.old machine.new man.old man.new pid.0 (λ p k. opens_name p k fd flags name.now None) result }
    ensures stops { Stops M.held M.stops machine.old machine.new man.old pid.0 (λ p k. opens_name p k fd flags name.now None) }
{
    let Some(file) = machine.make(name)? else {
        return Ok(ENOSPC);
    };
    open_file(machine, man, pid, fd, file, flags)
}

// Opens a free descriptor on a file, which O_TRUNC cuts where it is opened to be written.
fn open_file<M: Machine>(
    machine: &mut M,
    man: &mut Manager,
    pid: Pid,
    fd: u32,
    file: FileNo,
    flags: u32,
) -> Result<u64, Halt>
    requires alive { is_alive pid.0 man.old ≡ true }
    requires fd { fd < DESCRIPTORS }
    requires free { slot (fds_of (process man.old.procs pid.0)) fd ≡ None }
    requires room { length (held man.old.descs) < DESCRIPTIONS }
    requires there { is_file (M.held machine.old).files file.0 ≡ true }
    ensures answers { Answers M.held M.does machine.old machine.new man.old man.new pid.0 (λ p k. opens_file p fd file.0 flags) result }
    ensures stops { Stops M.held M.stops machine.old machine.new man.old pid.0 (λ p k. opens_file p fd file.0 flags) }
{
    cut_as_asked(machine, file, flags)?;
    let cloexec = flags & O_CLOEXEC == O_CLOEXEC;
    man.open(pid, fd, Object::Regular(file), flags, cloexec);
    Ok(u64::from(fd))
}

// Cuts a file to 0 bytes, where the flags with which it is opened say so.
fn cut_as_asked<M: Machine>(machine: &mut M, file: FileNo, flags: u32) -> Result<(), Halt>
    requires there { is_file (M.held machine.old).files file.0 ≡ true }
    ensures does { OnOk result (M.does machine.old machine.new (cuts file.0 flags)) }
    ensures stops { M.stops machine.old machine.new (cuts file.0 flags) }
{
    if !is_cut(flags) {
        return Ok(());
    }
    machine.cut(file, 0)
}

// Whether opening with these flags cuts a file.
fn is_cut(flags: u32) -> bool
    ensures { result ≡ (has flags O_TRUNC && not (mode_of flags == 0)) }
{
    flags & O_TRUNC == O_TRUNC && flags & ACCESS != 0
}

// Takes away the name that a path leads to.
fn unlink_found<M: Machine>(machine: &mut M, man: &Manager, found: Found) -> Result<u64, Halt>
    ensures answers { (pid : ℕ) → Answers M.held M.does machine.old machine.new man.now man.now pid (λ p k. unlinked k (found_of found)) result }
    ensures stops { (pid : ℕ) → Stops M.held M.stops machine.old machine.new man.now pid (λ p k. unlinked k (found_of found)) }
{
    match found {
        Found::Root => Ok(EISDIR),
        Found::Named(name, file) => unlink_named(machine, man, name.as_slice(), file),
    }
}

// Takes away a name with the file that has it, which goes where nothing is open on it.
fn unlink_named<M: Machine>(
    machine: &mut M,
    man: &Manager,
    name: &[u8],
    file: Option<FileNo>,
) -> Result<u64, Halt>
    ensures answers { (pid : ℕ) → Answers M.held M.does machine.old machine.new man.now man.now pid (λ p k. unlinked k (Named name.now file)) result }
    ensures stops { (pid : ℕ) → Stops M.held M.stops machine.old machine.new man.now pid (λ p k. unlinked k (Named name.now file)) }
{
    let Some(file) = file else {
        return Ok(ENOENT);
    };
    machine.unlink(name)?;
    free_unopened(machine, man, file)?;
    Ok(0)
}

// A file goes that nothing is open on.
fn free_unopened<M: Machine>(machine: &mut M, man: &Manager, file: FileNo) -> Result<(), Halt>
    ensures does { (k : Kernel) → OnOk result (M.does machine.old machine.new (freeing (Some file.0) (with_managed man.now k))) }
    ensures stops { (k : Kernel) → M.stops machine.old machine.new (freeing (Some file.0) (with_managed man.now k)) }
{
    if man.has_file(file) {
        return Ok(());
    }
    machine.free(file)
}

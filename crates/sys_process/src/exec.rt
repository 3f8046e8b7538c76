//! execve(2).

ghost use Rattle.std.specs.Prelude.{◌≡◌, ◌∷◌, replicate, true, false, IfOk, OnOk};
ghost use Rattle.lego_base.specs.Files.{file_bytes, is_file};
ghost use Rattle.space_rules.specs.Start.{is_too_big};
ghost use Rattle.linux_model.specs.ProcessCalls.{executes, executes_found, execve_row};
ghost use Rattle.manager.specs.Words.{is_alive};
ghost use Rattle.call_machine.specs.Lent.{Ends, FitTogether, Stops};
ghost use Rattle.sys_paths.specs.Reached.{found_of, IsNamed};
ghost use Rattle.space_rules.specs.declared.TheConstants.{MOST_STRINGS, MOST_STRING_BYTES};
ghost use Rattle.sys_process.specs.Strings.{Counts};
ghost use Rattle.sys_process.specs.Exec.{env_row, file_reads, file_row, lists_row};
ghost use Rattle.call_parts.specs.Numbered.{StaysAlive};

use crate::death::close_all;
use crate::strings::{StringList, read_list};
use call_machine::errno::{EACCES, ENOENT, ENOEXEC};
use call_machine::{CallEnd, Machine};
use elf_image::{Image, ImageFault, read_image};
use kernel_objects::Brk;
use lego_base::{Bytes, FileNo, Halt, Pid};
use manager::Manager;
use rv64_step::Cpu;
use space_loading::load_program;
use space_rules::{MOST_STRING_BYTES, MOST_STRINGS};
use std::alloc::Global;
use sys_paths::{Found, find_path};

/// The word for the working directory, which is the root.
const AT_FDCWD: u64 = u64::MAX - 99;

/// execve(2): the process goes on with the program of a file, with its arguments and its environment; descriptors with the flag
/// are closed, and the space becomes the program's. Or why not: what a path answers that names nothing, EFAULT, E2BIG, EACCES,
/// ENOENT or ENOEXEC.
pub fn sys_execve<M: Machine>(
    machine: &mut M,
    manager: &mut Manager,
    alloc: Global,
    pid: Pid,
    path: u64,
    args: u64,
    env: u64,
) -> Result<CallEnd, Halt>
    requires alive { is_alive pid.0 manager.old ≡ true }
    requires fit { FitTogether manager.old (M.held machine.old) }
    ensures ends { Ends M.held M.does machine.old machine.new manager.old manager.new pid.0 (λ p k. execve_row p k path args env) result }
    ensures stops { Stops M.held M.stops machine.old machine.new manager.old pid.0 (λ p k. execve_row p k path args env) }
    ensures lives { IfOk result StaysAlive }
{
    match find_path(machine, manager, alloc, pid, AT_FDCWD, path)? {
        Ok(found) => exec_lists(machine, manager, alloc, pid, found, args, env),
        Err(errno) => Ok(CallEnd::Value(errno)),
    }
}

// The lists are read, the arguments first.
fn exec_lists<M: Machine>(
    machine: &mut M,
    manager: &mut Manager,
    alloc: Global,
    pid: Pid,
    found: Found,
    args: u64,
    env: u64,
) -> Result<CallEnd, Halt>
    requires alive { is_alive pid.0 manager.old ≡ true }
    requires fit { FitTogether manager.old (M.held machine.old) }
    requires named { IsNamed (M.held machine.old).names found }
    ensures ends { Ends M.held M.does machine.old machine.new manager.old manager.new pid.0 (lists_row args env (found_of found)) result }
    ensures stops { Stops M.held M.stops machine.old machine.new manager.old pid.0 (lists_row args env (found_of found)) }
    ensures lives { IfOk result StaysAlive }
{
    match read_list(machine, alloc, pid, MOST_STRINGS, args, MOST_STRING_BYTES)? {
        Ok(args) => exec_env(machine, manager, alloc, pid, found, args, env),
        Err(errno) => Ok(CallEnd::Value(errno)),
    }
}

// The environment follows the arguments.
fn exec_env<M: Machine>(
    machine: &mut M,
    manager: &mut Manager,
    alloc: Global,
    pid: Pid,
    found: Found,
    args: StringList,
    env: u64,
) -> Result<CallEnd, Halt>
    requires alive { is_alive pid.0 manager.old ≡ true }
    requires fit { FitTogether manager.old (M.held machine.old) }
    requires named { IsNamed (M.held machine.old).names found }
    requires counts { Counts MOST_STRINGS MOST_STRING_BYTES args }
    ensures ends { Ends M.held M.does machine.old machine.new manager.old manager.new pid.0 (env_row args env (found_of found)) result }
    ensures stops { Stops M.held M.stops machine.old machine.new manager.old pid.0 (env_row args env (found_of found)) }
    ensures lives { IfOk result StaysAlive }
{
    match read_list(machine, alloc, pid, args.left, env, args.room)? {
        Ok(env) => exec_found(
            machine,
            manager,
            alloc,
            pid,
            found,
            args.strings.as_slice(),
            env.strings.as_slice(),
        ),
        Err(errno) => Ok(CallEnd::Value(errno)),
    }
}

// What was found is tried.
fn exec_found<M: Machine>(
    machine: &mut M,
    manager: &mut Manager,
    alloc: Global,
    pid: Pid,
    found: Found,
    args: &[Bytes],
    env: &[Bytes],
) -> Result<CallEnd, Halt>
    requires alive { is_alive pid.0 manager.old ≡ true }
    requires fit { FitTogether manager.old (M.held machine.old) }
    requires named { IsNamed (M.held machine.old).names found }
    requires few { is_too_big args.now env.now ≡ false }
    ensures ends { Ends M.held M.does machine.old machine.new manager.old manager.new pid.0 (λ p k. executes_found p k args.now env.now (found_of found)) result }
    ensures stops { Stops M.held M.stops machine.old machine.new manager.old pid.0 (λ p k. executes_found p k args.now env.now (found_of found)) }
    ensures lives { IfOk result StaysAlive }
{
    match found {
        Found::Root => Ok(CallEnd::Value(EACCES)),
        Found::Named(_, None) => Ok(CallEnd::Value(ENOENT)),
        Found::Named(_, Some(file)) => exec_file(machine, manager, alloc, pid, file, args, env),
    }
}

// The bytes of a file are the program, where they are one.
fn exec_file<M: Machine>(
    machine: &mut M,
    manager: &mut Manager,
    alloc: Global,
    pid: Pid,
    file: FileNo,
    args: &[Bytes],
    env: &[Bytes],
) -> Result<CallEnd, Halt>
    requires alive { is_alive pid.0 manager.old ≡ true }
    requires fit { FitTogether manager.old (M.held machine.old) }
    requires there { is_file (M.held machine.old).files file.0 ≡ true }
    requires few { is_too_big args.now env.now ≡ false }
    ensures ends { Ends M.held M.does machine.old machine.new manager.old manager.new pid.0 (file_row args.now env.now file.0) result }
    ensures stops { Stops M.held M.stops machine.old machine.new manager.old pid.0 (file_row args.now env.now file.0) }
    ensures lives { IfOk result StaysAlive }
{
    let bytes = read_file(machine, alloc, file)?;
    match read_image(alloc, bytes.as_slice()) {
        Ok(image) => exec_image(machine, manager, alloc, pid, &image, args, env),
        Err(ImageFault::NoMemory) => Err(Halt::NoMemory),
        Err(_) => Ok(CallEnd::Value(ENOEXEC)),
    }
}

// All bytes of a file.
fn read_file<M: Machine>(machine: &mut M, alloc: Global, file: FileNo) -> Result<Bytes, Halt>
    requires there { is_file (M.held machine.old).files file.0 ≡ true }
    ensures does { OnOk result (M.does machine.old machine.new (file_reads file.0 (M.held machine.old))) }
    ensures bytes { IfOk result (λ bytes. bytes ≡ file_bytes (M.held machine.old).files file.0) }
    ensures stops { M.stops machine.old machine.new (file_reads file.0 (M.held machine.old)) }
{
    let size = machine.size(file)?;
    machine.read(alloc, file, 0, size)
}

// The process goes on with a program.
fn exec_image<M: Machine>(
    machine: &mut M,
    manager: &mut Manager,
    alloc: Global,
    pid: Pid,
    image: &Image,
    args: &[Bytes],
    env: &[Bytes],
) -> Result<CallEnd, Halt>
    requires alive { is_alive pid.0 manager.old ≡ true }
    requires fit { FitTogether manager.old (M.held machine.old) }
    requires few { is_too_big args.now env.now ≡ false }
    ensures ends { Ends M.held M.does machine.old machine.new manager.old manager.new pid.0 (λ p k. executes p k image.now args.now env.now) result }
    ensures stops { Stops M.held M.stops machine.old machine.new manager.old pid.0 (λ p k. executes p k image.now args.now env.now) }
    ensures lives { IfOk result StaysAlive }
{
    close_all(machine, manager, pid, false)?;
    machine.drop_space(pid)?;
    let sp = load_program(machine, alloc, pid, image, args, env)?;
    let brk = Brk {
        base: image.brk(),
        now: image.brk(),
    };
    manager.set_brk(pid, brk);
    Ok(CallEnd::Goes(start_of(image.entry(), sp)))
}

// The registers with which a program starts: 0, but the stack pointer.
fn start_of(entry: u64, sp: u64) -> Cpu
    ensures { result ≡ record { pc = entry; x = 0 ∷ 0 ∷ sp ∷ replicate 29 0 } }
{
    let mut x = [0; 32];
    x[2] = sp;
    Cpu { pc: entry, x }
}

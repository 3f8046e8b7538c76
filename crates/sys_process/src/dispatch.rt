//! The calls on processes by number.

ghost use Rattle.std.specs.Prelude.{◌≡◌, None, true, is_some, IfOk, IfSome, OnErr};
ghost use Rattle.rv64_step.specs.Meaning.{reg};
ghost use Rattle.linux_model.specs.Processes.{process};
ghost use Rattle.manager.specs.Words.{is_alive};
ghost use Rattle.call_machine.specs.Lent.{FitTogether};
ghost use Rattle.call_parts.specs.Numbered.{IfDies, NumberedEnds, NumberedStops};
ghost use Rattle.sys_process.specs.Ends.{is_process_call};
ghost use Rattle.sys_process.specs.Words.{CanFork};

use crate::clone::sys_clone;
use crate::exec::sys_execve;
use crate::identity::{sys_exit, sys_getpid, sys_getppid, sys_sched_yield};
use crate::wait::sys_wait4;
use call_machine::{CallEnd, Machine};
use lego_base::{Halt, Pid};
use manager::Manager;
use std::alloc::Global;

/// Numbers of the calls, as syscall(2) has them for RISC-V.
const EXIT: u64 = 93;

const EXIT_GROUP: u64 = 94;

const SET_TID_ADDRESS: u64 = 96;

const SCHED_YIELD: u64 = 124;

const GETPID: u64 = 172;

const GETPPID: u64 = 173;

const GETTID: u64 = 178;

const CLONE: u64 = 220;

const EXECVE: u64 = 221;

const WAIT4: u64 = 260;

/// Registers of the arguments and of the number.
const A0: u8 = 10;

const A1: u8 = 11;

const A2: u8 = 12;

const A3: u8 = 13;

const A7: u8 = 17;

/// The call that a process makes with its registers, where it is one of those on processes: how it ends. `None` exactly where it
/// is another call; nothing was done then, and nothing where the process dies.
pub fn process_call<M: Machine>(
    machine: &mut M,
    manager: &mut Manager,
    alloc: Global,
    pid: Pid,
) -> Result<Option<CallEnd>, Halt>
    requires alive { is_alive pid.0 manager.old ≡ true }
    requires fit { FitTogether manager.old (M.held machine.old) }
    requires can { CanFork manager.old (M.held machine.old) }
    ensures mine { IfSome (process manager.old.procs pid.0) (λ p. IfOk result (λ end. is_some end ≡ is_process_call (reg p.cpu 17))) }
    ensures halts { OnErr result (IfSome (process manager.old.procs pid.0) (λ p. is_process_call (reg p.cpu 17) ≡ true)) }
    ensures ends { NumberedEnds M.held M.does machine.old machine.new manager.old manager.new pid.0 result }
    ensures stops { NumberedStops M.held M.stops is_process_call machine.old machine.new manager.old pid.0 }
    ensures dies { IfOk result (λ end. IfSome end (λ end. IfDies end ((machine.new ≡ machine.old) × (manager.new ≡ manager.old)))) }
    ensures others { IfOk result (λ end. end ≡ None → (machine.new ≡ machine.old) × (manager.new ≡ manager.old)) }
{
    let cpu = manager.cpu(pid);
    match cpu.get(A7) {
        EXIT => Ok(Some(sys_exit(cpu.get(A0)))),
        EXIT_GROUP => Ok(Some(sys_exit(cpu.get(A0)))),
        SET_TID_ADDRESS => Ok(Some(sys_getpid(pid))),
        SCHED_YIELD => Ok(Some(sys_sched_yield())),
        GETPID => Ok(Some(sys_getpid(pid))),
        GETPPID => Ok(Some(sys_getppid(manager, pid))),
        GETTID => Ok(Some(sys_getpid(pid))),
        CLONE => Ok(Some(sys_clone(machine, manager, alloc, pid, cpu.get(A0), cpu.get(A1))?)),
        EXECVE => Ok(Some(sys_execve(
            machine,
            manager,
            alloc,
            pid,
            cpu.get(A0),
            cpu.get(A1),
            cpu.get(A2),
        )?)),
        WAIT4 => Ok(Some(sys_wait4(
            machine,
            manager,
            pid,
            cpu.get(A0),
            cpu.get(A1),
            cpu.get(A2),
            cpu.get(A3),
        )?)),
        _ => Ok(None),
    }
}

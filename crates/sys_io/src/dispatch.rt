//! The calls that move bytes by number.

ghost use Rattle.std.specs.Prelude.{◌≡◌, None, true, is_some, IfOk, IfSome, OnErr};
ghost use Rattle.rv64_step.specs.Meaning.{reg};
ghost use Rattle.linux_model.specs.Processes.{process};
ghost use Rattle.manager.specs.Words.{is_alive};
ghost use Rattle.call_machine.specs.Lent.{FitTogether};
ghost use Rattle.call_parts.specs.Numbered.{CanDie, IfDies, NumberedEnds, NumberedStops};
ghost use Rattle.sys_io.specs.Numbers.{is_io_call};

use crate::reading::{sys_pread64, sys_read};
use crate::vectors::{sys_readv, sys_writev};
use crate::writing::{sys_pwrite64, sys_write};
use call_machine::{CallEnd, Machine};
use lego_base::{Halt, Pid};
use manager::Manager;
use std::alloc::Global;

/// Numbers of the calls, as syscall(2) has them for RISC-V.
const READ: u64 = 63;

const WRITE: u64 = 64;

const READV: u64 = 65;

const WRITEV: u64 = 66;

const PREAD64: u64 = 67;

const PWRITE64: u64 = 68;

/// Registers of the arguments and of the number.
const A0: u8 = 10;

const A1: u8 = 11;

const A2: u8 = 12;

const A3: u8 = 13;

const A7: u8 = 17;

/// The call that a process makes with its registers, where it is one of those that move bytes: how it ends. `None` exactly where
/// it is another call; nothing was done then. Where the process dies it still lives, and what is managed fits to what is held.
pub fn io_call<M: Machine>(
    machine: &mut M,
    man: &mut Manager,
    alloc: Global,
    pid: Pid,
) -> Result<Option<CallEnd>, Halt>
    requires alive { is_alive pid.0 man.old ≡ true }
    requires fit { FitTogether man.old (M.held machine.old) }
    ensures mine { IfSome (process man.old.procs pid.0) (λ p. IfOk result (λ end. is_some end ≡ is_io_call (reg p.cpu 17))) }
    ensures halts { OnErr result (IfSome (process man.old.procs pid.0) (λ p. is_io_call (reg p.cpu 17) ≡ true)) }
    ensures ends { NumberedEnds M.held M.does machine.old machine.new man.old man.new pid.0 result }
    ensures stops { NumberedStops M.held M.stops is_io_call machine.old machine.new man.old pid.0 }
    ensures dies { IfOk result (λ end. IfSome end (λ end. IfDies end (CanDie man.new (M.held machine.new) pid.0))) }
    ensures others { IfOk result (λ end. end ≡ None → (machine.new ≡ machine.old) × (man.new ≡ man.old)) }
{
    let cpu = man.cpu(pid);
    match cpu.get(A7) {
        READ => Ok(Some(sys_read(
            machine,
            man,
            alloc,
            pid,
            cpu.get(A0),
            cpu.get(A1),
            cpu.get(A2),
        )?)),
        WRITE => Ok(Some(sys_write(
            machine,
            man,
            alloc,
            pid,
            cpu.get(A0),
            cpu.get(A1),
            cpu.get(A2),
        )?)),
        READV => Ok(Some(sys_readv(
            machine,
            man,
            alloc,
            pid,
            cpu.get(A0),
            cpu.get(A1),
            cpu.get(A2),
        )?)),
        WRITEV => Ok(Some(sys_writev(
            machine,
            man,
            alloc,
            pid,
            cpu.get(A0),
            cpu.get(A1),
            cpu.get(A2),
        )?)),
        PREAD64 => Ok(Some(CallEnd::Value(sys_pread64(
            machine,
            man,
            alloc,
            pid,
            cpu.get(A0),
            cpu.get(A1),
            cpu.get(A2),
            cpu.get(A3),
        )?))),
        PWRITE64 => Ok(Some(CallEnd::Value(sys_pwrite64(
            machine,
            man,
            alloc,
            pid,
            cpu.get(A0),
            cpu.get(A1),
            cpu.get(A2),
            cpu.get(A3),
        )?))),
        _ => Ok(None),
    }
}

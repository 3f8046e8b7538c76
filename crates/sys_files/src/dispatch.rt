//! The calls on descriptors and files by number.

ghost use Rattle.std.specs.Prelude.{◌≡◌, None, true, is_some, IfOk, IfSome, OnErr};
ghost use Rattle.rv64_step.specs.Meaning.{reg};
ghost use Rattle.linux_model.specs.Processes.{process};
ghost use Rattle.manager.specs.Words.{is_alive};
ghost use Rattle.call_machine.specs.Lent.{FitTogether};
ghost use Rattle.call_parts.specs.Numbered.{NumberedEnds, NumberedStops, StaysAlive};
ghost use Rattle.sys_files.specs.Numbers.{is_file_call};

use crate::descriptors::{sys_close, sys_dup, sys_dup3, sys_pipe2};
use crate::names::{sys_openat, sys_unlinkat};
use crate::offsets::{sys_ftruncate, sys_lseek};
use call_machine::{CallEnd, Machine};
use lego_base::{Halt, Pid};
use manager::Manager;
use std::alloc::Global;

/// Numbers of the calls, as syscall(2) has them for RISC-V.
const DUP: u64 = 23;

const DUP3: u64 = 24;

const UNLINKAT: u64 = 35;

const FTRUNCATE: u64 = 46;

const OPENAT: u64 = 56;

const CLOSE: u64 = 57;

const PIPE2: u64 = 59;

const LSEEK: u64 = 62;

/// Registers of the arguments and of the number.
const A0: u8 = 10;

const A1: u8 = 11;

const A2: u8 = 12;

const A7: u8 = 17;

/// The call that a process makes with its registers, where it is one of those on descriptors and files: how it ends. `None`
/// exactly where it is another call; nothing was done then.
pub fn file_call<M: Machine>(
    machine: &mut M,
    man: &mut Manager,
    alloc: Global,
    pid: Pid,
) -> Result<Option<CallEnd>, Halt>
    requires alive { is_alive pid.0 man.old ≡ true }
    requires fit { FitTogether man.old (M.held machine.old) }
    ensures mine { IfSome (process man.old.procs pid.0) (λ p. IfOk result (λ end. is_some end ≡ is_file_call (reg p.cpu 17))) }
    ensures halts { OnErr result (IfSome (process man.old.procs pid.0) (λ p. is_file_call (reg p.cpu 17) ≡ true)) }
    ensures ends { NumberedEnds M.held M.does machine.old machine.new man.old man.new pid.0 result }
    ensures stops { NumberedStops M.held M.stops is_file_call machine.old machine.new man.old pid.0 }
    ensures lives { IfOk result (λ end. IfSome end StaysAlive) }
    ensures others { IfOk result (λ end. end ≡ None → (machine.new ≡ machine.old) × (man.new ≡ man.old)) }
{
    let cpu = man.cpu(pid);
    match cpu.get(A7) {
        DUP => Ok(Some(CallEnd::Value(sys_dup(man, pid, cpu.get(A0))))),
        DUP3 => Ok(Some(CallEnd::Value(sys_dup3(
            machine,
            man,
            pid,
            cpu.get(A0),
            cpu.get(A1),
            cpu.get(A2),
        )?))),
        UNLINKAT => Ok(Some(CallEnd::Value(sys_unlinkat(
            machine,
            man,
            alloc,
            pid,
            cpu.get(A0),
            cpu.get(A1),
            cpu.get(A2),
        )?))),
        FTRUNCATE => Ok(Some(CallEnd::Value(sys_ftruncate(
            machine,
            man,
            pid,
            cpu.get(A0),
            cpu.get(A1),
        )?))),
        OPENAT => Ok(Some(CallEnd::Value(sys_openat(
            machine,
            man,
            alloc,
            pid,
            cpu.get(A0),
            cpu.get(A1),
            cpu.get(A2),
        )?))),
        CLOSE => Ok(Some(CallEnd::Value(sys_close(machine, man, pid, cpu.get(A0))?))),
        PIPE2 => Ok(Some(CallEnd::Value(sys_pipe2(
            machine,
            man,
            alloc,
            pid,
            cpu.get(A0),
            cpu.get(A1),
        )?))),
        LSEEK => Ok(Some(CallEnd::Value(sys_lseek(
            machine,
            man,
            pid,
            cpu.get(A0),
            cpu.get(A1),
            cpu.get(A2),
        )?))),
        _ => Ok(None),
    }
}

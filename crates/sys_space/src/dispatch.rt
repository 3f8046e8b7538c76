//! The calls on spaces by number.

ghost use Rattle.std.specs.Prelude.{◌≡◌, ◌≤◌, None, true, is_some, IfOk, OnErr};
ghost use Rattle.lego_base.specs.declared.sizes.TheConstants.{USER_END};
ghost use Rattle.rv64_step.specs.Meaning.{reg};
ghost use Rattle.sys_space.specs.Calls.{is_space_call, NumberedAnswers, NumberedStops};

use crate::breaks::sys_brk;
use crate::mappings::{sys_mmap, sys_mprotect, sys_munmap};
use call_machine::Machine;
use kernel_objects::Brk;
use lego_base::{Halt, Pid};
use rv64_step::Cpu;
use std::alloc::Global;

/// Numbers of the calls, as syscall(2) has them for RISC-V.
const BRK: u64 = 214;

const MUNMAP: u64 = 215;

const MMAP: u64 = 222;

const MPROTECT: u64 = 226;

/// Registers of the arguments and of the number.
const A0: u8 = 10;

const A1: u8 = 11;

const A2: u8 = 12;

const A3: u8 = 13;

const A7: u8 = 17;

/// The call that a process makes with these registers, where it is one of those on spaces: its answer. `None` exactly where
/// it is another call; nothing was done then.
pub fn space_call<M: Machine>(
    machine: &mut M,
    alloc: Global,
    pid: Pid,
    cpu: &Cpu,
    brk: &mut Brk,
) -> Result<Option<u64>, Halt>
    requires within { brk.old.now ≤ USER_END }
    ensures mine { IfOk result (λ answer. is_some answer ≡ is_space_call (reg cpu.now 17)) }
    ensures halts { OnErr result (is_space_call (reg cpu.now 17) ≡ true) }
    ensures answers { NumberedAnswers M.held M.does machine.old machine.new pid.0 cpu.now brk.old brk.new result }
    ensures stops { is_space_call (reg cpu.now 17) ≡ true → NumberedStops M.held M.stops machine.old machine.new pid.0 cpu.now brk.old }
    ensures others { IfOk result (λ answer. answer ≡ None → (machine.new ≡ machine.old) × (brk.new ≡ brk.old)) }
    ensures within { brk.new.now ≤ USER_END }
{
    match cpu.get(A7) {
        BRK => Ok(Some(sys_brk(machine, alloc, pid, brk, cpu.get(A0))?)),
        MUNMAP => Ok(Some(sys_munmap(machine, alloc, pid, cpu.get(A0), cpu.get(A1))?)),
        MMAP => Ok(Some(sys_mmap(
            machine,
            alloc,
            pid,
            cpu.get(A0),
            cpu.get(A1),
            cpu.get(A2),
            cpu.get(A3),
        )?)),
        MPROTECT => Ok(Some(sys_mprotect(
            machine,
            alloc,
            pid,
            cpu.get(A0),
            cpu.get(A1),
            cpu.get(A2),
        )?)),
        _ => Ok(None),
    }
}

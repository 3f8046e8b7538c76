//! What a turn does once a call has ended.

ghost use Rattle.std.specs.Prelude.{◌≡◌, OnOk};
ghost use Rattle.rv64_step.specs.Meaning.{next_pc, with_reg};
ghost use Rattle.linux_model.specs.Managed.{managed_after_all, with_managed};
ghost use Rattle.linux_model.specs.State.{Kernel};
ghost use Rattle.call_parts.specs.Numbered.{CanDie, IfDies};
ghost use Rattle.sys_process.specs.Ends.{end_effects};

use crate::death::die;
use call_machine::{CallEnd, Machine};
use lego_base::{Halt, Pid};
use manager::Manager;
use rv64_step::Cpu;

/// Ends a call that a process made with these registers: it goes on after the call with the answer, or with other registers; or
/// its call is kept waiting; or it dies.
pub fn end_call<M: Machine>(
    machine: &mut M,
    manager: &mut Manager,
    pid: Pid,
    cpu: Cpu,
    end: CallEnd,
) -> Result<(), Halt>
    requires dies { IfDies end (CanDie manager.old (M.held machine.old) pid.0) }
    ensures does { (k : Kernel) → OnOk result (M.does machine.old machine.new (end_effects pid.0 cpu end (with_managed manager.old k))) }
    ensures managed { (k : Kernel) → OnOk result (managed_after_all (end_effects pid.0 cpu end (with_managed manager.old k)) manager.old ≡ manager.new) }
    ensures stops { (k : Kernel) → M.stops machine.old machine.new (end_effects pid.0 cpu end (with_managed manager.old k)) }
{
    match end {
        CallEnd::Value(value) => manager.returns(pid, answered(cpu, value)),
        CallEnd::Goes(registers) => manager.returns(pid, registers),
        CallEnd::Waits(waiting) => manager.set_waiting(pid, waiting),
        CallEnd::Dies(status) => return die(machine, manager, pid, status),
    }
    Ok(())
}

// The registers after a call: the answer in a0, and the next instruction.
pub(crate) fn answered(cpu: Cpu, value: u64) -> Cpu
    ensures { result ≡ with_reg cpu 10 value (next_pc cpu) }
{
    let mut cpu = cpu;
    cpu.x[10] = value;
    cpu.pc = cpu.pc.wrapping_add(4);
    cpu
}

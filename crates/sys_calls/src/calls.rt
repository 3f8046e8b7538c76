//! A call of a process.

ghost use Rattle.std.specs.Prelude.{◌≡◌, OnOk};
ghost use Rattle.linux_model.specs.Calls.{call_effects};
ghost use Rattle.linux_model.specs.Managed.{managed_after_all};
ghost use Rattle.linux_model.specs.Processes.{process};
ghost use Rattle.linux_model.specs.State.{Kernel};
ghost use Rattle.call_machine.specs.Lent.{kernel_of};
ghost use Rattle.sys_calls.specs.Ready.{CanCall};

use crate::groups::call_end;
use call_machine::Machine;
use lego_base::{Halt, Pid};
use manager::Manager;
use std::alloc::Global;
use sys_process::end_call;

/// The call that a process makes with its registers, and what follows it: the process goes on with the answer, or with other
/// registers, or its call waits, or it dies.
pub fn do_call<M: Machine>(
    machine: &mut M,
    manager: &mut Manager,
    alloc: Global,
    pid: Pid,
) -> Result<(), Halt>
    requires can { CanCall pid.0 manager.old (M.held machine.old) }
    ensures does { (k : Kernel) → OnOk result (M.does machine.old machine.new (call_effects (process manager.old.procs pid.0) (kernel_of manager.old (M.held machine.old) k))) }
    ensures managed { (k : Kernel) → OnOk result (managed_after_all (call_effects (process manager.old.procs pid.0) (kernel_of manager.old (M.held machine.old) k)) manager.old ≡ manager.new) }
    ensures stops { (k : Kernel) → M.stops machine.old machine.new (call_effects (process manager.old.procs pid.0) (kernel_of manager.old (M.held machine.old) k)) }
{
    let cpu = manager.cpu(pid);
    let end = call_end(machine, manager, alloc, pid)?;
    end_call(machine, manager, pid, cpu, end)
}

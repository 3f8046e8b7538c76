//! The groups of calls by number, one after another.

ghost use Rattle.std.specs.Prelude.{◌≡◌, None, true, is_some, IfOk, IfSome, OnErr};
ghost use Rattle.rv64_step.specs.Meaning.{reg};
ghost use Rattle.linux_model.specs.Calls.{call_by, row};
ghost use Rattle.linux_model.specs.Processes.{process};
ghost use Rattle.manager.specs.Words.{is_alive};
ghost use Rattle.call_machine.specs.Lent.{Ends, FitTogether, Stops};
ghost use Rattle.call_parts.specs.Numbered.{CanDie, IfDies, NumberedEnds, NumberedStops, StaysAlive};
ghost use Rattle.sys_space.specs.Calls.{is_space_call};
ghost use Rattle.sys_calls.specs.Ready.{BreakIsLow, CanCall};

use call_machine::errno::ENOSYS;
use call_machine::{CallEnd, Machine};
use lego_base::{Halt, Pid};
use manager::Manager;
use std::alloc::Global;
use sys_files::file_call;
use sys_io::io_call;
use sys_process::process_call;
use sys_space::space_call;

// The call that a process makes with its registers: how it ends.
pub(crate) fn call_end<M: Machine>(
    machine: &mut M,
    manager: &mut Manager,
    alloc: Global,
    pid: Pid,
) -> Result<CallEnd, Halt>
    requires can { CanCall pid.0 manager.old (M.held machine.old) }
    ensures ends { Ends M.held M.does machine.old machine.new manager.old manager.new pid.0 (λ p k. row (call_by p) p k) result }
    ensures stops { Stops M.held M.stops machine.old machine.new manager.old pid.0 (λ p k. row (call_by p) p k) }
    ensures dies { IfOk result (λ end. IfDies end (CanDie manager.new (M.held machine.new) pid.0)) }
{
    if let Some(end) = process_call(machine, manager, alloc, pid)? {
        return Ok(end);
    }
    if let Some(end) = file_call(machine, manager, alloc, pid)? {
        return Ok(end);
    }
    if let Some(end) = io_call(machine, manager, alloc, pid)? {
        return Ok(end);
    }
    if let Some(end) = space_end(machine, manager, alloc, pid)? {
        return Ok(end);
    }
    Ok(CallEnd::Value(ENOSYS))
}

// The call that a process makes with its registers, where it is one of those on spaces: how it ends. `None` exactly where it is
// another call; nothing was done then. The break that is managed is what brk(2) made of it.
fn space_end<M: Machine>(
    machine: &mut M,
    manager: &mut Manager,
    alloc: Global,
    pid: Pid,
) -> Result<Option<CallEnd>, Halt>
    requires alive { is_alive pid.0 manager.old ≡ true }
    requires fit { FitTogether manager.old (M.held machine.old) }
    requires low { BreakIsLow pid.0 manager.old }
    ensures mine { IfSome (process manager.old.procs pid.0) (λ p. IfOk result (λ end. is_some end ≡ is_space_call (reg p.cpu 17))) }
    ensures halts { OnErr result (IfSome (process manager.old.procs pid.0) (λ p. is_space_call (reg p.cpu 17) ≡ true)) }
    ensures ends { NumberedEnds M.held M.does machine.old machine.new manager.old manager.new pid.0 result }
    ensures stops { NumberedStops M.held M.stops is_space_call machine.old machine.new manager.old pid.0 }
    ensures lives { IfOk result (λ end. IfSome end StaysAlive) }
    ensures others { IfOk result (λ end. end ≡ None → (machine.new ≡ machine.old) × (manager.new ≡ manager.old)) }
{
    let cpu = manager.cpu(pid);
    let mut brk = manager.brk(pid);
    let Some(value) = space_call(machine, alloc, pid, &cpu, &mut brk)? else {
        return Ok(None);
    };
    manager.set_brk(pid, brk);
    Ok(Some(CallEnd::Value(value)))
}

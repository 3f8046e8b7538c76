//! clone(2), as fork(2).

ghost use Rattle.std.specs.Prelude.{◌≡◌, ◌+◌, true, IfOk};
ghost use Rattle.linux_model.specs.ProcessCalls.{clone_row};
ghost use Rattle.manager.specs.Words.{is_alive};
ghost use Rattle.call_machine.specs.Lent.{Ends, FitTogether, Stops};
ghost use Rattle.sys_process.specs.Words.{CanFork};
ghost use Rattle.call_parts.specs.Numbered.{StaysAlive};

use crate::end::answered;
use call_machine::errno::{EAGAIN, EINVAL};
use call_machine::{CallEnd, Machine};
use lego_base::{Halt, Pid};
use manager::{Manager, SpawnFault};
use std::alloc::Global;

/// The flags of fork(2): the parent is to learn of the child's death by this signal.
const SIGCHLD: u64 = 17;

/// clone(2) as fork(2): a child with a copy of the space, which shares the descriptions and goes on with 0 as its answer. Its pid;
/// or EINVAL, or EAGAIN where there are 64 processes.
pub fn sys_clone<M: Machine>(
    machine: &mut M,
    manager: &mut Manager,
    alloc: Global,
    pid: Pid,
    flags: u64,
    stack: u64,
) -> Result<CallEnd, Halt>
    requires alive { is_alive pid.0 manager.old ≡ true }
    requires fit { FitTogether manager.old (M.held machine.old) }
    requires can { CanFork manager.old (M.held machine.old) }
    ensures ends { Ends M.held M.does machine.old machine.new manager.old manager.new pid.0 (λ p k. clone_row p k flags stack) result }
    ensures stops { Stops M.held M.stops machine.old machine.new manager.old pid.0 (λ p k. clone_row p k flags stack) }
    ensures lives { IfOk result StaysAlive }
{
    if flags != SIGCHLD || stack != 0 {
        return Ok(CallEnd::Value(EINVAL));
    }
    if manager.is_full() {
        return Ok(CallEnd::Value(EAGAIN));
    }
    machine.copy_space(pid, Pid(manager.last() + 1))?;
    let cpu = answered(manager.cpu(pid), 0);
    match manager.fork(alloc, pid, cpu) {
        Ok(child) => Ok(CallEnd::Value(u64::from(child.0))),
        Err(SpawnFault::NoMemory) => Err(Halt::NoMemory),
        Err(SpawnFault::TooMany) => unreachable!(), // they aren't 64
    }
}

//! Death, and the closing of descriptors that it shares with execve(2).

ghost use Rattle.std.specs.Prelude.{◌≡◌, ◌||◌, true, OnOk};
ghost use Rattle.linux_model.specs.Managed.{managed_after_all, with_managed};
ghost use Rattle.linux_model.specs.ProcessCalls.{dying};
ghost use Rattle.linux_model.specs.State.{Kernel};
ghost use Rattle.manager.specs.Words.{is_alive};
ghost use Rattle.call_machine.specs.Lent.{FitTogether};
ghost use Rattle.sys_process.specs.Words.{closing_of, closings_of};

use call_machine::Machine;
use call_parts::close_open;
use lego_base::{Halt, Pid};
use manager::{Manager, Opened};

/// Descriptors of a process.
const DESCRIPTORS: u32 = 64;

/// A process dies with a wait status, as wait(2) gives it: its descriptors are closed in rising order, where a file whose last
/// description ends goes unless it has a name; the exit is recorded; and its space goes.
pub fn die<M: Machine>(
    machine: &mut M,
    manager: &mut Manager,
    pid: Pid,
    status: u32,
) -> Result<(), Halt>
    requires alive { is_alive pid.0 manager.old ≡ true }
    requires fit { FitTogether manager.old (M.held machine.old) }
    ensures does { (k : Kernel) → OnOk result (M.does machine.old machine.new (dying pid.0 status (with_managed manager.old k))) }
    ensures managed { (k : Kernel) → OnOk result (managed_after_all (dying pid.0 status (with_managed manager.old k)) manager.old ≡ manager.new) }
    ensures stops { (k : Kernel) → M.stops machine.old machine.new (dying pid.0 status (with_managed manager.old k)) }
{
    close_all(machine, manager, pid, true)?;
    manager.die(pid, status)?;
    machine.drop_space(pid)
}

// Closes all descriptors of a process in rising order, or those alone that execve(2) closes.
pub(crate) fn close_all<M: Machine>(
    machine: &mut M,
    manager: &mut Manager,
    pid: Pid,
    all: bool,
) -> Result<(), Halt>
    requires alive { is_alive pid.0 manager.old ≡ true }
    requires fit { FitTogether manager.old (M.held machine.old) }
    ensures does { (k : Kernel) → OnOk result (M.does machine.old machine.new (closings_of all pid.0 manager.old k)) }
    ensures managed { (k : Kernel) → OnOk result (managed_after_all (closings_of all pid.0 manager.old k) manager.old ≡ manager.new) }
    ensures stops { (k : Kernel) → M.stops machine.old machine.new (closings_of all pid.0 manager.old k) }
{
    let mut fd = 0;
    while fd < DESCRIPTORS {
        close_one(machine, manager, pid, fd, all)?;
        fd += 1;
    }
    Ok(())
}

// Closes a descriptor, where it is open and is to be closed.
fn close_one<M: Machine>(
    machine: &mut M,
    manager: &mut Manager,
    pid: Pid,
    fd: u32,
    all: bool,
) -> Result<(), Halt>
    ensures does { (k : Kernel) → OnOk result (M.does machine.old machine.new (closing_of all pid.0 fd manager.old k)) }
    ensures managed { (k : Kernel) → OnOk result (managed_after_all (closing_of all pid.0 fd manager.old k) manager.old ≡ manager.new) }
    ensures stops { (k : Kernel) → M.stops machine.old machine.new (closing_of all pid.0 fd manager.old k) }
{
    let Some(open) = manager.opened(pid, u64::from(fd)) else {
        return Ok(());
    };
    if !is_picked(open, all) {
        return Ok(());
    }
    close_open(machine, manager, pid, fd)
}

// Whether a descriptor is among all, or among those that execve(2) closes.
fn is_picked(open: Opened, all: bool) -> bool
    ensures { result ≡ (all || open.cloexec) }
{
    all || open.cloexec
}

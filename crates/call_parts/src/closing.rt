//! A descriptor is closed.

ghost use Rattle.std.specs.Prelude.{◌≡◌, OnOk};
ghost use Rattle.linux_model.specs.Descriptors.{closing};
ghost use Rattle.linux_model.specs.Effects.{Closes};
ghost use Rattle.linux_model.specs.Managed.{managed_after, managed_after_all, with_managed};
ghost use Rattle.linux_model.specs.State.{Kernel};

use call_machine::Machine;
use lego_base::{Halt, Pid};
use manager::Manager;

/// Closes a descriptor of a process where it is open, as in close(2). A file goes whose last description that ends, unless it
/// has a name.
pub fn close_open<M: Machine>(
    machine: &mut M,
    man: &mut Manager,
    pid: Pid,
    fd: u32,
) -> Result<(), Halt>
    ensures closes { (k : Kernel) → OnOk result (M.does machine.old machine.new (closing pid.0 fd (with_managed man.old k))) }
    ensures managed { (k : Kernel) → managed_after_all (closing pid.0 fd (with_managed man.old k)) man.old ≡ man.new }
    ensures closed { man.new ≡ managed_after (Closes pid.0 fd) man.old }
    ensures stops { (k : Kernel) → M.stops machine.old machine.new (closing pid.0 fd (with_managed man.old k)) }
{
    if let Some(file) = man.close(pid, fd) {
        machine.free(file)?;
    }
    Ok(())
}

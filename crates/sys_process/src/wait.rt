//! wait4(2).

ghost use Rattle.std.specs.Prelude.{◌≡◌, ◌==◌, ◌&&◌, ◌||◌, not, nat_lt, true, Some, None, IfOk, OnOk};
ghost use Rattle.linux_model.specs.Buffers.{are_good, asks_pieces, to_write};
ghost use Rattle.linux_model.specs.Limits.{ANY, is_negative};
ghost use Rattle.linux_model.specs.Managed.{Managed};
ghost use Rattle.linux_model.specs.ProcessCalls.{status_buffer, wait4_row};
ghost use Rattle.proc_table.specs.declared.table.Reaped.TheVariants.{Child};
ghost use Rattle.manager.specs.Words.{after_reaped};
ghost use Rattle.call_machine.specs.Lent.{Ends, Stops};
ghost use Rattle.sys_process.specs.Words.{child_found, died, status_copies, status_row};
ghost use Rattle.call_parts.specs.Numbered.{StaysAlive};

use call_machine::errno::{ECHILD, EFAULT, EINVAL};
use call_machine::{CallEnd, Machine};
use kernel_objects::Waiting;
use lego_base::{Halt, Pid};
use manager::Manager;
use proc_table::Reaped;

/// The option WNOHANG: where no child is dead the answer is 0.
const WNOHANG: u64 = 1;

/// The word for any child, -1.
const ANY: u64 = u64::MAX;

/// The first word that is a negative number.
const NEGATIVE: u64 = 1 << 63;

/// The permission to write.
const WRITE: u8 = 2;

/// wait4(2): takes the status of the dead child of least pid among those of a pid, or of any (-1), and writes it at an address,
/// unless that is 0. The child's pid; 0 with WNOHANG where such children live, else it waits for one; or EINVAL, ECHILD or
/// EFAULT.
pub fn sys_wait4<M: Machine>(
    machine: &mut M,
    manager: &mut Manager,
    pid: Pid,
    want: u64,
    address: u64,
    options: u64,
    usage: u64,
) -> Result<CallEnd, Halt>
    ensures ends { Ends M.held M.does machine.old machine.new manager.old manager.new pid.0 (λ p k. wait4_row p k want address options usage) result }
    ensures stops { Stops M.held M.stops machine.old machine.new manager.old pid.0 (λ p k. wait4_row p k want address options usage) }
    ensures lives { IfOk result StaysAlive }
{
    if is_faulty(want, options, usage) {
        return Ok(CallEnd::Value(EINVAL));
    }
    match find_child(manager, pid, want) {
        Reaped::NoChild => Ok(CallEnd::Value(ECHILD)),
        Reaped::NotYet => wait_on(machine, pid, address, options),
        Reaped::Child(child, status) => take(machine, manager, pid, want, address, child, status),
    }
}

// Whether the arguments aren't those of a call.
fn is_faulty(want: u64, options: u64, usage: u64) -> bool
    ensures { result ≡ (nat_lt 1 options || not (usage == 0) || want == 0 || is_negative want && not (want == ANY)) }
{
    options > WNOHANG || usage != 0 || want == 0 || (want >= NEGATIVE && want != ANY)
}

// What a parent finds that waits for a child of a pid, or for any.
fn find_child(manager: &Manager, pid: Pid, want: u64) -> Reaped
    ensures { result ≡ child_found pid.0 want manager.now }
{
    manager.child(pid, want.cast_signed())
}

// The same, and the dead child is gone.
fn reap_child(manager: &mut Manager, pid: Pid, want: u64) -> Reaped
    ensures found { result ≡ child_found pid.0 want manager.old }
    ensures gone { manager.new ≡ after_reaped result manager.old }
{
    manager.reap(pid, want.cast_signed())
}

// There are children, none of them dead.
fn wait_on<M: Machine>(
    machine: &mut M,
    pid: Pid,
    address: u64,
    options: u64,
) -> Result<CallEnd, Halt>
    ensures ends { (man : Managed) → Ends M.held M.does machine.old machine.new man man pid.0 (status_row address options None) result }
    ensures stops { (man : Managed) → Stops M.held M.stops machine.old machine.new man pid.0 (status_row address options None) }
    ensures lives { IfOk result StaysAlive }
{
    if !is_good(machine, pid, address)? {
        return Ok(CallEnd::Value(EFAULT));
    }
    if options == WNOHANG {
        return Ok(CallEnd::Value(0));
    }
    Ok(CallEnd::Waits(Waiting { moved: 0, len: 0 }))
}

// A child is dead.
fn take<M: Machine>(
    machine: &mut M,
    manager: &mut Manager,
    pid: Pid,
    want: u64,
    address: u64,
    child: Pid,
    status: u32,
) -> Result<CallEnd, Halt>
    requires found { child_found pid.0 want manager.old ≡ Child child status }
    ensures ends { Ends M.held M.does machine.old machine.new manager.old manager.new pid.0 (status_row address 0 (died child.0 status)) result }
    ensures stops { Stops M.held M.stops machine.old machine.new manager.old pid.0 (status_row address 0 (died child.0 status)) }
    ensures lives { IfOk result StaysAlive }
{
    if !is_good(machine, pid, address)? {
        return Ok(CallEnd::Value(EFAULT));
    }
    put_status(machine, pid, address, status)?;
    reap_child(manager, pid, want);
    Ok(CallEnd::Value(u64::from(child.0)))
}

// Whether a status may be written at an address, or none is to be.
fn is_good<M: Machine>(machine: &mut M, pid: Pid, address: u64) -> Result<bool, Halt>
    ensures does { OnOk result (M.does machine.old machine.new (asks_pieces pid.0 ((M.held machine.old).space pid.0) to_write (status_buffer address))) }
    ensures good { IfOk result (λ good. good ≡ are_good ((M.held machine.old).space pid.0) to_write (status_buffer address)) }
    ensures stops { M.stops machine.old machine.new (asks_pieces pid.0 ((M.held machine.old).space pid.0) to_write (status_buffer address)) }
{
    if address == 0 {
        return Ok(true);
    }
    machine.check_span(pid, address, 4, WRITE)
}

// Writes a status, unless the address is 0.
fn put_status<M: Machine>(machine: &mut M, pid: Pid, address: u64, status: u32) -> Result<(), Halt>
    requires { are_good ((M.held machine.old).space pid.0) to_write (status_buffer address) ≡ true }
    ensures does { OnOk result (M.does machine.old machine.new (status_copies pid.0 address status)) }
    ensures stops { M.stops machine.old machine.new (status_copies pid.0 address status) }
{
    if address == 0 {
        return Ok(());
    }
    machine.copy_out(pid, address, &status.to_le_bytes())
}

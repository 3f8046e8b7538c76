//! What a path names. There is the root directory with files in it.

ghost use Rattle.std.specs.Prelude.{◌≡◌, ◌==◌, ◌&&◌, ◌+◌, ◌≤◌, length, not, Some, IfOk, OnOk};
ghost use Rattle.linux_model.specs.Called.{Called};
ghost use Rattle.linux_model.specs.Held.{with_held};
ghost use Rattle.linux_model.specs.Limits.{AT_FDCWD};
ghost use Rattle.linux_model.specs.Paths.{at_path, is_relative, resolved, Found as Place};
ghost use Rattle.linux_model.specs.State.{Kernel};
ghost use Rattle.call_machine.specs.Laws.{effects_of};
ghost use Rattle.call_machine.specs.Lent.{Stops};
ghost use Rattle.sys_paths.specs.Reached.{IsNamed, Leads, Reached};
ghost use Rattle.sys_paths.specs.Parts.{leads_to, names_row, way_by};

use crate::parts::{FirstName, first_name, piece};
use crate::text::{Text, read_text};
use call_machine::Machine;
use call_machine::errno::{EBADF, EFAULT, ENAMETOOLONG, ENOENT, ENOTDIR};
use lego_base::{Bytes, FileNo, Halt, Pid};
use manager::Manager;
use std::alloc::Global;

/// The most bytes of a path, its closing 0 counted.
const PATH_BYTES: usize = 4096;

/// The most bytes of a name.
const NAME_BYTES: usize = 255;

/// The word for the working directory, which is the root.
const AT_FDCWD: u64 = u64::MAX - 99;

/// What a path names.
#[derive(Drop)]
pub enum Found {
    /// The root directory.
    Root,
    /// A name in it, with the file that has it.
    Named(Bytes, Option<FileNo>),
}

/// What the path at an address of a process's space names: a relative one begins where a descriptor is open, or at the working
/// directory. Or why it names nothing: EFAULT, ENAMETOOLONG, ENOENT, EBADF or ENOTDIR.
pub fn find_path<M: Machine>(
    machine: &mut M,
    manager: &Manager,
    alloc: Global,
    pid: Pid,
    dir: u64,
    address: u64,
) -> Result<Result<Found, u64>, Halt>
    ensures leads { Leads M.held M.does machine.old machine.new manager.now pid.0 (λ p k. at_path p k dir address) result }
    ensures named { IfOk result (λ end. IfOk end (IsNamed (M.held machine.old).names)) }
    ensures still { OnOk result (M.held machine.new ≡ M.held machine.old) }
    ensures stops { (f : Place → Called) → Stops M.held M.stops machine.old machine.new manager.now pid.0 (λ p k. at_path p k dir address f) }
{
    match read_text(machine, alloc, pid, address, PATH_BYTES)? {
        Text::Whole(path) => find_resolved(machine, manager, alloc, pid, dir, path.as_slice()),
        Text::Denied => Ok(Err(EFAULT)),
        Text::Long => Ok(Err(ENAMETOOLONG)),
    }
}

// The same for a path that was read.
fn find_resolved<M: Machine>(
    machine: &mut M,
    manager: &Manager,
    alloc: Global,
    pid: Pid,
    dir: u64,
    path: &[u8],
) -> Result<Result<Found, u64>, Halt>
    ensures leads { Leads M.held M.does machine.old machine.new manager.now pid.0 (λ p k. resolved p k dir path.now) result }
    ensures named { IfOk result (λ end. IfOk end (IsNamed (M.held machine.old).names)) }
    ensures still { OnOk result (M.held machine.new ≡ M.held machine.old) }
    ensures stops { (f : Place → Called) → Stops M.held M.stops machine.old machine.new manager.now pid.0 (λ p k. resolved p k dir path.now f) }
{
    if path.is_empty() {
        return Ok(Err(ENOENT));
    }
    if begins_at(path, dir) {
        let is_open = manager.opened(pid, dir).is_some();
        return Ok(Err(if is_open { ENOTDIR } else { EBADF }));
    }
    let Some(name) = first_name(path) else {
        return Ok(Ok(Found::Root));
    };
    find_name(machine, alloc, path, name)
}

// Whether a path begins where a descriptor is open.
fn begins_at(path: &[u8], dir: u64) -> bool
    ensures { result ≡ (is_relative path.now && not (dir == AT_FDCWD)) }
{
    let is_absolute = matches!(path.first(), Some(b'/'));
    !is_absolute && dir != AT_FDCWD
}

// The file with the first name of a path.
fn find_name<M: Machine>(
    machine: &mut M,
    alloc: Global,
    path: &[u8],
    name: FirstName,
) -> Result<Result<Found, u64>, Halt>
    requires way { way_by (Some name) path.now ≡ leads_to path.now }
    requires within { name.start + name.len ≤ length path.now }
    ensures leads { (k : Kernel) → IfOk result (Reached M.does machine.old machine.new (names_row path.now (with_held (M.held machine.old) k))) }
    ensures named { IfOk result (λ end. IfOk end (IsNamed (M.held machine.old).names)) }
    ensures still { OnOk result (M.held machine.new ≡ M.held machine.old) }
    ensures stops { (f : Place → Called) (k : Kernel) → M.stops machine.old machine.new (effects_of (names_row path.now (with_held (M.held machine.old) k) f)) }
{
    let bytes = piece(path, name.start, name.len);
    if bytes.len() > NAME_BYTES {
        return Ok(Err(if name.is_last { ENAMETOOLONG } else { ENOENT }));
    }
    let file = machine.find(bytes)?;
    if name.is_last {
        let named = Bytes::from_slice(alloc, bytes)?;
        return Ok(Ok(Found::Named(named, file)));
    }
    Ok(Err(if file.is_some() { ENOTDIR } else { ENOENT }))
}

//! What is open, to be read or to be written.

ghost use Rattle.std.specs.Prelude.{◌≡◌, Some, IfSome};
ghost use Rattle.kernel_objects.specs.Slots.{slot};
ghost use Rattle.linux_model.specs.Descriptors.{is_readable, is_writable};
ghost use Rattle.manager.specs.Tables.{PipeThere};
ghost use Rattle.sys_io.specs.Rows.{OpenTo};

use lego_base::Pid;
use manager::{Manager, Opened};

/// The access mode among the flags of open(2).
const ACCESS: u32 = 3;

const O_WRONLY: u32 = 1;

/// What a descriptor is open on, where it may be read.
pub fn readable(man: &Manager, pid: Pid, fd: u64) -> Option<Opened>
    ensures is { OpenTo is_readable man.now pid.0 fd result }
    ensures there { IfSome result (λ o. slot man.now.descs o.desc ≡ Some o.is) }
    ensures pipe { IfSome result (λ o. PipeThere man.now.pipes o.is.object) }
{
    let found = man.opened(pid, fd)?;
    if found.is.flags & ACCESS == O_WRONLY {
        return None;
    }
    Some(found)
}

/// What a descriptor is open on, where it may be written.
pub fn writable(man: &Manager, pid: Pid, fd: u64) -> Option<Opened>
    ensures is { OpenTo is_writable man.now pid.0 fd result }
    ensures there { IfSome result (λ o. slot man.now.descs o.desc ≡ Some o.is) }
    ensures pipe { IfSome result (λ o. PipeThere man.now.pipes o.is.object) }
{
    let found = man.opened(pid, fd)?;
    if found.is.flags & ACCESS == 0 {
        return None;
    }
    Some(found)
}

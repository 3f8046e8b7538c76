//! ftruncate(2) and lseek(2).

ghost use Rattle.std.specs.Prelude.{◌≡◌, Some};
ghost use Rattle.lego_base.specs.declared.sizes.TheConstants.{LONGEST_FILE};
ghost use Rattle.kernel_objects.specs.Slots.{slot};
ghost use Rattle.linux_model.specs.Descriptors.{is_writable};
ghost use Rattle.linux_model.specs.FileCalls.{ftruncate_row, lseek_row, seeks_from, sum_of};
ghost use Rattle.linux_model.specs.Limits.{is_negative};
ghost use Rattle.call_machine.specs.Lent.{Answers, FitTogether, Manages, Stops};
ghost use Rattle.manager.specs.Words.{open_of};

use call_machine::Machine;
use call_machine::errno::{EBADF, EFBIG, EINVAL, ESPIPE};
use kernel_objects::Object;
use lego_base::{Halt, LONGEST_FILE, Pid};
use manager::{Manager, Opened};

/// Where lseek(2) begins: at the offset (SEEK_CUR), or at the size (SEEK_END); 0 is the start (SEEK_SET).
const SEEK_CUR: u64 = 1;

const SEEK_END: u64 = 2;

/// ftruncate(2): the size of the file becomes this; a file that grows gets zeros. 0, or EBADF where the descriptor isn't open,
/// EINVAL where it isn't open on a file, not to be written, or the size is negative, and EFBIG for more than 16 MiB.
pub fn sys_ftruncate<M: Machine>(
    machine: &mut M,
    man: &Manager,
    pid: Pid,
    fd: u64,
    size: u64,
) -> Result<u64, Halt>
    requires fit { FitTogether man.now (M.held machine.old) }
    ensures answers { Answers M.held M.does machine.old machine.new man.now man.now pid.0 (λ p k. ftruncate_row p k fd size) result }
    ensures stops { Stops M.held M.stops machine.old machine.new man.now pid.0 (λ p k. ftruncate_row p k fd size) }
{
    let Some(open) = man.opened(pid, fd) else {
        return Ok(EBADF);
    };
    let Object::Regular(file) = open.is.object else {
        return Ok(EINVAL);
    };
    if !is_writable(&open) || is_negative(size) {
        return Ok(EINVAL);
    }
    if size > LONGEST_FILE as u64 {
        return Ok(EFBIG);
    }
    machine.cut(file, size)?;
    Ok(0)
}

/// lseek(2): the offset of the description becomes this, from the start (0), from the offset (1) or from the size (2). The new
/// offset, or EBADF where the descriptor isn't open, ESPIPE where it isn't open on a file, and EINVAL for another start or an
/// offset that no signed word holds.
pub fn sys_lseek<M: Machine>(
    machine: &mut M,
    man: &mut Manager,
    pid: Pid,
    fd: u64,
    off: u64,
    whence: u64,
) -> Result<u64, Halt>
    requires fit { FitTogether man.old (M.held machine.old) }
    ensures answers { Answers M.held M.does machine.old machine.new man.old man.new pid.0 (λ p k. lseek_row p k fd off whence) result }
    ensures stops { Stops M.held M.stops machine.old machine.new man.old pid.0 (λ p k. lseek_row p k fd off whence) }
{
    let Some(open) = man.opened(pid, fd) else {
        return Ok(EBADF);
    };
    let Object::Regular(file) = open.is.object else {
        return Ok(ESPIPE);
    };
    if whence > SEEK_END {
        return Ok(EINVAL);
    }
    if whence == SEEK_END {
        let size = machine.size(file)?;
        return Ok(seek(man, &open, size, off));
    }
    let start = if whence == SEEK_CUR {
        open.is.offset
    } else {
        0
    };
    Ok(seek(man, &open, start, off))
}

// The offset of an open description becomes a place moved by a signed word, where there is such a place.
fn seek(man: &mut Manager, opened: &Opened, place: u64, off: u64) -> u64
    requires { slot man.old.descs opened.now.desc ≡ Some opened.now.is }
    ensures { Manages man.old man.new (seeks_from (open_of opened.now) place off) result }
{
    match sum_of(place, off) {
        Some(offset) => {
            man.set_offset(opened.desc, offset);
            offset
        }
        None => EINVAL,
    }
}

// Whether bytes may be written to what is open.
fn is_writable(opened: &Opened) -> bool
    ensures { result ≡ is_writable (open_of opened.now) }
{
    opened.is.flags & 3 != 0
}

// Whether a word is a negative number.
fn is_negative(word: u64) -> bool
    ensures { result ≡ is_negative word }
{
    word >= 1 << 63
}

// A place moved by a signed word; `None` where it is negative or no signed word holds it.
fn sum_of(place: u64, off: u64) -> Option<u64>
    ensures { result ≡ sum_of place off }
{
    if is_negative(off) {
        return place.checked_sub(off.wrapping_neg());
    }
    let sum = place.checked_add(off)?;
    if is_negative(sum) {
        return None;
    }
    Some(sum)
}

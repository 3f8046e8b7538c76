//! The start stack, page by page.

ghost use Rattle.std.specs.Prelude.{◌≡◌, ℕ, ◌+◌, ◌<◌, ◌≤◌, length, IsSome, OnOk};
ghost use Rattle.lego_base.specs.Space.{perms_of};
ghost use Rattle.space_rules.specs.Pages.{pages_met};
ghost use Rattle.space_rules.specs.Mapped.{stack_page, stack_pages};
ghost use Rattle.space_rules.specs.Standing.{IsWithinStack};
ghost use Rattle.linux_model.specs.Loading.{cut};

use call_machine::Machine;
use lego_base::{Halt, PAGE_BYTES, Pid};

// Writes the bytes of a start stack, starting at the stack pointer, page by page. They end where the last page ends.
pub(crate) fn fill_stack<M: Machine>(
    machine: &mut M,
    pid: Pid,
    sp: u64,
    bytes: &[u8],
) -> Result<(), Halt>
    requires within { IsWithinStack sp bytes.now }
    requires mapped { (page : ℕ) → stack_page ≤ page → page < stack_page + stack_pages → IsSome (perms_of ((M.held machine.old).space pid.0).areas page) }
    ensures does { OnOk result (M.does machine.old machine.new (cut pid.0 (pages_met sp (length bytes.now)) sp bytes.now)) }
    ensures stops { M.stops machine.old machine.new (cut pid.0 (pages_met sp (length bytes.now)) sp bytes.now) }
{
    let mut done = 0;
    while done < bytes.len() {
        let address = sp + done as u64;
        let room = (PAGE_BYTES - address % PAGE_BYTES) as usize;
        machine.fill(pid, address, &bytes[done..done + room])?;
        done += room;
    }
    Ok(())
}

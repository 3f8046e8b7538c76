//! brk(2).

ghost use Rattle.std.specs.Prelude.{◌≡◌, ◌<◌, ◌≤◌, ◌⊎◌};
ghost use Rattle.lego_base.specs.declared.sizes.TheConstants.{USER_END};
ghost use Rattle.space_rules.specs.Place.{pages_for};
ghost use Rattle.linux_model.specs.SpaceCalls.{brk_between, brk_row};
ghost use Rattle.sys_space.specs.Calls.{BreakAnswers, BreakStops};

use crate::pages::{cut_few, is_free, pages_for, put_within};
use bitflags::Flags;
use call_machine::Machine;
use kernel_objects::Brk;
use lego_base::{Halt, Perms, Pid, Vpn};
use space_rules::MAPPINGS_START;
use std::alloc::Global;

/// brk(2), as the system call: the break moves to an address, and the pages that it passes are mapped to read and to write,
/// or unmapped. The new break, or the old one where it can't move.
pub fn sys_brk<M: Machine>(
    machine: &mut M,
    alloc: Global,
    pid: Pid,
    brk: &mut Brk,
    address: u64,
) -> Result<u64, Halt>
    requires within { brk.old.now ≤ USER_END }
    ensures answers { BreakAnswers M.held M.does machine.old machine.new pid.0 brk.old brk.new (λ p k. brk_row p k address) result }
    ensures stops { BreakStops M.held M.stops machine.old machine.new pid.0 brk.old (λ p k. brk_row p k address) }
    ensures within { brk.new.now ≤ USER_END }
{
    if address < brk.base || address > MAPPINGS_START {
        return Ok(brk.now);
    }
    let was = pages_for(brk.now);
    let to = pages_for(address);
    if was < to {
        grow(machine, alloc, pid, brk, address)
    } else if to < was {
        shrink(machine, alloc, pid, brk, address)
    } else {
        brk.now = address;
        Ok(address)
    }
}

// The break moves up, past pages that are mapped with it.
fn grow<M: Machine>(
    machine: &mut M,
    alloc: Global,
    pid: Pid,
    brk: &mut Brk,
    address: u64,
) -> Result<u64, Halt>
    requires up { pages_for brk.old.now < pages_for address }
    requires within { address ≤ USER_END }
    ensures answers { BreakAnswers M.held M.does machine.old machine.new pid.0 brk.old brk.new (λ p k. brk_between p k address (pages_for brk.old.now) (pages_for address)) result }
    ensures stops { BreakStops M.held M.stops machine.old machine.new pid.0 brk.old (λ p k. brk_between p k address (pages_for brk.old.now) (pages_for address)) }
    ensures one { (brk.new ≡ brk.old) ⊎ (brk.new.now ≡ address) }
{
    let first = Vpn(pages_for(brk.now));
    let pages = pages_for(address) - first.0;
    let mut areas = machine.areas(alloc, pid)?;
    let perms = Flags::union(Perms::READ, Perms::WRITE);
    if !is_free(&areas, first, pages) || !put_within(&mut areas, first, pages, perms) {
        return Ok(brk.now);
    }
    machine.map(pid, areas)?;
    brk.now = address;
    Ok(address)
}

// The break moves down, past pages that are unmapped with it.
fn shrink<M: Machine>(
    machine: &mut M,
    alloc: Global,
    pid: Pid,
    brk: &mut Brk,
    address: u64,
) -> Result<u64, Halt>
    requires down { pages_for address < pages_for brk.old.now }
    requires within { brk.old.now ≤ USER_END }
    ensures answers { BreakAnswers M.held M.does machine.old machine.new pid.0 brk.old brk.new (λ p k. brk_between p k address (pages_for brk.old.now) (pages_for address)) result }
    ensures stops { BreakStops M.held M.stops machine.old machine.new pid.0 brk.old (λ p k. brk_between p k address (pages_for brk.old.now) (pages_for address)) }
    ensures one { (brk.new ≡ brk.old) ⊎ (brk.new.now ≡ address) }
{
    let first = Vpn(pages_for(address));
    let pages = pages_for(brk.now) - first.0;
    let mut areas = machine.areas(alloc, pid)?;
    if !cut_few(&mut areas, first, pages) {
        return Ok(brk.now);
    }
    machine.unmap(pid, first, pages)?;
    brk.now = address;
    Ok(address)
}

//! munmap(2), mmap(2) and mprotect(2).

ghost use Rattle.std.specs.Prelude.{◌≡◌, ◌<◌, ◌≤◌};
ghost use Rattle.linux_model.specs.SpaceCalls.{mmap_row, mprotect_row, munmap_row};
ghost use Rattle.sys_space.specs.Calls.{anywhere_row, Answers, fixed_row, Stops};

use crate::pages::{cut_few, cut_within, ends_outside, pages_for, perms_of, put_few, put_within};
use bitflags::Flags;
use call_machine::Machine;
use call_machine::errno::{EINVAL, ENOMEM};
use lego_base::{Halt, PAGE_BYTES, Perms, Pid, Vpn};
use space_rules::place;
use std::alloc::Global;

/// MAP_PRIVATE with MAP_ANONYMOUS: at the lowest free place.
const ANYWHERE: u64 = 0x22;

/// The same with MAP_FIXED: at the address.
const FIXED: u64 = 0x32;

/// The most bytes of one mapping.
const MAPPING_BYTES: u64 = 67_108_864;

/// The most permissions: PROT_READ, PROT_WRITE and PROT_EXEC.
const ALL_PERMS: u64 = 7;

/// munmap(2): the pages of `len` bytes, starting at a page address, aren't mapped any more. 0, or EINVAL, or ENOMEM where
/// there would be more than 256 runs of pages.
pub fn sys_munmap<M: Machine>(
    machine: &mut M,
    alloc: Global,
    pid: Pid,
    address: u64,
    len: u64,
) -> Result<u64, Halt>
    ensures answers { Answers M.held M.does machine.old machine.new pid.0 (λ p k. munmap_row p k address len) result }
    ensures stops { Stops M.held M.stops machine.old machine.new pid.0 (λ p k. munmap_row p k address len) }
{
    if address % PAGE_BYTES != 0 || len == 0 || ends_outside(address, len) {
        return Ok(EINVAL);
    }
    let first = Vpn(address / PAGE_BYTES);
    let pages = pages_for(len);
    let mut areas = machine.areas(alloc, pid)?;
    if !cut_few(&mut areas, first, pages) {
        return Ok(ENOMEM);
    }
    machine.unmap(pid, first, pages)?;
    Ok(0)
}

/// mprotect(2): the pages of `len` bytes, starting at a page address, get these permissions. 0, or EINVAL, or ENOMEM where
/// one of them isn't mapped or there would be more than 256 runs of pages.
pub fn sys_mprotect<M: Machine>(
    machine: &mut M,
    alloc: Global,
    pid: Pid,
    address: u64,
    len: u64,
    prot: u64,
) -> Result<u64, Halt>
    ensures answers { Answers M.held M.does machine.old machine.new pid.0 (λ p k. mprotect_row p k address len prot) result }
    ensures stops { Stops M.held M.stops machine.old machine.new pid.0 (λ p k. mprotect_row p k address len prot) }
{
    if address % PAGE_BYTES != 0 || prot > ALL_PERMS {
        return Ok(EINVAL);
    }
    if len == 0 {
        return Ok(0);
    }
    if ends_outside(address, len) {
        return Ok(ENOMEM);
    }
    let first = Vpn(address / PAGE_BYTES);
    let pages = pages_for(len);
    let mut areas = machine.areas(alloc, pid)?;
    if !areas.covers(first, pages, Perms::empty())
        || !put_few(&mut areas, first, pages, perms_of(prot))
    {
        return Ok(ENOMEM);
    }
    machine.protect(pid, first, pages, areas)?;
    Ok(0)
}

/// mmap(2) of anonymous, private memory: new pages for `len` bytes, which read 0. Its address: the lowest free one, or with
/// MAP_FIXED the one that is named, where pages that were mapped are unmapped first; or EINVAL, or ENOMEM where there is no
/// place, or there would be more than 256 runs of pages or 16384 pages.
pub fn sys_mmap<M: Machine>(
    machine: &mut M,
    alloc: Global,
    pid: Pid,
    address: u64,
    len: u64,
    prot: u64,
    flags: u64,
) -> Result<u64, Halt>
    ensures answers { Answers M.held M.does machine.old machine.new pid.0 (λ p k. mmap_row p k address len prot flags) result }
    ensures stops { Stops M.held M.stops machine.old machine.new pid.0 (λ p k. mmap_row p k address len prot flags) }
{
    if len == 0 || prot > ALL_PERMS || (flags != ANYWHERE && flags != FIXED) {
        return Ok(EINVAL);
    }
    if len > MAPPING_BYTES {
        return Ok(ENOMEM);
    }
    if flags == FIXED {
        map_fixed(machine, alloc, pid, address, len, perms_of(prot))
    } else {
        map_anywhere(machine, alloc, pid, len, perms_of(prot))
    }
}

// A mapping at the lowest free place.
fn map_anywhere<M: Machine>(
    machine: &mut M,
    alloc: Global,
    pid: Pid,
    len: u64,
    perms: Perms,
) -> Result<u64, Halt>
    ensures answers { Answers M.held M.does machine.old machine.new pid.0 (anywhere_row len perms) result }
    ensures stops { Stops M.held M.stops machine.old machine.new pid.0 (anywhere_row len perms) }
{
    let mut areas = machine.areas(alloc, pid)?;
    let Some(at) = place(&areas, len) else {
        return Ok(ENOMEM);
    };
    if !put_within(&mut areas, Vpn(at / PAGE_BYTES), pages_for(len), perms) {
        return Ok(ENOMEM);
    }
    machine.map(pid, areas)?;
    Ok(at)
}

// A mapping at an address, where the range is unmapped first.
fn map_fixed<M: Machine>(
    machine: &mut M,
    alloc: Global,
    pid: Pid,
    address: u64,
    len: u64,
    perms: Perms,
) -> Result<u64, Halt>
    ensures answers { Answers M.held M.does machine.old machine.new pid.0 (fixed_row address len perms) result }
    ensures stops { Stops M.held M.stops machine.old machine.new pid.0 (fixed_row address len perms) }
{
    if address % PAGE_BYTES != 0 || address < PAGE_BYTES {
        return Ok(EINVAL);
    }
    if ends_outside(address, len) {
        return Ok(ENOMEM);
    }
    let first = Vpn(address / PAGE_BYTES);
    let pages = pages_for(len);
    let mut areas = machine.areas(alloc, pid)?;
    if !cut_within(&mut areas, first, pages) || !put_within(&mut areas, first, pages, perms) {
        return Ok(ENOMEM);
    }
    machine.unmap(pid, first, pages)?;
    machine.map(pid, areas)?;
    Ok(address)
}

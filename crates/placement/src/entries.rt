//! Entries of a child and of a memory.

ghost use Rattle.std.specs.Prelude.{◌≡◌, ◌<◌, length, IfOk};
ghost use Rattle.lego_base.specs.Keys.{Rises, is_of, put_all, those};
ghost use Rattle.lego_msg.specs.Maps.{home_key, owned_by};
ghost use Rattle.placement.specs.Owners.{entries_of, handed_on, mapped, spaces_in};

use crate::table::in_turn;
use keyed_list::{get, put};
use lego_base::{HomeEntry, MemId, NoMemory, Pid, RegionNo, Seq, Spaces};
use std::alloc::Global;

/// The entries, with those of a parent's regions put for a child's too.
pub(crate) fn inherited_in(
    owners: &[HomeEntry],
    alloc: Global,
    parent: Pid,
    child: Pid,
) -> Result<Vec<HomeEntry>, NoMemory>
    requires { Rises home_key owners.now }
    ensures items { IfOk result (λ all. all.items ≡ put_all home_key (handed_on parent child owners.now) owners.now) }
    ensures rises { IfOk result (λ all. Rises home_key all.items) }
{
    let mut all = Vec::from_slice(alloc, owners)?;
    for entry in owners {
        if entry.pid.0 == parent.0 {
            put(&mut all, for_child(*entry, child))?;
        }
    }
    Ok(all)
}

/// The entries of those regions that have no owner, which get theirs by turns in their order.
pub(crate) fn unowned_in(
    owners: &[HomeEntry],
    alloc: Global,
    placement: &[MemId],
    given: u64,
    pid: Pid,
    regions: &[RegionNo],
) -> Result<Vec<HomeEntry>, NoMemory>
    requires rises { Rises home_key owners.now }
    requires some { 0 < length placement.now }
    ensures { IfOk result (λ new. new.items ≡ entries_of placement.now given (mapped pid regions.now owners.now)) }
{
    let mut new = Vec::new(alloc);
    for region in regions {
        if get(owners, pid, region.0).is_none() {
            let Some(number) = given.checked_add(new.len() as u64) else {
                return Err(NoMemory);
            };
            new.push(HomeEntry {
                pid,
                region: *region,
                owner: in_turn(placement, number),
            })?;
        }
    }
    Ok(new)
}

/// The entries, with several put one after the other.
pub(crate) fn with_all(
    owners: &[HomeEntry],
    alloc: Global,
    new: &[HomeEntry],
) -> Result<Vec<HomeEntry>, NoMemory>
    requires { Rises home_key owners.now }
    ensures items { IfOk result (λ all. all.items ≡ put_all home_key new.now owners.now) }
    ensures rises { IfOk result (λ all. Rises home_key all.items) }
{
    let mut all = Vec::from_slice(alloc, owners)?;
    for entry in new {
        put(&mut all, *entry)?;
    }
    Ok(all)
}

/// The regions of a memory's entries, in their order.
pub(crate) fn spaces_of(
    owners: &[HomeEntry],
    alloc: Global,
    memory: MemId,
) -> Result<Spaces, NoMemory>
    ensures { IfOk result (λ spaces. spaces ≡ spaces_in (owned_by memory.0 owners.now)) }
{
    let mut spaces = Seq::new(alloc);
    for entry in owners {
        if entry.owner.0 == memory.0 {
            spaces.push((entry.pid, entry.region))?;
        }
    }
    Ok(spaces)
}

/// The entries of a process, in their order.
pub(crate) fn process_entries(
    owners: &[HomeEntry],
    alloc: Global,
    pid: Pid,
) -> Result<Seq<HomeEntry>, NoMemory>
    ensures { IfOk result (λ entries. entries ≡ those home_key (is_of pid.0) owners.now) }
{
    let mut entries = Seq::new(alloc);
    for entry in owners {
        if entry.pid.0 == pid.0 {
            entries.push(*entry)?;
        }
    }
    Ok(entries)
}

fn for_child(entry: HomeEntry, child: Pid) -> HomeEntry
    ensures { result ≡ record entry { pid = child } }
{
    HomeEntry {
        pid: child,
        ..entry
    }
}

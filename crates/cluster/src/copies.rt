//! What the copy of a space calls for.

ghost use Rattle.std.specs.Prelude.{◌≡◌, ◌<◌, ◌++◌, IfOk, OnOk, drop, map};
ghost use Rattle.cluster.specs.Copying.{copies_for, drains_for, owners_from, owns_some, regions_in};
ghost use Rattle.cluster.specs.Mapping.{homes_of as all_homes};
ghost use Rattle.lego_msg.specs.Maps.{owned_by};
ghost use Rattle.lego_msg.specs.Places.{secondary_of};
ghost use Rattle.lego_msg.specs.declared.operation.Operation.TheVariants.{Drains};
ghost use Rattle.placement.specs.Owners.{for_child};

use crate::changes::home_of;
use lego_base::{HomeEntry, MemId, NoMemory, Pid, RegionNo, Seq};
use lego_msg::Operation;
use placement::secondary;
use std::alloc::Global;

// The memories that own some of these regions, in rising order.
pub(crate) fn owners_of(
    alloc: Global,
    memories: u32,
    entries: &[HomeEntry],
) -> Result<Seq<u32>, NoMemory>
    ensures { IfOk result (λ owners. owners ≡ owners_from memories 0 entries.now) }
{
    let mut owners = Seq::new(alloc);
    for number in 0..memories {
        if owns_some(number, entries) {
            owners.push(number)?;
        }
    }
    Ok(owners)
}

fn owns_some(number: u32, entries: &[HomeEntry]) -> bool
    ensures { result ≡ owns_some number entries.now }
{
    for entry in entries {
        if entry.owner.0 == number {
            return true;
        }
    }
    false
}

// The secondary of an owner is drained.
pub(crate) fn drain_of(memories: u32, owner: u32) -> Operation
    requires { 0 < memories }
    ensures { result ≡ Drains (record { 0 = secondary_of memories owner }) }
{
    Operation::Drains {
        memory: secondary(MemId(owner), memories),
    }
}

// What comes after the first drain: the other drains, the homes of the child's regions, and the copies.
pub(crate) fn after_drain(
    alloc: Global,
    memories: u32,
    parent: Pid,
    child: Pid,
    entries: &[HomeEntry],
    owners: &[u32],
) -> Result<Vec<Operation>, NoMemory>
    requires { 0 < memories }
    ensures { IfOk result (λ rest. rest.items ≡ drains_for memories (drop 1 owners.now) ++ (all_homes (map (for_child child) entries.now) ++ copies_for parent child entries.now owners.now)) }
{
    let mut operations = Vec::new(alloc);
    add_drains(&mut operations, memories, later(owners))?;
    add_homes(&mut operations, child, entries)?;
    add_copies(&mut operations, alloc, parent, child, entries, owners)?;
    Ok(operations)
}

// All but the first.
fn later(owners: &[u32]) -> &[u32]
    ensures { result.now ≡ drop 1 owners.now }
{
    if owners.is_empty() {
        return owners;
    }
    let (_, rest) = owners.split_at(1);
    rest
}

fn add_drains(
    operations: &mut Vec<Operation>,
    memories: u32,
    owners: &[u32],
) -> Result<(), NoMemory>
    requires { 0 < memories }
    ensures { OnOk result (operations.new.items ≡ operations.old.items ++ drains_for memories owners.now) }
{
    for owner in owners {
        operations.push(drain_of(memories, *owner))?;
    }
    Ok(())
}

fn add_homes(
    operations: &mut Vec<Operation>,
    child: Pid,
    entries: &[HomeEntry],
) -> Result<(), NoMemory>
    ensures { OnOk result (operations.new.items ≡ operations.old.items ++ all_homes (map (for_child child) entries.now)) }
{
    for entry in entries {
        operations.push(home_of(HomeEntry {
            pid: child,
            ..*entry
        }))?;
    }
    Ok(())
}

fn add_copies(
    operations: &mut Vec<Operation>,
    alloc: Global,
    parent: Pid,
    child: Pid,
    entries: &[HomeEntry],
    owners: &[u32],
) -> Result<(), NoMemory>
    ensures { OnOk result (operations.new.items ≡ operations.old.items ++ copies_for parent child entries.now owners.now) }
{
    for owner in owners {
        let regions = regions_owned(alloc, *owner, entries)?;
        operations.push(Operation::Copies {
            parent,
            child,
            regions,
            owner: MemId(*owner),
        })?;
    }
    Ok(())
}

// The regions of an owner.
fn regions_owned(
    alloc: Global,
    owner: u32,
    entries: &[HomeEntry],
) -> Result<Seq<RegionNo>, NoMemory>
    ensures { IfOk result (λ regions. regions ≡ regions_in (owned_by owner entries.now)) }
{
    let mut regions = Seq::new(alloc);
    for entry in entries {
        if entry.owner.0 == owner {
            regions.push(entry.region)?;
        }
    }
    Ok(regions)
}

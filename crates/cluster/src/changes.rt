//! What a mapping calls for, once its new owners are known.

ghost use Rattle.std.specs.Prelude.{◌≡◌, ◌++◌, IfOk, OnOk, drop};
ghost use Rattle.area_list.specs.Runs.{IsCanonical};
ghost use Rattle.cluster.specs.Mapping.{entries_in, homes_of, listed_in as listed_at, part_in as part_at, same_areas, sets_areas, sets_home, sets_one};

use crate::Cluster;
use crate::runs::{listed_in, part_in};
use lego_base::{Area, HomeEntry, NoMemory, Pid};
use lego_msg::Operation;
use std::alloc::Global;

impl Cluster {
    // What comes after the first home was told: the other homes, and the lists that become others.
    pub(crate) fn changes(
        &self,
        alloc: Global,
        pid: Pid,
        new: &[HomeEntry],
        old: &[Area],
        want: &[Area],
    ) -> Result<Vec<Operation>, NoMemory>
        requires { IsCanonical want.now }
        ensures { IfOk result (λ rest. rest.items ≡ homes_of (drop 1 new.now) ++ sets_areas old.now want.now (entries_in pid self.now.table)) }
    {
        let entries = self.entries(alloc, pid)?;
        let mut operations = homes_of(alloc, later(new))?;
        add_sets(&mut operations, alloc, entries.as_slice(), old, want)?;
        Ok(operations)
    }
}

// The home of a process learns an owner.
pub(crate) fn home_of(entry: HomeEntry) -> Operation
    ensures { result ≡ sets_home entry }
{
    Operation::SetsHome {
        pid: entry.pid,
        region: entry.region,
        owner: entry.owner,
    }
}

// All but the first.
fn later(entries: &[HomeEntry]) -> &[HomeEntry]
    ensures { result.now ≡ drop 1 entries.now }
{
    if entries.is_empty() {
        return entries;
    }
    let (_, rest) = entries.split_at(1);
    rest
}

fn homes_of(alloc: Global, entries: &[HomeEntry]) -> Result<Vec<Operation>, NoMemory>
    ensures { IfOk result (λ homes. homes.items ≡ homes_of entries.now) }
{
    let mut homes = Vec::new(alloc);
    for entry in entries {
        homes.push(home_of(*entry))?;
    }
    Ok(homes)
}

// Adds a set of each region's list that becomes another.
fn add_sets(
    operations: &mut Vec<Operation>,
    alloc: Global,
    entries: &[HomeEntry],
    old: &[Area],
    want: &[Area],
) -> Result<(), NoMemory>
    requires { IsCanonical want.now }
    ensures { OnOk result (operations.new.items ≡ operations.old.items ++ sets_areas old.now want.now entries.now) }
{
    for entry in entries {
        add_set(operations, alloc, *entry, old, want)?;
    }
    Ok(())
}

fn add_set(
    operations: &mut Vec<Operation>,
    alloc: Global,
    entry: HomeEntry,
    old: &[Area],
    want: &[Area],
) -> Result<(), NoMemory>
    requires { IsCanonical want.now }
    ensures { OnOk result (operations.new.items ≡ operations.old.items ++ sets_one entry (listed_at entry.region.0 old.now) (part_at entry.region.0 want.now)) }
{
    let was = listed_in(alloc, old, entry.region)?;
    let areas = part_in(alloc, want, entry.region)?;
    if is_same(was.as_slice(), areas.as_slice()) {
        return Ok(());
    }
    operations.push(Operation::SetsAreas {
        pid: entry.pid,
        region: entry.region,
        areas,
        owner: entry.owner,
    })?;
    Ok(())
}

fn is_same(old: &[Area], new: &[Area]) -> bool
    ensures { result ≡ same_areas old.now new.now }
{
    old == new
}

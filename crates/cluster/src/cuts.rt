//! What an unmapping calls for, and areas with pages cut out.

ghost use Rattle.std.specs.Prelude.{◌≡◌, ◌+◌, ◌-◌, ◌<◌, ◌≤◌, ◌++◌, IfOk, OnOk};
ghost use Rattle.area_list.specs.Runs.{IsCanonical, above, below, between, cut_runs};
ghost use Rattle.lego_base.specs.declared.sizes.TheConstants.{PAGES_END};
ghost use Rattle.cluster.specs.Mapping.{listed_in as listed_at};
ghost use Rattle.cluster.specs.Unmapping.{AreParts, IsPart, has_mapped, listed_for, range_end, range_start, unmaps_part, unmaps_parts};

use crate::copies::drain_of;
use crate::runs::listed_in;
use lego_base::{Area, AreaRuns, HomeEntry, NoMemory, Perms, Seq, Vpn};
use lego_msg::Operation;
use std::alloc::Global;

const REGION: u64 = 512; // pages of a region

// Adds what each of these regions calls for. `old` has the areas of all of them.
pub(crate) fn add_parts(
    operations: &mut Vec<Operation>,
    alloc: Global,
    memories: u32,
    entries: &[HomeEntry],
    old: &[Area],
    first: u64,
    pages: u64,
) -> Result<(), NoMemory>
    requires some { 0 < memories }
    requires most { first + pages ≤ PAGES_END }
    requires parts { AreParts old.now first pages entries.now }
    ensures { OnOk result (operations.new.items ≡ operations.old.items ++ unmaps_parts memories (listed_for old.now) first pages entries.now) }
{
    for entry in entries {
        add_part(operations, alloc, memories, *entry, old, first, pages)?;
    }
    Ok(())
}

// Nothing is called for where none of the pages is mapped.
fn add_part(
    operations: &mut Vec<Operation>,
    alloc: Global,
    memories: u32,
    entry: HomeEntry,
    old: &[Area],
    first: u64,
    pages: u64,
) -> Result<(), NoMemory>
    requires some { 0 < memories }
    requires most { first + pages ≤ PAGES_END }
    requires part { IsPart old.now first pages entry }
    ensures { OnOk result (operations.new.items ≡ operations.old.items ++ unmaps_part memories entry (range_start first entry) (range_end first pages entry) (listed_at entry.region.0 old.now)) }
{
    let low = first.max(entry.region.0 * REGION);
    let high = (first + pages).min((entry.region.0 + 1) * REGION);
    let runs = listed_in(alloc, old, entry.region)?;
    if has_mapped(runs.as_slice(), low, high) {
        let areas = cut(alloc, runs.as_slice(), low, high)?;
        operations.push(drain_of(memories, entry.owner.0))?;
        operations.push(Operation::Unmaps {
            pid: entry.pid,
            region: entry.region,
            first: Vpn(low),
            pages: high - low,
            areas,
            owner: entry.owner,
        })?;
    }
    Ok(())
}

// Whether a page of a range is in a run.
fn has_mapped(runs: &[Area], low: u64, high: u64) -> bool
    requires { IsCanonical runs.now }
    ensures { result ≡ has_mapped low high runs.now }
{
    for run in runs {
        if run.first.0.max(low) < (run.first.0 + run.pages).min(high) {
            return true;
        }
    }
    false
}

// Runs with a range of pages cut out.
fn cut(alloc: Global, runs: &[Area], low: u64, high: u64) -> Result<AreaRuns, NoMemory>
    requires canonical { IsCanonical runs.now }
    requires some { low < high }
    requires end { high ≤ PAGES_END }
    ensures { IfOk result (λ left. left ≡ cut_runs low (high - low) runs.now) }
{
    let mut left = Seq::new(alloc);
    add_below(&mut left, runs, low)?;
    add_above(&mut left, runs, high)?;
    Ok(left)
}

// Adds the parts of runs below a page.
fn add_below(left: &mut AreaRuns, runs: &[Area], page: u64) -> Result<(), NoMemory>
    requires { IsCanonical runs.now }
    ensures { OnOk result (left.new ≡ left.old ++ below page runs.now) }
{
    for run in runs {
        add_between(
            left,
            run.first.0,
            (run.first.0 + run.pages).min(page),
            run.perms,
        )?;
    }
    Ok(())
}

// Adds the parts of runs at or above a page.
fn add_above(left: &mut AreaRuns, runs: &[Area], page: u64) -> Result<(), NoMemory>
    requires { IsCanonical runs.now }
    ensures { OnOk result (left.new ≡ left.old ++ above page runs.now) }
{
    for run in runs {
        add_between(
            left,
            run.first.0.max(page),
            run.first.0 + run.pages,
            run.perms,
        )?;
    }
    Ok(())
}

// Adds the run from a page to before another, where it has a page.
fn add_between(left: &mut AreaRuns, first: u64, end: u64, perms: Perms) -> Result<(), NoMemory>
    ensures { OnOk result (left.new ≡ left.old ++ between first end perms) }
{
    if first < end {
        left.push(Area {
            first: Vpn(first),
            pages: end - first,
            perms,
        })?;
    }
    Ok(())
}

//! Runs of pages, cut at regions.

ghost use Rattle.std.specs.Prelude.{◌≡◌, ◌<◌, ◌≤◌, ◌+◌, ◌-◌, ◌++◌, IfOk, OnOk, max};
ghost use Rattle.area_list.specs.Runs.{IsCanonical, end_of};
ghost use Rattle.lego_base.specs.declared.sizes.TheConstants.{PAGES_END};
ghost use Rattle.cluster.specs.Mapping.{end_met, first_met, listed_in, numbers_from, part_in, piece_in, regions_from};

use lego_base::{Area, AreaRuns, NoMemory, RegionNo, Seq, Vpn};
use std::alloc::Global;

const REGION: u64 = 512; // pages of a region

const REGIONS: u64 = 131072; // regions below the end of user addresses

// The regions that runs meet, in rising order.
pub(crate) fn regions_of(alloc: Global, runs: &[Area]) -> Result<Seq<RegionNo>, NoMemory>
    requires { IsCanonical runs.now }
    ensures { IfOk result (λ regions. regions ≡ regions_from 0 runs.now) }
{
    let mut regions = Seq::new(alloc);
    let mut next = 0; // those below it are listed
    for run in runs {
        next = add_regions(&mut regions, next, *run)?;
    }
    Ok(regions)
}

// Adds those of a run's regions that aren't listed, and gives the one after them.
fn add_regions(regions: &mut Seq<RegionNo>, next: u64, run: Area) -> Result<u64, NoMemory>
    requires some { 0 < run.pages }
    requires end { end_of run ≤ PAGES_END }
    ensures added { OnOk result (regions.new ≡ regions.old ++ numbers_from (end_met run - first_met next run) (first_met next run)) }
    ensures after { IfOk result (λ after. after ≡ max (first_met next run) (end_met run)) }
{
    let end = (run.first.0 + run.pages - 1) / REGION + 1;
    let mut region = next.max(run.first.0 / REGION);
    while region < end {
        regions.push(RegionNo(region))?;
        region += 1;
    }
    Ok(region)
}

// The part of runs in a region.
pub(crate) fn part_in(alloc: Global, runs: &[Area], region: RegionNo) -> Result<AreaRuns, NoMemory>
    requires { IsCanonical runs.now }
    ensures { IfOk result (λ part. part ≡ part_in region.0 runs.now) }
{
    if region.0 >= REGIONS {
        return Ok(Seq::new(alloc));
    }
    let mut part = Seq::new(alloc);
    for run in runs {
        add_piece(&mut part, *run, region)?;
    }
    Ok(part)
}

// Adds what a run has in a region.
fn add_piece(part: &mut AreaRuns, run: Area, region: RegionNo) -> Result<(), NoMemory>
    requires end { end_of run ≤ PAGES_END }
    requires low { region.0 < 131072 }
    ensures { OnOk result (part.new ≡ part.old ++ piece_in region.0 run) }
{
    let first = run.first.0.max(region.0 * REGION);
    let end = (run.first.0 + run.pages).min(region.0 * REGION + REGION);
    if first < end {
        part.push(Area {
            first: Vpn(first),
            pages: end - first,
            perms: run.perms,
        })?;
    }
    Ok(())
}

// Of runs that are listed region by region, those of one.
pub(crate) fn listed_in(
    alloc: Global,
    runs: &[Area],
    region: RegionNo,
) -> Result<AreaRuns, NoMemory>
    ensures { IfOk result (λ listed. listed ≡ listed_in region.0 runs.now) }
{
    let mut listed = Seq::new(alloc);
    for run in runs {
        if run.first.0 / REGION == region.0 {
            listed.push(*run)?;
        }
    }
    Ok(listed)
}

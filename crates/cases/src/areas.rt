//! Runs that merge, split and are refused.

use area_list::{Areas, TooMany};
use lego_base::{Area, Perms, Vpn};
use std::alloc::Global;
use std::test::Fail;

fn run(first: u64, pages: u64, perms: Perms) -> Area {
    Area {
        first: Vpn(first),
        pages,
        perms,
    }
}

// Pages 17 to 19 to read, 20 and 21 to write, 22 and 23 and 25 to 27 to read.
fn four_runs(alloc: Global) -> Result<Areas, Fail> {
    let mut areas = Areas::new(alloc)?;
    areas.put(Vpn(16), 12, Perms::READ)?;
    areas.put(Vpn(20), 2, Perms::WRITE)?;
    areas.cut(Vpn(24), 1)?;
    areas.cut(Vpn(0), 17)?;
    Ok(areas)
}

#[test]
fn a_page_between_two_runs_joins_them(rt: HostRuntime) -> Result<(), Fail> {
    let mut areas = Areas::new(rt.alloc())?;
    areas.put(Vpn(16), 4, Perms::READ)?;
    areas.put(Vpn(24), 4, Perms::READ)?;
    areas.put(Vpn(20), 4, Perms::READ)?;
    assert_eq!(rt; areas.runs(), [run(16, 12, Perms::READ)].as_slice());
    Ok(())
}

#[test]
fn runs_are_split_and_cut(rt: HostRuntime) -> Result<(), Fail> {
    let areas = four_runs(rt.alloc())?;
    let left = [
        run(17, 3, Perms::READ),
        run(20, 2, Perms::WRITE),
        run(22, 2, Perms::READ),
        run(25, 3, Perms::READ),
    ];
    assert_eq!(rt; areas.runs(), left.as_slice());
    assert_eq!(rt; areas.pages(), 10);
    Ok(())
}

#[test]
fn pages_have_their_permissions(rt: HostRuntime) -> Result<(), Fail> {
    let areas = four_runs(rt.alloc())?;
    assert_eq!(rt; areas.perms_at(Vpn(21)), Some(Perms::WRITE));
    assert_eq!(rt; areas.perms_at(Vpn(24)), None);
    for (first, count, covered) in [(22, 2, true), (22, 3, false), (19, 2, false)] {
        assert_eq!(rt; areas.covers(Vpn(first), count, Perms::READ), covered);
    }
    Ok(())
}

#[test]
fn gaps_are_found(rt: HostRuntime) -> Result<(), Fail> {
    let areas = four_runs(rt.alloc())?;
    for (from, pages, gap) in [
        (10, 7, Some(Vpn(10))),
        (11, 7, Some(Vpn(28))),
        (11, (1 << 26) - 28, Some(Vpn(28))),
        (11, (1 << 26) - 27, None),
    ] {
        assert_eq!(rt; areas.gap_from(Vpn(from), pages), gap);
    }
    Ok(())
}

#[test]
fn areas_are_copied_and_cleared(rt: HostRuntime) -> Result<(), Fail> {
    let mut areas = four_runs(rt.alloc())?;
    let mut other = Areas::new(rt.alloc())?;
    other.copy_from(&areas);
    areas.clear();
    assert_eq!(rt; areas.pages(), 0);
    assert_eq!(rt; other.pages(), 10);
    Ok(())
}

#[test]
fn the_257th_run_is_refused(rt: HostRuntime) -> Result<(), Fail> {
    let mut areas = Areas::new(rt.alloc())?;
    for i in 0..256u64 {
        areas.put(Vpn(3 * i), 2, Perms::READ)?;
    }
    assert_eq!(rt; areas.runs().len(), 256);
    assert_eq!(rt; areas.put(Vpn(2000), 1, Perms::READ), Err(TooMany));
    assert_eq!(rt; areas.put(Vpn(1), 1, Perms::WRITE), Err(TooMany));
    assert_eq!(rt; areas.perms_at(Vpn(2000)), None);
    assert_eq!(rt; areas.perms_at(Vpn(1)), Some(Perms::READ));
    assert_eq!(rt; areas.pages(), 512);
    areas.put(Vpn(2), 1, Perms::READ)?;
    areas.put(Vpn(2000), 1, Perms::READ)?;
    assert_eq!(rt; areas.runs().len(), 256);
    assert_eq!(rt; areas.pages(), 514);
    Ok(())
}

//! A home of two processes.
use lego_base::{HomeEntry, MemId, Pid, RegionNo};
use region_home::Home;
use std::test::Fail;

#[test]
fn owners_are_set_found_and_dropped(rt: HostRuntime) -> Result<(), Fail> {
    let alloc = rt.alloc();
    let mut home = Home::new(alloc)?;
    home.set(Pid(2), RegionNo(7), MemId(1))?;
    home.set(Pid(1), RegionNo(9), MemId(2))?;
    home.set(Pid(2), RegionNo(7), MemId(0))?;
    assert_eq!(rt; home.get(Pid(2), RegionNo(7)), Some(MemId(0)));
    assert_eq!(rt; home.get(Pid(2), RegionNo(9)), None);
    let entries = home.entries(alloc)?;
    assert_eq!(rt; entries.len(), 2);
    home.drop_process(Pid(2));
    assert_eq!(rt; home.get(Pid(2), RegionNo(7)), None);
    assert_eq!(rt; home.get(Pid(1), RegionNo(9)), Some(MemId(2)));
    home.clear();
    assert_eq!(rt; home.get(Pid(1), RegionNo(9)), None);
    home.replace(entries.as_slice())?;
    assert_eq!(rt; home.get(Pid(2), RegionNo(7)), Some(MemId(0)));
    Ok(())
}

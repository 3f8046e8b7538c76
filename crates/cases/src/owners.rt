//! Owners of two processes.

use lego_base::{MemId, Pid, RegionNo};
use placement::{Table, home, processor_of, secondary};
use std::test::Fail;

#[test]
fn a_child_has_its_parents_owners(rt: HostRuntime) -> Result<(), Fail> {
    let alloc = rt.alloc();
    let mut table = Table::new(alloc, 2, &[MemId(1), MemId(0)])?;
    let first = table.assign(Pid(1), RegionNo(7))?.0 == 1;
    table.inherit(Pid(1), Pid(2))?;
    let second = table.assign(Pid(1), RegionNo(4))?.0 == 0;
    table.drop_process(Pid(1));
    let gone = table.owner(Pid(1), RegionNo(7)).is_none();
    let kept = table.owned_by(alloc, MemId(1))?.len() == 1;
    let owners = first && second && gone && kept && table.memories() == 2;
    let places = home(Pid(5), 3).0 == 2
        && secondary(MemId(1), 2).0 == 0
        && processor_of(Pid(3), 2).0 == 0;
    assert!(rt; owners && places);
    Ok(())
}

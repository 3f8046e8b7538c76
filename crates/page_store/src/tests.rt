//! Pages at the edge of the frames.

ghost use Rattle.std.specs.Prelude.{◌≡◌, ◌≤◌, IfOk, length};
ghost use Rattle.lego_msg.specs.Form.{IsWithinPage};

use crate::PageStore;
use lego_base::{Bytes, PageImage, Patch, Pid, RegionNo, Vpn};
use std::alloc::Global;
use std::test::Fail;

const ONE: Pid = Pid(1);

const TWO: Pid = Pid(2);

const REGION: RegionNo = RegionNo(0);

// The byte 7 at byte 8 of a page.
fn patch(alloc: Global, vpn: u64) -> Result<Patch, Fail>
    ensures { IfOk result (λ p. IsWithinPage p) }
{
    let bytes = Bytes::from_slice(alloc, [7].as_slice())?;
    Ok(Patch {
        pid: ONE,
        vpn: Vpn(vpn),
        off: 8,
        bytes,
    })
}

// The byte 8 of a page.
fn byte(store: &PageStore, pid: Pid, vpn: u64) -> u8 {
    let mut byte = [1];
    store.read(pid, Vpn(vpn), 8, &mut byte);
    byte[0]
}

#[test]
fn the_last_frame_is_taken_and_then_all_are(rt: HostRuntime) -> Result<(), Fail> {
    let alloc = rt.alloc();
    let mut store = PageStore::new(alloc, 2)?;
    assert!(rt; store.write(&patch(alloc, 16)?).is_ok());
    assert_eq!(rt; byte(&store, ONE, 16), 7);
    assert_eq!(rt; byte(&store, ONE, 17), 0);
    assert_eq!(rt; store.used(), 1);
    assert!(rt; store.write(&patch(alloc, 17)?).is_ok());
    assert!(rt; store.write(&patch(alloc, 18)?).is_err());
    assert!(rt; store.write(&patch(alloc, 17)?).is_ok());
    assert_eq!(rt; store.count(ONE, REGION), store.frames());
    assert!(rt; store.copy_pages(ONE, TWO, REGION).is_err());
    assert_eq!(rt; byte(&store, TWO, 16), 0);
    Ok(())
}

#[test]
fn pages_are_copied_replaced_and_dropped(rt: HostRuntime) -> Result<(), Fail> {
    let alloc = rt.alloc();
    let mut store = PageStore::new(alloc, 3)?;
    assert!(rt; store.write(&patch(alloc, 16)?).is_ok());
    assert!(rt; store.copy_pages(ONE, TWO, REGION).is_ok());
    assert_eq!(rt; byte(&store, TWO, 16), 7);
    let bytes = Bytes::from_vec(vec![in alloc; 9; 4096]?)?;
    let image = PageImage {
        pid: TWO,
        vpn: Vpn(17),
        bytes,
    };
    assert!(rt; store.put_page(&image).is_ok());
    let pages = store.pages_of(alloc, TWO, REGION)?;
    assert_eq!(rt; pages.len(), 2);
    assert!(rt; store.replace_region(TWO, REGION, pages.as_slice()).is_ok());
    assert_eq!(rt; byte(&store, TWO, 16), 7);
    assert_eq!(rt; byte(&store, TWO, 17), 9);
    store.drop_pages(TWO, Vpn(16), 1);
    assert_eq!(rt; store.used(), 2);
    store.drop_region(ONE, REGION);
    store.drop_process(TWO);
    store.clear();
    assert_eq!(rt; store.used(), 0);
    Ok(())
}

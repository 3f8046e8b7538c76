//! A list of segments that is made anew, and images of a fork.

use crate::Images;
use lego_base::{Bytes, Patch, Pid, RegionNo, Vpn};
use std::alloc::Global;
use std::test::Fail;

// A patch of a whole page.
fn whole_page(alloc: Global, vpn: u64) -> Result<[Patch; 1], Fail> {
    let bytes = Bytes::from_vec(vec![in alloc; 7; 4096]?)?;
    Ok([Patch {
        pid: Pid(1),
        vpn: Vpn(vpn),
        off: 0,
        bytes,
    }])
}

#[test]
fn segments_are_made_anew_at_the_255th(rt: HostRuntime) -> Result<(), Fail> {
    let mut images = Images::new(rt.alloc())?;
    let batch = whole_page(rt.alloc(), 16)?;
    for count in 1..301 {
        images.apply(batch.as_slice())?;
        let segments = if count < 255 { count } else { count - 254 };
        assert_eq!(rt; images.segments().len(), segments);
    }
    assert_eq!(rt; images.weight(), 46 * 4160);
    Ok(())
}

#[test]
fn a_child_gets_the_images_of_its_parent(rt: HostRuntime) -> Result<(), Fail> {
    let mut images = Images::new(rt.alloc())?;
    images.apply(whole_page(rt.alloc(), 16)?.as_slice())?;
    images.apply(whole_page(rt.alloc(), 600)?.as_slice())?;
    images.copy_space(Pid(1), Pid(2), [RegionNo(0), RegionNo(1)].as_slice())?;
    images.drop_process(Pid(1))?;
    images.drop_pages(Pid(2), Vpn(17), 600)?;
    let pages = images.images_of(rt.alloc(), Pid(2), RegionNo(0))?;
    let text = format!(in rt.alloc(); "{:?}", pages.as_slice())?;
    assert!(rt;
        text.as_str().starts_with(
            "[PageImage { pid: Pid(2), vpn: Vpn(16), bytes: Bytes { items: [7, 7"
        )
    );
    assert_eq!(rt; images.images_of(rt.alloc(), Pid(2), RegionNo(1))?.len(), 0);
    assert_eq!(rt; images.images_of(rt.alloc(), Pid(1), RegionNo(0))?.len(), 0);
    images.reset(Pid(2), RegionNo(0), &pages[..0])?;
    assert_eq!(rt; images.images_of(rt.alloc(), Pid(2), RegionNo(0))?.len(), 0);
    assert_eq!(rt; images.segments().len(), 7);
    Ok(())
}

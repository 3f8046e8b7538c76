//! Descriptors that are taken and freed.

use crate::Fds;
use kernel_objects::FdEntry;
use std::test::Fail;

#[test]
fn the_lowest_free_descriptor_is_next(rt: HostRuntime) -> Result<(), Fail> {
    let entry = FdEntry {
        desc: 7,
        cloexec: true,
    };
    let mut fds = Fds::new(rt.alloc())?;
    for fd in 0..64 {
        assert_eq!(rt; fds.lowest_free(0), Some(fd));
        fds.set(fd, Some(entry));
    }
    assert_eq!(rt; fds.lowest_free(0), None);
    fds.set(63, None);
    fds.set(5, None);
    let child = fds.copy(rt.alloc())?;
    for (from, answer) in [(0, Some(5)), (5, Some(5)), (6, Some(63)), (64, None)] {
        assert_eq!(rt; child.lowest_free(from), answer);
    }
    for (fd, answer) in [(4, Some(entry)), (5, None), (64, None), (1 << 32, None)] {
        assert_eq!(rt; child.get(fd), answer);
    }
    Ok(())
}

//! A log at its edges.
use lego_base::{Bytes, Patch, Pid, Vpn};
use mem_log::{Log, LogFull};
use std::alloc::Global;
use std::test::Fail;

// A patch of one byte.
fn patch(alloc: Global, byte: u8) -> Result<Patch, Fail> {
    Ok(Patch {
        pid: Pid(1),
        vpn: Vpn(16),
        off: 8,
        bytes: Bytes::from_slice(alloc, [byte].as_slice())?,
    })
}

#[test]
fn a_batch_goes_and_later_patches_stay(rt: HostRuntime) -> Result<(), Fail> {
    let alloc = rt.alloc();
    let mut log = Log::new(alloc, 3)?;
    assert!(rt; log.start_batch(alloc)?.is_none());
    assert!(rt; log.push(patch(alloc, 1)?).is_ok());
    assert!(rt; !log.is_half_full());
    assert!(rt; log.push(patch(alloc, 2)?).is_ok());
    assert!(rt; log.is_half_full());
    match log.start_batch(alloc)? {
        Some(batch) => assert_eq!(rt; batch.len(), 2),
        None => assert!(rt; false),
    }
    assert!(rt; log.batch_out());
    assert!(rt; log.start_batch(alloc)?.is_none());
    assert!(rt; log.push(patch(alloc, 3)?).is_ok());
    match log.push(patch(alloc, 4)?) {
        Ok(()) => assert!(rt; false),
        Err(LogFull(back)) => assert_eq!(rt; back.bytes.as_slice(), [4].as_slice()),
    }
    if log.batch_out() {
        log.acked();
    }
    assert_eq!(rt; log.len(), 1);
    log.clear();
    assert!(rt; log.is_empty());
    Ok(())
}

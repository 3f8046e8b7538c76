//! A cluster that is booted.

use crate::Cluster;
use lego_base::{MemId, Seq, Shape};
use std::test::Fail;

#[test]
fn two_memories_boot_without_a_halt(rt: HostRuntime) -> Result<(), Fail> {
    let alloc = rt.alloc();
    let mut frames = Seq::new(alloc);
    frames.push(16)?;
    frames.push(16)?;
    let mut placement = Seq::new(alloc);
    placement.push(MemId(0))?;
    let mut deliveries = Seq::new(alloc);
    deliveries.push(0)?;
    let shape = Shape {
        frames,
        log: 1,
        blocks: 1,
        cache_blocks: 1,
        processors: 1,
        sets: 1,
        ways: 1,
        placement,
        deliveries,
        crashes: Seq::new(alloc),
    };
    let mut cluster = Cluster::boot(alloc, &shape)?;
    assert!(rt; cluster.halted().is_none());
    cluster.out_of_memory();
    assert!(rt; cluster.halted().is_some());
    Ok(())
}

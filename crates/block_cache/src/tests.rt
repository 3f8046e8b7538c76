//! A full cache.

use crate::Blocks;
use lego_base::{Bytes, FileNo};
use std::alloc::Global;
use std::test::Fail;

const FILE: FileNo = FileNo(1);

const OTHER: FileNo = FileNo(2);

// The first byte of a cached block.
fn first(blocks: &Blocks, file: FileNo, block: u64) -> Option<u8> {
    let bytes = blocks.peek(file, block)?;
    bytes.as_slice().first().copied()
}

fn bytes(alloc: Global, byte: u8) -> Result<Bytes, Fail> {
    Ok(Bytes::from_slice(alloc, [byte].as_slice())?)
}

#[test]
fn the_block_used_longest_ago_leaves_a_full_cache(rt: HostRuntime) -> Result<(), Fail> {
    let alloc = rt.alloc();
    let mut blocks = Blocks::new(alloc, 2)?;
    blocks.fill(FILE, 0, bytes(alloc, 5)?)?;
    blocks.fill(FILE, 1, bytes(alloc, 6)?)?;
    assert!(rt; blocks.touch(FILE, 0));
    assert!(rt; !blocks.touch(FILE, 2));
    blocks.fill(OTHER, 0, bytes(alloc, 7)?)?;
    assert_eq!(rt; first(&blocks, FILE, 0), Some(5));
    assert_eq!(rt; first(&blocks, FILE, 1), None);
    assert_eq!(rt; first(&blocks, OTHER, 0), Some(7));
    blocks.fill(FILE, 0, bytes(alloc, 8)?)?;
    assert_eq!(rt; first(&blocks, FILE, 0), Some(8));
    blocks.spoil(FILE, 0);
    assert_eq!(rt; first(&blocks, FILE, 0), None);
    blocks.spoil_file(OTHER);
    assert_eq!(rt; first(&blocks, OTHER, 0), None);
    blocks.clear();
    Ok(())
}

//! Cached blocks, the one used last first.

ghost use Rattle.std.specs.Prelude.{◌≡◌, [], is_some, max, IfOk, IfSome, IfNone, IsTrue, OnOk, OnErr};
ghost use Rattle.std.specs.NonZero.{non_zero_usize_get};
ghost use Rattle.std.specs.Option.{option_copied};
ghost use Rattle.lego_msg.specs.Table.{block_in, without_block, without_blocks};
ghost use Rattle.block_cache.specs.Cache.{blocks_of, touched, with_first};

use lego_base::{Bytes, FileNo, NoMemory};
use lru::LruCache;
use std::alloc::Global;
use std::marker::Model;
use std::num::NonZeroUsize;

// Blocks by file and number.
type Map = LruCache<(u32, u64), Bytes>;

/// The cached blocks of files, the one used last first. At most `room` blocks are held.
#[derive(Debug, Drop)]
pub struct Blocks {
    room: u32,
    map: Map,
}

impl Model for Blocks {
    ghost use Rattle.std.specs.Prelude.{◌≡◌, [], max};
    ghost use Rattle.block_cache.specs.Cache.{Cache, blocks_of};

    ghost Value = { Cache };

    ghost view = { λ a. record { room = a.room; blocks = blocks_of a.map.entries } };

    ghost invariant = { λ a. (a.map.cap ≡ max a.room 1) × (a.room ≡ 0 → blocks_of a.map.entries ≡ []) };
}

impl Blocks {
    ghost use Rattle.block_cache.specs.Cache.{dropped, dropped_file, filled, used};

    /// No block is held. There is room for `room` of them.
    pub fn new(alloc: Global, room: u32) -> Result<Blocks, NoMemory>
        ensures { IfOk result (λ blocks. blocks ≡ record { room = room; blocks = [] }) }
    {
        let map = LruCache::new(alloc, non_zero(room))?;
        Ok(Blocks { room, map })
    }

    /// Makes a block that is held the first one, and tells whether it is held.
    pub fn touch(&mut self, file: FileNo, block: u64) -> bool
        ensures held { result ≡ is_some (block_in file.0 block self.old.blocks) }
        ensures blocks { self.new ≡ used self.old file.0 block }
    {
        touch(&mut self.map, (file.0, block))
    }

    /// The bytes of a block, where it is held. The order stays.
    pub fn peek(&self, file: FileNo, block: u64) -> Option<&Bytes>
        ensures { option_copied result ≡ block_in file.0 block self.now.blocks }
    {
        peek(&self.map, (file.0, block))
    }

    /// Makes this the bytes of a block, which is the first one then. Where there are too many, the last one goes. If
    /// memory runs out, nothing changes.
    pub fn fill(&mut self, file: FileNo, block: u64, bytes: Bytes) -> Result<(), NoMemory>
        ensures ok { OnOk result (self.new ≡ filled self.old file.0 block bytes) }
        ensures err { OnErr result (self.new ≡ self.old) }
    {
        if self.room == 0 {
            return Ok(());
        }
        put(&mut self.map, (file.0, block), bytes)
    }

    /// Drops a block.
    pub fn spoil(&mut self, file: FileNo, block: u64)
        ensures { self.new ≡ dropped self.old file.0 block }
    {
        remove(&mut self.map, (file.0, block));
    }

    /// Drops all blocks of a file.
    pub fn spoil_file(&mut self, file: FileNo)
        ensures { self.new ≡ dropped_file self.old file.0 }
    {
        remove_file(&mut self.map, file.0);
    }

    /// Drops all blocks.
    pub fn clear(&mut self)
        ensures { self.new ≡ record { room = self.old.room; blocks = [] } }
    {
        self.map.clear();
    }
}

// A room of at least one.
fn non_zero(room: u32) -> NonZeroUsize
    ensures { non_zero_usize_get result ≡ max room 1 }
{
    match NonZeroUsize::new(room.max(1) as usize) {
        Some(room) => room,
        None => unreachable!(),
    }
}

// Puts a block first.
fn put(map: &mut Map, key: (u32, u64), bytes: Bytes) -> Result<(), NoMemory>
    ensures ok { OnOk result (blocks_of map.new.entries ≡ with_first map.old.cap key.0 key.1 bytes (blocks_of map.old.entries)) }
    ensures err { OnErr result (map.new ≡ map.old) }
    ensures cap { map.new.cap ≡ map.old.cap }
{
    let _held = map.len(); // each key is there once
    map.put(key, bytes)?;
    Ok(())
}

// Makes a block that is held the first one.
fn touch(map: &mut Map, key: (u32, u64)) -> bool
    ensures held { result ≡ is_some (block_in key.0 key.1 (blocks_of map.old.entries)) }
    ensures blocks { blocks_of map.new.entries ≡ touched map.old.cap key.0 key.1 (blocks_of map.old.entries) }
    ensures cap { map.new.cap ≡ map.old.cap }
{
    let _held = map.len(); // each key is there once
    map.promote(&key)
}

// The bytes of a block.
fn peek(map: &Map, key: (u32, u64)) -> Option<&Bytes>
    ensures { option_copied result ≡ block_in key.0 key.1 (blocks_of map.now.entries) }
{
    map.peek(&key)
}

// Removes a block.
fn remove(map: &mut Map, key: (u32, u64))
    ensures blocks { blocks_of map.new.entries ≡ without_block key.0 key.1 (blocks_of map.old.entries) }
    ensures cap { map.new.cap ≡ map.old.cap }
{
    let _held = map.len(); // each key is there once
    let _bytes = map.pop(&key);
}

// Removes the blocks of a file.
fn remove_file(map: &mut Map, file: u32)
    ensures blocks { blocks_of map.new.entries ≡ without_blocks file (blocks_of map.old.entries) }
    ensures cap { map.new.cap ≡ map.old.cap }
{
    while let Some(block) = block_of_file(map, file) {
        remove(map, (file, block));
    }
}

// The number of a block of a file that is held.
fn block_of_file(map: &Map, file: u32) -> Option<u64>
    ensures some { IfSome result (λ block. IsTrue (is_some (block_in file block (blocks_of map.now.entries)))) }
    ensures none { IfNone result (without_blocks file (blocks_of map.now.entries) ≡ blocks_of map.now.entries) }
{
    for (key, _) in map.iter() {
        if key.0 == file {
            return Some(key.1);
        }
    }
    None
}

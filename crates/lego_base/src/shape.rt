//! The machine that a description asks for.

use crate::ids::MemId;
use crate::seq::Seq;

/// The machine that a description asks for: its components, their sizes, and the fixed order of
/// deliveries and crashes.
#[derive(Clone, Debug, Drop)]
pub struct Shape {
    pub frames: Seq<u32>, // pages, a number for each memory component: 2 to 8 numbers of 16 to 16384
    pub log: u32, // patches that a memory's log holds: 1 to 1024
    pub blocks: u32, // blocks of 4096 bytes that storage has: 1 to 131072
    pub cache_blocks: u32, // blocks that a memory caches: 1 to 1024
    pub processors: u32, // 1 to 8
    pub sets: u32, // sets of a processor's cache: a power of two, 1 to 1024
    pub ways: u32, // lines of a set: 1 to 16
    pub placement: Seq<MemId>, // owners by turns: 1 to 1024
    pub deliveries: Seq<u32>, // which pending message comes next, by turns: 1 to 65536
    pub crashes: Seq<CrashAt>, // in rising order of turns: at most 65536
}

/// The loss of a memory component.
#[derive(Clone, Copy, Debug, PartialEq, Eq)]
pub struct CrashAt {
    pub turn: u64,
    pub after: u32, // deliveries of that turn
    pub memory: MemId,
}

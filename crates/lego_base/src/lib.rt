//! The words that every crate of the splitkernel shares: names of processes, components, pages and
//! files, sizes, permissions, lists that contracts can compare, and the reasons for which a run stops.
//!
//! Contracts see a [`Bytes`] or [`Text`] as the list of its bytes and a [`Seq`] as the list of its items; a
//! clone of each is equal to it. All other types here are plain values. `specs/Space` defines an address
//! space, and `specs/Counts` how a count of faults moves.
#![tactic(auto)]

mod bytes;
mod ids;
mod perms;
mod records;
mod report;
mod seq;
mod shape;
mod sizes;
mod stops;
mod text;

pub use bytes::Bytes;
pub use ids::{CpuId, FileNo, LineNo, MemId, OpNo, Pid, RegionNo, Vpn};
pub use perms::Perms;
pub use records::{Area, AreaRuns, HomeEntry, NameEntry, PageImage, Patch, SpaceAreas, Spaces};
pub use report::{Counts, EndWord, Ended, Exit, FileOut};
pub use seq::Seq;
pub use shape::{CrashAt, Shape};
pub use sizes::{
    LEAST_ROOM, LINE_BYTES, LONGEST_FILE, PAGE_BYTES, PAGES_END, REGION_BYTES, USER_END,
};
pub use stops::{CallStop, Halt, MemStop, NoMemory};
pub use text::Text;

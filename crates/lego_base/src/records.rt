//! Values that cross the boundaries of components.

use crate::bytes::Bytes;
use crate::ids::{FileNo, MemId, Pid, RegionNo, Vpn};
use crate::perms::Perms;
use crate::seq::Seq;

/// A run of pages with equal permissions.
#[derive(Clone, Copy, Debug, PartialEq, Eq)]
pub struct Area {
    pub first: Vpn,
    pub pages: u64,
    pub perms: Perms,
}

/// The areas of a space or a region, in rising order.
pub type AreaRuns = Seq<Area>;

/// Bytes of one page that are to be written.
#[derive(Clone, Debug, Drop)]
pub struct Patch {
    pub pid: Pid,
    pub vpn: Vpn,
    pub off: u16, // bytes into the page
    pub bytes: Bytes, // they end within the page
}

/// A whole page.
#[derive(Clone, Debug, Drop)]
pub struct PageImage {
    pub pid: Pid,
    pub vpn: Vpn,
    pub bytes: Bytes, // 4096 bytes
}

/// Regions of spaces.
pub type Spaces = Seq<(Pid, RegionNo)>;

/// Which memory component owns a region.
#[derive(Clone, Copy, Debug, PartialEq, Eq)]
pub struct HomeEntry {
    pub pid: Pid,
    pub region: RegionNo,
    pub owner: MemId,
}

/// The areas of one region.
#[derive(Clone, Debug, Drop)]
pub struct SpaceAreas {
    pub pid: Pid,
    pub region: RegionNo,
    pub areas: AreaRuns,
}

/// A name of a file.
#[derive(Clone, Debug, Drop)]
pub struct NameEntry {
    pub name: Bytes,
    pub file: FileNo,
}

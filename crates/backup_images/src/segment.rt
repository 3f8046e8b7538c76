//! Segments: what was done to the images of pages.

ghost use Rattle.std.specs.Prelude.{◌≡◌, ◌^◌, ◌<◌, ◌≤◌, MatchOption, length, sum_by};

use lego_base::{PageImage, Patch, Pid, RegionNo, Seq, Vpn};

/// What was done to the images of pages.
#[derive(Debug, Drop)]
pub enum Seg {
    /// Patches were laid over them, in order.
    Patches(Seq<Patch>),
    /// The images of these pages were dropped.
    Dropped {
        pid: Pid,
        first: Vpn,
        pages: u64,
    },
    /// The images of a process were dropped.
    Freed {
        pid: Pid,
    },
    /// The images of a region became these.
    Reset {
        pid: Pid,
        region: RegionNo,
        pages: Seq<PageImage>,
    },
}

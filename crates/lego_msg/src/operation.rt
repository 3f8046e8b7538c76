//! Operations, which a processor or the manager asks of the components, and what is known of an open one.

use crate::body::Body;
use crate::message::Message;
use crate::place::Place;
use lego_base::{AreaRuns, Bytes, FileNo, LineNo, MemId, OpNo, Patch, Pid, RegionNo, Seq, Vpn};

/// Where the bytes of a write come from.
#[derive(Clone, Copy, Debug, PartialEq, Eq)]
pub enum Origin {
    /// A line of a processor's cache is written back.
    Line,
    /// The loader fills bytes of one page.
    Fill,
    /// A processor writes bytes that no cache holds.
    Run,
}

/// What is asked of the components. Block numbers count blocks of 4096 bytes of a file; `off` is in bytes into
/// the block, `len` and `size` are in bytes. `owner` is the memory that owns the region.
#[derive(Clone, Debug, Drop)]
pub enum Operation {
    /// The owner of a region is asked for.
    Finds {
        pid: Pid,
        region: RegionNo,
    },
    /// A line is read from the owner of its region.
    Reads {
        pid: Pid,
        line: LineNo,
        owner: MemId,
    },
    /// A patch goes to the owner of its region, and to the log of the owner's secondary.
    Writes {
        origin: Origin,
        patch: Patch,
        owner: MemId,
    },
    /// A region gets its owner.
    SetsHome {
        pid: Pid,
        region: RegionNo,
        owner: MemId,
    },
    /// The areas of a region become these at its owner.
    SetsAreas {
        pid: Pid,
        region: RegionNo,
        areas: AreaRuns,
        owner: MemId,
    },
    /// The areas of a region are asked for.
    AsksAreas {
        pid: Pid,
        region: RegionNo,
        owner: MemId,
    },
    /// A memory's log is drained.
    Drains {
        memory: MemId,
    },
    /// Pages of a region are unmapped: `pages` of them, starting at `first`. The region's areas become these.
    Unmaps {
        pid: Pid,
        region: RegionNo,
        first: Vpn,
        pages: u64,
        areas: AreaRuns,
        owner: MemId,
    },
    /// The child gets the areas and pages that the parent has in these regions of one owner.
    Copies {
        parent: Pid,
        child: Pid,
        regions: Seq<RegionNo>,
        owner: MemId,
    },
    /// A space is dropped.
    Drops {
        pid: Pid,
    },
    /// Bytes of a file are read within one block.
    ReadsFile {
        file: FileNo,
        block: u64,
        off: u64,
        len: u64,
    },
    /// Bytes of a file are written within one block.
    WritesFile {
        file: FileNo,
        block: u64,
        off: u64,
        bytes: Bytes,
    },
    /// A file's size becomes this.
    CutsFile {
        file: FileNo,
        size: u64,
    },
    /// How long is the file?
    AsksSize {
        file: FileNo,
    },
    /// Which file has the name?
    GetsName {
        name: Bytes,
    },
    /// The file with the name, which is made where there is none.
    MakesName {
        name: Bytes,
    },
    /// The name is removed.
    CutsName {
        name: Bytes,
    },
    /// All names are asked for.
    ListsNames,
    /// The file is removed where it has no name.
    FreesFile {
        file: FileNo,
    },
    /// One move of healing.
    Heals {
        to: Place,
        body: Body,
    },
}

/// An answer that was delivered: who gave it, and what it says.
#[derive(Clone, Debug, Drop)]
pub struct Answer {
    pub place: Place,
    pub body: Body,
}

/// An operation that is open.
#[derive(Clone, Debug, Drop)]
pub struct Open {
    pub number: OpNo, // at least 1
    pub by: Place, // who issues it
    pub operation: Operation,
    pub unsent: Seq<Message>, // its first messages that are still to be sent
    pub targets: Seq<Place>, // who must answer
    pub answers: Seq<Answer>, // newest first, without those of a memory that crashed since it gave them
}

//! Healing: what the manager does after the crash of a memory, one message at a time.

use crate::body::Body;
use crate::operation::Open;
use crate::place::{Place, Role};
use lego_base::{MemId, Pid, RegionNo, Seq};

/// A move of a healing: a message of which all is known beforehand, or one that hands on what the move before it was
/// answered.
#[derive(Clone, Debug, Drop)]
pub enum Move {
    /// A message that is known beforehand.
    Asks {
        to: Place,
        body: Body,
    },
    /// Homes and areas go to a memory.
    HandsMeta {
        to: Place,
        role: Role,
    },
    /// The images of a region go to a memory.
    HandsImages {
        to: Place,
        pid: Pid,
        region: RegionNo,
    },
    /// The pages of a region go to storage.
    HandsPages {
        pid: Pid,
        region: RegionNo,
    },
}

/// A healing that runs.
#[derive(Clone, Debug, Drop)]
pub struct Healing {
    pub memory: MemId, // which crashed
    pub moves: Seq<Move>, // that haven't begun
    pub current: Option<Open>, // the move that is on its way
    pub got: Option<Body>, // the answer of the last move that is complete, until the next one takes it
}

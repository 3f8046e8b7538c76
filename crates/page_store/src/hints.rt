//! Where pages may be.

use lego_base::{NoMemory, Pid, Vpn};
use std::alloc::Global;

// How far the hints of one process's pages are from those of the next one's.
const PROCESS_STEP: u64 = 0x9E37_79B9;

/// For a page the frame that it may be in, found in one step: the frame that was given last to a page with the same place
/// among the hints. Whether the page is there has to be looked at.
#[derive(Debug, Drop)]
pub struct Hints {
    frames: Vec<usize>,
}

impl Hints {
    /// Two hints a frame.
    pub fn new(alloc: Global, frames: u32) -> Result<Hints, NoMemory> {
        let frames = vec![in alloc; 0; 2 * frames as usize]?;
        Ok(Hints { frames })
    }

    /// The frame that a page may be in.
    pub fn frame(&self, pid: Pid, vpn: Vpn) -> usize {
        match self.frames.get(place(pid, vpn, self.frames.len())) {
            Some(frame) => *frame,
            None => 0,
        }
    }

    /// A page got a frame.
    pub fn set(&mut self, pid: Pid, vpn: Vpn, frame: usize) {
        let place = place(pid, vpn, self.frames.len());
        if let Some(hint) = self.frames.get_mut(place) {
            *hint = frame;
        }
    }
}

// The place of a page among `count` hints.
fn place(pid: Pid, vpn: Vpn, count: usize) -> usize {
    if count == 0 {
        return 0;
    }
    let number = vpn
        .0
        .wrapping_add((pid.0 as u64).wrapping_mul(PROCESS_STEP));
    (number % count as u64) as usize
}

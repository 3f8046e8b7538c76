//! The line of the last fetch at hand, so that a fetch from the same line asks no list.

ghost use Rattle.std.specs.Prelude.{◌≡◌, ◌<◌, ◌^◌, IfSome};
ghost use Rattle.line_cache.specs.Hand.{IsHandAt, IsWordAt};

use lego_base::{LINE_BYTES, Pid};

/// The line at hand, if one is.
#[derive(Clone, Copy, Debug)]
pub(crate) struct Hand {
    pub start: u64, // the address of its first byte
    pub room: u64, // the offsets within it at which a word can start: 61, and 0 where no line is at hand
    pub pid: Pid,
    pub slot: usize,
}

impl Hand {
    /// No line is at hand.
    pub(crate) const NONE: Hand = Hand {
        start: 0,
        room: 0,
        pid: Pid(0),
        slot: 0,
    };

    /// The line of an address of a process, which is in this slot.
    pub(crate) fn new(pid: Pid, addr: u64, slot: usize) -> Hand
        ensures { IsHandAt pid addr slot result }
    {
        Hand {
            start: addr - addr % LINE_BYTES,
            room: LINE_BYTES - 3,
            pid,
            slot,
        }
    }

    /// Where in the line at hand the word at an address starts, if it lies there whole.
    #[inline(always)]
    pub(crate) fn offset(&self, pid: Pid, addr: u64) -> Option<usize>
        ensures { IfSome result (λ off. IsWordAt pid addr off self.now) }
    {
        let off = addr.wrapping_sub(self.start);
        if off < self.room && self.pid.0 == pid.0 {
            return Some(off as usize);
        }
        None
    }
}

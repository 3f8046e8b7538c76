//! Where a page is.

use keyed_list::Keyed;
use lego_base::{Pid, Vpn};

/// Where the bytes of a present page are.
#[derive(Clone, Copy, Debug)]
pub struct Spot {
    pub pid: Pid,
    pub vpn: Vpn,
    pub frame: usize, // its key among the frames
}

impl Keyed for Spot {
    ghost use Rattle.lego_base.specs.Keys.{key_at};

    ghost key = { λ s. key_at s.pid.0 s.vpn.0 };

    fn pid(&self) -> Pid {
        self.pid
    }

    fn number(&self) -> u64 {
        self.vpn.0
    }
}

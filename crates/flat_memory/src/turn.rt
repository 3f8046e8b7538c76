//! The space of a process while it has a turn.
ghost use Rattle.std.specs.Prelude.{◌≡◌, ◌==◌};
ghost use Rattle.flat_memory.specs.Pieces.{start_in};
ghost use Rattle.flat_memory.specs.FastPath.{IsSlot};

use crate::slot::{Slot, Use};
use crate::space::FlatSpace;
use lego_base::{MemStop, Pid};
use rv64_step::{GuestMem, Width};

/// The space of the process that has the turn, out of the memory, so that an access needs no look-up by pid; and the
/// page of the last fetch at hand. Only calls of this process are served.
#[derive(Debug, Drop)]
pub struct TurnSpace {
    pub(crate) pid: Pid,
    pub(crate) space: FlatSpace,
    hand: Slot, // that of the last fetch's page, or another's: whatever it says holds
    ghost holds: { IsSlot space.areas (start_in space.starts) hand },
}

impl TurnSpace {
    ghost use Rattle.flat_memory.specs.Spaces.{space_of, FetchedWord};

    /// The space of a process for a turn.
    pub fn new(pid: Pid, space: FlatSpace) -> TurnSpace
        ensures pid { result.pid ≡ pid }
        ensures space { result.space ≡ space }
    {
        TurnSpace {
            pid,
            space,
            hand: Slot::NONE,
        }
    }

    // A fetch from another page than the one at hand, which is then at hand if it may be.
    #[cold]
    #[inline(never)]
    fn fetch_slowly(&mut self, addr: u64) -> Option<u32>
        ensures fetched { FetchedWord (space_of self.old.space) addr result }
        ensures space { space_of self.new.space ≡ space_of self.old.space }
        ensures pid { self.new.pid ≡ self.old.pid }
    {
        let word = self.space.read(Use::Fetch, addr, Width::Word);
        self.hand = self.space.slot(addr);
        match word {
            Some(value) => Some(value as u32),
            None => None,
        }
    }
}

impl GuestMem for TurnSpace {
    ghost use Rattle.flat_memory.specs.Access.{NoHalt, OutOfMemory};
    ghost use Rattle.flat_memory.specs.Spaces.{space_of};

    ghost serves = { λ m q. q == m.pid.0 };

    ghost space = { λ m q. space_of m.space };

    ghost fetches = { λ m q a answer n. (n.pid ≡ m.pid) × NoHalt answer };

    ghost loads = { λ m q a len answer n. (n.pid ≡ m.pid) × NoHalt answer };

    ghost stores = { λ m q a len value answer n. (n.pid ≡ m.pid) × OutOfMemory answer };

    #[inline(always)]
    fn load(&mut self, _pid: Pid, addr: u64, width: Width) -> Result<u64, MemStop> {
        if let Some(at) = self.space.find(Use::Load, addr, width) {
            return Ok(self.space.number_at(at, width));
        }
        match self.space.read_slowly(Use::Load, addr, width) {
            Some(value) => Ok(value),
            None => Err(MemStop::Segv),
        }
    }

    #[inline(always)]
    fn store(&mut self, _pid: Pid, addr: u64, width: Width, value: u64) -> Result<(), MemStop> {
        if self.space.store_fast(addr, width, value) {
            return Ok(());
        }
        self.hand = Slot::NONE;
        if self.space.store_slowly(addr, width, value)? {
            Ok(())
        } else {
            Err(MemStop::Segv)
        }
    }

    #[inline(always)]
    fn fetch(&mut self, _pid: Pid, addr: u64) -> Result<u32, MemStop> {
        if let Some(at) = self.hand.find(Use::Fetch, addr, Width::Word) {
            return Ok(self.space.word_at(at));
        }
        match self.fetch_slowly(addr) {
            Some(word) => Ok(word),
            None => Err(MemStop::Segv),
        }
    }
}

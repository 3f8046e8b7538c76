//! Items with a key.

ghost use Rattle.std.specs.Prelude.{◌≡◌};

use lego_base::{HomeEntry, Pid, SpaceAreas};

/// An item with a key: a process, and the number of a page or a region.
pub trait Keyed {
    ghost use Rattle.lego_base.specs.Keys.{Key};

    ghost key: { Self → Key };

    /// The process.
    fn pid(&self) -> Pid
        ensures { result.0 ≡ (key self.now).pid };

    /// The number of the page or the region.
    fn number(&self) -> u64
        ensures { result ≡ (key self.now).number };
}

impl Keyed for HomeEntry {
    ghost use Rattle.lego_base.specs.Keys.{key_at};

    ghost key = { λ e. key_at e.pid.0 e.region.0 };

    fn pid(&self) -> Pid {
        self.pid
    }

    fn number(&self) -> u64 {
        self.region.0
    }
}

impl Keyed for SpaceAreas {
    ghost use Rattle.lego_base.specs.Keys.{key_at};

    ghost key = { λ a. key_at a.pid.0 a.region.0 };

    fn pid(&self) -> Pid {
        self.pid
    }

    fn number(&self) -> u64 {
        self.region.0
    }
}

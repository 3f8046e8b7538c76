//! A watch that tells nothing.

ghost use Rattle.std.specs.Prelude.{◌≡◌, ◌∷◌, [], List, None, IsTrue, true};
ghost use Rattle.lego_msg.specs.declared.event.Event.{Event as Happened};
ghost use Rattle.lego_msg.specs.Watching.{Shown};

use lego_msg::{Event, Watch};

/// A watch that tells nothing and never fails.
#[derive(Clone, Copy, Debug)]
pub struct CountWatch;

impl Watch for CountWatch {
    ghost told = { λ w. None };

    ghost faults = { λ w. 0 };

    fn see(&mut self, event: &Event) {
        let _event = event;
    }

    fn is_quiet(&self) -> bool
        ensures quiet { IsTrue result → (events : List Happened) → Shown None 0 None 0 events }
        ensures always { result ≡ true }
    {
        true
    }

    fn faults(&self) -> u64 {
        0
    }
}

//! Who sees the events of a run.

ghost use Rattle.std.specs.Prelude.{◌≡◌, ◌∷◌, [], List, IsTrue};
ghost use Rattle.lego_msg.specs.declared.event.Event.{Event as Happened};
ghost use Rattle.lego_msg.specs.Watching.{ShownTo};

use crate::event::Event;

/// Who sees the events of a run.
pub trait Watch {
    ghost use Rattle.std.specs.Prelude.{ℕ, List, Option};
    ghost use Rattle.lego_msg.specs.declared.event.Event.{Event};

    // The events that it was shown, in order. `None` where the watch doesn't tell.
    ghost told: { Self → Option (List Event) };

    // How often it failed. From the first fault on nothing more is told.
    ghost faults: { Self → ℕ };

    /// Sees an event: adds it to what is told, or adds nothing and fails.
    fn see(&mut self, event: &Event)
        ensures { ShownTo told faults self.old self.new (event.now ∷ []) };

    /// Whether it need not be shown anything: it tells nothing and never fails.
    fn is_quiet(&self) -> bool
        ensures { IsTrue result → (events : List Happened) → ShownTo told faults self.now self.now events }
    {
        false
    }

    /// How often it failed.
    fn faults(&self) -> u64
        ensures { result ≡ faults self.now };
}

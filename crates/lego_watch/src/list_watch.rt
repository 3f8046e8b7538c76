//! A watch in memory.

ghost use Rattle.std.specs.Prelude.{◌≡◌, ◌≤◌, ◌⊎◌, ◌∷◌, [], ◌++◌, true, false, IfOk, OnOk, OnErr, Some};
ghost use Rattle.lego_msg.specs.Watching.{Shown};
ghost use Rattle.lego_base.specs.Counts.{risen};
ghost use Rattle.lego_watch.specs.ListWatched.{nothing_seen, next_call, is_to_fail, added, failed};

use lego_base::{NoMemory, Seq};
use lego_msg::{Event, Watch};
use std::alloc::Global;
use std::marker::Model;

/// A watch in memory that holds the events. Its calls fail by a list, from the first fault on, and where
/// memory runs out.
#[derive(Debug, Drop)]
pub struct ListWatch {
    events: Seq<Event>,
    fails: Seq<u64>, // numbers of calls, from 1
    made: u64, // calls, up to the type's end
    faults: u64,
}

impl Model for ListWatch {
    ghost use Rattle.lego_watch.specs.ListWatched.{Seen};

    ghost Value = { Seen };

    ghost view = { λ w. record { held = w.events; fails = w.fails; made = w.made; faults = w.faults } };
}

impl ListWatch {
    /// A watch that holds nothing. `fails` has the numbers, from 1, of the calls that are to fail.
    pub fn new(alloc: Global, fails: &[u64]) -> Result<ListWatch, NoMemory>
        ensures { IfOk result (λ w. w ≡ nothing_seen fails.now) }
    {
        let fails = Vec::from_slice(alloc, fails)?;
        Ok(ListWatch {
            events: Seq::new(alloc),
            fails: Seq::from_vec(fails),
            made: 0,
            faults: 0,
        })
    }

    /// The events that it holds, in order.
    pub fn events(&self) -> &[Event]
        ensures { result.now ≡ self.now.held }
    {
        self.events.as_slice()
    }

    // Counts a call, and says whether it is to fail.
    fn begin(&mut self) -> bool
        ensures due { result ≡ is_to_fail self.old }
        ensures first { result ≡ false → self.old.faults ≡ 0 }
        ensures counted { self.new ≡ record self.old { made = next_call self.old } }
    {
        self.made = self.made.saturating_add(1);
        let number = self.made;
        self.fails.as_slice().contains(&number) || self.faults > 0
    }

    // Counts a fault.
    fn fail(&mut self)
        ensures risen { self.new ≡ record self.old { faults = risen self.old.faults } }
        ensures later { self.old.faults ≤ self.new.faults }
    {
        self.faults = self.faults.saturating_add(1);
    }

    // Adds a copy of the event, where there is memory for it.
    fn add(&mut self, event: &Event) -> Result<(), NoMemory>
        ensures ok { OnOk result (self.new ≡ record self.old { held = self.old.held ++ event.now ∷ [] }) }
        ensures err { OnErr result (self.new ≡ self.old) }
    {
        self.events.push(event.clone()?)?;
        Ok(())
    }
}

impl Watch for ListWatch {
    ghost told = { λ w. Some w.held };

    ghost faults = { λ w. w.faults };

    /// Adds the event, or fails: where its number is planned, where it failed before, and elsewhere only where
    /// memory runs out.
    fn see(&mut self, event: &Event)
        ensures shown { Shown (Some self.old.held) self.old.faults (Some self.new.held) self.new.faults (event.now ∷ []) }
        ensures planned { is_to_fail self.old ≡ true → self.new ≡ failed self.old }
        ensures only { (self.new ≡ added self.old event.now) ⊎ (self.new ≡ failed self.old) }
    {
        if self.begin() {
            self.fail();
            return;
        }
        match self.add(event) {
            Ok(()) => {}
            Err(_) => self.fail(),
        }
    }

    fn faults(&self) -> u64
        ensures { result ≡ self.now.faults }
    {
        self.faults
    }
}

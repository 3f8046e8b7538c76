//! Which calls of an object in memory fail.

ghost use Rattle.std.specs.Prelude.{◌≡◌, ◌≤◌, not, IfOk};
ghost use Rattle.host_io.specs.Calls.{untried, is_due, counted};
ghost use Rattle.lego_base.specs.Counts.{risen};

use lego_base::{NoMemory, Seq};
use std::alloc::Global;
use std::marker::Model;

// Which calls of an object in memory are to fail, how many were made, and how many failed.
#[derive(Debug, Drop)]
pub struct FailPlan {
    fails: Seq<u64>, // numbers of calls, from 1
    made: u64, // calls, up to the type's end
    faults: u64,
}

impl Model for FailPlan {
    ghost use Rattle.host_io.specs.Calls.{Calls};

    ghost Value = { Calls };

    ghost view = { λ p. record { fails = p.fails; made = p.made; faults = p.faults } };
}

impl FailPlan {
    pub fn new(alloc: Global, fails: &[u64]) -> Result<FailPlan, NoMemory>
        ensures { IfOk result (λ p. p ≡ untried fails.now) }
    {
        let fails = Vec::from_slice(alloc, fails)?;
        Ok(FailPlan {
            fails: Seq::from_vec(fails),
            made: 0,
            faults: 0,
        })
    }

    // Counts a call, and says whether it is to fail.
    pub fn begin(&mut self) -> bool
        ensures due { result ≡ is_due self.old }
        ensures counted { self.new ≡ counted (not result) self.old }
        ensures later { self.old.faults ≤ self.new.faults }
    {
        self.made = self.made.saturating_add(1);
        let number = self.made;
        if self.fails.as_slice().contains(&number) {
            self.faults = self.faults.saturating_add(1);
            return true;
        }
        false
    }

    // Counts a fault that wasn't planned.
    pub fn raise(&mut self)
        ensures risen { self.new ≡ record self.old { faults = risen self.old.faults } }
        ensures later { self.old.faults ≤ self.new.faults }
    {
        self.faults = self.faults.saturating_add(1);
    }

    pub fn faults(&self) -> u64
        ensures { result ≡ self.now.faults }
    {
        self.faults
    }
}

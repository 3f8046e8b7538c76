//! How often each of 1024 numbers is referred to.

ghost use Rattle.std.specs.Prelude.{◌≡◌, ◌-◌, ◌^◌, ◌<◌, ℕ, IfOk, slice_index};
ghost use Rattle.manager.specs.Counting.{OneFewer, OneMore};
ghost use Rattle.manager.specs.declared.counts.TheConstants.{NUMBERS};

use lego_base::NoMemory;
use std::alloc::Global;
use std::marker::Model;

/// Descriptions and pipes have numbers below it.
pub const NUMBERS: usize = 1024;

/// A count for each number below `NUMBERS`.
#[derive(Drop)]
pub struct Counts {
    counts: Vec<u32>, // `NUMBERS` of them
}

impl Model for Counts {
    ghost use Rattle.std.specs.Prelude.{◌≡◌, ℕ, List, length};
    ghost use Rattle.manager.specs.declared.counts.TheConstants.{NUMBERS};

    ghost Value = { List ℕ };

    ghost view = { λ c. c.counts.items };

    ghost invariant = { λ c. length c.counts.items ≡ NUMBERS };
}

impl Counts {
    /// All counts are 0.
    pub fn new(alloc: Global) -> Result<Counts, NoMemory>
        ensures { IfOk result (λ c. (n : ℕ) → slice_index c n ≡ 0) }
    {
        let counts = vec![in alloc; 0; NUMBERS]?;
        Ok(Counts { counts })
    }

    /// The count of a number.
    pub fn of(&self, number: u16) -> u32
        requires { number < NUMBERS }
        ensures { result ≡ slice_index self.now number }
    {
        self.counts[number as usize]
    }

    /// One more of a number.
    pub fn add(&mut self, number: u16)
        requires number { number < NUMBERS }
        requires count { slice_index self.old number < 2 ^ 32 - 1 }
        ensures { OneMore number self.old self.new }
    {
        self.counts[number as usize] += 1;
    }

    /// One fewer of a number.
    pub fn remove(&mut self, number: u16)
        requires number { number < NUMBERS }
        requires count { 0 < slice_index self.old number }
        ensures { OneFewer number self.old self.new }
    {
        self.counts[number as usize] -= 1;
    }
}

//! Numbers from a seed.

ghost use Rattle.std.specs.Prelude.{◌≡◌, ◌<◌, IfOk};
ghost use Rattle.guest_gen.specs.Draws.{after, drawn, draws, next};

use lego_base::NoMemory;
use std::alloc::Global;

/// A linear congruential generator: what it draws are the upper 16 bits of its state.
#[derive(Clone, Copy, Debug, PartialEq, Eq)]
pub(crate) struct Draws {
    pub(crate) state: u32,
}

impl Draws {
    /// The next number, below `k`.
    pub(crate) fn below(&mut self, k: u32) -> u32
        requires { 0 < k }
        ensures value { result ≡ drawn k self.old.state }
        ensures below { result < k }
        ensures state { self.new.state ≡ next self.old.state }
    {
        self.state = self.state.wrapping_mul(1664525).wrapping_add(1013904223);
        self.state / 65536 % k
    }

    /// The next `n` numbers, each below `k`.
    pub(crate) fn numbers(&mut self, alloc: Global, n: usize, k: u32) -> Result<Vec<u32>, NoMemory>
        requires { 0 < k }
        ensures values { IfOk result (λ v. v.items ≡ draws n k self.old.state) }
        ensures state { IfOk result (λ v. self.new.state ≡ after n self.old.state) }
    {
        let mut numbers = Vec::with_capacity(alloc, n)?;
        let mut left = n;
        while left > 0 {
            numbers.push(self.below(k))?;
            left -= 1;
        }
        Ok(numbers)
    }

    /// The next `n` bytes.
    pub(crate) fn bytes(&mut self, alloc: Global, n: usize) -> Result<Vec<u8>, NoMemory>
        ensures values { IfOk result (λ v. v.items ≡ draws n 256 self.old.state) }
        ensures state { IfOk result (λ v. self.new.state ≡ after n self.old.state) }
    {
        let mut bytes = Vec::with_capacity(alloc, n)?;
        let mut left = n;
        while left > 0 {
            bytes.push(self.below(256) as u8)?;
            left -= 1;
        }
        Ok(bytes)
    }
}

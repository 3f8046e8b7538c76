//! Standard input.

ghost use Rattle.std.specs.Prelude.{◌≡◌, ◌++◌, drop, length, min, take};

use lego_base::Bytes;
use std::marker::Model;

/// What is left of standard input. Contracts see the list of its bytes.
#[derive(Drop)]
pub struct Input {
    bytes: Bytes,
    taken: usize, // of them
}

impl Model for Input {
    ghost use Rattle.std.specs.Prelude.{ℕ, ◌≤◌, List, drop, length};

    ghost Value = { List ℕ };

    ghost view = { λ i. drop i.taken i.bytes };

    ghost invariant = { λ i. i.taken ≤ length i.bytes };
}

impl Input {
    /// All of it is left.
    pub fn new(bytes: Bytes) -> Input
        ensures { result ≡ bytes }
    {
        Input { bytes, taken: 0 }
    }

    /// How many bytes are left.
    pub fn left(&self) -> usize
        ensures { result ≡ length self.now }
    {
        self.bytes.len() - self.taken
    }

    /// Takes the next bytes, as many as there are and as the buffer holds, and returns how many these are. The rest of the
    /// buffer stays as it is.
    pub fn take(&mut self, buf: &mut [u8]) -> usize
        ensures count { result ≡ min (length buf.old) (length self.old) }
        ensures buf { buf.new ≡ take result self.old ++ drop result buf.old }
        ensures rest { self.new ≡ drop result self.old }
    {
        let left = &self.bytes.as_slice()[self.taken..];
        let count = left.len().min(buf.len());
        buf[..count].copy_from_slice(&left[..count]);
        self.taken += count;
        count
    }

    /// Copies the bytes that `take` would take, and leaves them.
    pub fn peek(&self, buf: &mut [u8]) -> usize
        ensures count { result ≡ min (length buf.old) (length self.now) }
        ensures buf { buf.new ≡ take result self.now ++ drop result buf.old }
    {
        let left = &self.bytes.as_slice()[self.taken..];
        let count = left.len().min(buf.len());
        buf[..count].copy_from_slice(&left[..count]);
        count
    }
}

//! A source in memory that never fails.

ghost use Rattle.std.specs.Prelude.{◌≡◌, Some, length, take, min, IfOk, IsOk};
ghost use Rattle.lego_base.specs.Counts.{HasCause};
ghost use Rattle.host_io.specs.Sources.{Moved};

use crate::failed::Failed;
use crate::source::Source;
use lego_base::{Bytes, NoMemory};
use std::alloc::Global;
use std::marker::Model;

/// A source in memory that never fails. Contracts see it as the bytes that are left.
#[derive(Debug, Drop)]
pub struct CalmSource {
    bytes: Bytes,
    at: usize, // bytes that were taken
}

impl Model for CalmSource {
    ghost use Rattle.std.specs.Prelude.{ℕ, ◌≤◌, List, length, drop};

    ghost Value = { List ℕ };

    ghost view = { λ s. drop s.at s.bytes };

    ghost invariant = { λ s. s.at ≤ length s.bytes };
}

impl CalmSource {
    /// A source of these bytes.
    pub fn new(alloc: Global, bytes: &[u8]) -> Result<CalmSource, NoMemory>
        ensures { IfOk result (λ s. s ≡ bytes.now) }
    {
        let bytes = Bytes::from_slice(alloc, bytes)?;
        Ok(CalmSource { bytes, at: 0 })
    }
}

impl Source for CalmSource {
    ghost use Rattle.std.specs.Prelude.{Some};

    ghost state = { λ s. record { left = Some s; faults = 0 } };

    fn read(&mut self, buf: &mut [u8]) -> Result<usize, Failed>
        ensures cause { HasCause 0 0 result }
        ensures moved { Moved (Some self.old) (Some self.new) buf.new result }
        ensures calm { IsOk result }
    {
        let (_, left) = self.bytes.as_slice().split_at(self.at);
        let count = copy_front(left, buf);
        self.at += count;
        Ok(count)
    }
}

// Copies the first bytes, as many as fit, and returns their number.
fn copy_front(left: &[u8], buf: &mut [u8]) -> usize
    ensures count { result ≡ min (length left.now) (length buf.old) }
    ensures bytes { take result buf.new ≡ take result left.now }
{
    let count = left.len().min(buf.len());
    let (front, _) = left.split_at(count);
    buf[..count].copy_from_slice(front);
    count
}

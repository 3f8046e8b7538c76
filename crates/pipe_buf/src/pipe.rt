//! A pipe's bytes, in a ring.

ghost use Rattle.std.specs.Prelude.{◌≡◌, ◌==◌, ◌-◌, ◌≤◌, [], ◌++◌, IfOk, drop, length, min, take};

use circular_buffer::HeapCircularBuffer;
use lego_base::NoMemory;
use std::alloc::Global;
use std::marker::Model;

/// Bytes that a pipe holds at most: the capacity that pipe(7) gives since Linux 2.6.11.
pub const PIPE_BYTES: usize = 65536;

/// The bytes in a pipe. Contracts see the list of them, the oldest first.
#[derive(Drop)]
pub struct Pipe {
    ring: HeapCircularBuffer<u8>, // with room for `PIPE_BYTES`
}

impl Model for Pipe {
    ghost use Rattle.std.specs.Prelude.{◌≡◌, ◌≤◌, ℕ, List, length};
    ghost use Rattle.pipe_buf.specs.declared.pipe.TheConstants.{PIPE_BYTES};

    ghost Value = { List ℕ };

    ghost view = { λ p. p.ring.items };

    ghost invariant = { λ p. p.ring.capacity ≡ PIPE_BYTES };
}

impl Pipe {
    /// An empty pipe, with all memory that it will ever need.
    pub fn new(alloc: Global) -> Result<Pipe, NoMemory>
        ensures { IfOk result (λ p. p ≡ []) }
    {
        let ring = HeapCircularBuffer::with_capacity(alloc, PIPE_BYTES)?;
        Ok(Pipe { ring })
    }

    /// The number of bytes in it.
    pub fn len(&self) -> usize
        ensures len { result ≡ length self.now }
        ensures within { result ≤ PIPE_BYTES }
    {
        self.ring.len()
    }

    /// Whether no byte is in it.
    pub fn is_empty(&self) -> bool
        ensures { result ≡ (length self.now == 0) }
    {
        self.ring.is_empty()
    }

    /// How many more bytes fit.
    pub fn room(&self) -> usize
        ensures { result ≡ PIPE_BYTES - length self.now }
    {
        PIPE_BYTES - self.ring.len()
    }

    /// Puts the first of some bytes, as many as fit, and returns how many these are.
    pub fn put(&mut self, bytes: &[u8]) -> usize
        ensures count { result ≡ min (length bytes.now) (PIPE_BYTES - length self.old) }
        ensures bytes { self.new ≡ self.old ++ take result bytes.now }
    {
        self.ring.fill_from_slice(bytes)
    }

    /// Takes the oldest bytes out, as many as there are and as the buffer holds, and returns how many these are. The rest of
    /// the buffer stays as it is.
    pub fn take(&mut self, buf: &mut [u8]) -> usize
        ensures count { result ≡ min (length buf.old) (length self.old) }
        ensures buf { buf.new ≡ take result self.old ++ drop result buf.old }
        ensures rest { self.new ≡ drop result self.old }
    {
        self.ring.read_into(buf)
    }

    /// Copies the bytes that `take` would take, and leaves them in.
    pub fn peek(&self, buf: &mut [u8]) -> usize
        ensures count { result ≡ min (length buf.old) (length self.now) }
        ensures buf { buf.new ≡ take result self.now ++ drop result buf.old }
    {
        let (front, back) = self.ring.as_slices();
        let from_front = front.len().min(buf.len());
        let from_back = back.len().min(buf.len() - from_front);
        let count = from_front + from_back;
        buf[..from_front].copy_from_slice(&front[..from_front]);
        buf[from_front..count].copy_from_slice(&back[..from_back]);
        count
    }
}

//! Lists of bytes.

ghost use Rattle.std.specs.Prelude.{◌≡◌, ◌==◌, ◌≤◌, [], length, max, vec_capacity, IfOk};
ghost use Rattle.lego_base.specs.declared.sizes.TheConstants.{LEAST_ROOM};

use crate::sizes::LEAST_ROOM;
use crate::stops::NoMemory;
use std::alloc::{AllocError, Global};
use std::marker::Model;

/// A list of bytes that contracts see as the list itself. It has room for at least `LEAST_ROOM` bytes,
/// so it can be set to a list of that length, or of its own, in the memory that it has.
#[derive(Debug, Drop)]
pub struct Bytes {
    items: Vec<u8>,
}

impl Model for Bytes {
    ghost use Rattle.std.specs.Prelude.{ℕ, ◌≤◌, List, vec_capacity};
    ghost use Rattle.lego_base.specs.declared.sizes.TheConstants.{LEAST_ROOM};

    ghost Value = { List ℕ };

    ghost view = { λ b. b.items.items };

    ghost invariant = { λ b. LEAST_ROOM ≤ vec_capacity b.items };
}

impl Bytes {
    /// An empty list with room for at least this many bytes.
    pub fn with_room(alloc: Global, room: usize) -> Result<Bytes, NoMemory>
        ensures { IfOk result (λ b. b ≡ []) }
    {
        let items = Vec::with_capacity(alloc, room.max(LEAST_ROOM))?;
        Ok(Bytes { items })
    }

    /// A copy of the bytes.
    pub fn from_slice(alloc: Global, bytes: &[u8]) -> Result<Bytes, NoMemory>
        ensures { IfOk result (λ b. b ≡ bytes.now) }
    {
        Ok(copied(alloc, bytes)?)
    }

    /// The bytes of a vector. Takes memory only where the vector has room for fewer than `LEAST_ROOM`.
    pub fn from_vec(bytes: Vec<u8>) -> Result<Bytes, NoMemory>
        ensures { IfOk result (λ b. b ≡ bytes.items) }
    {
        let mut items = bytes;
        if items.capacity() < LEAST_ROOM {
            items.reserve(LEAST_ROOM - items.len())?;
        }
        Ok(Bytes { items })
    }

    /// The vector of the bytes. Takes no memory.
    pub fn into_vec(self) -> Vec<u8>
        ensures { result.items ≡ self }
    {
        let Bytes { items } = self;
        items
    }

    /// The bytes in order.
    pub fn as_slice(&self) -> &[u8]
        ensures { result.now ≡ self.now }
    {
        self.items.as_slice()
    }

    /// The number of bytes.
    pub fn len(&self) -> usize
        ensures { result ≡ length self.now }
    {
        self.items.len()
    }

    /// Whether the list is empty.
    pub fn is_empty(&self) -> bool
        ensures { result ≡ (length self.now == 0) }
    {
        self.items.is_empty()
    }

    /// Sets the list to `bytes`. Takes no memory.
    pub fn set(&mut self, bytes: &[u8])
        requires { length bytes.now ≤ max LEAST_ROOM (length self.old) }
        ensures { self.new ≡ bytes.now }
    {
        set_items(&mut self.items, bytes);
    }
}

impl Clone for Bytes {
    ghost is_clone = { λ bytes copy. copy ≡ bytes };

    fn clone(&self) -> Result<Bytes, AllocError> {
        copied(*self.items.allocator(), self.items.as_slice())
    }
}

// A list of these bytes.
fn copied(alloc: Global, bytes: &[u8]) -> Result<Bytes, AllocError>
    ensures { IfOk result (λ b. b ≡ bytes.now) }
{
    let mut items = Vec::with_capacity(alloc, bytes.len().max(LEAST_ROOM))?;
    items.extend_from_slice(bytes)?;
    Ok(Bytes { items })
}

// Sets the vector, which has room, to the list `bytes`.
fn set_items(items: &mut Vec<u8>, bytes: &[u8])
    requires { length bytes.now ≤ vec_capacity items.old }
    ensures items { items.new.items ≡ bytes.now }
    ensures room { vec_capacity items.old ≤ vec_capacity items.new }
{
    items.clear();
    match items.extend_from_slice(bytes) {
        Ok(()) => {}
        Err(_) => unreachable!(), // there is room
    }
}

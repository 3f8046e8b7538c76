//! Lists of any items.

ghost use Rattle.std.specs.Prelude.{◌≡◌, ◌==◌, [], ◌∷◌, ◌++◌, length, OnOk, OnErr};
ghost use Rattle.std.specs.List.{AllZip};

use crate::stops::NoMemory;
use std::alloc::{AllocError, Global};
use std::marker::Model;

/// A list of items that contracts see as the list itself, whatever room it has in memory.
#[derive(Debug, Drop)]
pub struct Seq<T> {
    items: Vec<T>,
}

impl<T> Model for Seq<T> {
    ghost use Rattle.std.specs.Prelude.{List};

    ghost Value = { List T };

    ghost view = { λ s. s.items.items };
}

impl<T> Seq<T> {
    /// An empty list. Takes no memory.
    pub fn new(alloc: Global) -> Self
        ensures { result ≡ [] }
    {
        Seq {
            items: Vec::new(alloc),
        }
    }

    /// The list of a vector's items. Takes no memory.
    pub fn from_vec(items: Vec<T>) -> Self
        ensures { result ≡ items.items }
    {
        Seq { items }
    }

    /// The vector of the list's items. Takes no memory.
    pub fn into_vec(self) -> Vec<T>
        ensures { result.items ≡ self }
    {
        let Seq { items } = self;
        items
    }

    /// The items in order.
    pub fn as_slice(&self) -> &[T]
        ensures { result.now ≡ self.now }
    {
        self.items.as_slice()
    }

    /// The number of items.
    pub fn len(&self) -> usize
        ensures { result ≡ length self.now }
    {
        self.items.len()
    }

    /// Whether the list is empty.
    pub fn is_empty(&self) -> bool
        ensures { result ≡ (length self.now == 0) }
    {
        self.items.is_empty()
    }
}

impl<T: Drop> Seq<T> {
    /// Adds an item at the end. If memory runs out, the list is unchanged and the item is dropped.
    pub fn push(&mut self, item: T) -> Result<(), NoMemory>
        ensures ok { OnOk result (self.new ≡ self.old ++ item ∷ []) }
        ensures err { OnErr result (self.new ≡ self.old) }
    {
        self.items.push(item)?;
        Ok(())
    }
}

// The items of a clone are clones, one by one. So a clone is equal to the list where clones of its items are
// equal to them, which `search` finds for every type of this crate.
impl<T: Clone> Clone for Seq<T> {
    ghost is_clone = { λ list copy. AllZip T.is_clone list copy × (((x y : T) → T.is_clone x y → y ≡ x) → copy ≡ list) };

    fn clone(&self) -> Result<Seq<T>, AllocError> {
        let items = Vec::from_clones(*self.items.allocator(), self.items.as_slice())?;
        Ok(Seq { items })
    }
}

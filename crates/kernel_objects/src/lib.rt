//! What a process holds of the kernel: entries of its table of descriptors, open file descriptions and what they are
//! open on, the break, and what is kept of a call that waits; and the pieces of a buffer.
//!
//! These are plain values that the kernel's code and its definitions share. `specs/Slots` defines tables by number in
//! which a number that was freed is used again: descriptors, descriptions and pipes are kept in such tables.
#![tactic(auto)]

mod descriptor;
mod piece;
mod process;

pub use descriptor::{Description, FdEntry, Object, Stream};
pub use piece::Piece;
pub use process::{Brk, Waiting};

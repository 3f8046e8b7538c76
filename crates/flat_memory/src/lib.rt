//! A flat memory: the address spaces of guest processes in one place, by pid, with no cache and no owner.
//!
//! Contracts see a [`FlatMemory`] by `spaces_of` of `specs/Spaces`: the space of each process, with its areas and the
//! byte at each address, 0 where none was written. What sets up a space and copies in and out of it is promised at
//! `FlatMemory`. For a turn a process takes its space out, as a [`TurnSpace`], whose promise is that of `rv64_step`'s
//! `GuestMem`. A page takes memory when it is first written; a load or a store within one page finds it in constant
//! time.
#![tactic(auto)]

mod memory;
mod slot;
mod space;
mod turn;
mod word;

pub use memory::FlatMemory;
pub use turn::TurnSpace;

//! The manager of the plain kernel: processes with their descriptors, open file descriptions, pipes, standard input and the
//! exits, with who may have a turn.
//!
//! Contracts see a [`Manager`] as linux_model's record `Managed` (`linux_model/specs/Managed`), and what a call does is what one
//! or more of linux_model's effects make of it, exactly; errors come just at their limits and change nothing. How many
//! descriptors refer to a description, and how many descriptions are open on an end of a pipe, is counted in the Model's
//! invariant (`specs/Sound`) and in no clause: by these counts a description ends with its last descriptor and a pipe with its
//! last end, and [`Manager::ready`] answers a process in constant time. Only `new`, a start, a fork, a new pipe, an exit and the
//! list of `ready` take memory.
#![tactic(auto)]

mod counts;
mod descs;
mod fault;
mod input;
mod manager;
mod pipes;
mod slots;

pub use fault::{FdFault, SpawnFault};
pub use manager::{Manager, Opened};
pub use pipes::PipeState;

#[cfg(test)]
mod tests;

//! The processes: who lives, who is a zombie, whose child each is, and who has the turn.
//!
//! Contracts see a [`Procs`] as the list of linux_model's processes, in the order of their pids, and the pid that was given
//! last; each call is a function of `linux_model/specs/Processes`. Only `Procs::new` and a copy of descriptors take memory.
#![tactic(auto)]

mod entry;
mod table;

pub use table::{MOST_PROCESSES, Proc, Procs, Reaped, TooMany, choose};

#[cfg(test)]
mod tests;

//! The descriptors of a process, as in open(2): the next one is the lowest that is free.
//!
//! Contracts see an [`Fds`] as the list of its 64 slots, and what each call does is a function of kernel_objects' `Slots`. Only
//! `Fds::new` and `Fds::copy` take memory.
#![tactic(auto)]

mod fds;

pub use fds::{DESCRIPTORS, Fds};

#[cfg(test)]
mod tests;

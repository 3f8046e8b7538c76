//! Processors over a cluster: the caches of the split machine, seen as the plain kernel's spaces and files.
//!
//! Contracts see an [`ExMemory`] as the cluster, what each cache holds, and who issues operations (`Split` of `specs/Split`);
//! what that is of the plain kernel, `held_of`, is in `specs/Seen`. A call does effects of the plain kernel (`Does` of
//! `specs/Did`): the events that it shows lead over the marks that the script of `split_script` has for them, whatever is
//! still to come, and what is held is what the effects make of it. Where it halts, its events lead some way over the marks, and
//! the last of them is the cause.
#![tactic(auto)]

mod areas;
mod files;
mod memory;
mod turns;

pub use memory::ExMemory;

#[cfg(test)]
mod tests;

//! Instructions of a process over its space of a flat memory.
//!
//! [`run_some`] takes the space out of the memory, runs on it, and puts it back: what it does is `many` of linux_model, the
//! instructions that the definitions run on the same registers and the same space.
#![tactic(auto)]

mod steps;

pub use steps::run_some;

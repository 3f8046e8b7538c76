//! The log of a secondary: the patches that it keeps for a memory until storage has them.
//!
//! Contracts see a [`Log`] as the record `LogState` of `specs/LogState`: its room, its patches, oldest first, and how
//! many of the first ones are in the batch that is on its way to storage. Only `Log::new` and `Log::start_batch` take
//! memory.
#![tactic(auto)]

mod log;

pub use log::{Log, LogFull};

//! The outside world as three traits: a [`Source`] of bytes, a [`Sink`] of bytes and a [`Depot`] of named
//! files. Each has a count of faults that never falls, and may tell contracts what it holds.
//!
//! The promise: a call fails only where the object's count of faults rose in it, and what the object tells
//! moves just as the call says. The traits' clauses state it, in the words of `specs/Sources`, `specs/Sinks`
//! and `specs/Depots`, and of lego_base's `specs/Counts`; `proofs/` has their laws.
#![tactic(auto)]

mod calm_source;
mod depot;
mod fail_plan;
mod failed;
mod file_depot;
mod mem_depot;
mod mem_sink;
mod mem_source;
mod reading;
mod sink;
mod source;
mod std_sink;
mod std_source;

pub use calm_source::CalmSource;
pub use depot::{Depot, Got};
pub use failed::Failed;
pub use file_depot::FileDepot;
pub use mem_depot::MemDepot;
pub use mem_sink::MemSink;
pub use mem_source::MemSource;
pub use reading::{InputStop, read_all};
pub use sink::{Sink, write_all};
pub use source::Source;
pub use std_sink::StdSink;
pub use std_source::StdSource;

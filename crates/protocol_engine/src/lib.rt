//! The engine that plays the protocol over memories, storage and the network between them, one event at a time.
//!
//! Contracts see an [`Engine`] as the track that it stands for, `track_of` of `specs/Tracks`, whatever lies beyond it: the
//! plain map, the caches and what is still to come. Each event that it plays may come (`Came`), a call of several is a way
//! from track to track (`Went`), and where it halts the last event is the cause (`Halted`). It ends since each event lowers
//! the load of lego_waits. What it asks of the track that it plays on is `Sound` of `specs/Sound`.
#![tactic(auto)]

mod begin;
mod beginning;
mod complete;
mod crash;
mod deliver;
mod engine;
mod operate;
mod play;
mod recovery;
mod running;
mod send;
mod step;
mod turn;

pub use beginning::boot;
pub use engine::Engine;
pub use recovery::Recovery;
pub use running::Running;
pub use step::Step;

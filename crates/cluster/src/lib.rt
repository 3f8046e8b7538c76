//! The cluster: memories, storage and the network between them, as one plain map of bytes, areas and files.
//!
//! Contracts see a [`Cluster`] as what its components hold, what is pending and how far the run is (`Whole` of
//! `specs/Whole`), and its track, `track_at`, for whatever no component holds: the plain map, the caches and what is still to
//! come. A call is a way from track to track (`Went`); where it halts, the last event is the cause (`Halted`).
#![tactic(auto)]

mod askings;
mod asks;
mod assembly;
mod blocks;
mod changes;
mod cluster;
mod copies;
mod cuts;
mod files;
mod fills;
mod lines;
mod lists;
mod mappings;
mod names;
mod reads;
mod regions;
mod runs;
mod spaces;
mod spans;
mod unmaps;

pub use assembly::{ClusterParts, Pace};
pub use cluster::Cluster;
pub use reads::{LineIn, LineRead};

#[cfg(test)]
mod tests;

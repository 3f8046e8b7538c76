//! The measure by which no wait of the split run is for ever, as definitions and laws.
//!
//! `specs/Measure` has the load of a track: each event that may come while something is owed, open, healing or due lowers it
//! (`specs/Laws`).
#![tactic(auto)]

mod laws;

pub use laws::{
    crashes_lower_the_load, each_event_lowers_the_load, memories_begin_in_place,
    memories_stay_in_place, no_wait_is_for_ever,
};

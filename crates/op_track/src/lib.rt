//! Which targets of an operation have answered since their last crash.
//!
//! Contracts see an [`Op`] as its number and its targets, each with whether it has answered (`Tracked` of
//! `specs/Targets`). The laws in `laws` tie it to what lego_msg says: to the list of the answers that count, and to the
//! events of a run, by which an operation is complete where each target has answered since its last crash and none of
//! its messages is pending.
#![tactic(auto)]

mod laws;
mod op;

pub use laws::{flags_follow_the_answers, flags_follow_the_events};
pub use op::{Op, Target};

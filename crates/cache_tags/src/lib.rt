//! Which lines a processor's cache holds, and which of them are dirty; the bytes lie elsewhere, by slot.
//!
//! The rule is stated over the whole past of touches and removals (`specs/CacheRule`). The code keeps bounded lists: for
//! each set its lines, newest first. Contracts see a [`Tags`] as these lists, the slots that are free, and the slots that
//! are dirty (`specs/Sets`), and each call is a function on them (`specs/Tags`). Only `Tags::new` takes memory. That the
//! lists are the rule, for every list of touches, marks and removals, is a law of `laws`; `proofs/CacheRows` checks worked
//! pasts by computation.
#![tactic(auto)]

mod laws;
mod least;
mod set;
mod tags;

pub use laws::{a_removed_line_is_gone, a_touched_line_is_there, lists_follow_the_rule};
pub use set::Held;
pub use tags::{Tags, Touch, Victim};

#[cfg(test)]
mod tests;

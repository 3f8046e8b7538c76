//! What an operation sends, who must answer it, and what it leads to: the operations of lego_msg as code.
//!
//! Nothing is held here: each function is one of lego_msg's definitions. [`first_messages`] and [`targets`] are
//! `asks_of` and `targets_of`, [`reaction`] is `reaction_of`, [`healing`] has the moves of `moves_of`, and
//! [`end_owners`] is `owners_after`. An operation may be sent again after a crash, so it keeps its bytes: first messages
//! have copies of them, and nothing else is copied but the patch of a write that finds a log full.
#![tactic(auto)]

mod file_rows;
mod first;
mod heal_start;
mod issuer;
mod owners;
mod reactions;
mod region_rows;
mod target_places;

pub use first::first_messages;
pub use heal_start::healing;
pub use owners::end_owners;
pub use reactions::reaction;
pub use target_places::targets;

#[cfg(test)]
mod tests;

//! Healing after the crash of a memory: what the manager asks, one message at a time.
//!
//! Contracts see a [`Heal`] as its moves that haven't begun, the list `moves_of` of lego_msg, and whether an answer is
//! awaited (`Healing` of `specs/Steps`). The message of a move is `ask_of` of lego_msg, which hands on what the move
//! before it was answered. That the list of moves for given regions is that of lego_msg is the law of `laws`.
#![tactic(auto)]

mod ask;
mod begin;
mod heal;
mod laws;

pub use heal::{Heal, HealMove};
pub use laws::{all_moves_are_those_of_healing, moves_go_out_in_order};

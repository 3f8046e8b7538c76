//! What several system calls do in the same way, once over any machine: a descriptor is closed, buffers of pieces are
//! checked, read and written, and a word is read out of its bytes. `specs/Numbered` says what a group of calls by number comes to.
#![tactic(auto)]

mod buffers;
mod closing;
mod words;

pub use buffers::{
    TO_READ, TO_WRITE, check_pieces, part, read_pieces, writable_part, write_pieces,
};
pub use closing::close_open;
pub use words::word_of;

#[cfg(test)]
mod tests;

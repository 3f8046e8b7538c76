//! The bytes in a pipe, as in pipe(7): at most 65536, taken in the order in which they were put.
//!
//! Contracts see a [`Pipe`] as the list of its bytes, the oldest first. Only `Pipe::new` takes memory.
#![tactic(auto)]

mod pipe;

pub use pipe::{PIPE_BYTES, Pipe};

#[cfg(test)]
mod tests;

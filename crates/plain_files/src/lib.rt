//! Files with names, as long as the host has memory: what the plain kernel keeps for the file calls of Linux.
//!
//! Contracts see [`PlainFiles`] as the record `Stored` of `specs/Stored`: the bytes of each file by its number, the names in the
//! order of their bytes, and the number of the next file. Each call is an equation with a definition there or in lego_base's
//! `Files`; where memory runs out, everything is as before. A write costs by the bytes that are written, whatever the size of
//! the file.
#![tactic(auto)]

mod files;

pub use files::{MOST_FILES, PlainFiles};

#[cfg(test)]
mod tests;

//! Texts in a process's space, and the file that a path there names: what openat(2), unlinkat(2) and execve(2) do first, over any
//! machine.
//!
//! A text is read byte by byte, as `text_at` of `linux_model/specs/Paths` has it, and a path leads where `at_path` leads: whatever
//! a call does with what was found, its row begins with the effects that happened here (`Reached` of `specs/Reached`).
#![tactic(auto)]

mod parts;
mod text;
mod walk;

pub use text::{Text, read_text};
pub use walk::{Found, find_path};

#[cfg(test)]
mod tests;

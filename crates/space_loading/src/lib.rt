//! How a program becomes the space of a process, over any machine: its pages, then the bytes of its loads page by page, then
//! its start stack. Booting and execve(2) both load so.
//!
//! What is done is `loads_program` of `linux_model/specs/Loading`, exactly.
#![tactic(auto)]

mod fills;
mod load;
mod pages;
mod stack;

pub use load::load_program;

#[cfg(test)]
mod tests;

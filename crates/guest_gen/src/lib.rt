//! Guest programs from a seed, to try one machine against another: the same seed gives the same program, description and
//! name of each file.
//!
//! A program is a list of jobs, drawn by a linear congruential generator (`specs/Draws`): it maps and touches pages, writes
//! files, forks children that exit, and reads what a child writes to a pipe. `specs/Jobs` has the jobs with the calls of
//! each, `specs/Assembly` the words of their instructions, and `specs/Guests` the ELF file and the description around them.
#![tactic(auto)]

mod assembly;
mod draws;
mod file;
mod guest;
mod job;
mod steps;
mod text;

pub use assembly::{Register, Step};
pub use guest::{Generated, make};
pub use job::Job;
pub use text::plan_text;

#[cfg(test)]
mod tests;

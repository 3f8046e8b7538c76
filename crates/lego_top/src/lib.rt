//! The call that the program makes, [`lego_main`]: it reads the command line, a description, the program and the files
//! that the description names from the depot, and standard input to its end, runs the program on the plain kernel with
//! these files, and leaves a report and an archive of all files that have a name at the end.
//!
//! Its contract is the theorem: what standard output and standard error hold, what the depot has and which ending comes
//! are those of the flat run of linux_model. `specs/Theorem` states it, with the cause of each ending in `specs/Causes`
//! and what is refused in `specs/Refusals`.
#![tactic(auto)]

mod command;
mod command_line;
mod depot_file;
mod description;
mod ending;
mod leaving;
mod message;
mod program_run;

pub use command::lego_main;
pub use ending::Ending;

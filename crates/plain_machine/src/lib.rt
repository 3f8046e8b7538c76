//! The plain machine: flat spaces by pid, and files by number, under the system calls.
//!
//! Contracts see a [`PlainMachine`] by `held_of` of `specs/Plain`, which is what it holds of the plain kernel, and by what it was
//! to put out and hasn't written yet. It is a [`Machine`](call_machine::Machine): effects happened (`Did`) where what is held is
//! what they make of it, and what they put out is there, after what was there; where it stopped, some first ones of them were
//! shown. It knows no limit of blocks or frames: only memory of the host may run out. For the instructions of a turn it lends
//! its memory.
#![tactic(auto)]

ghost use Rattle.plain_machine.specs.Shown.{PutsAreWritten};

mod machine;
mod output;

pub use machine::PlainMachine;
pub use output::Output;

#[cfg(test)]
mod tests;

/// What effects put out is what they write to the two streams of the plain kernel.
pub fn puts_are_written()
    ensures { PutsAreWritten }
{}

//! What a system call asks of the machine under the kernel: of spaces, of files, and of what is shown.
//!
//! A call is written once, over any [`Machine`]. The machine says which effects of the plain kernel
//! (`linux_model/specs/Effects`) happened between two of its states (`does`), what it holds of the kernel (`held`), and
//! how far it came where it stopped (`stops`); `specs/Lawful` has the laws that these obey. The plain kernel's machine
//! only holds spaces and files, and the split one shows events as well.
#![tactic(auto)]

ghost use Rattle.call_machine.specs.Laws.{StopsFollow};

mod end;
pub mod errno;
mod machine;

pub use end::CallEnd;
pub use machine::Machine;

#[cfg(test)]
mod tests;

/// Where effects happened the machine may as well have stopped after them, and a stop within the first effects of a call's
/// row is a stop of the call. Questions change nothing that is held.
pub fn stops_follow<M: Machine>()
    ensures { StopsFollow M.held M.does M.stops }
{}

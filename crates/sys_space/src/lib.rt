//! The system calls on a process's space, each written once over any machine: brk(2), munmap(2), mmap(2) and mprotect(2).
//!
//! Each call is its row of `linux_model/specs/SpaceCalls`: its answer, its effects, which the machine did, and what they make
//! of the kernel (`Answered` of `call_machine/specs/Made`). Where the machine stopped, some first effects of the row were
//! shown. A call is lent what it may change: the machine, and brk the break.
#![tactic(auto)]

mod breaks;
mod dispatch;
mod laws;
mod mappings;
mod pages;

pub use breaks::sys_brk;
pub use dispatch::space_call;
pub use laws::what_is_lent_is_there;
pub use mappings::{sys_mmap, sys_mprotect, sys_munmap};

#[cfg(test)]
mod tests;

//! The system calls on descriptors and files that move no bytes of the process, each written once over any machine: openat(2),
//! unlinkat(2), dup(2), dup3(2), close(2), pipe2(2), ftruncate(2) and lseek(2).
//!
//! Each call is its row of `linux_model/specs/Descriptors` and `FileCalls`: its answer, its effects, which the machine did, and
//! what they make of what the manager holds (`Answers` of `call_machine/specs/Lent`). Where the machine stopped, some first
//! effects of the row were shown. A call is lent what it may change.
#![tactic(auto)]

mod descriptors;
mod dispatch;
mod names;
mod offsets;

pub use descriptors::{sys_close, sys_dup, sys_dup3, sys_pipe2};
pub use dispatch::file_call;
pub use names::{sys_openat, sys_unlinkat};
pub use offsets::{sys_ftruncate, sys_lseek};

#[cfg(test)]
mod tests;

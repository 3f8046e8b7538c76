//! The system calls that move bytes between a process and what its descriptors are open on, each written once over any
//! machine: read(2), readv(2), pread64(2), write(2), writev(2) and pwrite64(2).
//!
//! Each call is its row of `linux_model/specs/FileCalls`: its answer or its waiting, its effects, which the machine did, and
//! what they make of what the manager holds (`Ends` of `call_machine/specs/Lent`). Where the machine stopped, some first
//! effects of the row were shown.
#![tactic(auto)]

mod dispatch;
mod files;
mod opened;
mod reading;
mod sources;
mod vectors;
mod writing;

pub use dispatch::io_call;
pub use reading::{sys_pread64, sys_read};
pub use vectors::{sys_readv, sys_writev};
pub use writing::{sys_pwrite64, sys_write};

#[cfg(test)]
mod tests;

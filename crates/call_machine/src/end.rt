//! How a system call ends.

use kernel_objects::Waiting;
use rv64_step::Cpu;

/// How a system call ends, where the machine didn't stop.
#[derive(Clone, Copy, Debug, PartialEq, Eq)]
pub enum CallEnd {
    /// The process goes on after the call, with this answer in a0.
    Value(u64),
    /// The process goes on with these registers, as after execve(2).
    Goes(Cpu),
    /// The process waits at the call.
    Waits(Waiting),
    /// The process dies with this wait status, as wait(2) gives it. Nothing of the death is done yet.
    Dies(u32),
}

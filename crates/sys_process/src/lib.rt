//! The system calls on processes, each written once over any machine, lent the manager: exit(2), clone(2), execve(2),
//! wait4(2), and those that ask who a process is. Dying is here too, and what a turn does once a call has ended.
//!
//! Each call is its row of `linux_model/specs/ProcessCalls`: its end, its effects, which the machine did, and what they make of
//! what is managed (`Ends` of `call_machine/specs/Lent`). Where the machine stopped, some first effects of the row were shown.
#![tactic(auto)]

mod clone;
mod death;
mod dispatch;
mod end;
mod exec;
mod identity;
mod laws;
mod strings;
mod wait;

pub use clone::sys_clone;
pub use death::die;
pub use dispatch::process_call;
pub use end::end_call;
pub use exec::sys_execve;
pub use identity::{sys_exit, sys_getpid, sys_getppid, sys_sched_yield};
pub use laws::an_end_follows_its_effects;
pub use wait::sys_wait4;

#[cfg(test)]
mod tests;

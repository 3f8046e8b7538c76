//! Every system call of a process by its number, over any machine, lent the manager.
//!
//! A call is its row of `linux_model/specs/Calls`: the machine and the manager do the effects that a turn of linux_model has of
//! the call, its end among them, and what they make of what is managed is managed then ([`do_call`]). Where the machine stopped,
//! some first ones of these effects were shown. The calls stand in four groups (`sys_process`, `sys_files`, `sys_io`,
//! `sys_space`), each of which leaves another's call alone.
#![tactic(auto)]

mod calls;
mod groups;

pub use calls::do_call;

#[cfg(test)]
mod tests;

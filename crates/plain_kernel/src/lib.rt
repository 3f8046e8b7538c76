//! The plain kernel, turn by turn: processes over one manager, and flat spaces and plain files under it.
//!
//! Contracts see a [`PlainKernel`] as the kernel of the definitions that it stands for (`specs/Standing`), where what it has put
//! out and not yet written is left to its machine. A turn is that of the flat run of linux_model: the effects of its instructions,
//! and of the call or the death that ends them (`specs/Turns`). Only memory of the host may run out.
#![tactic(auto)]

mod boot;
mod kernel;
mod left;
mod output;
mod run;
mod turn;

pub use kernel::{Next, PlainKernel, RunStop};
pub use left::PlainEnd;
pub use run::plain_run;

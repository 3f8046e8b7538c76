//! One instruction of RV64IM over any memory.
//!
//! The model is `specs/Meaning`: for each instruction the registers after it, the next address and at most
//! one access to memory, over whole numbers. The promise is stated at `Hart::step`: the step is exactly that
//! meaning, and its accesses go to the memory that was handed in, once each and in order. `GuestMem` is
//! what a memory promises in return.
#![tactic(auto)]

mod alu;
mod cpu;
mod hart;
mod memory;
mod width;

pub use cpu::{Cpu, StepEnd};
pub use hart::Hart;
pub use memory::GuestMem;
pub use width::Width;

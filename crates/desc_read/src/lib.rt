//! Reads a description, a JSON object that says which machine is to run which program, and gives its plan or
//! names its first fault.
//!
//! The model is a function from bytes to a plan or a refusal: `described` of `specs/Plans`, a table of the fields
//! in their order with kind, range and default, over the value that `serde_json` says a JSON text has. The promise
//! is stated at [`read_plan`]: the answer is exactly that, unless memory runs out.
#![tactic(auto)]

mod fault;
mod laws;
mod machine_fields;
mod numbers;
mod object_reader;
mod place;
mod plan;
mod plan_reader;
mod program_fields;
mod schedule_fields;
mod texts;
mod unknown_fields;

pub use fault::{DescFault, DescKind};
pub use laws::{plans_are_bounded, strings_are_few};
pub use plan::{FileFrom, Plan};
pub use plan_reader::read_plan;
pub use texts::is_depot_name;

//! Which memory component owns which region, where a process's owners are kept, and which processor runs a process.
//!
//! Regions get their owners by turns: the k-th assignment of a run gets the number at k modulo the length of the
//! placement list. A child has its parent's owners, and a process's owners end with its space. Contracts see a
//! [`Table`] as the placement list, the count of assignments and the entries in rising order (`Owned` of `specs/Owners`).
//! `specs/Owners` has the rule over whole lists of what happens to owners, and `laws` what a reader may ask of it.
#![tactic(auto)]

mod entries;
mod laws;
mod places;
mod table;

pub use laws::{
    owners_are_found_where_assigned, owners_rise, turns_go_by_the_count_of_assignments,
};
pub use places::{guarded, home, processor_of, secondary};
pub use table::Table;

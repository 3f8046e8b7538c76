//! Finite maps in a vector: items in rising order of a key, which is a process with a page number or a region number.
//!
//! An item tells its key by the trait [`Keyed`]. The functions are over slices and vectors that rise (`Rises` of
//! lego_base's `Keys`), and what each does is a function of `Keys`: [`get`] is `find`, [`put`] is `put`, [`remove`] and
//! [`remove_process`] are `without`. A key is found by binary search.
#![tactic(auto)]

mod edit;
mod keyed;
mod search;

pub use edit::{put, remove, remove_process};
pub use keyed::Keyed;
pub use search::{get, position, span};

//! The pages of a memory: a map from pages to their bytes, in as many frames as there are.
//!
//! Contracts see a [`PageStore`] as the record `Store` of `specs/Store`: the number of frames, and the list of present
//! pages, rising by process and page, with the functions of lego_msg's `Maps` and lego_base's `Keys`. A page that isn't
//! present reads 0. Only `PageStore::new` and `PageStore::pages_of` take memory. A page is found in one step by a hint, or else
//! in logarithmic time.
#![tactic(auto)]

mod copying;
mod frames;
mod hints;
mod spot;
mod store;

pub use store::{Full, PageStore};

#[cfg(test)]
mod tests;

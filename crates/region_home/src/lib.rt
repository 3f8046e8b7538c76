//! Which memory owns each region: what the home of a process knows.
//!
//! Contracts see a [`Home`] as the list of its entries, rising by process and region, with the functions of lego_msg's
//! `Maps` and lego_base's `Keys`.
#![tactic(auto)]

mod home;

pub use home::Home;

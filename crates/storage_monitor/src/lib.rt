//! The storage component: what it makes of each message, and what it sends.
//!
//! Contracts see [`Store`] as the record `Disk` of lego_msg: the images of pages, and the files with their names.
//! [`Store::handle`] is `stored` of lego_msg's message table. Storage keeps no state for those who ask: no descriptor, no
//! offset, no count of who has a file open.
#![tactic(auto)]

mod reply;
mod store;

pub use store::Store;

#[cfg(test)]
mod tests;

//! A memory component: it keeps pages, areas, owners, the log of the memory whose secondary it is, and cached blocks,
//! and answers messages.
//!
//! Contracts see a [`Memory`] as the record `Mem` of lego_msg's `State`, and [`Memory::handle`] is the message table,
//! `handled` of lego_msg's `Table`, in both state and messages. There is one method a row, in a file a group of rows.
#![tactic(auto)]

mod area_lists;
mod asker;
mod block_rows;
mod copies;
mod keeper;
mod kept_rows;
mod log_rows;
mod memory;
mod page_rows;

pub use memory::Memory;

#[cfg(test)]
mod tests;

//! The texts that a run leaves: its report and the archive of its files.
//!
//! [`report`] gives exactly `report_of` of `specs/Report`, a line for each fact; [`archive`] gives exactly
//! `archive_of` of `specs/Archive`, the files by name whatever order they are given in. `laws` promises what
//! that order is, that the archive doesn't depend on the order given, and that it determines its files.
#![tactic(auto)]

mod archive_bytes;
mod laws;
mod report_lines;

pub use archive_bytes::archive;
pub use laws::{archive_tells_files, by_name_sorts, order_is_free};
pub use report_lines::report;

//! The areas of an address space: its maximal runs of mapped pages with equal permissions, at most 256
//! of them, as `mmap(2)`, `munmap(2)`, `mprotect(2)` and `brk(2)` set and clear them.
//!
//! Contracts see [`Areas`] as the list of its runs, which is canonical: `IsCanonical` of `specs/Runs`.
//! What the list says of a page is `perms_of` of lego_base. Setting a range changes just its pages, `IsPut`
//! there, and `put_runs` are the runs that do; clearing is `IsCut` and `cut_runs`. The lowest free place is
//! `lowest_gap` of `specs/Gap`. Only `Areas::new` takes memory. That the definitions mean what their names
//! say, page by page, is promised in `laws`.
#![tactic(auto)]

mod areas;
mod laws;
mod runs;
mod search;

pub use areas::{Areas, TooMany};
pub use laws::{
    canonical_runs_are_unique, covered_is_each_page, cut_clears_a_range, lowest_gap_is_lowest,
    one_need_is_allowed, put_sets_a_range,
};

/// The most runs that an address space can have.
pub const MOST_RUNS: usize = 256;

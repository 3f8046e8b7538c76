//! What runs say of pages.

ghost use Rattle.std.specs.Prelude.{◌≡◌};
ghost use Rattle.lego_base.specs.Space.{perms_of};
ghost use Rattle.area_list.specs.Runs.{IsCanonical, page_count};
ghost use Rattle.area_list.specs.Gap.{lowest_gap};
ghost use Rattle.area_list.specs.Cover.{covered};

use bitflags::Flags;
use lego_base::{Area, PAGES_END, Perms};

// The permissions of a page, where a run has it, by binary search.
pub fn perms_at(runs: &[Area], page: u64) -> Option<Perms>
    requires { IsCanonical runs.now }
    ensures { result ≡ perms_of runs.now page }
{
    let mut low = 0; // the runs before this one end at or below the page
    let mut high = runs.len(); // this run and those after it begin above the page
    while low < high {
        let middle = low + (high - low) / 2;
        let run = runs[middle];
        if page < run.first.0 {
            high = middle;
        } else if page - run.first.0 < run.pages {
            return Some(run.perms);
        } else {
            low = middle + 1;
        }
    }
    None
}

// Whether each page of a range is mapped and has all permissions needed.
pub fn covers(runs: &[Area], first: u64, pages: u64, need: Perms) -> bool
    requires { IsCanonical runs.now }
    ensures { result ≡ covered runs.now first pages need }
{
    let mut at = first; // the first page that isn't known to have them
    let mut left = pages; // the number of pages that start there
    for run in runs {
        let end = run.first.0 + run.pages;
        if left == 0 {
            return true;
        }
        if end <= at {
            continue;
        }
        if at < run.first.0 || !run.perms.contains(need) {
            return false;
        }
        if left <= end - at {
            return true;
        }
        left -= end - at;
        at = end;
    }
    left == 0
}

// The lowest page, `first` or above, at which `pages` unmapped pages start that end within the address
// space.
pub fn lowest_gap(runs: &[Area], first: u64, pages: u64) -> Option<u64>
    requires { IsCanonical runs.now }
    ensures { result ≡ lowest_gap runs.now first pages }
{
    if first > PAGES_END || pages > PAGES_END - first {
        return None;
    }
    if pages == 0 {
        return Some(first);
    }
    let mut at = first;
    for run in runs {
        if at + pages <= run.first.0 {
            return Some(at);
        }
        at = at.max(run.first.0 + run.pages);
    }
    if at + pages <= PAGES_END {
        Some(at)
    } else {
        None
    }
}

// The number of pages that the runs have.
pub fn pages(runs: &[Area]) -> u64
    requires { IsCanonical runs.now }
    ensures { result ≡ page_count runs.now }
{
    let mut total = 0;
    for run in runs {
        total += run.pages;
    }
    total
}

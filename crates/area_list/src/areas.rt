//! The areas of an address space.

ghost use Rattle.std.specs.Prelude.{◌≡◌, ℕ, ◌+◌, ◌<◌, ◌≤◌, ◌↔◌, [], length, Some, None, OnOk, OnErr, IfOk, IsErr, MatchOption};
ghost use Rattle.std.specs.Option.{option_map};
ghost use Rattle.lego_base.specs.Space.{perms_of};
ghost use Rattle.area_list.specs.Runs.{IsCanonical, page_count, put_runs, cut_runs, in_range};
ghost use Rattle.area_list.specs.Gap.{lowest_gap, IsGap, IsLowestGap};
ghost use Rattle.area_list.specs.Cover.{covered};

use crate::runs::Runs;
use crate::{MOST_RUNS, search};
use lego_base::{Area, NoMemory, PAGES_END, Perms, Vpn};
use std::alloc::Global;
use std::marker::Model;

/// The address space would have more than `MOST_RUNS` runs.
#[derive(Clone, Copy, Debug, PartialEq, Eq)]
pub struct TooMany;

/// The areas of an address space: the maximal runs of mapped pages with equal permissions, in rising
/// order. Contracts see it as the list of the runs.
#[derive(Debug, Drop)]
pub struct Areas {
    runs: Runs,
    spare: Runs, // where `put` and `cut` build the next runs; what it holds means nothing
}

impl Model for Areas {
    ghost use Rattle.std.specs.Prelude.{List};
    ghost use Rattle.lego_base.specs.declared.records.Area.{Area};

    ghost Value = { List Area };

    ghost use Rattle.area_list.specs.Runs.{IsCanonical};

    ghost view = { λ a. a.runs };

    ghost invariant = { λ a. IsCanonical a.runs };
}

impl Areas {
    /// No page is mapped. Takes all memory that the areas will ever need.
    pub fn new(alloc: Global) -> Result<Areas, NoMemory>
        ensures { IfOk result (λ areas. areas ≡ []) }
    {
        let runs = Runs::new(alloc)?;
        let spare = Runs::new(alloc)?;
        Ok(Areas { runs, spare })
    }

    /// Maps `pages` pages, starting at `first`, with these permissions, whatever they had, as `mmap(2)`
    /// with `MAP_FIXED` and `mprotect(2)` do.
    pub fn put(&mut self, first: Vpn, pages: u64, perms: Perms) -> Result<(), TooMany>
        requires { first.0 + pages ≤ PAGES_END }

        // The runs are those of the definition, which change just the pages of the range.
        ensures ok { OnOk result (self.new ≡ put_runs first.0 pages perms self.old) }
        ensures pages { OnOk result ((page : ℕ) → perms_of self.new page ≡ in_range first.0 pages page (Some perms) (perms_of self.old page)) }
        ensures canonical { IsCanonical self.new }

        ensures too_many { IsErr result ↔ (MOST_RUNS < length (put_runs first.0 pages perms self.old)) }
        ensures err { OnErr result (self.new ≡ self.old) }
    {
        self.spare
            .build_put(self.runs.as_slice(), first.0, pages, perms)?;
        self.runs.swap(&mut self.spare);
        Ok(())
    }

    /// Unmaps `pages` pages, starting at `first`, as `munmap(2)` does.
    pub fn cut(&mut self, first: Vpn, pages: u64) -> Result<(), TooMany>
        requires { first.0 + pages ≤ PAGES_END }

        // The runs are those of the definition, which change just the pages of the range.
        ensures ok { OnOk result (self.new ≡ cut_runs first.0 pages self.old) }
        ensures pages { OnOk result ((page : ℕ) → perms_of self.new page ≡ in_range first.0 pages page None (perms_of self.old page)) }
        ensures canonical { IsCanonical self.new }

        ensures too_many { IsErr result ↔ (MOST_RUNS < length (cut_runs first.0 pages self.old)) }
        ensures err { OnErr result (self.new ≡ self.old) }
    {
        self.spare.build_cut(self.runs.as_slice(), first.0, pages)?;
        self.runs.swap(&mut self.spare);
        Ok(())
    }

    /// The permissions of a page, where it is mapped.
    pub fn perms_at(&self, vpn: Vpn) -> Option<Perms>
        ensures { result ≡ perms_of self.now vpn.0 }
    {
        search::perms_at(self.runs.as_slice(), vpn.0)
    }

    /// Whether each of the `pages` pages that start at `first` is mapped and has all permissions of `need`.
    pub fn covers(&self, first: Vpn, pages: u64, need: Perms) -> bool
        ensures { result ≡ covered self.now first.0 pages need }
    {
        search::covers(self.runs.as_slice(), first.0, pages, need)
    }

    /// The lowest page, `first` or above, at which `pages` unmapped pages start that end within the
    /// address space.
    pub fn gap_from(&self, first: Vpn, pages: u64) -> Option<Vpn>
        ensures gap { option_map (λ at. at.0) result ≡ lowest_gap self.now first.0 pages }
        ensures lowest { MatchOption result ((page : ℕ) → first.0 ≤ page → IsGap self.now page pages → ⊥) (λ at. IsLowestGap self.now first.0 pages at.0) }
    {
        match search::lowest_gap(self.runs.as_slice(), first.0, pages) {
            Some(at) => Some(Vpn(at)),
            None => None,
        }
    }

    /// The number of mapped pages.
    pub fn pages(&self) -> u64
        ensures { result ≡ page_count self.now }
    {
        search::pages(self.runs.as_slice())
    }

    /// The runs in rising order.
    pub fn runs(&self) -> &[Area]
        ensures runs { result.now ≡ self.now }
        ensures canonical { IsCanonical self.now }
        ensures few { length self.now ≤ MOST_RUNS }
    {
        self.runs.as_slice()
    }

    /// Unmaps all pages.
    pub fn clear(&mut self)
        ensures { self.new ≡ [] }
    {
        self.runs.clear();
    }

    /// Makes these the areas of another address space. Takes no memory.
    pub fn copy_from(&mut self, other: &Areas)
        ensures { self.new ≡ other.now }
    {
        self.runs.copy_from(&other.runs);
    }
}

//! Runs that are built one after another, in memory that was taken beforehand.

ghost use Rattle.std.specs.Prelude.{◌≡◌, ◌+◌, ◌<◌, ◌≤◌, ◌^◌, [], length, IfOk, OnOk, OnErr};
ghost use Rattle.area_list.specs.declared.TheConstants.{MOST_RUNS};
ghost use Rattle.area_list.specs.Runs.{end_of, goes_on, IsCanonical, between, below, above, extended, joined, put_runs, cut_runs};

use crate::MOST_RUNS;
use crate::areas::TooMany;
use bitflags::Flags;
use lego_base::{Area, NoMemory, PAGES_END, Perms, Vpn};
use std::alloc::Global;
use std::marker::Model;
use std::mem;

/// At most `MOST_RUNS` runs, with memory for as many. Contracts see the list of the runs.
#[derive(Debug, Drop)]
pub(crate) struct Runs {
    items: Vec<Area>,
}

impl Model for Runs {
    ghost use Rattle.std.specs.Prelude.{List, ◌≤◌, length, vec_capacity};
    ghost use Rattle.lego_base.specs.declared.records.Area.{Area};

    ghost Value = { List Area };

    ghost use Rattle.area_list.specs.declared.TheConstants.{MOST_RUNS};

    ghost view = { λ r. r.items.items };

    ghost invariant = { λ r. (length r.items.items ≤ MOST_RUNS) × (MOST_RUNS ≤ vec_capacity r.items) };
}

impl Runs {
    /// No run. Takes all memory that the runs will ever need.
    pub(crate) fn new(alloc: Global) -> Result<Runs, NoMemory>
        ensures { IfOk result (λ runs. runs ≡ []) }
    {
        let items = Vec::with_capacity(alloc, MOST_RUNS)?;
        Ok(Runs { items })
    }

    /// The runs in order.
    pub(crate) fn as_slice(&self) -> &[Area]
        ensures items { result.now ≡ self.now }
        ensures few { length self.now ≤ MOST_RUNS }
    {
        self.items.as_slice()
    }

    pub(crate) fn clear(&mut self)
        ensures { self.new ≡ [] }
    {
        self.items.clear();
    }

    /// Makes this a copy of `other`. Takes no memory.
    pub(crate) fn copy_from(&mut self, other: &Runs)
        ensures { self.new ≡ other.now }
    {
        self.items.clear();
        match self.items.extend_from_slice(other.items.as_slice()) {
            Ok(()) => {}
            Err(_) => unreachable!(), // there is room for `MOST_RUNS` runs
        }
    }

    /// Exchanges these runs and the others.
    pub(crate) fn swap(&mut self, other: &mut Runs)
        ensures own { self.new ≡ other.old }
        ensures other { other.new ≡ self.old }
        ensures few { length self.new ≤ MOST_RUNS }
    {
        mem::swap(&mut self.items, &mut other.items);
    }

    /// Makes this what `runs` become once `pages` pages, starting at `first`, are mapped with these
    /// permissions. Where that is too much, this holds some of it.
    pub(crate) fn build_put(
        &mut self,
        runs: &[Area],
        first: u64,
        pages: u64,
        perms: Perms,
    ) -> Result<(), TooMany>
        requires canonical { IsCanonical runs.now }
        requires ends { first + pages ≤ PAGES_END }
        ensures ok { OnOk result (self.new ≡ put_runs first pages perms runs.now) }
        ensures err { OnErr result (MOST_RUNS < length (put_runs first pages perms runs.now)) }
    {
        let end = first + pages;
        self.clear();
        self.append_below(runs, first)?;
        self.append(first, end, perms)?;
        self.append_above(runs, end)?;
        Ok(())
    }

    /// Makes this what `runs` become once `pages` pages, starting at `first`, aren't mapped. Where that
    /// is too much, this holds some of it.
    pub(crate) fn build_cut(&mut self, runs: &[Area], first: u64, pages: u64) -> Result<(), TooMany>
        requires canonical { IsCanonical runs.now }
        requires ends { first + pages ≤ PAGES_END }
        ensures ok { OnOk result (self.new ≡ cut_runs first pages runs.now) }
        ensures err { OnErr result (MOST_RUNS < length (cut_runs first pages runs.now)) }
    {
        let end = first + pages;
        self.clear();
        self.append_below(runs, first)?;
        self.append_above(runs, end)?;
        Ok(())
    }

    // Appends the parts of `runs` below `page`. Where that is too much, some of it is appended.
    fn append_below(&mut self, runs: &[Area], page: u64) -> Result<(), TooMany>
        requires { IsCanonical runs.now }
        ensures ok { OnOk result (self.new ≡ joined self.old (below page runs.now)) }
        ensures err { OnErr result (MOST_RUNS < length (joined self.old (below page runs.now))) }
    {
        for run in runs {
            let end = run.first.0 + run.pages;
            self.append(run.first.0, end.min(page), run.perms)?;
        }
        Ok(())
    }

    // Appends the parts of `runs` at or above `page`. Where that is too much, some of it is appended.
    fn append_above(&mut self, runs: &[Area], page: u64) -> Result<(), TooMany>
        requires { IsCanonical runs.now }
        ensures ok { OnOk result (self.new ≡ joined self.old (above page runs.now)) }
        ensures err { OnErr result (MOST_RUNS < length (joined self.old (above page runs.now))) }
    {
        for run in runs {
            let end = run.first.0 + run.pages;
            self.append(run.first.0.max(page), end, run.perms)?;
        }
        Ok(())
    }

    // Appends the pages from `first` to before `end`, if there are any.
    fn append(&mut self, first: u64, end: u64, perms: Perms) -> Result<(), TooMany>
        ensures ok { OnOk result (self.new ≡ joined self.old (between first end perms)) }
        ensures err { OnErr result (MOST_RUNS < length (joined self.old (between first end perms))) }
    {
        if end <= first {
            return Ok(());
        }
        self.push(Area {
            first: Vpn(first),
            pages: end - first,
            perms,
        })
    }

    // Appends a run, as a part of the last one where it continues that.
    fn push(&mut self, next: Area) -> Result<(), TooMany>
        requires ends { end_of next < 2 ^ 64 }
        ensures ok { OnOk result (self.new ≡ extended self.old next) }
        ensures err { OnErr result (MOST_RUNS < length (extended self.old next)) }
    {
        let Some(last) = self.items.pop() else {
            self.items.push_reserved(next);
            return Ok(());
        };
        if goes_on(&last, &next) {
            self.items.push_reserved(Area {
                first: last.first,
                pages: last.pages + next.pages,
                perms: last.perms,
            });
            return Ok(());
        }
        self.items.push_reserved(last);
        if self.items.len() == MOST_RUNS {
            return Err(TooMany);
        }
        self.items.push_reserved(next);
        Ok(())
    }
}

// Whether a run continues another, with the same permissions. The other's end isn't computed, since
// nothing is known of it and the sum might overflow.
fn goes_on(area: &Area, next: &Area) -> bool
    ensures { result ≡ goes_on area.now next.now }
{
    area.perms.bits() == next.perms.bits()
        && area.first.0 <= next.first.0
        && next.first.0 - area.first.0 == area.pages
}

//! What the definitions say of single pages.

ghost use Rattle.area_list.specs.Runs.{PutSets, CutClears, CanonicalIsUnique};
ghost use Rattle.area_list.specs.Gap.{GapIsLowest};
ghost use Rattle.area_list.specs.Cover.{CoversEachPage, HasOneIsAllows};

/// Setting a range changes just the pages of the range, and the runs stay canonical.
pub fn put_sets_a_range()
    ensures { PutSets }
{}

/// Clearing a range changes just the pages of the range, and the runs stay canonical.
pub fn cut_clears_a_range()
    ensures { CutClears }
{}

/// Two canonical lists that say the same of each page are equal.
pub fn canonical_runs_are_unique()
    ensures { CanonicalIsUnique }
{}

/// The lowest gap is free, ends within the address space, and no lower page has such a gap.
pub fn lowest_gap_is_lowest()
    ensures { GapIsLowest }
{}

/// A range is covered exactly where each of its pages has all permissions needed.
pub fn covered_is_each_page()
    ensures { CoversEachPage }
{}

/// To have all of READ, all of WRITE or all of EXEC is to allow it.
pub fn one_need_is_allowed()
    ensures { HasOneIsAllows }
{}

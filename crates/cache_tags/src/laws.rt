//! What a reader may ask of the caches' rule: each law is the contract of a function.

ghost use Rattle.cache_tags.specs.Laws.{TouchedIsThere, RemovedIsGone, ListsFollowTheRule};

/// A line that was just touched is there, where its set has a way.
pub fn a_touched_line_is_there()
    ensures { TouchedIsThere }
{}

/// A line that was just removed isn't there.
pub fn a_removed_line_is_gone()
    ensures { RemovedIsGone }
{}

/// After every list of touches, marks and removals, the lists of a cache are the rule: which lines are there, which touches
/// hit, which line a touch makes leave, which lines are dirty, and the counts.
pub fn lists_follow_the_rule()
    ensures { ListsFollowTheRule }
{}

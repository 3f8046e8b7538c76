//! What a reader may ask of a processor's cache: each law is the contract of a function.

ghost use Rattle.line_cache.specs.Laws.{CallsFollowTheRule};

/// Each call makes of the cache what the caches' rule says of what happened: which lines are there and which are dirty, and
/// the counts, of which the cache has what 64 bits keep.
pub fn calls_follow_the_rule()
    ensures { CallsFollowTheRule }
{}

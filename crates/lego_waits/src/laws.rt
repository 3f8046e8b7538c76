//! No wait is for ever: each law is the contract of a function.

ghost use Rattle.lego_waits.specs.Laws.{EachEventLowers, CrashesLower, PlacesStay, StartInPlace, NoWaitIsForEver};

/// Each event that may come while something is owed, open, healing or due lowers the load.
pub fn each_event_lowers_the_load()
    ensures { EachEventLowers }
{}

/// A crash lowers the load, at the end of a turn too.
pub fn crashes_lower_the_load()
    ensures { CrashesLower }
{}

/// Memories stay in place along legal lists.
pub fn memories_stay_in_place()
    ensures { PlacesStay }
{}

/// Before the first event they are in place.
pub fn memories_begin_in_place()
    ensures { StartInPlace }
{}

/// A legal list of events that come while something is owed, open, healing or due is no longer than the load.
pub fn no_wait_is_for_ever()
    ensures { NoWaitIsForEver }
{}

//! What a reader may ask of the rule of owners: each law is the contract of a function.

ghost use Rattle.placement.specs.Laws.{TurnsGoByTheCount, AssignedIsFound, OwnersRise};

/// After any list of what happened to owners, the next assignment has the number of assignments in it: forks and drops
/// count for none.
pub fn turns_go_by_the_count_of_assignments()
    ensures { TurnsGoByTheCount }
{}

/// An assigned region has the owner whose turn it was, and every other region what it had.
pub fn owners_are_found_where_assigned()
    ensures { AssignedIsFound }
{}

/// The entries rise by process and region, after any list of what happened to owners, and so do those of one memory.
pub fn owners_rise()
    ensures { OwnersRise }
{}

//! What a reader may ask of the network: each law is the contract of a function.

ghost use Rattle.net_fabric.specs.Laws.{ChoicesFollowTheList, CountsTellWhatIsPending};

/// What the delivery list picks for a delivery is what its choice for that delivery picks.
pub fn choices_follow_the_list()
    ensures { ChoicesFollowTheList }
{}

/// A message of an operation is pending exactly where their count isn't 0.
pub fn counts_tell_what_is_pending()
    ensures { CountsTellWhatIsPending }
{}

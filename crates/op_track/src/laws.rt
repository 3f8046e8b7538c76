//! What a reader may ask of the targets: each law is the contract of a function.

ghost use Rattle.op_track.specs.Laws.{FlagsFollowTheAnswers, FlagsFollowTheEvents};

/// The targets and the list of the answers that count say the same, after each answer and crash.
pub fn flags_follow_the_answers()
    ensures { FlagsFollowTheAnswers }
{}

/// After any list of events a target's flag is whether it has answered since its last crash, so all of them tell whether
/// the operation is complete.
pub fn flags_follow_the_events()
    ensures { FlagsFollowTheEvents }
{}

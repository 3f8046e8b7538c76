//! What a reader may ask of legal lists: each law is the contract of a function.

ghost use Rattle.lego_msg.specs.Laws.{CutAndJoined, ShownJoin, DeliveriesArePicked, SendsFollow, OthersSendWhatTheyOwe, CompletionsAreDue, CompletionsAreFirst, CompletionsAreByTheList, ShownAsDue, OneMayCome, NextMayCome, PlayedIsLegal, CrashesStandAtTheirMoment, CrashesAreDue};
ghost use Rattle.lego_msg.specs.Went.{StepsCompose};

use crate::watch::Watch;

/// Legal lists may be cut anywhere and joined again.
pub fn legal_lists_are_cut_and_joined()
    ensures { CutAndJoined }
{}

/// What was shown of one run of events and then of another was shown of both.
pub fn shown_runs_are_joined()
    ensures { ShownJoin }
{}

/// Steps compose, whatever the watch: an event, a way over several events, a stop and a halt with its cause.
pub fn steps_compose<W: Watch>()
    ensures { StepsCompose W.told W.faults }
{}

/// Each delivery takes the message that the delivery list picks from what is pending.
pub fn deliveries_are_picked()
    ensures { DeliveriesArePicked }
{}

/// What a memory or storage sends for a message comes directly after its delivery, and is what the table gives.
pub fn sends_follow_their_delivery()
    ensures { SendsFollow }
{}

/// What a memory or storage sends is the first of what is owed.
pub fn others_send_what_they_owe()
    ensures { OthersSendWhatTheyOwe }
{}

/// A completion comes where its operation is complete.
pub fn completions_are_due()
    ensures { CompletionsAreDue }
{}

/// A completion comes at the first such point.
pub fn completions_are_first()
    ensures { CompletionsAreFirst }
{}

/// A completion comes only where the list itself says that each target has answered since its last crash and that
/// no message of the operation is pending.
pub fn completions_are_by_the_list()
    ensures { CompletionsAreByTheList }
{}

/// Each crash comes at its entry's moment.
pub fn crashes_stand_at_their_moment()
    ensures { CrashesStandAtTheirMoment }
{}

/// At an entry's moment its crash does come.
pub fn crashes_are_due()
    ensures { CrashesAreDue }
{}

/// What marks show comes in their order, and nothing else of its kind comes.
pub fn shown_as_due()
    ensures { ShownAsDue }
{}

/// Only one event may come at a time.
pub fn one_event_may_come()
    ensures { OneMayCome }
{}

/// The event that comes next may come, where the caches hold what it needs.
pub fn the_next_event_may_come()
    ensures { NextMayCome }
{}

/// A list of such events is legal where a test says so.
pub fn played_lists_are_legal()
    ensures { PlayedIsLegal }
{}

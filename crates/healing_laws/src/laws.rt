//! Laws of crashes and healing: each is the contract of a function.

ghost use Rattle.healing_laws.specs.Beside.{DeliveriesBeside};
ghost use Rattle.healing_laws.specs.Moving.{DeliveriesKeep, HealingEnds, MoveBegins, MoveEnds, OperationEndsBeside};
ghost use Rattle.healing_laws.specs.Running.{EveryEventKeeps, EveryListEndsAtRest, EveryListKeeps, LeadsBackThroughCrashes};
ghost use Rattle.healing_laws.specs.Refusals.{CrashesAloneRefuseNothing, FramesAreTheMachines, PendingRefusalsHaveCauses, PlainMapsFit, RefusalsHaveCausesThere};
ghost use Rattle.healing_laws.specs.Forms.{ListsKeepMessagesInForm, MessagesStayInForm};
ghost use Rattle.healing_laws.specs.Answering.{AnswersAreTrueThere};
ghost use Rattle.healing_laws.specs.Emptying.{CallsDrainLogs, CallsKeepEmptyLogs, DrainsEmptyThere, EmptyLogsStayThere};
ghost use Rattle.healing_laws.specs.Playing.{CallsArePlayable, EveryTrackIsPlayable, MarksArePlayable, SomethingIsPending};

/// While a memory is healed, every delivery of a message that isn't the move's keeps the relation, whatever operation is
/// open.
pub fn deliveries_beside_a_healing_keep_the_relation()
    ensures { DeliveriesBeside }
{}

/// Every delivery keeps the relation, to whomever and whatever is healed: also that of a move's message, and of its answer.
pub fn every_delivery_keeps_the_relation()
    ensures { DeliveriesKeep }
{}

/// A move of a healing begins in the relation, with what the move before it was answered.
pub fn moves_begin_in_the_relation()
    ensures { MoveBegins }
{}

/// A move that is complete, and isn't the last, has done its part, and the next one may begin.
pub fn moves_end_in_the_relation()
    ensures { MoveEnds }
{}

/// Once the last move is complete nothing is lost any more: the memory holds its share again, for its own sake and as a
/// secondary, and the open operation is sent again.
pub fn healings_end_in_the_relation()
    ensures { HealingEnds }
{}

/// An operation that is complete while a memory is healed ends in the relation with that memory lost.
pub fn operations_end_beside_a_healing()
    ensures { OperationEndsBeside }
{}

/// Every event keeps the relation, crashes and those of a healing included, where an operation that begins with it is
/// granted.
pub fn every_event_keeps_the_relation_through_crashes()
    ensures { EveryEventKeeps }
{}

/// Every legal list leads from rest to the relation, where each operation is granted as it begins.
pub fn every_list_keeps_the_relation_through_crashes()
    ensures { EveryListKeeps }
{}

/// Such a list ends at rest where nothing is open or healing then, and nothing was refused.
pub fn every_list_ends_at_rest()
    ensures { EveryListEndsAtRest }
{}

/// An operation that is granted at rest leads back to rest through every legal list, whatever crashes on the way; its effect
/// on the plain map is all that is new.
pub fn operations_lead_back_through_crashes()
    ensures { LeadsBackThroughCrashes }
{}

/// At every moment of a legal list, whatever crashed before, each memory has as many frames as the machine gives it.
pub fn frames_are_the_machines()
    ensures { FramesAreTheMachines }
{}

/// At every moment of a legal list, whatever crashed before, a memory has frames for every page that it owns of the plain
/// map.
pub fn plain_maps_fit_their_memories()
    ensures { PlainMapsFit }
{}

/// At every moment of a legal list a component refuses so that the run stops for one of two causes: of the plain map once the
/// open operation is complete a memory owns more pages than it has frames, or its files need more blocks than storage has.
pub fn refusals_have_causes_through_crashes()
    ensures { RefusalsHaveCausesThere }
{}

/// A refusal that stops the run has its cause as long as it is on its way, whatever crashes meanwhile: it is of a memory that
/// is full, or of storage.
pub fn pending_refusals_have_causes()
    ensures { PendingRefusalsHaveCauses }
{}

/// With no operation open nothing refuses so that the run stops, whatever crashed and while a memory is healed.
pub fn crashes_alone_refuse_nothing()
    ensures { CrashesAloneRefuseNothing }
{}

/// In the relation, and until a refusal stops the run, each message on its way to a memory or to storage is in form, those of
/// a healing's moves among them.
pub fn messages_are_in_form_through_crashes()
    ensures { MessagesStayInForm }
{}

/// So at every moment of a legal list, whatever crashed.
pub fn lists_keep_messages_in_form()
    ensures { ListsKeepMessagesInForm }
{}

/// At every moment of a legal list the answers that an open operation has got say what is so of the plain map before it,
/// whatever crashed.
pub fn answers_are_true_through_crashes()
    ensures { AnswersAreTrueThere }
{}

/// At every moment of a legal list, whatever crashed: where an operation or a move of a healing is open, nothing of it is
/// still to be sent, none is complete and no crash is due, something is pending, and so its next event is a delivery.
pub fn something_comes_through_crashes()
    ensures { SomethingIsPending }
{}

/// At every moment of a legal list, whatever crashed, the next event can be played: what is pending is in form for its
/// component, a refusal that stops the run is of a memory that is there or of storage, memories are in place, the next crash is of one of them, a move of a healing has a number of its own and goes
/// on, and where something is awaited something is pending.
pub fn every_track_is_playable()
    ensures { EveryTrackIsPlayable }
{}

/// From rest, with one granted operation due and no other one after it, every legal list leads to playable tracks: it stays
/// granted until it begins, whatever crashes and is healed before.
pub fn calls_are_playable()
    ensures { CallsArePlayable }
{}

/// From rest, with no operation due, every legal list leads to playable tracks.
pub fn marks_are_playable()
    ensures { MarksArePlayable }
{}

/// An operation that doesn't write leaves empty logs empty, whatever crashes on the way.
pub fn empty_logs_stay_empty_through_crashes()
    ensures { EmptyLogsStayThere }
{}

/// A drain leaves the log of its memory empty, whatever it held and whatever crashes on the way.
pub fn a_drain_leaves_its_log_empty_through_crashes()
    ensures { DrainsEmptyThere }
{}

/// An operation that is due and doesn't write leaves empty logs empty, also where memories crash and are healed before it
/// begins.
pub fn calls_keep_empty_logs()
    ensures { CallsKeepEmptyLogs }
{}

/// A drain that is due leaves the log of its memory empty, also where memories crash and are healed before it begins.
pub fn calls_drain_logs()
    ensures { CallsDrainLogs }
{}

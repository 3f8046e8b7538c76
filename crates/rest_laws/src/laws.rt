//! Laws of lists, of pending messages and of parts: each is the contract of a function.

ghost use Rattle.rest_laws.specs.Lists.{FindPut, FindWithout, AreasWith, PagePatched, PageOverlaid};
ghost use Rattle.rest_laws.specs.Nets.{TakesOne, AnyTaken, BackgroundTaken};
ghost use Rattle.rest_laws.specs.Moves.{SetsMove, HoldsMove};
ghost use Rattle.rest_laws.specs.Order.{PutRises, WithoutRises};
ghost use Rattle.rest_laws.specs.Around.{SecondariesDiffer, GuardsItsOwn};
ghost use Rattle.rest_laws.specs.Steps.{ShiftKeeps, RowKeeps, StoringKeeps};
ghost use Rattle.rest_laws.specs.Beginning.{OperationBegins};
ghost use Rattle.rest_laws.specs.Completing.{OperationEnds};
ghost use Rattle.rest_laws.specs.Crashing.{CrashBegins};
ghost use Rattle.rest_laws.specs.Delivering.{OldIsDropped, AnswerIsNoted, ReactionIsOwed};
ghost use Rattle.rest_laws.specs.GoingOn.{AnswersAreTrue, EventsKeep, LeadsBack, ListsEndAtRest, ListsKeep};
ghost use Rattle.rest_laws.specs.KindsEnding.{EveryKindEnds};
ghost use Rattle.rest_laws.specs.Sending.{OwedIsSent, FirstIsSent};
ghost use Rattle.rest_laws.specs.Components.{PlainIsOfComponents};
ghost use Rattle.rest_laws.specs.Logs.{DrainsEmpty, EmptyLogsStay, LogsGrowByWrites};
ghost use Rattle.rest_laws.specs.Forms.{MessagesAreInForm};
ghost use Rattle.rest_laws.specs.Forward.{SomethingComes};
ghost use Rattle.rest_laws.specs.Causes.{RefusalsHaveCauses};

/// An entry that is put is found under its key.
pub fn entries_are_found_where_put()
    ensures { FindPut }
{}

/// What is taken out is not found.
pub fn entries_that_go_are_not_found()
    ensures { FindWithout }
{}

/// A region has the areas that were set.
pub fn areas_are_those_set()
    ensures { AreasWith }
{}

/// A patch changes its page alone.
pub fn patches_change_their_page()
    ensures { PagePatched }
{}

/// Patches laid over pages change each page in their order.
pub fn overlaid_pages_are_patched_in_order()
    ensures { PageOverlaid }
{}

/// The delivery list takes one message out of those that are pending.
pub fn a_delivery_takes_one_out()
    ensures { TakesOne }
{}

/// What is asked of any pending message is asked of the one that is delivered, or of the others.
pub fn questions_of_the_others_stay()
    ensures { AnyTaken }
{}

/// A memory's batch on its way, or its receipt, stays where another message is delivered, and goes where it is itself.
pub fn batches_stay_until_they_are_delivered()
    ensures { BackgroundTaken }
{}

/// What a message sets becomes the new, whether it comes once or twice.
pub fn what_is_set_becomes_the_new()
    ensures { SetsMove }
{}

/// A part that moves to the new holds old or new, and the new where that is due.
pub fn what_moves_holds_old_or_new()
    ensures { HoldsMove }
{}

/// A list that rises by its keys rises with one more entry put.
pub fn lists_rise_with_one_more()
    ensures { PutRises }
{}

/// A list that rises by its keys rises without some of its entries.
pub fn lists_rise_without_some()
    ensures { WithoutRises }
{}

/// No memory is its own secondary, and no two memories share one.
pub fn no_two_memories_share_a_secondary()
    ensures { SecondariesDiffer }
{}

/// The memory that one guards is the one whose secondary it is.
pub fn memories_guard_their_own()
    ensures { GuardsItsOwn }
{}

/// A step that changes no component keeps the relation, where what is open and pending goes on in form.
pub fn steps_of_messages_keep_the_relation()
    ensures { ShiftKeeps }
{}

/// A step that changes a memory keeps the relation, where its cells stay or become the new ones and all others go on in form.
pub fn rows_of_memories_keep_the_relation()
    ensures { RowKeeps }
{}

/// A step that changes storage keeps the relation, where files and images stay or become the new ones and all others go on in form.
pub fn rows_of_storage_keep_the_relation()
    ensures { StoringKeeps }
{}

/// The send of what is owed keeps the relation, whatever is open or healing.
pub fn what_is_owed_is_sent_in_the_relation()
    ensures { OwedIsSent }
{}

/// The send of the open operation's next first message keeps the relation, where nothing heals.
pub fn first_messages_are_sent_in_the_relation()
    ensures { FirstIsSent }
{}

/// An issuer's delivery of a message of neither the open operation nor the move keeps the relation.
pub fn answers_to_nobody_are_dropped_in_the_relation()
    ensures { OldIsDropped }
{}

/// An issuer's delivery of an answer to its open operation keeps the relation.
pub fn answers_are_noted_in_the_relation()
    ensures { AnswerIsNoted }
{}

/// An issuer's delivery of a full log or a drained one, which it reacts to, keeps the relation.
pub fn reactions_are_owed_in_the_relation()
    ensures { ReactionIsOwed }
{}

/// The first message of an operation that is called for and granted keeps the relation.
pub fn operations_begin_in_the_relation()
    ensures { OperationBegins }
{}

/// The completion of an operation keeps the relation with nothing lost, where the law of its kind holds.
pub fn operations_end_in_the_relation()
    ensures { OperationEnds }
{}

/// A crash leads to the relation with that memory lost, where nothing heals.
pub fn crashes_begin_in_the_relation()
    ensures { CrashBegins }
{}

/// Every kind of operation that is called for meets the law of its completion, where its caller owes nothing.
pub fn every_kind_ends()
    ensures { EveryKindEnds }
{}

/// Every event but a crash keeps the relation, whatever kind of operation is open, where nothing is lost and the operation
/// that begins with it is granted.
pub fn every_event_keeps_the_relation()
    ensures { EventsKeep }
{}

/// A legal list without a crash leads from rest to the relation, where each operation is granted as it begins.
pub fn lists_without_a_crash_keep_the_relation()
    ensures { ListsKeep }
{}

/// The answers that an open operation has got say what is so of the plain map before it.
pub fn answers_say_what_is_so()
    ensures { AnswersAreTrue }
{}

/// An operation that is granted at rest leads back to rest, through every legal list of sends and deliveries and its
/// completion; its effect on the plain map is all that is new.
pub fn an_operation_leads_back_to_rest()
    ensures { LeadsBack }
{}

/// At rest the plain map is a function of what the components hold.
pub fn the_plain_map_is_of_the_components()
    ensures { PlainIsOfComponents }
{}

/// A memory's log grows by a write to it alone; all else leaves it or removes its oldest patches.
pub fn logs_grow_by_writes()
    ensures { LogsGrowByWrites }
{}

/// An operation that doesn't write leaves empty logs empty.
pub fn empty_logs_stay_empty()
    ensures { EmptyLogsStay }
{}

/// A drain leaves the log of its memory empty, whatever the log held.
pub fn a_drain_leaves_its_log_empty()
    ensures { DrainsEmpty }
{}

/// Each message on its way to a memory or to storage is in form for it, where nothing is lost.
pub fn messages_are_in_form()
    ensures { MessagesAreInForm }
{}

/// An operation that isn't complete has something on its way, once all of it is sent, where nothing is lost or refused.
pub fn something_comes()
    ensures { SomethingComes }
{}

/// A refusal that stops the run is on its way only where a memory would hold more pages than it has frames, or the files would
/// need more blocks than storage has.
pub fn refusals_have_causes()
    ensures { RefusalsHaveCauses }
{}

/// Such a list ends at rest where nothing is open then and nothing was refused.
pub fn lists_end_at_rest()
    ensures { ListsEndAtRest }
{}

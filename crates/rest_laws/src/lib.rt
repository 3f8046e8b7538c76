//! Laws by which the relation between the components and the plain map is kept: of lists, of pending messages, of the
//! parts of a memory, and of events.
//!
//! `specs/Lists` has what is found in a list after it changed, `specs/Nets` what is said of pending messages once one is
//! delivered, `specs/Moves` how the cells that a component holds go from the old to the new, `specs/Order` what keeps a
//! list in the order of its keys, `specs/Around` how memories guard each other in a circle. `specs/Steps` says what is
//! owed of a step that changes what is pending, a memory, or storage, so that the relation is kept, whatever kind of
//! operation is open and whether or not a memory is lost; `specs/Sending`, `specs/Beginning`, `specs/Delivering`,
//! `specs/Completing` and `specs/Crashing` say it of events, `specs/KindsEnding` what each kind owes at its completion.
//! `specs/GoingOn` says it of every event and of whole lists with nothing lost, and what an operation leads to;
//! `specs/Forms` that what is on its way is in form, `specs/Forward` that something is, `specs/Causes` why it refuses,
//! `specs/Logs` what becomes of logs, `specs/Components` that the plain map is of the components. `proofs/kinds` has the
//! rows of each kind of operation.
#![tactic(auto)]

mod laws;

pub use laws::{
    a_delivery_takes_one_out, a_drain_leaves_its_log_empty, an_operation_leads_back_to_rest,
    answers_are_noted_in_the_relation, answers_say_what_is_so,
    answers_to_nobody_are_dropped_in_the_relation, areas_are_those_set,
    batches_stay_until_they_are_delivered, crashes_begin_in_the_relation, empty_logs_stay_empty,
    entries_are_found_where_put, entries_that_go_are_not_found, every_event_keeps_the_relation,
    every_kind_ends, first_messages_are_sent_in_the_relation, lists_end_at_rest,
    lists_rise_with_one_more, lists_rise_without_some, lists_without_a_crash_keep_the_relation,
    logs_grow_by_writes, memories_guard_their_own, messages_are_in_form,
    no_two_memories_share_a_secondary, operations_begin_in_the_relation,
    operations_end_in_the_relation, overlaid_pages_are_patched_in_order, patches_change_their_page,
    questions_of_the_others_stay, reactions_are_owed_in_the_relation, refusals_have_causes,
    rows_of_memories_keep_the_relation, rows_of_storage_keep_the_relation, something_comes,
    steps_of_messages_keep_the_relation, the_plain_map_is_of_the_components,
    what_is_owed_is_sent_in_the_relation, what_is_set_becomes_the_new, what_moves_holds_old_or_new,
};

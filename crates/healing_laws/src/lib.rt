//! Laws by which the relation between the components and the plain map is kept through crashes: while a memory is healed,
//! by every event, and by every legal list of events.
//!
//! `specs/Beside` says it of deliveries beside the moves of a healing, `specs/Moving` of the moves themselves, from the
//! first to the last, and of what is complete meanwhile; `specs/Running` of every event and of whole lists;
//! `specs/Refusals` says why a component refuses then, `specs/Forms` that what it gets is in form; `specs/Answering`
//! that answers are true; `specs/Playing` that something comes as long as anything is open, and all else that is asked of a
//! track whose next event is to be played; `specs/Emptying` which logs are empty after an operation. In `proofs`, `Passing`
//! and `MoveSteps` say what a component must leave alone, or do, so that the healing goes on, whichever message it gets.
#![tactic(auto)]

mod laws;

pub use laws::{
    a_drain_leaves_its_log_empty_through_crashes, answers_are_true_through_crashes,
    calls_are_playable, calls_drain_logs, calls_keep_empty_logs, crashes_alone_refuse_nothing,
    deliveries_beside_a_healing_keep_the_relation, empty_logs_stay_empty_through_crashes,
    every_delivery_keeps_the_relation, every_event_keeps_the_relation_through_crashes,
    every_list_ends_at_rest, every_list_keeps_the_relation_through_crashes,
    every_track_is_playable, frames_are_the_machines, healings_end_in_the_relation,
    lists_keep_messages_in_form, marks_are_playable, messages_are_in_form_through_crashes,
    moves_begin_in_the_relation, moves_end_in_the_relation, operations_end_beside_a_healing,
    operations_lead_back_through_crashes, pending_refusals_have_causes,
    plain_maps_fit_their_memories, refusals_have_causes_through_crashes,
    something_comes_through_crashes,
};

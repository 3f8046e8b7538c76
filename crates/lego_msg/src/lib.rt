//! Messages between the components of the split run, the events that a run shows, and the trait of a watch that sees
//! them; and, as definitions, which lists of events a split run may show.
//!
//! Contracts see messages and events as plain values, lists as lists. `specs/Table` is the message table,
//! `specs/Track` what a list of events determines, `specs/Run` and `specs/Legal` how it goes on, `specs/Watching` the
//! watch's promise. The laws that a reader may ask for are stated at the functions of `laws`; docs/SPLIT.md explains all
//! of it. What ties the components to the plain map is in lego_rest, the caches' rule in cache_tags, watches and judges
//! of lists of events in lego_watch.
#![tactic(auto)]

mod body;
mod body_kind;
mod clock;
mod event;
mod healing;
mod laws;
mod message;
mod operation;
mod outbox;
mod place;
mod watch;

pub use body::Body;
pub use clock::Clock;
pub use event::{Event, Kind};
pub use healing::{Healing, Move};
pub use laws::{
    completions_are_by_the_list, completions_are_due, completions_are_first, crashes_are_due,
    crashes_stand_at_their_moment, deliveries_are_picked, legal_lists_are_cut_and_joined,
    one_event_may_come, others_send_what_they_owe, played_lists_are_legal,
    sends_follow_their_delivery, shown_as_due, shown_runs_are_joined, steps_compose,
    the_next_event_may_come,
};
pub use message::Message;
pub use operation::{Answer, Open, Operation, Origin};
pub use outbox::Outbox;
pub use place::{Place, Role, Why};
pub use watch::Watch;

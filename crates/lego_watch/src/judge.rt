//! What the list of events alone says of an operation, and of the delivery list, in plain code.

ghost use Rattle.std.specs.Prelude.{◌≡◌, false};
ghost use Rattle.lego_msg.specs.Places.{same_place as is_same_place, is_issuer as is_issuing};
ghost use Rattle.lego_msg.specs.Track.{is_pending as is_op_pending};
ghost use Rattle.lego_msg.specs.Deliveries.{stops as is_stop};
ghost use Rattle.lego_msg.specs.Judged.{place_picked, is_reaction as is_reacting, is_answer as is_answering, answered_after, has_answered_in, all_answered_in, is_complete_in};

use lego_base::OpNo;
use lego_msg::{Body, Event, Message, Place, Why};

/// The place in the list of pending messages that the delivery list picks for the delivery with this number, from
/// 0, where `pending` messages are pending. `None` exactly where nothing is pending or the list is empty.
pub fn picked(deliveries: &[u32], number: u64, pending: usize) -> Option<usize>
    ensures { result ≡ place_picked deliveries.now number pending }
{
    if deliveries.is_empty() || pending == 0 {
        return None;
    }
    let place = number % deliveries.len() as u64;
    let choice = deliveries[place as usize];
    Some(choice as usize % pending)
}

/// Whether a place has answered an operation since its last crash, where these events were shown since the
/// operation began. `write` says whether it writes a patch: then a full log and a drained one aren't answers.
pub fn has_answered(op: OpNo, write: bool, place: Place, events: &[Event]) -> bool
    ensures { result ≡ has_answered_in op.0 write place events.now }
{
    let mut answered = false;
    for event in events {
        answered = after_event(op, write, place, answered, event);
    }
    answered
}

/// Whether an operation is complete, where these events were shown since it began and these messages are pending:
/// each target has answered since its last crash, and no message of the operation is pending.
pub fn is_complete(
    op: OpNo,
    write: bool,
    targets: &[Place],
    events: &[Event],
    pending: &[Message],
) -> bool
    ensures { result ≡ is_complete_in op.0 write targets.now events.now pending.now }
{
    have_answered(op, write, targets, events) && !is_pending(op, pending)
}

/// Whether a message of an operation is pending.
pub fn is_pending(op: OpNo, pending: &[Message]) -> bool
    ensures { result ≡ is_op_pending op.0 pending.now }
{
    pending.iter().any(|message| message.op.0 == op.0)
}

// Whether each target has answered since its last crash.
fn have_answered(op: OpNo, write: bool, targets: &[Place], events: &[Event]) -> bool
    ensures { result ≡ all_answered_in op.0 write targets.now events.now }
{
    targets
        .iter()
        .all(|target| has_answered(op, write, *target, events))
}

// Whether a place has answered after one more event.
fn after_event(op: OpNo, write: bool, place: Place, answered: bool, event: &Event) -> bool
    ensures { result ≡ answered_after op.0 write place answered event.now }
{
    match event {
        Event::Deliver(message) => is_answer(op, write, place, message) || answered,
        Event::Crash { memory, .. } => place != Place::Memory(*memory) && answered,
        _ => answered,
    }
}

// Whether a message is the place's answer.
fn is_answer(op: OpNo, write: bool, place: Place, message: &Message) -> bool
    ensures { result ≡ is_answering op.0 write place message.now }
{
    message.op.0 == op.0
        && is_issuer(message.to)
        && same_place(place, message.from)
        && !is_reaction(write, &message.body)
        && !stops(&message.body)
}

fn is_issuer(place: Place) -> bool
    ensures { result ≡ is_issuing place }
{
    matches!(place, Place::Processor(_) | Place::Manager)
}

fn same_place(a: Place, b: Place) -> bool
    ensures { result ≡ is_same_place a b }
{
    a == b
}

// Whether the issuer of a write reacts to the body, so that it isn't an answer.
fn is_reaction(write: bool, body: &Body) -> bool
    ensures { result ≡ is_reacting write body.now }
{
    write && matches!(body, Body::LogFull | Body::Drained)
}

// Whether the body is a refusal that stops the run.
fn stops(body: &Body) -> bool
    ensures { result ≡ is_stop body.now }
{
    matches!(body, Body::Refused(Why::Full | Why::StoreFull))
}

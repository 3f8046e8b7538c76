//! Messages go out: what is owed, and first messages.

ghost use Rattle.std.specs.Prelude.{◌≡◌, ◌<◌, ◌++◌, ◌∷◌, [], None, OnOk, IsSome, Some, length};
ghost use Rattle.lego_msg.specs.Watching.{ShownTo};
ghost use Rattle.protocol_engine.specs.Later.{HasUnsent as Unsent};
ghost use Rattle.protocol_engine.specs.Messages.{Takes, message_in};

use crate::engine::Engine;
use crate::running::Running;
use lego_base::{NoMemory, Seq};
use lego_msg::{Event, Message, Outbox, Watch};
use net_fabric::Net;
use std::alloc::Global;
use std::mem;

impl Engine {
    ghost use Rattle.protocol_engine.specs.Later.{HasUnsent, called_by};
    ghost use Rattle.protocol_engine.specs.Steps.{IsCalm};
    ghost use Rattle.protocol_engine.specs.Tracks.{SameMachine};
    ghost use Rattle.protocol_engine.specs.Ways.{Comes, Stops};

    /// Sends the first message that is owed.
    pub fn send_owed<W: Watch>(&mut self, watch: &mut W) -> Result<(), NoMemory>
        requires { 0 < length self.old.owed }
        ensures came { OnOk result (Comes W.told W.faults watch.old watch.new self.old self.new) }
        ensures stopped { Stops W.told W.faults watch.old watch.new self.old }
        ensures machine { SameMachine self.old self.new }
        ensures runs { self.new.current ≡ self.old.current }
    {
        let message = take_first(self.alloc, &mut self.owed);
        send(&mut self.net, message, watch)?;
        Ok(())
    }

    /// Sends the first message of the open operation that is unsent.
    pub fn send_unsent<W: Watch>(&mut self, watch: &mut W) -> Result<(), NoMemory>
        requires owed { self.old.owed ≡ [] }
        requires calm { IsCalm self.old }
        requires healed { self.old.healing ≡ None }
        requires unsent { HasUnsent self.old.current }
        ensures came { OnOk result (Comes W.told W.faults watch.old watch.new self.old self.new) }
        ensures stopped { Stops W.told W.faults watch.old watch.new self.old }
        ensures machine { SameMachine self.old self.new }
        ensures runs { called_by self.new.current ≡ called_by self.old.current }
    {
        let message = take_unsent(&mut self.current);
        send(&mut self.net, message, watch)?;
        Ok(())
    }
}

/// Shows that a message is sent, and sends it.
pub fn send<W: Watch>(net: &mut Net, message: Message, watch: &mut W) -> Result<(), NoMemory>
    ensures shown { ShownTo W.told W.faults watch.old watch.new (Event.Send message ∷ []) }
    ensures sent { OnOk result (net.new ≡ net.old ++ message ∷ []) }
{
    let event = Event::Send(message);
    watch.see(&event);
    net.send(message_of(event))
}

/// Shows an event.
pub fn show<W: Watch>(event: Event, watch: &mut W)
    ensures { ShownTo W.told W.faults watch.old watch.new (event ∷ []) }
{
    watch.see(&event);
}

/// The message of an event that was shown.
pub fn message_of(event: Event) -> Message
    requires { IsSome (message_in event) }
    ensures { message_in event ≡ Some result }
{
    match event {
        Event::Send(message) => message,
        Event::Deliver(message) => message,
        _ => unreachable!(),
    }
}

// Takes the first message out; the others keep their room.
fn take_first(alloc: Global, owed: &mut Outbox) -> Message
    requires { 0 < length owed.old }
    ensures { owed.old ≡ result ∷ owed.new }
{
    let mut messages = mem::replace(owed, Seq::new(alloc)).into_vec();
    let message = messages.remove(0);
    *owed = Seq::from_vec(messages);
    message
}

// Takes the first unsent message of the open operation.
fn take_unsent(current: &mut Option<Running>) -> Message
    requires { Unsent current.old }
    ensures { Takes result current.old current.new }
{
    let Some(mut running) = current.take() else {
        unreachable!()
    };
    let message = running.take_unsent();
    *current = Some(running);
    message
}

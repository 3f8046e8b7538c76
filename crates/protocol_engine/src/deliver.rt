//! A message is delivered: a memory or storage handles it, an issuer notes it.

ghost use Rattle.std.specs.Prelude.{◌≡◌, ◌<◌, ◌==◌, ◌∷◌, [], IfErr, IfSome, None, OnOk, Some, false, length, slice_index, true};
ghost use Rattle.lego_msg.specs.Deliveries.{noted, stops};
ghost use Rattle.lego_msg.specs.Track.{healing_move as move_of};
ghost use Rattle.lego_msg.specs.Went.{Refuses};
ghost use Rattle.protocol_engine.specs.Healings.{Notes, is_for, note_moved};
ghost use Rattle.healing_laws.specs.Playing.{FitsRefusal as FitsBody, RefusesFull};
ghost use Rattle.protocol_engine.specs.Messages.{IsFullAt};
ghost use Rattle.protocol_engine.specs.Later.{called_by as called_as};

use crate::engine::Engine;
use crate::recovery::Recovery;
use crate::running::Running;
use crate::send::message_of;
use lego_base::{Halt, MemId, NoMemory, Shape};
use lego_msg::{Body, Event, Message, Outbox, Place, Watch, Why};

impl Engine {
    ghost use Rattle.std.specs.List.{AllByRecursion};
    ghost use Rattle.lego_msg.specs.Deliveries.{comes, is_waiting, issuer_gets as issuer_notes};
    ghost use Rattle.net_fabric.specs.Laws.{choice_of};
    ghost use Rattle.healing_laws.specs.Playing.{FitsRefusal, IsFit};
    ghost use Rattle.protocol_engine.specs.Messages.{IsCause};
    ghost use Rattle.protocol_engine.specs.Steps.{IsCalm};
    ghost use Rattle.protocol_engine.specs.Later.{called_by};
    ghost use Rattle.protocol_engine.specs.Tracks.{Beyond, SameMachine, track_of};
    ghost use Rattle.protocol_engine.specs.Ways.{Comes, Halts};

    /// Delivers the message that the delivery list picks.
    pub fn deliver<W: Watch>(&mut self, watch: &mut W) -> Result<(), Halt>
        requires owed { self.old.owed ≡ [] }
        requires calm { IsCalm self.old }
        requires waiting { is_waiting self.old.healing self.old.current ≡ true }
        requires pending { 0 < length self.old.net }
        requires list { 0 < length self.old.shape.deliveries }
        requires fit { AllByRecursion (IsFit self.old.shape self.old.store) self.old.net }
        ensures came { OnOk result (Comes W.told W.faults watch.old watch.new self.old self.new) }
        ensures halted { IfErr result (λ h. Halts W.told W.faults watch.old watch.new self.old h) }
        ensures machine { SameMachine self.old self.new }
        ensures runs { OnOk result (called_by self.new.current ≡ called_by self.old.current) }
    {
        let Some(delivered) = self.delivered.checked_add(1) else {
            return Err(Halt::NoMemory);
        };
        let Some(since) = self.clock.since.checked_add(1) else {
            return Err(Halt::NoMemory);
        };
        let choice = self.choice();
        let message = self.net.take(choice);
        self.delivered = delivered;
        self.clock.since = since;
        let event = Event::Deliver(message);
        watch.see(&event);
        match self.dispatch(message_of(event)) {
            Err(halt) => return Err(halt),
            Ok(()) => return Ok(()),
        }
    }

    // The choice of the delivery list for the next delivery.
    fn choice(&self) -> u32
        requires { 0 < length self.now.shape.deliveries }
        ensures { result ≡ choice_of self.now.shape.deliveries self.now.delivered }
    {
        let deliveries = self.shape.deliveries.as_slice();
        let place = self.delivered % deliveries.len() as u64;
        deliveries[place as usize]
    }

    // Hands a message to its receiver.
    fn dispatch(&mut self, message: Message) -> Result<(), Halt>
        requires owed { self.old.owed ≡ [] }
        requires fit { IsFit self.old.shape self.old.store message }
        ensures comes { OnOk result ((g : Beyond) → comes (track_of self.old g) message message.to ≡ track_of self.new g) }
        ensures cause { IfErr result (λ h. IsCause self.old.shape h message) }
        ensures machine { SameMachine self.old self.new }
        ensures runs { OnOk result (called_by self.new.current ≡ called_by self.old.current) }
    {
        match message.to {
            Place::Processor(_) => return self.issuer_gets(message),
            Place::Memory(id) => return self.memory_gets(id, message),
            Place::Storage => return self.storage_gets(message),
            Place::Manager => return self.issuer_gets(message),
        }
    }

    // A memory handles a message.
    fn memory_gets(&mut self, id: MemId, message: Message) -> Result<(), Halt>
        requires owed { self.old.owed ≡ [] }
        requires to { message.to ≡ Place.Memory id }
        requires fit { IsFit self.old.shape self.old.store message }
        ensures comes { OnOk result ((g : Beyond) → comes (track_of self.old g) message message.to ≡ track_of self.new g) }
        ensures cause { IfErr result (λ h. IsCause self.old.shape h message) }
        ensures machine { SameMachine self.old self.new }
        ensures runs { self.new.current ≡ self.old.current }
    {
        let place = id.0 as usize;
        if place >= self.memories.len() {
            return Ok(());
        }
        let memory = &mut self.memories[place];
        match memory.handle(self.alloc, message, &mut self.owed) {
            Err(_) => return Err(Halt::NoMemory),
            Ok(()) => return Ok(()),
        }
    }

    // Storage handles a message.
    fn storage_gets(&mut self, message: Message) -> Result<(), Halt>
        requires owed { self.old.owed ≡ [] }
        requires to { message.to ≡ Place.Storage }
        requires fit { IsFit self.old.shape self.old.store message }
        ensures comes { OnOk result ((g : Beyond) → comes (track_of self.old g) message message.to ≡ track_of self.new g) }
        ensures cause { IfErr result (λ h. IsCause self.old.shape h message) }
        ensures machine { SameMachine self.old self.new }
        ensures runs { self.new.current ≡ self.old.current }
    {
        match self.store.handle(self.alloc, message, &mut self.owed) {
            Err(_) => return Err(Halt::NoMemory),
            Ok(()) => return Ok(()),
        }
    }

    // An issuer notes a message, or the run stops for a refusal.
    fn issuer_gets(&mut self, message: Message) -> Result<(), Halt>
        requires owed { self.old.owed ≡ [] }
        requires fit { FitsRefusal self.old.shape message.from message.body }
        ensures gets { OnOk result ((g : Beyond) → issuer_notes (track_of self.old g) message ≡ track_of self.new g) }
        ensures cause { IfErr result (λ h. IsCause self.old.shape h message) }
        ensures machine { SameMachine self.old self.new }
        ensures runs { OnOk result (called_by self.new.current ≡ called_by self.old.current) }
    {
        match refusal(&self.shape, &message) {
            Some(halt) => return Err(halt),
            None => {}
        }
        if is_of_move(&self.healing, &message) {
            note_in_move(&mut self.healing, message.from, message.body)?;
            return Ok(());
        }
        note_in(&mut self.current, &mut self.owed, message)?;
        Ok(())
    }
}

// The halt that a refusal makes.
fn refusal(shape: &Shape, message: &Message) -> Option<Halt>
    requires { FitsBody shape.now message.now.from message.now.body }
    ensures none { result ≡ None → stops message.now.body ≡ false }
    ensures some { IfSome result (λ h. Refuses shape.now h message.now) }
{
    match &message.body {
        Body::Refused(Why::Full) => Some(full_memory(shape, message.from)),
        Body::Refused(Why::StoreFull) => Some(Halt::StoreFull {
            blocks: shape.blocks,
        }),
        _ => None,
    }
}

// The halt of a full memory.
fn full_memory(shape: &Shape, from: Place) -> Halt
    requires { RefusesFull shape.now from }
    ensures { IsFullAt shape.now from result }
{
    match from {
        Place::Memory(memory) => Halt::Full {
            memory,
            frames: shape.frames.as_slice()[memory.0 as usize],
        },
        _ => unreachable!(),
    }
}

// Whether a message is of the move of healing on its way.
fn is_of_move(healing: &Option<Recovery>, message: &Message) -> bool
    ensures { result ≡ is_for (move_of healing.now) message.now }
{
    match healing {
        None => false,
        Some(recovery) => recovery.is_of(message),
    }
}

// Notes an answer to the move of healing on its way.
fn note_in_move(healing: &mut Option<Recovery>, place: Place, body: Body) -> Result<(), NoMemory>
    ensures { OnOk result (healing.new ≡ note_moved healing.old place body) }
{
    let Some(mut recovery) = healing.take() else {
        return Ok(());
    };
    recovery.note(place, body)?;
    *healing = Some(recovery);
    Ok(())
}

// The open operation notes what is of it.
fn note_in(
    current: &mut Option<Running>,
    owed: &mut Outbox,
    message: Message,
) -> Result<(), NoMemory>
    requires { owed.old ≡ [] }
    ensures noted { OnOk result (Notes message current.old current.new owed.new) }
    ensures runs { OnOk result (called_as current.new ≡ called_as current.old) }
{
    let Some(mut running) = current.take() else {
        return Ok(());
    };
    react(&mut running, owed, message)?;
    *current = Some(running);
    Ok(())
}

// An answer of the operation is noted; a full log or a drained one is followed by what its issuer sends.
fn react(running: &mut Running, owed: &mut Outbox, message: Message) -> Result<(), NoMemory>
    requires { owed.old ≡ [] }
    ensures noted { OnOk result (Notes message (Some running.old) (Some running.new) owed.new) }
    ensures runs { OnOk result (called_as (Some running.new) ≡ called_as (Some running.old)) }
{
    if message.op.0 != running.number().0 {
        return Ok(());
    }
    match running.reaction(&message.body)? {
        None => running.note(message.from, message.body)?,
        Some(body) => owed.push(Message {
            from: message.to,
            to: message.from,
            op: message.op,
            body,
        })?,
    }
    Ok(())
}

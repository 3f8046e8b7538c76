//! A healing that runs.

ghost use Rattle.std.specs.Prelude.{◌≡◌, ◌==◌, ◌<◌, ◌∷◌, [], IfOk, IsSome, OnOk, None, Some, false, length, true};
ghost use Rattle.lego_msg.specs.Deliveries.{is_sent as all_sent};
ghost use Rattle.lego_msg.specs.Track.{healing_move as move_of, is_done as done_now};
ghost use Rattle.protocol_engine.specs.Healings.{HasAnswer, HasNumber, IsMoveMessage, IsNextMessage, answered_in, ended, healing_of, is_for, is_last_move, move_ended, next_moved, noted_in, with_move};
ghost use Rattle.protocol_engine.specs.Later.{BetweenMoves};

use crate::running::Running;
use cluster_ops::healing;
use heal_steps::{Heal, HealMove};
use lego_base::{MemId, NoMemory, OpNo};
use lego_msg::{Body, Message, Operation, Place};
use net_fabric::Net;
use placement::Table;
use std::alloc::Global;
use std::marker::Model;

/// The healing of a memory: its moves that haven't begun, the one on its way, and the answer that the next one takes.
/// Contracts see `Healing` of lego_msg.
#[derive(Debug, Drop)]
pub struct Recovery {
    memory: MemId,
    heal: Heal,
    current: Option<Running>,
    got: Option<Body>,
}

impl Model for Recovery {
    ghost use Rattle.lego_msg.specs.declared.healing.Healing.{Healing};

    ghost Value = { Healing };

    ghost use Rattle.protocol_engine.specs.Healings.{CanGoOn};

    ghost view = { λ r. record { memory = r.memory; moves = r.heal.moves; current = r.current; got = r.got } };

    ghost invariant = { λ r. CanGoOn r.heal.waits r.current r.got };
}

impl Recovery {
    /// The healing of a memory that crashed.
    pub fn new(memory: MemId, heal: Heal) -> Recovery
        requires { heal.waits ≡ false }
        ensures { result ≡ record { memory = memory; moves = heal.moves; current = None; got = None } }
    {
        Recovery {
            memory,
            heal,
            current: None,
            got: None,
        }
    }

    /// Whether the move on its way is complete.
    pub fn is_done(&self, net: &Net) -> bool
        ensures { result ≡ done_now net.now self.now.current }
    {
        is_done(net, &self.current)
    }

    /// Whether a move is on its way and its message is sent.
    pub fn is_sent(&self) -> bool
        ensures { result ≡ all_sent self.now.current }
    {
        match &self.current {
            None => false,
            Some(running) => running.is_sent(),
        }
    }

    /// Whether every move has begun.
    pub fn is_last(&self) -> bool
        ensures { result ≡ (length self.now.moves == 0) }
    {
        self.heal.is_last()
    }

    /// Whether a message is of the move on its way.
    pub fn is_of(&self, message: &Message) -> bool
        ensures { result ≡ is_for self.now.current message.now }
    {
        match &self.current {
            None => false,
            Some(running) => message.op.0 == running.number().0,
        }
    }

    /// The number of the move on its way.
    pub fn number(&self) -> OpNo
        requires { IsSome self.now.current }
        ensures { HasNumber self.now.current result }
    {
        match &self.current {
            None => unreachable!(),
            Some(running) => running.number(),
        }
    }

    /// Notes an answer to the move on its way.
    pub fn note(&mut self, place: Place, body: Body) -> Result<(), NoMemory>
        ensures { OnOk result (self.new ≡ noted_in self.old self.old.current place body) }
    {
        note_in(&mut self.current, place, body)
    }

    /// Begins the next move, and gives its message.
    pub fn begin_move(
        self,
        alloc: Global,
        memories: u32,
        number: OpNo,
    ) -> Result<(Recovery, Message), NoMemory>
        requires some { 0 < memories }
        requires between { self.current ≡ None }
        requires left { 0 < length self.moves }
        ensures first { IfOk result (λ r. IsMoveMessage memories number r.1 self.got self.moves) }
        ensures moved { IfOk result (λ r. r.0 ≡ with_move memories number self self.moves) }
    {
        let Recovery {
            memory,
            mut heal,
            got,
            ..
        } = self;
        let HealMove::Send(to, body) = heal.next(got) else {
            unreachable!()
        };
        let operation = Operation::Heals { to, body };
        let mut running = Running::new(alloc, memories, number, Place::Manager, operation)?;
        let message = running.take_unsent();
        let recovery = Recovery {
            memory,
            heal,
            current: Some(running),
            got: None,
        };
        Ok((recovery, message))
    }

    /// Ends the move on its way, whose answer the next one takes.
    pub fn end_move(&mut self)
        requires { HasAnswer self.old.current }
        ensures { self.new ≡ ended self.old self.old.current }
    {
        let Some(running) = self.current.take() else {
            unreachable!()
        };
        self.got = running.into_answer();
    }
}

/// The number of the move on its way.
pub fn move_number(healing: &Option<Recovery>) -> OpNo
    requires { IsSome (move_of healing.now) }
    ensures { HasNumber (move_of healing.now) result }
{
    match healing {
        None => unreachable!(),
        Some(recovery) => recovery.number(),
    }
}

/// Ends the move on its way, and with the last one the healing. Says whether the healing ended.
pub fn end_move(healing: &mut Option<Recovery>) -> bool
    requires { HasAnswer (move_of healing.old) }
    ensures over { result ≡ is_last_move healing.old }
    ensures ends { healing.new ≡ move_ended healing.old }
{
    let Some(mut recovery) = healing.take() else {
        unreachable!()
    };
    if recovery.is_last() {
        return true;
    }
    recovery.end_move();
    *healing = Some(recovery);
    false
}

/// Begins the next move, and gives its message. If memory runs out, nothing heals.
pub fn next_move(
    healing: &mut Option<Recovery>,
    alloc: Global,
    memories: u32,
    number: OpNo,
) -> Result<Message, NoMemory>
    requires some { 0 < memories }
    requires between { BetweenMoves healing.old }
    ensures first { IfOk result (λ m. IsNextMessage memories number m healing.old) }
    ensures moved { OnOk result (healing.new ≡ next_moved memories number healing.old) }
{
    let Some(recovery) = healing.take() else {
        unreachable!()
    };
    let (recovery, message) = recovery.begin_move(alloc, memories, number)?;
    *healing = Some(recovery);
    Ok(message)
}

/// Begins the healing of a memory that crashed.
pub fn begin_healing(
    current: &mut Option<Recovery>,
    alloc: Global,
    memory: MemId,
    table: &Table,
) -> Result<(), NoMemory>
    requires { 0 < table.now.memories }
    ensures { OnOk result (current.new ≡ Some (healing_of memory table.now)) }
{
    let heal = healing(alloc, memory, table)?;
    *current = Some(Recovery::new(memory, heal));
    Ok(())
}

/// Whether an operation is open and complete.
pub fn is_done(net: &Net, current: &Option<Running>) -> bool
    ensures { result ≡ done_now net.now current.now }
{
    match current {
        None => false,
        Some(running) => running.is_complete(net),
    }
}

// Notes an answer, where something is open.
fn note_in(current: &mut Option<Running>, place: Place, body: Body) -> Result<(), NoMemory>
    ensures noted { OnOk result (current.new ≡ answered_in current.old place body) }
    ensures stays { current.new ≡ None → current.old ≡ None }
{
    let Some(mut running) = current.take() else {
        return Ok(());
    };
    let noted = running.note(place, body);
    *current = Some(running);
    noted
}

//! An operation begins, or a move of healing.

ghost use Rattle.std.specs.Prelude.{◌≡◌, ◌<◌, [], Bool, IfOk, List, OnOk, Some};
ghost use Rattle.lego_msg.specs.Sends.{IsFirst};
ghost use Rattle.protocol_engine.specs.Later.{called_by as called_as};
ghost use Rattle.protocol_engine.specs.Opening.{begun_by, opened_by};

use crate::engine::Engine;
use crate::recovery::next_move;
use crate::running::Running;
use crate::send::send;
use lego_base::{NoMemory, OpNo};
use lego_msg::{Message, Operation, Place, Watch};
use std::alloc::Global;

impl Engine {
    ghost use Rattle.protocol_engine.specs.Later.{BetweenMoves, called_by};
    ghost use Rattle.protocol_engine.specs.Steps.{IsCalm, Rests};
    ghost use Rattle.protocol_engine.specs.Tracks.{HasCount, SameMachine};
    ghost use Rattle.protocol_engine.specs.Ways.{BeginStops, Begins, Comes, Stops};

    /// Begins an operation with its first message. The owners that come with it are in the table already.
    pub fn begin<W: Watch>(
        &mut self,
        by: Place,
        operation: Operation,
        watch: &mut W,
    ) -> Result<(), NoMemory>
        requires rests { Rests self.old }
        requires count { HasCount self.old }
        requires some { 0 < self.old.table.memories }
        ensures came { OnOk result (Begins W.told W.faults watch.old watch.new self.old self.new by operation) }
        ensures stopped { BeginStops W.told W.faults watch.old watch.new self.old by operation }
        ensures machine { SameMachine self.old self.new }
        ensures called { OnOk result (called_by self.new.current ≡ Some (record { number = record { 0 = self.old.next }; by = by; operation = operation })) }
    {
        let Some(next) = self.next.checked_add(1) else {
            return Err(NoMemory);
        };
        let number = OpNo(self.next);
        let memories = self.table.memories();
        let message = open(
            &mut self.current,
            self.alloc,
            memories,
            number,
            by,
            operation,
        )?;
        self.next = next;
        send(&mut self.net, message, watch)?;
        Ok(())
    }

    /// Begins the next move of a healing.
    pub fn begin_move<W: Watch>(&mut self, watch: &mut W) -> Result<(), NoMemory>
        requires owed { self.old.owed ≡ [] }
        requires calm { IsCalm self.old }
        requires between { BetweenMoves self.old.healing }
        requires count { HasCount self.old }
        requires some { 0 < self.old.table.memories }
        ensures came { OnOk result (Comes W.told W.faults watch.old watch.new self.old self.new) }
        ensures stopped { Stops W.told W.faults watch.old watch.new self.old }
        ensures machine { SameMachine self.old self.new }
        ensures runs { self.new.current ≡ self.old.current }
    {
        let Some(next) = self.next.checked_add(1) else {
            return Err(NoMemory);
        };
        let number = OpNo(self.next);
        let memories = self.table.memories();
        let message = next_move(&mut self.healing, self.alloc, memories, number)?;
        self.next = next;
        send(&mut self.net, message, watch)?;
        Ok(())
    }
}

// Opens an operation, and gives its first message.
fn open(
    current: &mut Option<Running>,
    alloc: Global,
    memories: u32,
    number: OpNo,
    by: Place,
    operation: Operation,
) -> Result<Message, NoMemory>
    requires { 0 < memories }
    ensures first { IfOk result (λ m. IsFirst m (opened_by memories number by operation).unsent) }
    ensures opens { OnOk result (current.new ≡ begun_by memories number by operation) }
    ensures called { OnOk result (called_as current.new ≡ Some (record { number = number; by = by; operation = operation })) }
{
    let mut running = Running::new(alloc, memories, number, by, operation)?;
    let message = running.take_unsent();
    *current = Some(running);
    Ok(message)
}

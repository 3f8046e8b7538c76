//! An operation, or a move of healing, is complete.

ghost use Rattle.std.specs.Prelude.{◌≡◌, ◌<◌, [], None, OnOk, Some, false, length, true};
ghost use Rattle.protocol_engine.specs.Later.{called_by as called_as};
ghost use Rattle.protocol_engine.specs.Opening.{again_in};

use crate::engine::Engine;
use crate::recovery::{end_move, move_number};
use crate::running::Running;
use crate::send::show;
use cluster_ops::end_owners;
use lego_base::NoMemory;
use lego_msg::{Event, Watch};
use std::alloc::Global;

impl Engine {
    ghost use Rattle.lego_msg.specs.Track.{healing_move, is_done};
    ghost use Rattle.healing_laws.specs.Playing.{HealingGoesOn, OtherNumber};
    ghost use Rattle.protocol_engine.specs.Later.{called_by};
    ghost use Rattle.protocol_engine.specs.Tracks.{HasCount, SameMachine};
    ghost use Rattle.protocol_engine.specs.Ways.{Comes, Completed, Stops};

    /// Completes the open operation, and hands it out.
    pub fn complete<W: Watch>(&mut self, watch: &mut W) -> Running
        requires owed { self.old.owed ≡ [] }
        requires other { is_done self.old.net (healing_move self.old.healing) ≡ false }
        requires done { is_done self.old.net self.old.current ≡ true }
        requires numbers { OtherNumber self.old.current (healing_move self.old.healing) }
        ensures came { Completed W.told W.faults watch.old watch.new self.old self.new result }
        ensures was { self.old.current ≡ Some result }
        ensures closed { self.new.current ≡ None }
        ensures machine { SameMachine self.old self.new }
    {
        let Some(running) = self.current.take() else {
            unreachable!()
        };
        show(Event::Complete(running.number()), watch);
        end_owners(&mut self.table, running.operation());
        running
    }

    /// Completes the move of healing on its way. With the last one the healing ends, and the open operation is to be sent
    /// again.
    pub fn complete_move<W: Watch>(&mut self, watch: &mut W) -> Result<(), NoMemory>
        requires owed { self.old.owed ≡ [] }
        requires done { is_done self.old.net (healing_move self.old.healing) ≡ true }
        requires goes { HealingGoesOn self.old.healing }
        requires count { HasCount self.old }
        requires some { 0 < self.old.table.memories }
        ensures came { OnOk result (Comes W.told W.faults watch.old watch.new self.old self.new) }
        ensures stopped { Stops W.told W.faults watch.old watch.new self.old }
        ensures machine { SameMachine self.old self.new }
        ensures runs { OnOk result (called_by self.new.current ≡ called_by self.old.current) }
    {
        show(Event::Complete(move_number(&self.healing)), watch);
        if !end_move(&mut self.healing) {
            return Ok(());
        }
        send_again(&mut self.current, self.alloc, self.table.memories())?;
        Ok(())
    }
}

// The open operation is to be sent again.
fn send_again(current: &mut Option<Running>, alloc: Global, memories: u32) -> Result<(), NoMemory>
    requires { 0 < memories }
    ensures again { OnOk result (current.new ≡ again_in memories current.old) }
    ensures runs { OnOk result (called_as current.new ≡ called_as current.old) }
{
    let Some(mut running) = current.take() else {
        return Ok(());
    };
    running.send_again(alloc, memories)?;
    *current = Some(running);
    Ok(())
}

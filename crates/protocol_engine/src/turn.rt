//! A turn begins and ends: crashes come where they are due, and what they lose is healed.

ghost use Rattle.std.specs.Prelude.{◌≡◌, IfErr, OnOk, false, true};
ghost use Rattle.lego_msg.specs.Track.{entries_below as below};

use crate::engine::Engine;
use crate::send::show;
use lego_base::{CrashAt, Halt, Pid};
use lego_msg::{Clock, Event, Watch};

impl Engine {
    ghost use Rattle.protocol_engine.specs.Turns.{IsSoundEnd, IsSoundShow, is_left_in};
    ghost use Rattle.protocol_engine.specs.Steps.{Rests};
    ghost use Rattle.protocol_engine.specs.Tracks.{HasCount, SameMachine};
    ghost use Rattle.protocol_engine.specs.Ways.{EndHalts, Ends, ShowHalts, Shows};

    /// Begins a turn. A crash directly after its beginning is healed.
    pub fn begin_turn<W: Watch>(&mut self, number: u64, pid: Pid, watch: &mut W) -> Result<(), Halt>
        requires rests { Rests self.old }
        requires left { is_left_in self.old ≡ false }
        requires count { HasCount self.old }
        requires sound { IsSoundShow self.old (Event.Turn number pid) }
        ensures went { OnOk result (Shows W.told W.faults watch.old watch.new self.old self.new (Event.Turn number pid)) }
        ensures halted { IfErr result (λ h. ShowHalts W.told W.faults watch.old watch.new self.old (Event.Turn number pid) h) }
        ensures machine { SameMachine self.old self.new }
        ensures rests { OnOk result (Rests self.new) }
    {
        self.clock = Clock {
            begun: true,
            turn: number,
            since: 0,
            passed: entries_below(number, self.shape.crashes.as_slice()),
        };
        show(Event::Turn { number, pid }, watch);
        match self.settle(watch) {
            Err(halt) => return Err(halt),
            Ok(_) => return Ok(()),
        }
    }

    /// Ends a turn: a crash that is left of it comes now, and is healed.
    pub fn end_turn<W: Watch>(&mut self, watch: &mut W) -> Result<(), Halt>
        requires rests { Rests self.old }
        requires count { HasCount self.old }
        requires sound { IsSoundEnd self.old }
        ensures went { OnOk result (Ends W.told W.faults watch.old watch.new self.old self.new) }
        ensures halted { IfErr result (λ h. EndHalts W.told W.faults watch.old watch.new self.old h) }
        ensures machine { SameMachine self.old self.new }
        ensures rests { OnOk result (Rests self.new) }
        ensures over { OnOk result (is_left_in self.new ≡ false) }
    {
        'crashes: while self.is_crash_left() {
            match self.crash(watch) {
                Err(_) => return Err(Halt::NoMemory),
                Ok(()) => {}
            }
            match self.settle(watch) {
                Err(halt) => return Err(halt),
                Ok(_) => {}
            }
        }
        Ok(())
    }

    // Whether a crash of this turn is still to come.
    fn is_crash_left(&self) -> bool
        ensures { result ≡ is_left_in self.now }
    {
        match self.next_entry() {
            None => false,
            Some(entry) => self.clock.begun && entry.turn == self.clock.turn,
        }
    }
}

// How many entries are of turns below this one.
fn entries_below(turn: u64, crashes: &[CrashAt]) -> u64
    ensures { result ≡ below turn crashes.now }
{
    let mut passed = 0;
    for entry in crashes {
        if entry.turn >= turn {
            return passed;
        }
        passed += 1;
    }
    passed
}

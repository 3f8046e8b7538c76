//! Events are played, one after the other, until nothing is open.

ghost use Rattle.std.specs.Prelude.{◌≡◌, ◌≤◌, IfErr, IfOk, IfSome, None, OnOk, Option, Some};

use crate::engine::Engine;
use crate::running::Running;
use crate::step::Step;
use lego_base::Halt;
use lego_msg::{Operation, Place, Watch};

impl Engine {
    ghost use Rattle.lego_waits.specs.Measure.{load};
    ghost use Rattle.healing_laws.specs.Playing.{IsPlayable};
    ghost use Rattle.protocol_engine.specs.Sound.{Sound, WasOpen};
    ghost use Rattle.protocol_engine.specs.Later.{Completes, NotBoth, called_by, called_in};
    ghost use Rattle.protocol_engine.specs.Steps.{IsStep, Rests};
    ghost use Rattle.protocol_engine.specs.Tracks.{Beyond, HasCount, SameMachine, track_of};
    ghost use Rattle.protocol_engine.specs.Ways.{Halts, PlayHalts, Plays, Settles};

    /// Plays one event. The operation that it completes is handed out in `done`.
    pub fn play<W: Watch>(
        &mut self,
        step: Step,
        done: &mut Option<Running>,
        watch: &mut W,
    ) -> Result<(), Halt>
        requires step { IsStep step self.old }
        requires playable { (g : Beyond) × IsPlayable (track_of self.old g) }
        requires count { HasCount self.old }
        requires once { NotBoth done.old self.old.current }
        ensures came { OnOk result (Plays W.told W.faults watch.old watch.new self.old done.old self.new done.new) }
        ensures halted { IfErr result (λ h. PlayHalts W.told W.faults watch.old watch.new self.old done.old h) }
        ensures machine { SameMachine self.old self.new }
        ensures once { OnOk result (NotBoth done.new self.new.current) }
        ensures runs { OnOk result (called_in done.new self.new.current ≡ called_in done.old self.old.current) }
        ensures completes { OnOk result (Completes done.old done.new self.old.net self.old.current) }
    {
        match step {
            Step::SendOwed => match self.send_owed(watch) {
                Err(_) => return Err(Halt::NoMemory),
                Ok(()) => return Ok(()),
            },
            Step::CompleteMove => match self.complete_move(watch) {
                Err(_) => return Err(Halt::NoMemory),
                Ok(()) => return Ok(()),
            },
            Step::Complete => {
                let running = self.complete(watch);
                keep(done, running);
                return Ok(());
            }
            Step::Crash => match self.crash(watch) {
                Err(_) => return Err(Halt::NoMemory),
                Ok(()) => return Ok(()),
            },
            Step::BeginMove => match self.begin_move(watch) {
                Err(_) => return Err(Halt::NoMemory),
                Ok(()) => return Ok(()),
            },
            Step::SendUnsent => match self.send_unsent(watch) {
                Err(_) => return Err(Halt::NoMemory),
                Ok(()) => return Ok(()),
            },
            Step::Deliver => match self.deliver(watch) {
                Err(halt) => return Err(halt),
                Ok(()) => return Ok(()),
            },
        }
    }

    /// Plays until nothing is open, and gives the operation that was completed. It ends since each event lowers the load.
    pub fn settle<W: Watch>(&mut self, watch: &mut W) -> Result<Option<Running>, Halt>
        requires sound { (g : Beyond) × Sound (track_of self.old g) }
        requires count { HasCount self.old }
        ensures went { IfOk result (λ done. Settles W.told W.faults watch.old watch.new self.old self.new done) }
        ensures halted { IfErr result (λ h. Halts W.told W.faults watch.old watch.new self.old h) }
        ensures machine { SameMachine self.old self.new }
        ensures rests { OnOk result (Rests self.new) }
        ensures runs { IfOk result (λ done. called_by done ≡ called_by self.old.current) }
        ensures opened { IfOk result (λ done. (g : Beyond) → IfSome done (WasOpen (track_of self.old g))) }
        ensures lower { OnOk result ((g : Beyond) → load (track_of self.new g) ≤ load (track_of self.old g)) }
    {
        let mut done = None;
        'events: while let Some(step) = self.step() {
            match self.play(step, &mut done, watch) {
                Err(halt) => return Err(halt),
                Ok(()) => {}
            }
        }
        Ok(done)
    }
}

// Keeps an operation that was completed.
fn keep(done: &mut Option<Running>, running: Running)
    ensures { done.new ≡ Some running }
{
    *done = Some(running);
}

//! What comes next.

ghost use Rattle.std.specs.Prelude.{◌≡◌, None};
ghost use Rattle.lego_msg.specs.Track.{healing_move as move_of, is_done as done_in, is_now as now_is};
ghost use Rattle.healing_laws.specs.Playing.{HealingGoesOn as StandsOn};
ghost use Rattle.protocol_engine.specs.Later.{IsLater as Later};

use crate::engine::Engine;
use crate::recovery::{Recovery, is_done};
use crate::running::Running;
use lego_base::CrashAt;
use lego_msg::Clock;
use net_fabric::Net;

/// One event: what is owed is sent, a move of healing or the operation is complete, a memory crashes, a move begins, a first
/// message is sent, a message is delivered.
#[derive(Clone, Copy, Debug, PartialEq, Eq)]
pub enum Step {
    SendOwed,
    CompleteMove,
    Complete,
    Crash,
    BeginMove,
    SendUnsent,
    Deliver,
}

impl Engine {
    ghost use Rattle.lego_msg.specs.Track.{next_crash as crash_in};
    ghost use Rattle.healing_laws.specs.Playing.{HealingGoesOn};
    ghost use Rattle.protocol_engine.specs.Steps.{IsNextStep};

    /// What comes next: `None` where nothing is open.
    pub fn step(&self) -> Option<Step>
        requires { HealingGoesOn self.now.healing }
        ensures { IsNextStep result self.now }
    {
        if !self.owed.is_empty() {
            return Some(Step::SendOwed);
        }
        if is_move_done(&self.net, &self.healing) {
            return Some(Step::CompleteMove);
        }
        if is_done(&self.net, &self.current) {
            return Some(Step::Complete);
        }
        if is_crash_now(&self.clock, self.next_entry()) {
            return Some(Step::Crash);
        }
        later_step(&self.healing, &self.current)
    }

    /// The entry of the crash list that comes next.
    pub fn next_entry(&self) -> Option<CrashAt>
        ensures { result ≡ crash_in self.now.shape self.now.clock }
    {
        self.shape
            .crashes
            .as_slice()
            .get(self.clock.passed as usize)
            .copied()
    }
}

// Whether the move of healing on its way is complete.
fn is_move_done(net: &Net, healing: &Option<Recovery>) -> bool
    ensures { result ≡ done_in net.now (move_of healing.now) }
{
    match healing {
        None => false,
        Some(recovery) => recovery.is_done(net),
    }
}

// Whether the crash of an entry comes now.
fn is_crash_now(clock: &Clock, entry: Option<CrashAt>) -> bool
    ensures { result ≡ now_is clock.now entry }
{
    match entry {
        None => false,
        Some(entry) => {
            clock.begun && entry.turn == clock.turn && entry.after as u64 == clock.since
        }
    }
}

// What comes where nothing is owed, complete or crashing.
fn later_step(healing: &Option<Recovery>, current: &Option<Running>) -> Option<Step>
    requires { StandsOn healing.now }
    ensures { Later result healing.now current.now }
{
    let Some(recovery) = healing else {
        return open_step(current);
    };
    if recovery.is_sent() {
        return Some(Step::Deliver);
    }
    Some(Step::BeginMove)
}

// What comes where nothing heals besides.
fn open_step(current: &Option<Running>) -> Option<Step>
    ensures { Later result None current.now }
{
    match current {
        None => None,
        Some(running) if running.is_sent() => Some(Step::Deliver),
        Some(_) => Some(Step::SendUnsent),
    }
}

//! A healing that runs.

ghost use Rattle.std.specs.Prelude.{◌≡◌, ◌==◌, ◌<◌, IfOk, length};
ghost use Rattle.heal_steps.specs.Steps.{begun, goes, step_of};

use crate::ask::ask;
use crate::begin::moves_of;
use lego_base::{MemId, NoMemory, Spaces};
use lego_msg::{Body, Move, Place};
use std::alloc::Global;
use std::collections::VecDeque;
use std::marker::Model;

/// What the manager does next.
#[derive(Debug, Drop)]
pub enum HealMove {
    /// A message goes out.
    Send(Place, Body),
    /// The message that went out last has no answer yet.
    Wait,
    /// The last message was answered.
    Finished,
}

/// A healing: its moves that haven't begun, and whether an answer is awaited.
#[derive(Debug, Drop)]
pub struct Heal {
    alloc: Global,
    waits: bool,
    moves: VecDeque<Move>,
}

impl Model for Heal {
    ghost use Rattle.heal_steps.specs.Healing.{Healing};

    ghost Value = { Healing };

    ghost view = { λ h. record { waits = h.waits; moves = h.moves.items } };
}

impl Heal {
    /// The healing of `crashed`, where there are `memories` memory components: of its regions, `of_crashed`, and of those
    /// of the memory whose secondary it is, `of_guarded`, both in rising order.
    pub fn begin(
        alloc: Global,
        crashed: MemId,
        memories: u32,
        of_crashed: Spaces,
        of_guarded: Spaces,
    ) -> Result<Heal, NoMemory>
        requires some { 0 < memories }
        ensures { IfOk result (λ h. h ≡ begun memories crashed.0 of_crashed of_guarded) }
    {
        let moves = moves_of(
            alloc,
            crashed,
            memories,
            of_crashed.as_slice(),
            of_guarded.as_slice(),
        )?;
        Ok(Heal {
            alloc,
            waits: false,
            moves,
        })
    }

    /// What comes next, where `got` is the answer of the message that went out last. `Wait` exactly where one went out
    /// and `got` is `None`.
    pub fn next(&mut self, got: Option<Body>) -> HealMove
        ensures step { result ≡ step_of self.old got }
        ensures after { self.new ≡ goes self.old got }
    {
        if self.waits && got.is_none() {
            return HealMove::Wait;
        }
        let Some(step) = self.moves.pop_front() else {
            self.waits = false;
            return HealMove::Finished;
        };
        self.waits = true;
        ask(self.alloc, step, got)
    }

    /// Whether every move has begun.
    pub fn is_last(&self) -> bool
        ensures { result ≡ (length self.now.moves == 0) }
    {
        self.moves.is_empty()
    }
}

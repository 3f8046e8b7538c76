//! An operation that is open.

ghost use Rattle.std.specs.Prelude.{◌≡◌, ◌==◌, ◌<◌, ◌∷◌, [], IfOk, OnOk, OnErr, Some, drop, length};
ghost use Rattle.lego_msg.specs.Deliveries.{reaction_of};
ghost use Rattle.lego_msg.specs.Operations.{asks_of, messages_of, patch_of, targets_of};
ghost use Rattle.lego_msg.specs.Places.{same_place};
ghost use Rattle.lego_msg.specs.Sends.{IsFirst};
ghost use Rattle.lego_msg.specs.Track.{all_answered, forget as without_answers, is_complete as complete_now};
ghost use Rattle.protocol_engine.specs.Opening.{opened_by, again_with};

use cluster_ops::{first_messages, reaction, targets};
use lego_base::{NoMemory, OpNo};
use lego_msg::{Answer, Body, Message, Operation, Place};
use net_fabric::Net;
use op_track::Op;
use std::alloc::Global;
use std::marker::Model;

/// An open operation: what is unsent of it, and who has answered. Contracts see `Open` of lego_msg.
#[derive(Debug, Drop)]
pub struct Running {
    by: Place,
    operation: Operation,
    unsent: Vec<Message>,
    op: Op, // its number, and its targets with whether they have answered
    answers: Vec<Answer>, // newest first
}

impl Model for Running {
    ghost use Rattle.lego_msg.specs.declared.operation.Open.{Open};

    ghost Value = { Open };

    ghost use Rattle.std.specs.Prelude.{◌≡◌};
    ghost use Rattle.op_track.specs.Targets.{by_answers};
    ghost use Rattle.protocol_engine.specs.Opening.{places};

    ghost view = { λ r. record {
      number = r.op.number;
      by = r.by;
      operation = r.operation;
      unsent = r.unsent.items;
      targets = places r.op.targets;
      answers = r.answers.items;
    } };

    // the flags tell the same as the answers
    ghost invariant = { λ r. r.op.targets ≡ by_answers r.answers.items (places r.op.targets) };
}

impl Running {
    ghost use Rattle.lego_msg.specs.Completions.{first_answer};

    /// An operation with all its first messages unsent.
    pub fn new(
        alloc: Global,
        memories: u32,
        number: OpNo,
        by: Place,
        operation: Operation,
    ) -> Result<Running, NoMemory>
        requires { 0 < memories }
        ensures { IfOk result (λ r. r ≡ opened_by memories number by operation) }
    {
        let unsent = first_messages(alloc, memories, by, number, &operation)?;
        let targets = targets(alloc, memories, &operation)?;
        let op = Op::new(alloc, number, targets.as_slice())?;
        Ok(Running {
            by,
            operation,
            unsent: unsent.into_vec(),
            op,
            answers: Vec::new(alloc),
        })
    }

    /// Its number.
    pub fn number(&self) -> OpNo
        ensures { result ≡ self.now.number }
    {
        self.op.number()
    }

    /// Its operation.
    pub fn operation(&self) -> &Operation
        ensures { result.now ≡ self.now.operation }
    {
        &self.operation
    }

    /// Whether all its first messages are sent.
    pub fn is_sent(&self) -> bool
        ensures { result ≡ (length self.now.unsent == 0) }
    {
        self.unsent.is_empty()
    }

    /// Takes the first message that is unsent.
    pub fn take_unsent(&mut self) -> Message
        requires { 0 < length self.old.unsent }
        ensures first { IsFirst result self.old.unsent }
        ensures rest { self.new ≡ record self.old { unsent = drop 1 self.old.unsent } }
    {
        self.unsent.remove(0)
    }

    /// Whether each target has answered since its last crash.
    pub fn is_answered(&self) -> bool
        ensures { result ≡ all_answered self.now.targets self.now.answers }
    {
        self.op.complete()
    }

    /// Whether each target has answered, and nothing of it is pending.
    pub fn is_complete(&self, net: &Net) -> bool
        ensures { result ≡ complete_now net.now self.now }
    {
        self.is_answered() && net.pending_of(self.number()) == 0
    }

    /// Notes an answer.
    pub fn note(&mut self, place: Place, body: Body) -> Result<(), NoMemory>
        ensures { OnOk result (self.new ≡ record self.old { answers = record { place = place; body = body } ∷ self.old.answers }) }
    {
        self.answers.insert(0, Answer { place, body })?;
        self.op.answered(place);
        Ok(())
    }

    /// Forgets the answers of a place that crashed.
    pub fn forget(&mut self, place: Place)
        ensures { self.new ≡ record self.old { answers = without_answers place self.old.answers } }
    {
        self.op.crashed(place);
        self.answers.retain(|answer| !is_same(answer.place, place));
    }

    /// Its first messages are to be sent again.
    pub fn send_again(&mut self, alloc: Global, memories: u32) -> Result<(), NoMemory>
        requires { 0 < memories }
        ensures { OnOk result (self.new ≡ again_with memories self.old) }
    {
        let number = self.op.number();
        let unsent = first_messages(alloc, memories, self.by, number, &self.operation)?;
        self.unsent = unsent.into_vec();
        Ok(())
    }

    /// What its issuer sends after an answer, which isn't noted then.
    pub fn reaction(&self, body: &Body) -> Result<Option<Body>, NoMemory>
        ensures { IfOk result (λ sends. sends ≡ reaction_of (patch_of self.now.operation) body.now) }
    {
        reaction(&self.operation, body)
    }

    /// The newest answer.
    pub fn into_answer(self) -> Option<Body>
        ensures { result ≡ first_answer self.answers }
    {
        let Running { mut answers, .. } = self;
        if answers.is_empty() {
            return None;
        }
        Some(answers.remove(0).body)
    }
}

fn is_same(a: Place, b: Place) -> bool
    ensures { result ≡ same_place a b }
{
    a == b
}

//! The list of pending messages.

ghost use Rattle.std.specs.Prelude.{◌≡◌, ◌==◌, ◌<◌, ◌↔◌, ◌++◌, ◌∷◌, [], ℕ, IfOk, OnOk, OnErr, IsNone, Some, count_by, length};
ghost use Rattle.lego_msg.specs.Places.{lose as lost_to, same_place};
ghost use Rattle.lego_msg.specs.Track.{picked, taken_out};
ghost use Rattle.net_fabric.specs.Net.{concerns_place};

use lego_base::{NoMemory, OpNo};
use lego_msg::{Message, Place};
use std::alloc::Global;
use std::marker::Model;

// For how many messages there is room at first. A run has one to ten pending, and a healing hardly more.
const FIRST_ROOM: usize = 32;

/// The messages that were sent, not delivered and not lost, in order of sending.
#[derive(Debug, Drop)]
pub struct Net {
    messages: Vec<Message>,
}

impl Model for Net {
    ghost use Rattle.std.specs.Prelude.{List};
    ghost use Rattle.lego_msg.specs.declared.message.Message.{Message};

    ghost Value = { List Message };

    ghost view = { λ n. n.messages.items };
}

impl Net {
    /// A network with nothing pending.
    pub fn new(alloc: Global) -> Result<Net, NoMemory>
        ensures { IfOk result (λ n. n ≡ []) }
    {
        let messages = Vec::with_capacity(alloc, FIRST_ROOM)?;
        Ok(Net { messages })
    }

    /// Sends a message: it is pending after all others. If memory runs out, it is dropped.
    pub fn send(&mut self, message: Message) -> Result<(), NoMemory>
        ensures ok { OnOk result (self.new ≡ self.old ++ message ∷ []) }
        ensures err { OnErr result (self.new ≡ self.old) }
    {
        self.messages.push(message)?;
        Ok(())
    }

    /// Takes out the message at the place `choice` modulo how many are pending. `None` exactly where nothing is.
    pub fn pick(&mut self, choice: u32) -> Option<Message>
        ensures chosen { result ≡ picked (choice ∷ []) 0 self.old }
        ensures rest { self.new ≡ taken_out (choice ∷ []) 0 self.old }
        ensures none { IsNone result ↔ (self.old ≡ []) }
    {
        if self.messages.is_empty() {
            return None;
        }
        Some(self.take(choice))
    }

    /// Takes out the message that `pick` would, where one is pending.
    pub fn take(&mut self, choice: u32) -> Message
        requires { 0 < length self.old }
        ensures chosen { picked (choice ∷ []) 0 self.old ≡ Some result }
        ensures rest { self.new ≡ taken_out (choice ∷ []) 0 self.old }
    {
        let place = choice as usize % self.messages.len();
        self.messages.remove(place)
    }

    /// Loses what is on its way to a place or from it.
    pub fn lose(&mut self, place: Place)
        ensures { self.new ≡ lost_to place self.old }
    {
        self.messages.retain(|message| !concerns(message, place));
    }

    /// How many messages are pending.
    pub fn pending(&self) -> usize
        ensures { result ≡ length self.now }
    {
        self.messages.len()
    }

    /// How many messages of an operation are pending.
    pub fn pending_of(&self, op: OpNo) -> usize
        ensures { result ≡ count_by (λ m. m.op.0 == op.0) self.now }
    {
        self.messages
            .iter()
            .filter(|message| message.op.0 == op.0)
            .count()
    }
}

// Whether a message is on its way to a place or from it.
fn concerns(message: &Message, place: Place) -> bool
    ensures { result ≡ concerns_place place message.now }
{
    is_same(message.from, place) || is_same(message.to, place)
}

fn is_same(a: Place, b: Place) -> bool
    ensures { result ≡ same_place a b }
{
    a == b
}

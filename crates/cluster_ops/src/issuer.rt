//! How an operation's first messages are sent: to one place or to several.

ghost use Rattle.lego_msg.specs.declared.body.Body.TheVariants as body;

use lego_base::{MemId, NoMemory, OpNo, Pid, Seq};
use lego_msg::{Body, Message, Place};
use placement::secondary;
use std::alloc::Global;

/// Who issues an operation, its number, and how many memory components there are.
#[derive(Clone, Copy, Debug)]
pub(crate) struct Issuer {
    pub alloc: Global,
    pub by: Place,
    pub number: OpNo,
    pub memories: u32,
}

impl Issuer {
    ghost use Rattle.std.specs.Prelude.{◌≡◌, ◌<◌, ◌++◌, ◌∷◌, [], IfOk};
    ghost use Rattle.lego_msg.specs.Operations.{ask, each_from, to_storage, twice};
    ghost use Rattle.cluster_ops.specs.Issued.{sent_by};

    // A message of the operation.
    fn message(self, to: Place, body: Body) -> Message
        ensures { result ≡ record { from = self.by; to = to; op = self.number; body = body } }
    {
        Message {
            from: self.by,
            to,
            op: self.number,
            body,
        }
    }

    /// One message.
    pub(crate) fn one(self, to: Place, body: Body) -> Result<Seq<Message>, NoMemory>
        ensures { IfOk result (λ list. list ≡ sent_by self (ask to body ∷ [])) }
    {
        let messages = vec![in self.alloc; self.message(to, body)]?;
        Ok(Seq::from_vec(messages))
    }

    /// A message to the secondary of a memory, and one to the memory.
    pub(crate) fn twice(
        self,
        memory: MemId,
        spare: Body,
        main: Body,
    ) -> Result<Seq<Message>, NoMemory>
        requires { 0 < self.memories }
        ensures { IfOk result (λ list. list ≡ sent_by self (twice self.memories memory.0 spare main)) }
    {
        let messages = vec![in self.alloc;
            self.message(Place::Memory(secondary(memory, self.memories)), spare),
            self.message(Place::Memory(memory), main),
        ]?;
        Ok(Seq::from_vec(messages))
    }

    /// The same, and a message to storage.
    pub(crate) fn thrice(
        self,
        memory: MemId,
        spare: Body,
        main: Body,
        images: Body,
    ) -> Result<Seq<Message>, NoMemory>
        requires { 0 < self.memories }
        ensures { IfOk result (λ list. list ≡ sent_by self (twice self.memories memory.0 spare main ++ to_storage images)) }
    {
        let messages = vec![in self.alloc;
            self.message(Place::Memory(secondary(memory, self.memories)), spare),
            self.message(Place::Memory(memory), main),
            self.message(Place::Storage, images),
        ]?;
        Ok(Seq::from_vec(messages))
    }

    /// A message to each memory, and one to storage: a space is dropped.
    pub(crate) fn drop_everywhere(self, pid: Pid) -> Result<Seq<Message>, NoMemory>
        ensures { IfOk result (λ list. list ≡ sent_by self (each_from self.memories 0 (body.DropSpace pid) (body.ImageFree pid))) }
    {
        let mut messages = Seq::from_vec(Vec::with_capacity(
            self.alloc,
            self.memories as usize + 1,
        )?);
        for number in 0..self.memories {
            let to = Place::Memory(MemId(number));
            messages.push(self.message(to, Body::DropSpace { pid }))?;
        }
        messages.push(self.message(Place::Storage, Body::ImageFree { pid }))?;
        Ok(messages)
    }
}

//! The pipes.

ghost use Rattle.std.specs.Prelude.{◌≡◌, ◌==◌, ◌+◌, ◌-◌, ◌^◌, ◌<◌, ◌≤◌, ◌++◌, ℕ, [], true, Some, drop, is_some, length, min, slice_index, slice_set, take, IfOk, OnErr, OnOk};
ghost use Rattle.kernel_objects.specs.Slots.{held, next_slot, slot, with_next};
ghost use Rattle.linux_model.specs.Effects.{bytes_in_pipe};
ghost use Rattle.linux_model.specs.Limits.{PIPE_BYTES};
ghost use Rattle.linux_model.specs.Processes.{is_reading_end, is_writing_end};
ghost use Rattle.manager.specs.Counting.{one_if};
ghost use Rattle.manager.specs.Tables.{pipes_left, state_of, swept, PipeThere};
ghost use Rattle.manager.specs.declared.counts.TheConstants.{NUMBERS};

use crate::counts::{Counts, NUMBERS};
use crate::slots::put_next;
use kernel_objects::Object;
use lego_base::NoMemory;
use pipe_buf::Pipe;
use std::alloc::Global;
use std::marker::Model;

/// What a reader or a writer of a pipe finds, as in pipe(7).
#[derive(Clone, Copy, Debug, PartialEq, Eq)]
pub struct PipeState {
    /// Bytes in it.
    pub len: usize,
    /// Bytes that it has room for.
    pub room: usize,
    /// Descriptions that are open on its end that is read.
    pub readers: u32,
    /// Descriptions that are open on its end that is written.
    pub writers: u32,
}

/// The pipes by slot, each with its number of readers and writers.
#[derive(Drop)]
pub struct Pipes {
    slots: Vec<Option<Pipe>>, // with room for `NUMBERS`
    readers: Counts,
    writers: Counts,
}

impl Model for Pipes {
    ghost use Rattle.std.specs.Prelude.{◌≤◌, length, vec_capacity};
    ghost use Rattle.manager.specs.declared.counts.TheConstants.{NUMBERS};
    ghost use Rattle.manager.specs.Tables.{PipeTable};

    ghost Value = { PipeTable };

    ghost view = { λ p. record { pipes = p.slots.items; readers = p.readers; writers = p.writers } };

    ghost invariant = { λ p. (length p.slots.items ≤ NUMBERS) × (NUMBERS ≤ vec_capacity p.slots) };
}

impl Pipes {
    /// None. Takes the memory for the table, but not for the bytes.
    pub fn new(alloc: Global) -> Result<Pipes, NoMemory>
        ensures pipes { IfOk result (λ p. p.pipes ≡ []) }
        ensures readers { IfOk result (λ p. (n : ℕ) → slice_index p.readers n ≡ 0) }
        ensures writers { IfOk result (λ p. (n : ℕ) → slice_index p.writers n ≡ 0) }
    {
        let slots = Vec::with_capacity(alloc, NUMBERS)?;
        let readers = Counts::new(alloc)?;
        let writers = Counts::new(alloc)?;
        Ok(Pipes {
            slots,
            readers,
            writers,
        })
    }

    /// A new pipe, empty and without ends, in the lowest free slot.
    pub fn add(&mut self, alloc: Global) -> Result<u16, NoMemory>
        requires { length (held self.old.pipes) < NUMBERS }
        ensures slot { IfOk result (λ pipe. pipe ≡ next_slot self.old.pipes) }
        ensures ok { OnOk result (self.new ≡ record self.old { pipes = with_next [] self.old.pipes }) }
        ensures err { OnErr result (self.new ≡ self.old) }
    {
        let pipe = Pipe::new(alloc)?;
        Ok(put_next(&mut self.slots, pipe) as u16)
    }

    /// A description is opened: where it is an end of a pipe, that has one more.
    pub fn begin(&mut self, object: Object)
        requires there { PipeThere self.old.pipes object }
        requires readers { (n : ℕ) → slice_index self.old.readers n < 2 ^ 32 - 1 }
        requires writers { (n : ℕ) → slice_index self.old.writers n < 2 ^ 32 - 1 }
        ensures pipes { self.new.pipes ≡ self.old.pipes }
        ensures readers { (n : ℕ) → slice_index self.new.readers n ≡ slice_index self.old.readers n + one_if (is_reading_end n object) }
        ensures writers { (n : ℕ) → slice_index self.new.writers n ≡ slice_index self.old.writers n + one_if (is_writing_end n object) }
    {
        match object {
            Object::PipeRead(pipe) => self.readers.add(pipe),
            Object::PipeWrite(pipe) => self.writers.add(pipe),
            _ => {}
        }
    }

    /// A description has ended: where it was the last end of a pipe, the pipe goes.
    pub fn end(&mut self, object: Object)
        requires there { PipeThere self.old.pipes object }
        requires readers { (n : ℕ) → one_if (is_reading_end n object) ≤ slice_index self.old.readers n }
        requires writers { (n : ℕ) → one_if (is_writing_end n object) ≤ slice_index self.old.writers n }
        ensures pipes { self.new.pipes ≡ pipes_left object self.new.readers self.new.writers self.old.pipes }
        ensures readers { (n : ℕ) → slice_index self.new.readers n + one_if (is_reading_end n object) ≡ slice_index self.old.readers n }
        ensures writers { (n : ℕ) → slice_index self.new.writers n + one_if (is_writing_end n object) ≡ slice_index self.old.writers n }
    {
        match object {
            Object::PipeRead(pipe) => {
                self.readers.remove(pipe);
                self.sweep(pipe);
            }
            Object::PipeWrite(pipe) => {
                self.writers.remove(pipe);
                self.sweep(pipe);
            }
            _ => {}
        }
    }

    /// What is in a pipe, and who has it open.
    pub fn state(&self, pipe: u16) -> PipeState
        requires { is_some (slot self.now.pipes pipe) ≡ true }
        ensures { result ≡ state_of pipe self.now }
    {
        let (len, room) = fill_of(&self.slots[pipe as usize]);
        PipeState {
            len,
            room,
            readers: self.readers.of(pipe),
            writers: self.writers.of(pipe),
        }
    }

    /// Puts the first of some bytes into a pipe, as many as fit, and returns how many these are.
    pub fn put(&mut self, pipe: u16, bytes: &[u8]) -> usize
        requires { is_some (slot self.old.pipes pipe) ≡ true }
        ensures count { result ≡ min (length bytes.now) (PIPE_BYTES - length (bytes_in_pipe (slot self.old.pipes pipe))) }
        ensures bytes { self.new ≡ record self.old { pipes = slice_set self.old.pipes pipe (Some (bytes_in_pipe (slot self.old.pipes pipe) ++ take result bytes.now)) } }
    {
        put_in(&mut self.slots[pipe as usize], bytes)
    }

    /// Takes the oldest bytes out of a pipe, as many as there are and as the buffer holds, and returns how many these are.
    pub fn take(&mut self, pipe: u16, buf: &mut [u8]) -> usize
        requires { is_some (slot self.old.pipes pipe) ≡ true }
        ensures count { result ≡ min (length buf.old) (length (bytes_in_pipe (slot self.old.pipes pipe))) }
        ensures buf { buf.new ≡ take result (bytes_in_pipe (slot self.old.pipes pipe)) ++ drop result buf.old }
        ensures rest { self.new ≡ record self.old { pipes = slice_set self.old.pipes pipe (Some (drop result (bytes_in_pipe (slot self.old.pipes pipe)))) } }
    {
        take_from(&mut self.slots[pipe as usize], buf)
    }

    /// Copies the bytes that `take` would take, and leaves them in.
    pub fn peek(&self, pipe: u16, buf: &mut [u8]) -> usize
        requires { is_some (slot self.now.pipes pipe) ≡ true }
        ensures count { result ≡ min (length buf.old) (length (bytes_in_pipe (slot self.now.pipes pipe))) }
        ensures buf { buf.new ≡ take result (bytes_in_pipe (slot self.now.pipes pipe)) ++ drop result buf.old }
    {
        peek_into(&self.slots[pipe as usize], buf)
    }

    // A pipe without ends goes.
    fn sweep(&mut self, pipe: u16)
        requires { is_some (slot self.old.pipes pipe) ≡ true }
        ensures { self.new ≡ record self.old { pipes = swept pipe self.old.readers self.old.writers self.old.pipes } }
    {
        if self.readers.of(pipe) == 0 && self.writers.of(pipe) == 0 {
            self.slots[pipe as usize] = None;
        }
    }
}

// The bytes in a pipe that is there, and its room.
fn fill_of(slot: &Option<Pipe>) -> (usize, usize)
    requires { is_some slot.now ≡ true }
    ensures len { result.0 ≡ length (bytes_in_pipe slot.now) }
    ensures room { result.1 ≡ PIPE_BYTES - length (bytes_in_pipe slot.now) }
{
    match slot {
        Some(pipe) => (pipe.len(), pipe.room()),
        None => (0, 0),
    }
}

fn put_in(slot: &mut Option<Pipe>, bytes: &[u8]) -> usize
    requires { is_some slot.old ≡ true }
    ensures count { result ≡ min (length bytes.now) (PIPE_BYTES - length (bytes_in_pipe slot.old)) }
    ensures bytes { slot.new ≡ Some (bytes_in_pipe slot.old ++ take result bytes.now) }
{
    match slot {
        Some(pipe) => pipe.put(bytes),
        None => 0,
    }
}

fn take_from(slot: &mut Option<Pipe>, buf: &mut [u8]) -> usize
    requires { is_some slot.old ≡ true }
    ensures count { result ≡ min (length buf.old) (length (bytes_in_pipe slot.old)) }
    ensures buf { buf.new ≡ take result (bytes_in_pipe slot.old) ++ drop result buf.old }
    ensures rest { slot.new ≡ Some (drop result (bytes_in_pipe slot.old)) }
{
    match slot {
        Some(pipe) => pipe.take(buf),
        None => 0,
    }
}

fn peek_into(slot: &Option<Pipe>, buf: &mut [u8]) -> usize
    requires { is_some slot.now ≡ true }
    ensures count { result ≡ min (length buf.old) (length (bytes_in_pipe slot.now)) }
    ensures buf { buf.new ≡ take result (bytes_in_pipe slot.now) ++ drop result buf.old }
{
    match slot {
        Some(pipe) => pipe.peek(buf),
        None => 0,
    }
}

//! Who may have a turn.

ghost use Rattle.std.specs.Prelude.{◌≡◌, ◌&&◌, not, Some, None, is_none, map, option_map, slice_get, IfOk, IfSome};
ghost use Rattle.linux_model.specs.Calls.{call_by, call_waits, is_empty_for, is_full_for, read_waits, wait_waits, write_waits};
ghost use Rattle.linux_model.specs.Descriptors.{opened};
ghost use Rattle.linux_model.specs.Managed.{with_managed};
ghost use Rattle.linux_model.specs.State.{Kernel};
ghost use Rattle.linux_model.specs.Turns.{is_ready, ready};
ghost use Rattle.manager.specs.Words.{KnownAt};
ghost use Rattle.manager.specs.Tables.{PipeThere};

use super::Manager;
use kernel_objects::{Object, Waiting};
use lego_base::{NoMemory, Pid};
use proc_table::{MOST_PROCESSES, Proc, Reaped};
use rv64_step::Cpu;
use std::alloc::Global;

// Numbers of the calls that wait.
const READ: u64 = 63;

const WRITE: u64 = 64;

const READV: u64 = 65;

const WRITEV: u64 = 66;

const WAIT4: u64 = 260;

/// pipe(7): as many bytes, or fewer, go into a pipe at once.
const PIPE_BUF: u64 = 4096;

impl Manager {
    /// The processes that may have a turn, in their order: those that live and whose call doesn't wait, or doesn't any more. A
    /// process is looked at in constant time, or in that of a look at all processes where it waits for a child.
    pub fn ready(&self, alloc: Global) -> Result<Vec<Pid>, NoMemory>
        ensures { (k : Kernel) → IfOk result (λ pids. map (λ pid. pid.0) pids.items ≡ ready (with_managed self.now k)) }
    {
        let mut ready = Vec::new(alloc);
        for place in 0..MOST_PROCESSES as u32 {
            if let Some((pid, known)) = self.procs.at(place) {
                if self.is_ready(place, pid, &known) {
                    ready.push(pid)?;
                }
            }
        }
        Ok(ready)
    }

    // Whether the process at a place, of which this is known, may have a turn.
    fn is_ready(&self, place: u32, pid: Pid, known: &Proc) -> bool
        requires { KnownAt place pid known.now self.now }
        ensures { (k : Kernel) → IfSome (slice_get self.now.procs place) (λ p. result ≡ is_ready (with_managed self.now k) p) }
    {
        if known.status.is_some() {
            return false;
        }
        match known.waiting {
            Some(waiting) => !self.call_waits(place, pid, known, waiting),
            None => true,
        }
    }

    // Whether the condition for which its kept call waits still holds.
    fn call_waits(&self, place: u32, pid: Pid, known: &Proc, waiting: Waiting) -> bool
        requires { KnownAt place pid known.now self.now }
        ensures { (k : Kernel) → IfSome (slice_get self.now.procs place) (λ p. result ≡ call_waits (call_by p) p waiting (with_managed self.now k)) }
    {
        let first = known.cpu.get(10);
        match known.cpu.get(17) {
            READ | READV => self.read_waits(place, first),
            WRITE | WRITEV => self.write_waits(place, first, waiting.len),
            WAIT4 => self.wait_waits(pid, first),
            _ => false,
        }
    }

    // Whether a read waits at a descriptor of the process at a place.
    fn read_waits(&self, place: u32, fd: u64) -> bool
        ensures { (k : Kernel) → IfSome (slice_get self.now.procs place) (λ p. result ≡ read_waits (opened p fd (with_managed self.now k)) (with_managed self.now k)) }
    {
        match self.object_at(place, fd) {
            Some(object) => self.is_empty_for(object),
            None => false,
        }
    }

    // Whether a write of `len` bytes waits at a descriptor of the process at a place.
    fn write_waits(&self, place: u32, fd: u64, len: u64) -> bool
        ensures { (k : Kernel) → IfSome (slice_get self.now.procs place) (λ p. result ≡ write_waits (opened p fd (with_managed self.now k)) len (with_managed self.now k)) }
    {
        match self.object_at(place, fd) {
            Some(object) => self.is_full_for(object, len),
            None => false,
        }
    }

    // Whether a process waits for a child of a pid, or for any (-1).
    fn wait_waits(&self, pid: Pid, want: u64) -> bool
        ensures { (k : Kernel) → result ≡ wait_waits pid.0 want (with_managed self.now k) }
    {
        self.procs.child(pid, want.cast_signed()) == Reaped::NotYet
    }

    // What a descriptor of the process at a place is open on. A pipe is there.
    fn object_at(&self, place: u32, fd: u64) -> Option<Object>
        ensures is { (k : Kernel) → IfSome (slice_get self.now.procs place) (λ p. result ≡ option_map (λ o. o.is.object) (opened p fd (with_managed self.now k))) }
        ensures pipe { IfSome result (λ object. PipeThere self.now.pipes object) }
    {
        let entry = self.procs.fd_at(place, fd)?;
        let description = self.descs.get(entry.desc)?;
        Some(description.object)
    }

    // Whether an object is a pipe without bytes that somebody may write to.
    fn is_empty_for(&self, object: Object) -> bool
        requires { PipeThere self.now.pipes object }
        ensures { (k : Kernel) → result ≡ is_empty_for object (with_managed self.now k) }
    {
        match object {
            Object::PipeRead(pipe) => {
                let state = self.pipe_state(pipe);
                state.len == 0 && state.writers > 0
            }
            _ => false,
        }
    }

    // Whether an object is a pipe without room that somebody may read from.
    fn is_full_for(&self, object: Object, len: u64) -> bool
        requires { PipeThere self.now.pipes object }
        ensures { (k : Kernel) → result ≡ is_full_for object len (with_managed self.now k) }
    {
        match object {
            Object::PipeWrite(pipe) => {
                let state = self.pipe_state(pipe);
                let least = if len <= PIPE_BUF { len } else { 1 };
                (state.room as u64) < least && state.readers > 0
            }
            _ => false,
        }
    }
}

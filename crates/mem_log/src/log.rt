//! A list of patches with a batch.

ghost use Rattle.std.specs.Prelude.{◌≡◌, ◌==◌, ◌<◌, ◌≤◌, drop, is_err, length, nat_lt, vec_capacity, OnOk, OnErr, IfOk, IfErr};

use lego_base::{NoMemory, Patch, Seq};
use std::alloc::Global;
use std::marker::Model;

/// The log holds as many patches as it may. The patch comes back.
#[derive(Debug, Drop)]
pub struct LogFull(pub Patch);

/// The patches that a secondary keeps, oldest first, and the batch of first ones that is on its way to storage. At
/// most `room` patches are held (LegoOS, OSDI 2018, on reliability and failure handling).
#[derive(Debug, Drop)]
pub struct Log {
    room: u32,
    patches: Vec<Patch>,
    out: usize, // how many first patches are in the batch; 0 where none is out
}

impl Model for Log {
    ghost use Rattle.std.specs.Prelude.{◌≤◌, vec_capacity, length};
    ghost use Rattle.mem_log.specs.LogState.{LogState};

    ghost Value = { LogState };

    ghost view = { λ a. record { room = a.room; patches = a.patches.items; out = a.out } };

    ghost invariant = { λ a. (length a.patches.items ≤ a.room) × (a.out ≤ length a.patches.items) × (a.room ≤ vec_capacity a.patches) };
}

impl Log {
    ghost use Rattle.mem_log.specs.LogState.{empty_log, is_full, with_patch, Started, without_batch, is_half_full};

    /// An empty log with room for `room` patches.
    pub fn new(alloc: Global, room: u32) -> Result<Log, NoMemory>
        ensures { IfOk result (λ log. log ≡ empty_log room) }
    {
        let patches = Vec::with_capacity(alloc, room as usize)?;
        Ok(Log {
            room,
            patches,
            out: 0,
        })
    }

    /// Adds a patch at the end, where there is room. Takes no memory.
    pub fn push(&mut self, patch: Patch) -> Result<(), LogFull>
        ensures ok { OnOk result (self.new ≡ with_patch patch self.old) }
        ensures full { is_err result ≡ is_full self.old }
        ensures err { OnErr result (self.new ≡ self.old) }
        ensures patch { IfErr result (λ full. full.0 ≡ patch) }
    {
        if self.patches.len() == self.room as usize {
            return Err(LogFull(patch));
        }
        self.patches.push_reserved(patch);
        Ok(())
    }

    /// Starts a batch of the whole log, and gives copies of its patches. `None` where a batch is out or the log is
    /// empty. If memory runs out, the log is unchanged.
    pub fn start_batch(&mut self, alloc: Global) -> Result<Option<Seq<Patch>>, NoMemory>
        ensures ok { IfOk result (Started self.old self.new) }
        ensures err { OnErr result (self.new ≡ self.old) }
    {
        if self.out > 0 || self.patches.is_empty() {
            return Ok(None);
        }
        let batch = Vec::from_clones(alloc, self.patches.as_slice())?;
        self.out = self.patches.len();
        Ok(Some(Seq::from_vec(batch)))
    }

    /// Removes the batch that is out, which storage has now. Takes no memory.
    pub fn acked(&mut self)
        requires { 0 < self.old.out }
        ensures { self.new ≡ without_batch self.old }
    {
        drop_first(&mut self.patches, self.out);
        self.out = 0;
    }

    /// Whether a batch is out.
    pub fn batch_out(&self) -> bool
        ensures { result ≡ nat_lt 0 self.now.out }
    {
        self.out > 0
    }

    /// Whether half of its room, rounded up, is filled.
    pub fn is_half_full(&self) -> bool
        ensures { result ≡ is_half_full self.now }
    {
        (self.room as usize + 1) / 2 <= self.patches.len()
    }

    /// The number of patches.
    pub fn len(&self) -> u32
        ensures { result ≡ length self.now.patches }
    {
        let _room = self.room; // there are no more patches than this
        self.patches.len() as u32
    }

    /// Whether there is no patch.
    pub fn is_empty(&self) -> bool
        ensures { result ≡ (length self.now.patches == 0) }
    {
        self.patches.is_empty()
    }

    /// Removes all patches. No batch is out then.
    pub fn clear(&mut self)
        ensures { self.new ≡ empty_log self.old.room }
    {
        self.patches.clear();
        self.out = 0;
    }
}

// Removes the first patches.
fn drop_first(patches: &mut Vec<Patch>, count: usize)
    requires { count ≤ length patches.old.items }
    ensures items { patches.new.items ≡ drop count patches.old.items }
    ensures room { vec_capacity patches.new ≡ vec_capacity patches.old }
{
    let rest = patches.len() - count;
    patches.rotate_left(count);
    patches.truncate(rest);
}

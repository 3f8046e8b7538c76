//! The cache of one processor.

ghost use Rattle.std.specs.Prelude.{◌≡◌, ◌+◌, ◌*◌, ◌<◌, ◌≤◌, ◌^◌, IfOk, IfSome, Some, length};
ghost use Rattle.std.specs.Int.{IsPowerOfTwo};
ghost use Rattle.cache_tags.specs.Tags.{is_dirty_slot, least_of, slot_of_line, touch_of};
ghost use Rattle.lego_base.specs.Pieces.{piece};
ghost use Rattle.lego_base.specs.Space.{allows, bytes_of, number_of};
ghost use Rattle.rv64_step.specs.Access.{bytes_in};
ghost use Rattle.line_cache.specs.Cached.{came_in, cleaned, empty_cache, line_in, looked_up, removed, slot_of_touch, written};
ghost use Rattle.line_cache.specs.Counting.{tally_of};
ghost use Rattle.line_cache.specs.Hand.{FetchedAtHand};

use crate::counting;
use crate::hand::Hand;
use crate::line::{self, Line};
use bitflags::Flags;
use cache_tags::{Tags, Touch};
use lego_base::{Counts, LINE_BYTES, LineNo, MemId, NoMemory, Perms, Pid};
use rv64_step::Width;
use std::alloc::Global;
use std::marker::Model;

/// The lines that a processor's cache holds, each in a slot, with what is kept of it there; and what the cache counts.
/// What is kept stays where it is: a line that is touched moves in a list of slots alone.
#[derive(Debug, Drop)]
pub struct LineCache {
    tags: Tags,
    lines: Vec<Line>, // by slot
    counts: Counts,
    hand: Hand, // laid down by each call that may move a line in its set or take it out
}

impl Model for LineCache {
    ghost use Rattle.line_cache.specs.Cached.{Cached};
    ghost use Rattle.line_cache.specs.Counting.{tally_of};
    ghost use Rattle.line_cache.specs.Hand.{Holds};

    ghost Value = { Cached };

    ghost view = { λ c. record { tags = c.tags; lines = c.lines.items; counts = tally_of c.counts } };

    ghost invariant = { λ c. Holds c.hand c.tags.sets c.lines.items };
}

impl LineCache {
    /// An empty cache of `sets` sets of `ways` lines. Takes all memory that it will ever need.
    pub fn new(alloc: Global, sets: u32, ways: u32) -> Result<LineCache, NoMemory>
        requires power { IsPowerOfTwo sets }
        requires some { 0 < ways }
        requires fits { sets * ways < 2 ^ 32 }
        ensures { IfOk result (λ c. c ≡ empty_cache sets ways) }
    {
        let lines = vec![in alloc; Line::none(); sets as usize * ways as usize]?;
        let tags = Tags::new(alloc, sets, ways)?;
        Ok(LineCache {
            tags,
            lines,
            counts: counting::NONE,
            hand: Hand::NONE,
        })
    }

    /// The slot of a line, where it is there: a hit is counted, and the line is the newest of its set then. Where it isn't
    /// there, nothing changes.
    #[inline(always)]
    pub fn look_up(&mut self, pid: Pid, line: LineNo) -> Option<usize>
        ensures answer { result ≡ slot_of_line pid line self.old.tags }
        ensures after { self.new ≡ looked_up pid line self.old }
        ensures within { IfSome result (λ slot. slot < length self.new.lines) }
    {
        match self.tags.newest(pid, line) {
            Some(slot) => {
                counting::hit(&mut self.counts);
                Some(slot)
            }
            None => self.look_up_older(pid, line),
        }
    }

    // Looks up a line that isn't the newest of its set.
    #[inline(never)]
    fn look_up_older(&mut self, pid: Pid, line: LineNo) -> Option<usize>
        ensures answer { result ≡ slot_of_line pid line self.old.tags }
        ensures after { self.new ≡ looked_up pid line self.old }
        ensures within { IfSome result (λ slot. slot < length self.new.lines) }
    {
        self.hand = Hand::NONE;
        let slot = self.tags.look_up(pid, line)?;
        counting::hit(&mut self.counts);
        Some(slot)
    }

    /// The word at an address of a process, where it lies in the line that is at hand. It is a hit, as if the line were looked
    /// up. Where it doesn't lie there, nothing changes.
    #[inline(always)]
    pub fn fetch_at_hand(&mut self, pid: Pid, addr: u64) -> Option<u32>
        ensures { FetchedAtHand pid addr self.old self.new result }
    {
        match self.hand.offset(pid, addr) {
            Some(off) => {
                counting::hit(&mut self.counts);
                Some(line::word(&self.lines[self.hand.slot].bytes, off))
            }
            None => None,
        }
    }

    /// Has the line of an address at hand for fetches, where it is the newest of its set and may be executed.
    pub fn keep_at_hand(&mut self, pid: Pid, addr: u64)
        ensures { self.new ≡ self.old }
    {
        self.hand = Hand::NONE;
        if let Some(slot) = self.tags.newest(pid, LineNo(addr / LINE_BYTES)) {
            if may_execute(self.lines[slot].perms) {
                self.hand = Hand::new(pid, addr, slot);
            }
        }
    }

    /// The slot of a line, where it is there. Nothing is counted, and nothing changes.
    pub fn peek(&self, pid: Pid, line: LineNo) -> Option<usize>
        ensures answer { result ≡ slot_of_line pid line self.now.tags }
        ensures within { IfSome result (λ slot. slot < length self.now.lines) }
    {
        self.tags.peek(pid, line)
    }

    /// What a line that comes in would find: its slot, and the line that would leave. Nothing changes.
    pub fn preview(&self, pid: Pid, line: LineNo) -> Touch
        ensures answer { result ≡ touch_of pid line self.now.tags }
        ensures within { slot_of_touch result < length self.now.lines }
    {
        self.tags.preview(pid, line)
    }

    /// A line comes in, clean and as the newest of its set, in the slot that is the answer. The miss is counted, and the line
    /// that leaves as evicted, and as written back where it is dirty.
    pub fn come_in(&mut self, pid: Pid, line: LineNo, kept: &Line) -> usize
        ensures slot { result ≡ slot_of_touch (touch_of pid line self.old.tags) }
        ensures after { self.new ≡ came_in pid line kept.now self.old }
        ensures within { result < length self.new.lines }
    {
        self.hand = Hand::NONE;
        let touch = self.tags.touch(pid, line);
        counting::touch(&mut self.counts, touch);
        let slot = slot_of(touch);
        self.lines[slot] = *kept;
        slot
    }

    /// The permissions of the page of the line in a slot.
    #[inline(always)]
    pub fn perms(&self, slot: usize) -> Perms
        requires { slot < length self.now.lines }
        ensures { result ≡ (line_in slot self.now).perms }
    {
        self.lines[slot].perms
    }

    /// The memory that owns the region of the line in a slot.
    #[inline(always)]
    pub fn owner(&self, slot: usize) -> MemId
        requires { slot < length self.now.lines }
        ensures { result ≡ (line_in slot self.now).owner }
    {
        self.lines[slot].owner
    }

    /// The bytes of the line in a slot.
    #[inline(always)]
    pub fn bytes(&self, slot: usize) -> &[u8]
        requires { slot < length self.now.lines }
        ensures bytes { result.now ≡ (line_in slot self.now).bytes }
        ensures size { length result.now ≡ 64 }
    {
        &self.lines[slot].bytes
    }

    /// The number in bytes of the line in a slot, starting at an offset within it, the lowest byte first.
    #[inline(always)]
    pub fn number(&self, slot: usize, off: usize, width: Width) -> u64
        requires slot { slot < length self.now.lines }
        requires within { off + bytes_in width ≤ 64 }
        ensures { result ≡ number_of (piece (line_in slot self.now).bytes off (bytes_in width)) }
    {
        line::number(&self.lines[slot].bytes, off, width)
    }

    /// Writes bytes of the line in a slot, starting at an offset within it. It is dirty then.
    #[inline(always)]
    pub fn write(&mut self, slot: usize, off: usize, bytes: &[u8])
        requires slot { slot < length self.old.lines }
        requires within { off + length bytes.now ≤ 64 }
        ensures { self.new ≡ written slot off bytes.now self.old }
    {
        self.tags.mark(slot, true);
        line::lay(&mut self.lines[slot].bytes, off, bytes);
    }

    /// Writes the lowest bytes of a number into the line in a slot, the lowest byte first. The line is dirty then.
    #[inline(always)]
    pub fn put(&mut self, slot: usize, off: usize, width: Width, value: u64)
        requires slot { slot < length self.old.lines }
        requires within { off + bytes_in width ≤ 64 }
        ensures { self.new ≡ written slot off (bytes_of (bytes_in width) value) self.old }
    {
        self.tags.mark(slot, true);
        line::put(&mut self.lines[slot].bytes, off, width, value);
    }

    /// Whether the line in a slot is dirty: its bytes may differ from those that its owner has.
    pub fn is_dirty(&self, slot: usize) -> bool
        ensures { result ≡ is_dirty_slot slot self.now.tags }
    {
        self.tags.dirty(slot)
    }

    /// The line in a slot was written back and stays, clean. The write-back is counted.
    pub fn clean(&mut self, slot: usize)
        ensures { self.new ≡ cleaned slot self.old }
    {
        self.tags.mark(slot, false);
        counting::writeback(&mut self.counts);
    }

    /// Removes a line. Where it isn't there, nothing changes.
    pub fn remove(&mut self, pid: Pid, line: LineNo)
        ensures { self.new ≡ removed pid line self.old }
    {
        self.hand = Hand::NONE;
        self.tags.remove(pid, line);
    }

    /// The least line of a process from `from` to before `to`, where one is there.
    pub fn next_line(&self, pid: Pid, from: LineNo, to: LineNo) -> Option<LineNo>
        ensures { result ≡ least_of pid from to self.now.tags.sets }
    {
        self.tags.next_line(pid, from, to)
    }

    /// What the cache counted since it was made, each count modulo 2^64.
    pub fn counts(&self) -> Counts
        ensures { tally_of result ≡ self.now.counts }
    {
        self.counts
    }
}

// Whether a page with these permissions may be executed.
fn may_execute(perms: Perms) -> bool
    ensures { result ≡ allows (Some perms) 4 }
{
    perms.bits() / Perms::EXEC.bits() % 2 == 1
}

fn slot_of(touch: Touch) -> usize
    ensures { result ≡ slot_of_touch touch }
{
    match touch {
        Touch::Hit(slot) => slot,
        Touch::Miss { slot, victim: _ } => slot,
    }
}

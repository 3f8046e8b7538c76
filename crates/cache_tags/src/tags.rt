//! The tags of a processor's cache.

ghost use Rattle.std.specs.Prelude.{◌≡◌, ◌*◌, ◌%◌, ◌<◌, ◌^◌, Bool, IfOk, IfSome, List, Some, false, length, slice_index_or};
ghost use Rattle.std.specs.Int.{IsPowerOfTwo};
ghost use Rattle.cache_tags.specs.Lists.{newest_slot};
ghost use Rattle.cache_tags.specs.Tags.{empty_sets, is_dirty_slot, least_of, looked_up, marked, no_lines, removed, set_of, slot_of_line, touch_of, touched};

use crate::least;
use crate::set::{Held, Set};
use lego_base::{LineNo, NoMemory, Pid};
use std::alloc::Global;
use std::marker::Model;

/// What a touch of a line found. A slot is a number below the sets times the ways.
#[derive(Clone, Copy, Debug, PartialEq, Eq)]
pub enum Touch {
    /// The line was there, in this slot.
    Hit(usize),
    /// The line came in, in this slot, in place of the victim where its set was full.
    Miss { slot: usize, victim: Option<Victim> },
}

/// A line that left since another one came in.
#[derive(Clone, Copy, Debug, PartialEq, Eq)]
pub struct Victim {
    pub pid: Pid,
    pub line: LineNo,
    pub dirty: bool,
}

/// The lines that a cache holds, each in a slot, and whether they are dirty.
#[derive(Debug, Drop)]
pub struct Tags {
    sets: Vec<Set>,
    mask: u64, // the count of sets, a power of two, less 1
    dirty: Vec<bool>, // by slot
}

impl Model for Tags {
    ghost use Rattle.std.specs.Prelude.{◌≡◌, ◌%◌, ◌<◌, ℕ, bit_and, length};
    ghost use Rattle.cache_tags.specs.Sets.{Tagged};

    ghost Value = { Tagged };

    ghost view = { λ t. record { sets = t.sets.items; dirty = t.dirty.items } };

    ghost invariant = { λ t. (0 < length t.sets.items) × ((line : ℕ) → bit_and line t.mask ≡ line % length t.sets.items) };
}

impl Tags {
    /// The tags of an empty cache of `sets` sets of `ways` lines. Takes all memory that they will ever need.
    pub fn new(alloc: Global, sets: u32, ways: u32) -> Result<Tags, NoMemory>
        requires power { IsPowerOfTwo sets }
        requires some { 0 < ways }
        requires fits { sets * ways < 2 ^ 32 }
        ensures { IfOk result (λ t. t ≡ no_lines sets ways) }
    {
        let dirty = vec![in alloc; false; sets as usize * ways as usize]?;
        let mask = sets as u64 - 1;
        let sets = empty(alloc, sets, ways)?;
        Ok(Tags { sets, mask, dirty })
    }

    /// Touches a line: it is a hit where it is there, else it comes in, clean and as the newest of its set.
    #[inline(always)]
    pub fn touch(&mut self, pid: Pid, line: LineNo) -> Touch
        ensures answer { result ≡ touch_of pid line self.old }
        ensures after { self.new ≡ touched pid line self.old }
    {
        let place = (line.0 & self.mask) as usize;
        match self.sets[place].newest(pid, line) {
            Some(slot) => Touch::Hit(slot),
            None => touch_older(
                self.sets.as_mut_slice(),
                self.dirty.as_mut_slice(),
                place,
                pid,
                line,
            ),
        }
    }

    /// The slot of a line, where it is the newest of its set: a look-up changes nothing then.
    #[inline(always)]
    pub fn newest(&self, pid: Pid, line: LineNo) -> Option<usize>
        ensures answer { result ≡ newest_slot pid line (set_of line self.now).lines }
        ensures there { IfSome result (λ slot. slot_of_line pid line self.now ≡ Some slot) }
        ensures stays { IfSome result (λ slot. looked_up pid line self.now ≡ self.now) }
    {
        self.sets[(line.0 & self.mask) as usize].newest(pid, line)
    }

    /// The slot of a line, where it is there: it is the newest of its set then. Where it isn't there, nothing changes.
    #[inline(always)]
    pub fn look_up(&mut self, pid: Pid, line: LineNo) -> Option<usize>
        ensures answer { result ≡ slot_of_line pid line self.old }
        ensures after { self.new ≡ looked_up pid line self.old }
    {
        let place = (line.0 & self.mask) as usize;
        match self.sets[place].newest(pid, line) {
            Some(slot) => Some(slot),
            None => look_up_older(self.sets.as_mut_slice(), place, pid, line),
        }
    }

    /// What a touch of a line would find. Nothing changes.
    pub fn preview(&self, pid: Pid, line: LineNo) -> Touch
        ensures { result ≡ touch_of pid line self.now }
    {
        let set = &self.sets[(line.0 & self.mask) as usize];
        if let Some(place) = set.place(pid, line) {
            return Touch::Hit(set.at(place).slot as usize);
        }
        let (slot, left) = set.next();
        Touch::Miss {
            slot,
            victim: left.map(|held| leaving(self.dirty.as_slice(), held)),
        }
    }

    /// The slot of a line, where it is there.
    pub fn peek(&self, pid: Pid, line: LineNo) -> Option<usize>
        ensures { result ≡ slot_of_line pid line self.now }
    {
        let set = &self.sets[(line.0 & self.mask) as usize];
        let place = set.place(pid, line)?;
        Some(set.at(place).slot as usize)
    }

    /// Sets whether the line in a slot is dirty.
    #[inline(always)]
    pub fn mark(&mut self, slot: usize, dirty: bool)
        ensures { self.new ≡ marked slot dirty self.old }
    {
        if slot < self.dirty.len() {
            self.dirty[slot] = dirty;
        }
    }

    /// Whether the line in a slot is dirty.
    pub fn dirty(&self, slot: usize) -> bool
        ensures { result ≡ is_dirty_slot slot self.now }
    {
        is_dirty(self.dirty.as_slice(), slot)
    }

    /// The least line of a process from `from` to before `to`, where one is there.
    pub fn next_line(&self, pid: Pid, from: LineNo, to: LineNo) -> Option<LineNo>
        ensures { result ≡ least_of pid from to self.now.sets }
    {
        least::of_sets(self.sets.as_slice(), pid, from, to)
    }

    /// Removes a line. Where it isn't there, nothing changes.
    pub fn remove(&mut self, pid: Pid, line: LineNo)
        ensures { self.new ≡ removed pid line self.old }
    {
        let set = &mut self.sets[(line.0 & self.mask) as usize];
        if let Some(place) = set.place(pid, line) {
            set.release(place);
        }
    }
}

// Touches a line that isn't the newest of its set.
#[inline(never)]
fn touch_older(sets: &mut [Set], dirty: &mut [bool], place: usize, pid: Pid, line: LineNo) -> Touch
    requires place { place ≡ line.0 % length sets.old }
    requires within { place < length sets.old }
    ensures answer { result ≡ touch_of pid line (record { sets = sets.old; dirty = dirty.old }) }
    ensures after { record { sets = sets.new; dirty = dirty.new } ≡ touched pid line (record { sets = sets.old; dirty = dirty.old }) }
{
    let set = &mut sets[place];
    if let Some(found) = set.place(pid, line) {
        let slot = set.at(found).slot;
        set.bring(found);
        return Touch::Hit(slot as usize);
    }
    let (slot, left) = set.take_in(pid, line);
    let victim = left.map(|held| leaving(dirty, held));
    if slot < dirty.len() {
        dirty[slot] = false;
    }
    Touch::Miss { slot, victim }
}

// Looks for a line that isn't the newest of its set.
#[inline(never)]
fn look_up_older(sets: &mut [Set], place: usize, pid: Pid, line: LineNo) -> Option<usize>
    requires place { place ≡ line.0 % length sets.old }
    requires within { place < length sets.old }
    ensures answer { (dirty : List Bool) → result ≡ slot_of_line pid line (record { sets = sets.old; dirty = dirty }) }
    ensures after { (dirty : List Bool) → record { sets = sets.new; dirty = dirty } ≡ looked_up pid line (record { sets = sets.old; dirty = dirty }) }
{
    let set = &mut sets[place];
    let found = set.place(pid, line)?;
    let slot = set.at(found).slot;
    set.bring(found);
    Some(slot as usize)
}

// A line that leaves.
fn leaving(dirty: &[bool], held: Held) -> Victim
    ensures pid { result.pid ≡ held.pid }
    ensures line { result.line ≡ held.line }
    ensures dirty { result.dirty ≡ slice_index_or dirty.now held.slot false }
{
    Victim {
        pid: held.pid,
        line: held.line,
        dirty: is_dirty(dirty, held.slot as usize),
    }
}

fn is_dirty(dirty: &[bool], slot: usize) -> bool
    ensures { result ≡ slice_index_or dirty.now slot false }
{
    match dirty.get(slot) {
        Some(flag) => *flag,
        None => false,
    }
}

// Sets without lines.
fn empty(alloc: Global, sets: u32, ways: u32) -> Result<Vec<Set>, NoMemory>
    requires some { 0 < ways }
    requires fits { sets * ways < 2 ^ 32 }
    ensures { IfOk result (λ all. all.items ≡ empty_sets sets ways 0) }
{
    let mut all = Vec::with_capacity(alloc, sets as usize)?;
    for number in 0..sets {
        all.push(Set::new(alloc, number * ways, ways)?)?;
    }
    Ok(all)
}

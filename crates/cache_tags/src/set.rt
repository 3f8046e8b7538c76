//! One set of a cache: its lines, newest first, and its free slots.

ghost use Rattle.std.specs.Prelude.{◌≡◌, ◌+◌, ◌<◌, ◌≤◌, ◌^◌, IfOk, length, map, position, slice_get, vec_capacity, vec_len};
ghost use Rattle.std.specs.List.{insert, range_with_len};
ghost use Rattle.cache_tags.specs.Lists.{brought, coming, empty_set, free_entry, is_line, newest_slot, released};

use lego_base::{LineNo, NoMemory, Pid};
use std::alloc::Global;
use std::marker::Model;

/// A line that a set holds, and the slot of its bytes.
#[derive(Clone, Copy, Debug, PartialEq, Eq)]
pub struct Held {
    pub line: LineNo,
    pub pid: Pid,
    pub slot: u32,
}

/// The lines of a set, newest first, and its free slots. It has an entry for each way: first those of the lines, then
/// those that are free.
#[derive(Debug, Drop)]
pub(crate) struct Set {
    entries: Vec<Held>,
    live: usize, // entries of lines
}

impl Model for Set {
    ghost use Rattle.std.specs.Prelude.{◌<◌, ◌≤◌, drop, length, map, take};
    ghost use Rattle.cache_tags.specs.Sets.{SetLines, slot_of};

    ghost Value = { SetLines };

    ghost view = { λ s. record { lines = take s.live s.entries.items; free = map slot_of (drop s.live s.entries.items) } };

    ghost invariant = { λ s. (s.live ≤ length s.entries.items) × (0 < length s.entries.items) };
}

impl Set {
    /// A set of `ways` slots starting at one, all of them free.
    pub(crate) fn new(alloc: Global, first: u32, ways: u32) -> Result<Set, NoMemory>
        requires some { 0 < ways }
        requires fits { first + ways ≤ 2 ^ 32 }
        ensures { IfOk result (λ s. s ≡ empty_set first ways) }
    {
        let entries = free_entries(alloc, first, ways)?;
        Ok(Set { entries, live: 0 })
    }

    /// The slot of a line, where it is the newest.
    #[inline(always)]
    pub(crate) fn newest(&self, pid: Pid, line: LineNo) -> Option<usize>
        ensures { result ≡ newest_slot pid line self.now.lines }
    {
        if self.live == 0 {
            return None;
        }
        let held = self.entries[0];
        if held.line.0 == line.0 && held.pid.0 == pid.0 {
            return Some(held.slot as usize);
        }
        None
    }

    /// The place of a line, counted from the newest.
    pub(crate) fn place(&self, pid: Pid, line: LineNo) -> Option<usize>
        ensures { result ≡ position (is_line pid line) self.now.lines }
    {
        self.entries[..self.live]
            .iter()
            .position(|held| held.pid.0 == pid.0 && held.line.0 == line.0)
    }

    /// The line at a place.
    pub(crate) fn at(&self, place: usize) -> Held
        requires { place < length self.now.lines }
        ensures { slice_get self.now.lines place ≡ Some result }
    {
        self.entries[place]
    }

    /// Moves the line at a place to the front.
    pub(crate) fn bring(&mut self, place: usize)
        requires { place < length self.old.lines }
        ensures { self.new ≡ brought place self.old }
    {
        let held = self.entries.remove(place);
        insert_within(&mut self.entries, 0, held);
    }

    /// Takes in a line as the newest, in a free slot, or in that of the oldest line, which leaves and is handed out.
    pub(crate) fn take_in(&mut self, pid: Pid, line: LineNo) -> (usize, Option<Held>)
        ensures slot { result.0 ≡ (coming pid line self.old).slot }
        ensures leaves { result.1 ≡ (coming pid line self.old).leaves }
        ensures set { self.new ≡ (coming pid line self.old).set }
    {
        if self.live < self.entries.len() {
            let free = self.entries.remove(self.live);
            insert_within(
                &mut self.entries,
                0,
                Held {
                    line,
                    pid,
                    slot: free.slot,
                },
            );
            self.live += 1;
            return (free.slot as usize, None);
        }
        let oldest = self.entries.remove(self.live - 1);
        insert_within(
            &mut self.entries,
            0,
            Held {
                line,
                pid,
                slot: oldest.slot,
            },
        );
        (oldest.slot as usize, Some(oldest))
    }

    /// The slot that the next line to be taken in gets, and the line that leaves then, if one does.
    pub(crate) fn next(&self) -> (usize, Option<Held>)
        ensures slot { (pid : _) (line : _) → result.0 ≡ (coming pid line self.now).slot }
        ensures leaves { (pid : _) (line : _) → result.1 ≡ (coming pid line self.now).leaves }
    {
        if self.live < self.entries.len() {
            return (self.entries[self.live].slot as usize, None);
        }
        let oldest = self.entries[self.live - 1];
        (oldest.slot as usize, Some(oldest))
    }

    /// Lets go of the line at a place: its slot is the next to be taken.
    pub(crate) fn release(&mut self, place: usize)
        requires { place < length self.old.lines }
        ensures { self.new ≡ released place self.old }
    {
        let held = self.entries.remove(place);
        self.live -= 1;
        insert_within(&mut self.entries, self.live, held);
    }

    /// The lines, newest first.
    pub(crate) fn lines(&self) -> &[Held]
        ensures { result.now ≡ self.now.lines }
    {
        &self.entries[..self.live]
    }
}

// Entries of free slots.
fn free_entries(alloc: Global, first: u32, ways: u32) -> Result<Vec<Held>, NoMemory>
    requires { first + ways ≤ 2 ^ 32 }
    ensures { IfOk result (λ entries. entries.items ≡ map free_entry (range_with_len first ways)) }
{
    let mut entries = Vec::with_capacity(alloc, ways as usize)?;
    for way in 0..ways {
        entries.push(Held {
            line: LineNo(0),
            pid: Pid(0),
            slot: first + way,
        })?;
    }
    Ok(entries)
}

// Inserts an entry where there is room for it.
fn insert_within(entries: &mut Vec<Held>, place: usize, held: Held)
    requires place { place ≤ vec_len entries.old }
    requires room { vec_len entries.old < vec_capacity entries.old }
    ensures { entries.new.items ≡ insert entries.old.items place held }
{
    match entries.insert(place, held) {
        Ok(()) => {}
        Err(_) => unreachable!(), // there is room
    }
}

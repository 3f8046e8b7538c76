//! The address space of one process.
ghost use Rattle.std.specs.Prelude.{◌≡◌, ℕ, ◌==◌, ◌+◌, ◌/◌, ◌%◌, ◌^◌, ◌<◌, ◌≤◌, length, map, slice_index_or, OnOk, OnErr, IfOk, IfSome, IsTrue, MatchBool, true};
ghost use Rattle.area_list.specs.Runs.{cut_runs};
ghost use Rattle.area_list.specs.declared.TheConstants.{MOST_RUNS};
ghost use Rattle.lego_base.specs.Pieces.{zeros};
ghost use Rattle.lego_base.specs.Space.{perms_of, allows, number_of};
ghost use Rattle.lego_base.specs.declared.sizes.TheConstants.{PAGES_END};
ghost use Rattle.flat_memory.specs.Pieces.{start_in, byte_in, cleared, window, IsPieces, Written};
ghost use Rattle.flat_memory.specs.FastPath.{needed, no_slot, IsFast};

use crate::slot::{Slot, Use};
use crate::word;
use area_list::Areas;
use bitflags::Flags;
use lego_base::{Bytes, MemStop, NoMemory, PAGE_BYTES, Perms, Vpn};
use rv64_step::Width;
use std::alloc::Global;
use std::collections::HashMap;

// The bytes of a page, as a length.
const PAGE: usize = PAGE_BYTES as usize;

// Slots of the fast path: they serve 4 MiB next to each other. Pages that are a multiple of this apart share one.
const SLOTS: u64 = 1024;

/// The address space of one process.
#[derive(Debug, Drop)]
pub struct FlatSpace {
    areas: Areas,
    starts: HashMap<u64, usize>, // by page, where its bytes begin in `bytes`, if it was written
    bytes: Vec<u8>, // in pieces of a page: the first is zeros, and isn't written
    slots: Vec<Slot>, // by the page's number modulo `SLOTS`
    ghost pieces: { IsPieces (start_in starts) bytes.items },
    ghost fast: { IsFast areas (start_in starts) slots.items },
}

// The slot of an address's page.
#[inline(always)]
fn slot_index(addr: u64) -> usize
    ensures { result ≡ addr / 4096 % 1024 }
{
    (addr / PAGE_BYTES % SLOTS) as usize
}

impl FlatSpace {
    ghost use Rattle.lego_base.specs.Space.{permits, bytes_at, with_bytes};
    ghost use Rattle.rv64_step.specs.Access.{bytes_in, to_load, to_store};
    ghost use Rattle.flat_memory.specs.Access.{Copied, CopiedOut, IsRead, IsWrite};
    ghost use Rattle.flat_memory.specs.FastPath.{IsSlot, IsPlace};
    ghost use Rattle.flat_memory.specs.Spaces.{space_of, unmapped, Keeps};

    /// A space with these areas, in which every byte is 0.
    pub fn new(alloc: Global, areas: Areas) -> Result<FlatSpace, NoMemory>
        ensures { IfOk result (λ s. space_of s ≡ record { areas = areas; byte = λ a. 0 }) }
    {
        let bytes = vec![in alloc; 0; PAGE]?;
        let slots = vec![in alloc; Slot::NONE; SLOTS as usize]?;
        Ok(FlatSpace {
            areas,
            starts: HashMap::new(alloc),
            bytes,
            slots,
        })
    }

    /// A copy of the space: it takes as much memory as the pages of this one that were written.
    pub fn duplicate(&self, alloc: Global) -> Result<FlatSpace, NoMemory>
        ensures { IfOk result (λ copy. space_of copy ≡ space_of self.now) }
    {
        let mut areas = Areas::new(alloc)?;
        areas.copy_from(&self.areas);
        let starts = self.starts.clone()?;
        let bytes = Vec::from_slice(alloc, &self.bytes)?;
        let slots = Vec::from_slice(alloc, &self.slots)?;
        Ok(FlatSpace {
            areas,
            starts,
            bytes,
            slots,
        })
    }

    /// A copy of the areas.
    pub fn areas(&self, alloc: Global) -> Result<Areas, NoMemory>
        ensures { IfOk result (λ areas. areas ≡ (space_of self.now).areas) }
    {
        let mut areas = Areas::new(alloc)?;
        areas.copy_from(&self.areas);
        Ok(areas)
    }

    /// The areas become these. The bytes stay, also of pages that aren't mapped.
    pub fn set_areas(&mut self, areas: Areas)
        ensures { space_of self.new ≡ record (space_of self.old) { areas = areas } }
    {
        forget(&mut self.slots);
        self.areas = areas;
    }

    /// `pages` pages, starting at `first`, aren't mapped any more, and their bytes are 0.
    pub fn unmap(&mut self, first: Vpn, pages: u64)
        requires within { first.0 + pages ≤ PAGES_END }
        requires few { length (cut_runs first.0 pages (space_of self.old).areas) ≤ MOST_RUNS }
        ensures { space_of self.new ≡ unmapped first.0 pages (space_of self.old) }
    {
        forget(&mut self.slots);
        match self.areas.cut(first, pages) {
            Ok(()) => {}
            Err(_) => unreachable!(),
        }
        clear_pages(&self.starts, &mut self.bytes, first.0, pages);
    }

    /// A copy of the slot in which an address's page may be.
    pub fn slot(&self, addr: u64) -> Slot
        ensures copy { result ≡ slice_index_or self.now.slots.items (addr / 4096 % 1024) result }
        ensures holds { IsSlot self.now.areas (start_in self.now.starts) result }
    {
        self.slots[slot_index(addr)]
    }

    /// The number in the four bytes at a place.
    #[inline(always)]
    pub fn word_at(&self, at: usize) -> u32
        requires { at + 4 ≤ length self.now.bytes.items }
        ensures { result ≡ number_of (window self.now.bytes.items at 4) }
    {
        word::word(&self.bytes, at)
    }

    /// The number in the bytes at a place.
    #[inline(always)]
    pub fn number_at(&self, at: usize, width: Width) -> u64
        requires { at + bytes_in width ≤ length self.now.bytes.items }
        ensures number { result ≡ number_of (window self.now.bytes.items at (bytes_in width)) }
        ensures fits { result < 256 ^ bytes_in width }
    {
        word::number(&self.bytes, at, width)
    }

    /// Where the bytes at an address are, if the fast path leads there and they permit the use.
    #[inline(always)]
    pub fn find(&self, access: Use, addr: u64, width: Width) -> Option<usize>
        ensures { IfSome result (λ at. IsPlace self.now.areas (start_in self.now.starts) access addr (bytes_in width) at) }
    {
        self.slots[slot_index(addr)].find(access, addr, width)
    }

    /// The number in the bytes at an address, where each of them permits the use.
    pub fn read(&mut self, access: Use, addr: u64, width: Width) -> Option<u64>
        ensures read { IsRead (space_of self.old) (needed access) addr (bytes_in width) result }
        ensures keeps { Keeps self.old self.new }
    {
        match self.find(access, addr, width) {
            Some(at) => Some(self.number_at(at, width)),
            None => self.read_slowly(access, addr, width),
        }
    }

    /// The number in the bytes at an address to which the fast path doesn't lead, where each of them permits the use. The
    /// slot of its page is set, so that the next access finds it there.
    #[cold]
    #[inline(never)]
    pub fn read_slowly(&mut self, access: Use, addr: u64, width: Width) -> Option<u64>
        ensures read { IsRead (space_of self.old) (needed access) addr (bytes_in width) result }
        ensures keeps { Keeps self.old self.new }
    {
        if addr % PAGE_BYTES + width.bytes() > PAGE_BYTES {
            return self.read_across(access, addr, width);
        }
        if !self.page_permits(access.need(), addr) {
            return None;
        }
        let start = start_of(&self.starts, addr / PAGE_BYTES);
        let slot = Slot::new(
            addr / PAGE_BYTES,
            self.areas.perms_at(Vpn(addr / PAGE_BYTES)),
            start,
        );
        self.slots[slot_index(addr)] = slot;
        Some(self.number_at(start + (addr % PAGE_BYTES) as usize, width))
    }

    // The number in bytes that may lie in two pages.
    #[cold]
    fn read_across(&self, access: Use, addr: u64, width: Width) -> Option<u64>
        ensures { IsRead (space_of self.now) (needed access) addr (bytes_in width) result }
    {
        if !self.permits(access.need(), addr, width.bytes()) {
            return None;
        }
        let mut value = 0;
        for k in (0..width.bytes()).rev() {
            value = value * 256 + self.byte(addr + k) as u64;
        }
        Some(value)
    }

    // The byte at an address.
    fn byte(&self, addr: u64) -> u8
        ensures { result ≡ (space_of self.now).byte addr }
    {
        self.bytes[start_of(&self.starts, addr / PAGE_BYTES) + (addr % PAGE_BYTES) as usize]
    }

    // Whether the page of an address has a permission.
    fn page_permits(&self, need: u8, addr: u64) -> bool
        ensures permits { result ≡ allows (perms_of self.now.areas (addr / 4096)) need }
        ensures ends { IsTrue result → addr < 2 ^ 38 }
    {
        let _runs = self.areas.runs(); // none of them passes the end of the addresses, 2^38
        allows(self.areas.perms_at(Vpn(addr / PAGE_BYTES)), need)
    }

    /// Whether the page of each of `len` bytes has a permission: 1 to read, 2 to write, 4 to execute. Where it has, they end
    /// at 2^38 at most.
    pub fn permits(&self, need: u8, addr: u64, len: u64) -> bool
        ensures permits { result ≡ permits (space_of self.now) need addr len }
        ensures ends { IsTrue result → 0 < len → addr + len ≤ 2 ^ 38 }
    {
        let mut at = addr;
        let mut left = len;
        while left > 0 {
            if !self.page_permits(need, at) {
                return false;
            }
            let room = PAGE_BYTES - at % PAGE_BYTES;
            if left <= room {
                return true;
            }
            left -= room;
            at += room;
        }
        true
    }

    /// Writes the lowest bytes of a value at an address, where the fast path leads there: whether it did.
    #[inline(always)]
    pub fn store_fast(&mut self, addr: u64, width: Width, value: u64) -> bool
        ensures stays { (self.new.areas ≡ self.old.areas) × (self.new.starts ≡ self.old.starts) }
        ensures done { MatchBool result (IsWrite (space_of self.old) (space_of self.new) addr (bytes_in width) value true) (Keeps self.old self.new) }
    {
        match self.find(Use::Store, addr, width) {
            Some(at) => {
                word::put(&mut self.bytes, at, width, value);
                true
            }
            None => false,
        }
    }

    /// Writes the lowest bytes of a value at any address, where each of them may be stored: whether they may.
    #[cold]
    #[inline(never)]
    pub fn store_slowly(&mut self, addr: u64, width: Width, value: u64) -> Result<bool, NoMemory>
        ensures { IfOk result (IsWrite (space_of self.old) (space_of self.new) addr (bytes_in width) value) }
    {
        if !self.permits(Use::Store.need(), addr, width.bytes()) {
            return Ok(false);
        }
        let number = value.to_le_bytes();
        self.fill(addr, &number[..width.bytes() as usize])?;
        Ok(true)
    }

    /// Writes bytes that end at 2^38 at most, whatever their pages permit.
    pub fn fill(&mut self, addr: u64, bytes: &[u8]) -> Result<(), NoMemory>
        requires { addr + length bytes.now ≤ 2 ^ 38 }
        ensures { OnOk result (space_of self.new ≡ with_bytes (space_of self.old) addr bytes.now) }
    {
        let mut done = 0;
        while done < bytes.len() {
            let at = addr + done as u64;
            let room = (PAGE_BYTES - at % PAGE_BYTES) as usize;
            let end = done + room.min(bytes.len() - done);
            self.fill_page(at, &bytes[done..end])?;
            done = end;
        }
        Ok(())
    }

    /// Writes bytes of one page, whatever it permits.
    pub fn fill_page(&mut self, addr: u64, bytes: &[u8]) -> Result<(), NoMemory>
        requires { addr % 4096 + length bytes.now ≤ 4096 }
        ensures { OnOk result (space_of self.new ≡ with_bytes (space_of self.old) addr bytes.now) }
    {
        let start = self.own_page(addr / PAGE_BYTES)?;
        let place = start + (addr % PAGE_BYTES) as usize;
        self.bytes[place..place + bytes.len()].copy_from_slice(bytes);
        Ok(())
    }

    // Where the bytes of a page begin that it has for itself: they are made if there are none. The page's slot is set.
    fn own_page(&mut self, page: u64) -> Result<usize, NoMemory>
        requires { page < 2 ^ 52 }
        ensures same { space_of self.new ≡ space_of self.old }
        ensures own { OnOk result (0 < start_in self.new.starts page) }
        ensures start { IfOk result (λ start. start ≡ start_in self.new.starts page) }
    {
        let start = own_piece(&mut self.starts, &mut self.bytes, page)?;
        let slot = Slot::new(page, self.areas.perms_at(Vpn(page)), start);
        self.slots[(page % SLOTS) as usize] = slot;
        Ok(start)
    }

    /// A copy of `len` bytes, where each of them may be read.
    pub fn copy(&self, alloc: Global, addr: u64, len: u64) -> Result<Bytes, MemStop>
        ensures copied { Copied (space_of self.now) addr len result }
        ensures ends { IfOk result (λ bytes. 0 < len → addr + len ≤ 2 ^ 38) }
    {
        if !self.permits(Use::Load.need(), addr, len) {
            return Err(MemStop::Segv);
        }
        Ok(self.pages(alloc, addr, len as usize)?)
    }

    /// Writes bytes, at least one, where each of them may be written.
    pub fn copy_out(&mut self, addr: u64, bytes: &[u8]) -> Result<(), MemStop>
        requires { 0 < length bytes.now }
        ensures { CopiedOut (space_of self.old) (space_of self.new) addr bytes.now result }
    {
        if !self.permits(Use::Store.need(), addr, bytes.len() as u64) {
            return Err(MemStop::Segv);
        }
        Ok(self.fill(addr, bytes)?)
    }

    // A copy of `len` bytes that end at 2^38 at most, page by page.
    fn pages(&self, alloc: Global, addr: u64, len: usize) -> Result<Bytes, NoMemory>
        requires { 0 < len → addr + len ≤ 2 ^ 38 }
        ensures { IfOk result (λ bytes. bytes ≡ bytes_at (space_of self.now) addr len) }
    {
        let mut copy = Vec::with_capacity(alloc, len)?;
        let mut done = 0;
        while done < len {
            let at = addr + done as u64;
            let place = start_of(&self.starts, at / PAGE_BYTES) + (at % PAGE_BYTES) as usize;
            let more = ((PAGE_BYTES - at % PAGE_BYTES) as usize).min(len - done);
            copy.extend_from_slice(&self.bytes[place..place + more])?;
            done += more;
        }
        Bytes::from_vec(copy)
    }
}

// Whether a page with these permissions, if it is mapped, has one of them.
fn allows(perms: Option<Perms>, need: u8) -> bool
    ensures { result ≡ allows perms need }
{
    match perms {
        Some(perms) => has(perms.bits(), need),
        None => false,
    }
}

// Whether permissions have one of them.
fn has(perms: u8, need: u8) -> bool
    ensures { result ≡ (perms / need % 2 == 1) }
{
    if need == 0 {
        return false;
    }
    perms / need % 2 == 1
}

// Slots in which no page is.
fn forget(slots: &mut [Slot])
    ensures { slots.new ≡ map (λ slot. no_slot) slots.old }
{
    for slot in slots.iter_mut() {
        *slot = Slot::NONE;
    }
}

// Makes the bytes of `pages` pages, starting at `first`, 0.
fn clear_pages(starts: &HashMap<u64, usize>, bytes: &mut [u8], first: u64, pages: u64)
    requires pieces { IsPieces (start_in starts.now) bytes.old }
    requires within { first + pages ≤ PAGES_END }
    ensures length { length bytes.new ≡ length bytes.old }
    ensures pieces { IsPieces (start_in starts.now) bytes.new }
    ensures cleared { byte_in (start_in starts.now) bytes.new ≡ cleared first pages (byte_in (start_in starts.now) bytes.old) }
{
    let mut done = 0;
    while done < pages {
        clear_page(starts, bytes, first + done);
        done += 1;
    }
}

// Makes the bytes of a page 0.
fn clear_page(starts: &HashMap<u64, usize>, bytes: &mut [u8], page: u64)
    requires { IsPieces (start_in starts.now) bytes.old }
    ensures length { length bytes.new ≡ length bytes.old }
    ensures pieces { IsPieces (start_in starts.now) bytes.new }
    ensures cleared { byte_in (start_in starts.now) bytes.new ≡ cleared page 1 (byte_in (start_in starts.now) bytes.old) }
{
    let start = start_of(starts, page);
    if start > 0 {
        clear_piece(bytes, start);
    }
}

// Makes the bytes of a piece 0.
fn clear_piece(bytes: &mut [u8], start: usize)
    requires { start + 4096 ≤ length bytes.old }
    ensures { Written bytes.old start (zeros 4096) bytes.new }
{
    bytes[start..start + PAGE].copy_from_slice(&[0; PAGE]);
}

// Where the bytes of a page begin.
fn start_of(starts: &HashMap<u64, usize>, page: u64) -> usize
    ensures { result ≡ start_in starts.now page }
{
    starts.get(&page).copied().unwrap_or(0)
}

// Where the bytes of a page begin that it has for itself: a piece of zeros is made for it if it has none.
fn own_piece(
    starts: &mut HashMap<u64, usize>,
    bytes: &mut Vec<u8>,
    page: u64,
) -> Result<usize, NoMemory>
    requires { IsPieces (start_in starts.old) bytes.old.items }
    ensures pieces { IsPieces (start_in starts.new) bytes.new.items }
    ensures same { byte_in (start_in starts.new) bytes.new.items ≡ byte_in (start_in starts.old) bytes.old.items }
    ensures own { IfOk result (λ start. (0 < start) × (start ≡ start_in starts.new page)) }
    ensures others { (p : ℕ) → (p ≡ page → ⊥) → start_in starts.new p ≡ start_in starts.old p }
    ensures err { OnErr result ((p : ℕ) → start_in starts.new p ≡ start_in starts.old p) }
{
    let own = start_of(starts, page);
    if own > 0 {
        return Ok(own);
    }
    let start = bytes.len();
    bytes.resize(start + PAGE, 0)?;
    starts.insert(page, start)?;
    Ok(start)
}

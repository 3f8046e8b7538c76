//! The address spaces of guest processes, by pid.
ghost use Rattle.std.specs.Prelude.{◌≡◌, MatchOption, ◌+◌, ◌%◌, ◌≤◌, ◌<◌, ◌^◌, ℕ, length, vec_len, OnOk, IfOk, IsTrue};
ghost use Rattle.area_list.specs.Runs.{cut_runs};
ghost use Rattle.area_list.specs.declared.TheConstants.{MOST_RUNS};
ghost use Rattle.lego_base.specs.Space.{no_space};
ghost use Rattle.lego_base.specs.declared.sizes.TheConstants.{PAGES_END};
ghost use Rattle.flat_memory.specs.Access.{Copied, CopiedTo};

use crate::space::FlatSpace;
use crate::turn::TurnSpace;
use area_list::Areas;
use lego_base::{Bytes, MemStop, NoMemory, Pid, Vpn};
use std::alloc::Global;

/// The address spaces of guest processes, by pid. Nothing is mapped for a pid that wasn't named in `create`.
#[derive(Debug, Drop)]
pub struct FlatMemory {
    alloc: Global,
    spaces: Vec<Option<FlatSpace>>, // by pid
}

impl FlatMemory {
    ghost use Rattle.lego_base.specs.Space.{permits, with_bytes, with_space};
    ghost use Rattle.flat_memory.specs.Spaces.{space_of, spaces_of, unmapped};

    /// A memory of no process.
    pub fn new(alloc: Global) -> Result<FlatMemory, NoMemory>
        ensures { IfOk result (λ memory. spaces_of memory ≡ (λ pid. no_space)) }
    {
        Ok(FlatMemory {
            alloc,
            spaces: Vec::new(alloc),
        })
    }

    /// Gives a process a space with these areas, in which every byte is 0.
    pub fn create(&mut self, pid: Pid, areas: Areas) -> Result<(), NoMemory>
        ensures { OnOk result (spaces_of self.new ≡ with_space (spaces_of self.old) pid.0 (record { areas = areas; byte = λ a. 0 })) }
    {
        let space = FlatSpace::new(self.alloc, areas)?;
        self.set(pid, space)
    }

    /// Writes bytes at an address below 2^38, whatever its page permits.
    pub fn fill(&mut self, pid: Pid, addr: u64, bytes: &[u8]) -> Result<(), NoMemory>
        requires { addr + length bytes.now ≤ 2 ^ 38 }
        ensures { OnOk result (spaces_of self.new ≡ with_space (spaces_of self.old) pid.0 (with_bytes (spaces_of self.old pid.0) addr bytes.now)) }
    {
        let mut space = self.remove(pid)?;
        space.fill(addr, bytes)?;
        self.set(pid, space)
    }

    /// Writes bytes of one page, whatever it permits.
    pub fn fill_page(&mut self, pid: Pid, addr: u64, bytes: &[u8]) -> Result<(), NoMemory>
        requires { addr % 4096 + length bytes.now ≤ 4096 }
        ensures { OnOk result (spaces_of self.new ≡ with_space (spaces_of self.old) pid.0 (with_bytes (spaces_of self.old pid.0) addr bytes.now)) }
    {
        let mut space = self.remove(pid)?;
        space.fill_page(addr, bytes)?;
        self.set(pid, space)
    }

    /// Whether the page of each of `len` bytes has a permission: 1 to read, 2 to write, 4 to execute. Where it has, they end
    /// at 2^38 at most.
    pub fn permits(&self, pid: Pid, need: u8, addr: u64, len: u64) -> bool
        ensures permits { result ≡ permits (spaces_of self.now pid.0) need addr len }
        ensures ends { IsTrue result → 0 < len → addr + len ≤ 2 ^ 38 }
    {
        match self.space(pid) {
            Some(space) => space.permits(need, addr, len),
            None => len == 0,
        }
    }

    /// A copy of the areas of a process.
    pub fn areas(&self, alloc: Global, pid: Pid) -> Result<Areas, NoMemory>
        ensures { IfOk result (λ areas. areas ≡ (spaces_of self.now pid.0).areas) }
    {
        match self.space(pid) {
            Some(space) => space.areas(alloc),
            None => Areas::new(alloc),
        }
    }

    /// The areas of a process become these. Its bytes stay.
    pub fn set_areas(&mut self, pid: Pid, areas: Areas) -> Result<(), NoMemory>
        ensures ok { OnOk result (spaces_of self.new ≡ with_space (spaces_of self.old) pid.0 (record (spaces_of self.old pid.0) { areas = areas })) }
    {
        let mut space = self.remove(pid)?;
        space.set_areas(areas);
        self.set(pid, space)
    }

    /// `pages` pages, starting at `first`, aren't mapped any more, and their bytes are 0.
    pub fn unmap(&mut self, pid: Pid, first: Vpn, pages: u64) -> Result<(), NoMemory>
        requires within { first.0 + pages ≤ PAGES_END }
        requires few { length (cut_runs first.0 pages (spaces_of self.old pid.0).areas) ≤ MOST_RUNS }
        ensures { OnOk result (spaces_of self.new ≡ with_space (spaces_of self.old) pid.0 (unmapped first.0 pages (spaces_of self.old pid.0))) }
    {
        let mut space = self.remove(pid)?;
        space.unmap(first, pages);
        self.set(pid, space)
    }

    /// Gives a process a copy of the space of another one.
    pub fn copy_space(&mut self, parent: Pid, child: Pid) -> Result<(), NoMemory>
        ensures { OnOk result (spaces_of self.new ≡ with_space (spaces_of self.old) child.0 (spaces_of self.old parent.0)) }
    {
        match self.space(parent) {
            Some(space) => {
                let copy = space.duplicate(self.alloc)?;
                self.set(child, copy)
            }
            None => {
                self.drop_space(child);
                Ok(())
            }
        }
    }

    /// Drops the space of a process, if it has one.
    pub fn drop_space(&mut self, pid: Pid)
        ensures { spaces_of self.new ≡ with_space (spaces_of self.old) pid.0 no_space }
    {
        let index = pid.0 as usize;
        if index < self.spaces.len() {
            self.spaces[index] = None;
        }
    }

    /// A copy of the `len` bytes at an address, where each of them may be read.
    pub fn copy_in(&self, alloc: Global, pid: Pid, addr: u64, len: u64) -> Result<Bytes, MemStop>
        ensures copied { Copied (spaces_of self.now pid.0) addr len result }
        ensures ends { IfOk result (λ bytes. 0 < len → addr + len ≤ 2 ^ 38) }
    {
        let Some(space) = self.space(pid) else {
            return no_bytes(alloc, len);
        };
        space.copy(alloc, addr, len)
    }

    /// Writes bytes at an address, where each of them may be written.
    pub fn copy_out(&mut self, pid: Pid, addr: u64, bytes: &[u8]) -> Result<(), MemStop>
        ensures { CopiedTo (spaces_of self.old) (spaces_of self.new) pid.0 addr bytes.now result }
    {
        if bytes.is_empty() {
            return Ok(());
        }
        let index = pid.0 as usize;
        if index >= self.spaces.len() {
            return Err(MemStop::Segv);
        }
        match &mut self.spaces[index] {
            Some(space) => space.copy_out(addr, bytes),
            None => Err(MemStop::Segv),
        }
    }

    /// Takes the space of a process out of the memory for a turn. Until it is put back, nothing is mapped for it here.
    pub fn take(&mut self, pid: Pid) -> Result<TurnSpace, NoMemory>
        ensures taken { IfOk result (λ turn. (turn.pid ≡ pid) × (space_of turn.space ≡ spaces_of self.old pid.0)) }
        ensures others { (q : ℕ) → (q ≡ pid.0 → ⊥) → spaces_of self.new q ≡ spaces_of self.old q }
    {
        let space = self.remove(pid)?;
        Ok(TurnSpace::new(pid, space))
    }

    /// Puts the space of a process back after its turn.
    pub fn put(&mut self, turn: TurnSpace) -> Result<(), NoMemory>
        ensures put { OnOk result (spaces_of self.new ≡ with_space (spaces_of self.old) turn.pid.0 (space_of turn.space)) }
        ensures others { (q : ℕ) → (q ≡ turn.pid.0 → ⊥) → spaces_of self.new q ≡ spaces_of self.old q }
    {
        let TurnSpace { pid, space, .. } = turn;
        self.set(pid, space)
    }

    // The space of a pid.
    fn space(&self, pid: Pid) -> Option<&FlatSpace>
        ensures { MatchOption result (spaces_of self.now pid.0 ≡ no_space) (λ space. spaces_of self.now pid.0 ≡ space_of space.now) }
    {
        let index = pid.0 as usize;
        if index >= self.spaces.len() {
            return None;
        }
        self.spaces[index].as_ref()
    }

    // Takes the space of a pid out: an empty one where there is none.
    fn remove(&mut self, pid: Pid) -> Result<FlatSpace, NoMemory>
        ensures removed { IfOk result (λ space. space_of space ≡ spaces_of self.old pid.0) }
        ensures others { (q : ℕ) → (q ≡ pid.0 → ⊥) → spaces_of self.new q ≡ spaces_of self.old q }
    {
        self.grow(pid.0 as usize + 1)?;
        match self.spaces[pid.0 as usize].take() {
            Some(space) => Ok(space),
            None => FlatSpace::new(self.alloc, Areas::new(self.alloc)?),
        }
    }

    // Makes this the space of a pid.
    fn set(&mut self, pid: Pid, space: FlatSpace) -> Result<(), NoMemory>
        ensures set { OnOk result (spaces_of self.new ≡ with_space (spaces_of self.old) pid.0 (space_of space)) }
        ensures others { (q : ℕ) → (q ≡ pid.0 → ⊥) → spaces_of self.new q ≡ spaces_of self.old q }
    {
        self.grow(pid.0 as usize + 1)?;
        self.spaces[pid.0 as usize] = Some(space);
        Ok(())
    }

    // Makes room for `count` spaces at least: there is none where there was no room.
    fn grow(&mut self, count: usize) -> Result<(), NoMemory>
        ensures spaces { spaces_of self.new ≡ spaces_of self.old }
        ensures room { OnOk result (count ≤ vec_len self.new.spaces) }
    {
        while self.spaces.len() < count {
            self.spaces.push(None)?;
        }
        Ok(())
    }
}

// A copy of `len` bytes where nothing is mapped.
fn no_bytes(alloc: Global, len: u64) -> Result<Bytes, MemStop>
    ensures copied { (addr : _) → Copied no_space addr len result }
    ensures none { IfOk result (λ bytes. len ≡ 0) }
{
    if len > 0 {
        return Err(MemStop::Segv);
    }
    Ok(Bytes::with_room(alloc, 0)?)
}

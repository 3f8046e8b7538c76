//! The table of owners.

ghost use Rattle.std.specs.Prelude.{◌≡◌, ◌<◌, length, IfOk, OnOk, OnErr};
ghost use Rattle.lego_base.specs.Keys.{is_of, put_all, those};
ghost use Rattle.lego_msg.specs.Maps.{home_key, owner_of, owned_by as owned_entries};
ghost use Rattle.placement.specs.Owners.{assigned, dropped, entries_of, in_turn as turn_of, inherited, mapped, next_owner, no_owners, placed_all, spaces_in};

use crate::entries::{inherited_in, process_entries, spaces_of, unowned_in, with_all};
use keyed_list::{get, put, remove_process};
use lego_base::{HomeEntry, MemId, NoMemory, Pid, RegionNo, Seq, Spaces};
use std::alloc::Global;
use std::marker::Model;

/// The owners of regions, and whose turn it is.
#[derive(Debug, Drop)]
pub struct Table {
    memories: u32,
    placement: Vec<MemId>,
    given: u64, // assignments so far
    owners: Vec<HomeEntry>, // in rising order of process and region
}

impl Model for Table {
    ghost use Rattle.std.specs.Prelude.{◌<◌, length};
    ghost use Rattle.lego_base.specs.Keys.{Rises};
    ghost use Rattle.lego_msg.specs.Maps.{home_key};
    ghost use Rattle.placement.specs.Owners.{Owned};

    ghost Value = { Owned };

    ghost view = { λ t. record { memories = t.memories; placement = t.placement.items; given = t.given; owners = t.owners.items } };

    ghost invariant = { λ t. (0 < length t.placement.items) × Rises home_key t.owners.items };
}

impl Table {
    /// A table of a machine with `memories` memory components, in which no region has an owner.
    pub fn new(alloc: Global, memories: u32, placement: &[MemId]) -> Result<Table, NoMemory>
        requires { 0 < length placement.now }
        ensures { IfOk result (λ t. t ≡ no_owners memories placement.now) }
    {
        let placement = Vec::from_slice(alloc, placement)?;
        Ok(Table {
            memories,
            placement,
            given: 0,
            owners: Vec::new(alloc),
        })
    }

    /// How many memory components the machine has.
    pub fn memories(&self) -> u32
        ensures { result ≡ self.now.memories }
    {
        self.memories
    }

    /// Gives a region its owner, the next in turn. Fails where memory runs out, and after 2^64 - 1 assignments.
    pub fn assign(&mut self, pid: Pid, region: RegionNo) -> Result<MemId, NoMemory>
        ensures owner { IfOk result (λ owner. owner ≡ next_owner self.old) }
        ensures ok { OnOk result (self.new ≡ assigned pid region self.old) }
        ensures err { OnErr result (self.new ≡ self.old) }
    {
        let Some(given) = self.given.checked_add(1) else {
            return Err(NoMemory);
        };
        let owner = in_turn(self.placement.as_slice(), self.given);
        put(&mut self.owners, HomeEntry { pid, region, owner })?;
        self.given = given;
        Ok(owner)
    }

    /// Gives those of a mapping's regions that have no owner theirs, by turns and in their order, and returns their entries.
    /// Fails as [`assign`](Table::assign) does.
    pub fn assign_unowned(
        &mut self,
        pid: Pid,
        regions: &[RegionNo],
    ) -> Result<Seq<HomeEntry>, NoMemory>
        ensures ok { OnOk result (self.new ≡ placed_all (mapped pid regions.now self.old.owners) self.old) }
        ensures new { IfOk result (λ new. new ≡ entries_of self.old.placement self.old.given (mapped pid regions.now self.old.owners)) }
        ensures put { IfOk result (λ new. self.new.owners ≡ put_all home_key new self.old.owners) }
        ensures err { OnErr result (self.new ≡ self.old) }
    {
        let alloc = *self.owners.allocator();
        let owners = self.owners.as_slice();
        let new = unowned_in(
            owners,
            alloc,
            self.placement.as_slice(),
            self.given,
            pid,
            regions,
        )?;
        if new.is_empty() {
            return Ok(Seq::from_vec(new));
        }
        let Some(assigned) = self.given.checked_add(new.len() as u64) else {
            return Err(NoMemory);
        };
        self.owners = with_all(owners, alloc, new.as_slice())?;
        self.given = assigned;
        Ok(Seq::from_vec(new))
    }

    /// Gives a child's regions the owners that its parent's have.
    pub fn inherit(&mut self, parent: Pid, child: Pid) -> Result<(), NoMemory>
        ensures ok { OnOk result (self.new ≡ inherited parent child self.old) }
        ensures err { OnErr result (self.new ≡ self.old) }
    {
        let owners = inherited_in(
            self.owners.as_slice(),
            *self.owners.allocator(),
            parent,
            child,
        )?;
        self.owners = owners;
        Ok(())
    }

    /// A region's owner, where it has one.
    pub fn owner(&self, pid: Pid, region: RegionNo) -> Option<MemId>
        ensures { result ≡ owner_of self.now.owners pid.0 region.0 }
    {
        get(self.owners.as_slice(), pid, region.0).map(|entry| entry.owner)
    }

    /// The regions that a memory owns, in rising order of process and region.
    pub fn owned_by(&self, alloc: Global, memory: MemId) -> Result<Spaces, NoMemory>
        ensures { IfOk result (λ spaces. spaces ≡ spaces_in (owned_entries memory.0 self.now.owners)) }
    {
        spaces_of(self.owners.as_slice(), alloc, memory)
    }

    /// The entries of a process's regions, in rising order.
    pub fn of_process(&self, alloc: Global, pid: Pid) -> Result<Seq<HomeEntry>, NoMemory>
        ensures { IfOk result (λ entries. entries ≡ those home_key (is_of pid.0) self.now.owners) }
    {
        process_entries(self.owners.as_slice(), alloc, pid)
    }

    /// A process's regions have owners no more.
    pub fn drop_process(&mut self, pid: Pid)
        ensures { self.new ≡ dropped pid self.old }
    {
        remove_process(&mut self.owners, pid);
    }
}

// Whose turn it is at the assignment with this number, from 0.
pub(crate) fn in_turn(placement: &[MemId], number: u64) -> MemId
    requires { 0 < length placement.now }
    ensures { result ≡ turn_of placement.now number }
{
    let place = number % placement.len() as u64;
    placement[place as usize]
}

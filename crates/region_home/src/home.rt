//! A finite map from regions to their owners.

ghost use Rattle.std.specs.Prelude.{◌≡◌, [], IfOk, OnOk, OnErr};
ghost use Rattle.lego_base.specs.Keys.{Rises, put_all};
ghost use Rattle.lego_msg.specs.Maps.{home_key};

use keyed_list::{get, put, remove_process};
use lego_base::{HomeEntry, MemId, NoMemory, Pid, RegionNo, Seq};
use std::alloc::Global;
use std::marker::Model;

/// The owner of each region of the processes whose home this is (LegoOS, OSDI 2018, on memory space management).
#[derive(Debug, Drop)]
pub struct Home {
    entries: Vec<HomeEntry>,
}

impl Model for Home {
    ghost use Rattle.std.specs.Prelude.{List};
    ghost use Rattle.lego_base.specs.declared.records.HomeEntry.{HomeEntry};

    ghost Value = { List HomeEntry };

    ghost use Rattle.lego_base.specs.Keys.{Rises};
    ghost use Rattle.lego_msg.specs.Maps.{home_key};

    ghost view = { λ h. h.entries.items };

    ghost invariant = { λ h. Rises home_key h.entries.items };
}

impl Home {
    ghost use Rattle.lego_base.specs.Keys.{Rises, is_of, put, put_all, without};
    ghost use Rattle.lego_msg.specs.Maps.{home_key, owner_of};

    /// No region has an owner. Takes no memory.
    pub fn new(alloc: Global) -> Result<Home, NoMemory>
        ensures { IfOk result (λ home. home ≡ []) }
    {
        Ok(Home {
            entries: Vec::new(alloc),
        })
    }

    /// Makes a memory the owner of a region. If memory runs out, nothing changes.
    pub fn set(&mut self, pid: Pid, region: RegionNo, owner: MemId) -> Result<(), NoMemory>
        ensures ok { OnOk result (self.new ≡ put home_key (record { pid = pid; region = region; owner = owner }) self.old) }
        ensures err { OnErr result (self.new ≡ self.old) }
    {
        put(&mut self.entries, HomeEntry { pid, region, owner })
    }

    /// The owner of a region, where it has one. It is found by binary search.
    pub fn get(&self, pid: Pid, region: RegionNo) -> Option<MemId>
        ensures { result ≡ owner_of self.now pid.0 region.0 }
    {
        match get(self.entries.as_slice(), pid, region.0) {
            Some(entry) => Some(entry.owner),
            None => None,
        }
    }

    /// A copy of all entries, rising by process and region.
    pub fn entries(&self, alloc: Global) -> Result<Seq<HomeEntry>, NoMemory>
        ensures entries { IfOk result (λ entries. entries ≡ self.now) }
        ensures rise { Rises home_key self.now }
    {
        Ok(Seq::from_vec(self.entries.as_slice().to_vec(alloc)?))
    }

    /// Makes these the entries, of which a later one counts. If memory runs out, some of them are there.
    pub fn replace(&mut self, entries: &[HomeEntry]) -> Result<(), NoMemory>
        ensures { OnOk result (self.new ≡ put_all home_key entries.now []) }
    {
        self.entries.clear();
        put_each(&mut self.entries, entries)
    }

    /// Removes the owners of a process's regions.
    pub fn drop_process(&mut self, pid: Pid)
        ensures { self.new ≡ without home_key (is_of pid.0) self.old }
    {
        remove_process(&mut self.entries, pid);
    }

    /// Removes all owners.
    pub fn clear(&mut self)
        ensures { self.new ≡ [] }
    {
        self.entries.clear();
    }
}

// Puts entries one after the other.
fn put_each(entries: &mut Vec<HomeEntry>, new: &[HomeEntry]) -> Result<(), NoMemory>
    requires { Rises home_key entries.old.items }
    ensures ok { OnOk result (entries.new.items ≡ put_all home_key new.now entries.old.items) }
    ensures rises { Rises home_key entries.new.items }
{
    for entry in new {
        put(entries, *entry)?;
    }
    Ok(())
}

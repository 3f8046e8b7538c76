//! The areas of regions.

ghost use Rattle.std.specs.Prelude.{◌≡◌, [], IfOk, OnOk, OnErr};
ghost use Rattle.lego_base.specs.Keys.{Rises, is_of, without};
ghost use Rattle.lego_msg.specs.Maps.{areas_at, areas_key, with_all_areas, with_areas};

use keyed_list::{get, put, remove, remove_process};
use lego_base::{Area, AreaRuns, NoMemory, Pid, RegionNo, Seq, SpaceAreas};
use std::alloc::Global;
use std::marker::Model;

/// The areas of each region of some processes: of a region without areas no list is kept.
#[derive(Debug, Drop)]
pub struct AreaLists {
    lists: Vec<SpaceAreas>, // rising by process and region
}

impl Model for AreaLists {
    ghost use Rattle.std.specs.Prelude.{List};
    ghost use Rattle.lego_base.specs.declared.records.SpaceAreas.{SpaceAreas};

    ghost Value = { List SpaceAreas };

    ghost use Rattle.lego_base.specs.Keys.{Rises};
    ghost use Rattle.lego_msg.specs.Maps.{areas_key};

    ghost view = { λ a. a.lists.items };

    ghost invariant = { λ a. Rises areas_key a.lists.items };
}

impl AreaLists {
    /// No region has areas.
    pub fn new(alloc: Global) -> AreaLists
        ensures { result ≡ [] }
    {
        AreaLists {
            lists: Vec::new(alloc),
        }
    }

    /// The areas of a region. The list is found by binary search.
    pub fn areas(&self, pid: Pid, region: RegionNo) -> &[Area]
        ensures { result.now ≡ areas_at self.now pid.0 region.0 }
    {
        match get(self.lists.as_slice(), pid, region.0) {
            Some(list) => list.areas.as_slice(),
            None => &[],
        }
    }

    /// Makes these the areas of a region. They are moved, not copied.
    pub fn set(&mut self, pid: Pid, region: RegionNo, areas: AreaRuns) -> Result<(), NoMemory>
        ensures ok { OnOk result (self.new ≡ with_areas pid region areas self.old) }
        ensures err { OnErr result (self.new ≡ self.old) }
    {
        set_in(&mut self.lists, pid, region, areas)
    }

    /// Drops the areas of a process.
    pub fn drop_process(&mut self, pid: Pid)
        ensures { self.new ≡ without areas_key (is_of pid.0) self.old }
    {
        remove_process(&mut self.lists, pid);
    }

    /// A copy of all lists.
    pub fn copies(&self, alloc: Global) -> Result<Seq<SpaceAreas>, NoMemory>
        ensures { IfOk result (λ lists. lists ≡ self.now) }
    {
        Ok(Seq::from_vec(Vec::from_clones(alloc, self.lists.as_slice())?))
    }

    /// Makes these the lists.
    pub fn replace(&mut self, lists: Seq<SpaceAreas>) -> Result<(), NoMemory>
        ensures { OnOk result (self.new ≡ with_all_areas lists []) }
    {
        self.lists.clear();
        set_each(&mut self.lists, lists)
    }

    /// Drops all lists.
    pub fn clear(&mut self)
        ensures { self.new ≡ [] }
    {
        self.lists.clear();
    }
}

// Makes these the areas of a region.
fn set_in(
    lists: &mut Vec<SpaceAreas>,
    pid: Pid,
    region: RegionNo,
    areas: AreaRuns,
) -> Result<(), NoMemory>
    requires { Rises areas_key lists.old.items }
    ensures ok { OnOk result (lists.new.items ≡ with_areas pid region areas lists.old.items) }
    ensures err { OnErr result (lists.new.items ≡ lists.old.items) }
    ensures rises { Rises areas_key lists.new.items }
{
    if areas.is_empty() {
        remove(lists, pid, region.0);
        return Ok(());
    }
    put(lists, SpaceAreas { pid, region, areas })
}

// Makes these the areas of their regions, one after the other.
fn set_each(lists: &mut Vec<SpaceAreas>, new: Seq<SpaceAreas>) -> Result<(), NoMemory>
    requires { Rises areas_key lists.old.items }
    ensures ok { OnOk result (lists.new.items ≡ with_all_areas new lists.old.items) }
    ensures rises { Rises areas_key lists.new.items }
{
    for list in new.into_vec() {
        set_in(lists, list.pid, list.region, list.areas)?;
    }
    Ok(())
}

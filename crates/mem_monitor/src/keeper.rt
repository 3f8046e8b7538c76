//! What a memory keeps in one role.

ghost use Rattle.std.specs.Prelude.{◌≡◌, [], IfOk, OnOk};
ghost use Rattle.lego_msg.specs.Maps.{areas_at, home_key, owner_of, with_all_areas, with_areas};
ghost use Rattle.lego_base.specs.Keys.{put_all};
ghost use Rattle.lego_msg.specs.State.{none_kept};
ghost use Rattle.lego_msg.specs.Table.{kept_without, with_home};

use crate::area_lists::AreaLists;
use lego_base::{Area, AreaRuns, HomeEntry, MemId, NoMemory, Pid, RegionNo, Seq, SpaceAreas};
use region_home::Home;
use std::alloc::Global;
use std::marker::Model;

/// The owners and the areas of regions that a memory keeps in one role.
#[derive(Debug, Drop)]
pub struct Keeper {
    homes: Home,
    areas: AreaLists,
}

impl Model for Keeper {
    ghost use Rattle.lego_msg.specs.State.{Kept};

    ghost Value = { Kept };

    ghost view = { λ k. record { homes = k.homes; areas = k.areas } };
}

impl Keeper {
    /// Nothing is kept.
    pub fn new(alloc: Global) -> Result<Keeper, NoMemory>
        ensures { IfOk result (λ keeper. keeper ≡ none_kept) }
    {
        let homes = Home::new(alloc)?;
        Ok(Keeper {
            homes,
            areas: AreaLists::new(alloc),
        })
    }

    /// The owner of a region.
    pub fn owner(&self, pid: Pid, region: RegionNo) -> Option<MemId>
        ensures { result ≡ owner_of self.now.homes pid.0 region.0 }
    {
        self.homes.get(pid, region)
    }

    /// Makes a memory the owner of a region.
    pub fn set_home(&mut self, pid: Pid, region: RegionNo, owner: MemId) -> Result<(), NoMemory>
        ensures { OnOk result (self.new ≡ with_home self.old (record { pid = pid; region = region; owner = owner })) }
    {
        self.homes.set(pid, region, owner)
    }

    /// The areas of a region.
    pub fn areas(&self, pid: Pid, region: RegionNo) -> &[Area]
        ensures { result.now ≡ areas_at self.now.areas pid.0 region.0 }
    {
        self.areas.areas(pid, region)
    }

    /// Makes these the areas of a region.
    pub fn set_areas(&mut self, pid: Pid, region: RegionNo, areas: AreaRuns) -> Result<(), NoMemory>
        ensures { OnOk result (self.new ≡ record self.old { areas = with_areas pid region areas self.old.areas }) }
    {
        self.areas.set(pid, region, areas)
    }

    /// Makes the child's areas of a region the parent's.
    pub fn copy_areas(
        &mut self,
        alloc: Global,
        parent: Pid,
        child: Pid,
        region: RegionNo,
    ) -> Result<(), NoMemory>
        ensures { OnOk result (self.new ≡ record self.old { areas = with_areas child region (areas_at self.old.areas parent.0 region.0) self.old.areas }) }
    {
        let areas = Seq::from_vec(self.areas.areas(parent, region).to_vec(alloc)?);
        self.areas.set(child, region, areas)
    }

    /// Drops all of a process.
    pub fn drop_process(&mut self, pid: Pid)
        ensures { self.new ≡ kept_without pid.0 self.old }
    {
        self.homes.drop_process(pid);
        self.areas.drop_process(pid);
    }

    /// A copy of all owners.
    pub fn homes(&self, alloc: Global) -> Result<Seq<HomeEntry>, NoMemory>
        ensures { IfOk result (λ homes. homes ≡ self.now.homes) }
    {
        self.homes.entries(alloc)
    }

    /// A copy of all lists of areas.
    pub fn lists(&self, alloc: Global) -> Result<Seq<SpaceAreas>, NoMemory>
        ensures { IfOk result (λ lists. lists ≡ self.now.areas) }
    {
        self.areas.copies(alloc)
    }

    /// Makes these all that is kept.
    pub fn replace(&mut self, homes: &[HomeEntry], areas: Seq<SpaceAreas>) -> Result<(), NoMemory>
        ensures { OnOk result (self.new ≡ record { homes = put_all home_key homes.now []; areas = with_all_areas areas [] }) }
    {
        self.homes.replace(homes)?;
        self.areas.replace(areas)
    }

    /// Drops all that is kept.
    pub fn clear(&mut self)
        ensures { self.new ≡ none_kept }
    {
        self.homes.clear();
        self.areas.clear();
    }
}

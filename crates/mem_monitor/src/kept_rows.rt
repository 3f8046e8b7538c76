//! The rows of owners and areas.

ghost use Rattle.std.specs.Prelude.{IfOk, OnOk};

use crate::asker::Asker;
use crate::memory::Memory;
use lego_base::{AreaRuns, HomeEntry, NoMemory, Pid, RegionNo, Seq, SpaceAreas};
use lego_msg::{Body, Outbox, Role};
use std::alloc::Global;

impl Memory {
    ghost use Rattle.std.specs.Prelude.{◌≡◌};
    ghost use Rattle.lego_msg.specs.declared.body.Body.TheVariants.{Meta};
    ghost use Rattle.lego_msg.specs.Maps.{with_areas};
    ghost use Rattle.lego_msg.specs.State.{kept, with_kept};
    ghost use Rattle.lego_msg.specs.Table.{areas_set, find_row, get_areas_row, pull_meta_row, push_meta_row, set_areas_row, set_home_row, with_home};
    ghost use Rattle.mem_monitor.specs.Rows.{Row, asking};

    // Which memory owns the region?
    pub(crate) fn find(
        &self,
        asker: Asker,
        pid: Pid,
        region: RegionNo,
        out: &mut Outbox,
    ) -> Result<(), NoMemory>
        ensures { OnOk result (Row self.now self.now out.old out.new (find_row self.now (asking asker) pid.0 region.0)) }
    {
        let owner = self.main.owner(pid, region);
        self.answer(asker, Body::OwnerIs { owner }, out)
    }

    // A region's owner is set.
    pub(crate) fn set_home(
        &mut self,
        asker: Asker,
        entry: HomeEntry,
        role: Role,
        out: &mut Outbox,
    ) -> Result<(), NoMemory>
        ensures { OnOk result (Row self.old self.new out.old out.new (set_home_row self.old (asking asker) entry role)) }
    {
        self.keep_home(entry, role)?;
        self.answer(asker, Body::Done, out)
    }

    fn keep_home(&mut self, entry: HomeEntry, role: Role) -> Result<(), NoMemory>
        ensures { OnOk result (self.new ≡ with_kept self.old role (with_home (kept self.old role) entry)) }
    {
        let HomeEntry { pid, region, owner } = entry;
        match role {
            Role::Main => self.main.set_home(pid, region, owner),
            Role::Spare => self.spare.set_home(pid, region, owner),
        }
    }

    // The list of a region is set.
    pub(crate) fn set_areas(
        &mut self,
        asker: Asker,
        pid: Pid,
        region: RegionNo,
        areas: AreaRuns,
        role: Role,
        out: &mut Outbox,
    ) -> Result<(), NoMemory>
        ensures { OnOk result (Row self.old self.new out.old out.new (set_areas_row self.old (asking asker) pid region areas role)) }
    {
        self.keep_areas(pid, region, areas, role)?;
        self.answer(asker, Body::Done, out)
    }

    pub(crate) fn keep_areas(
        &mut self,
        pid: Pid,
        region: RegionNo,
        areas: AreaRuns,
        role: Role,
    ) -> Result<(), NoMemory>
        ensures { OnOk result (self.new ≡ areas_set self.old role pid region areas) }
    {
        match role {
            Role::Main => self.main.set_areas(pid, region, areas),
            Role::Spare => self.spare.set_areas(pid, region, areas),
        }
    }

    // The list of a region is asked for.
    pub(crate) fn get_areas(
        &self,
        alloc: Global,
        asker: Asker,
        pid: Pid,
        region: RegionNo,
        out: &mut Outbox,
    ) -> Result<(), NoMemory>
        ensures { OnOk result (Row self.now self.now out.old out.new (get_areas_row self.now (asking asker) pid.0 region.0)) }
    {
        let areas = Seq::from_vec(self.main.areas(pid, region).to_vec(alloc)?);
        self.answer(asker, Body::AreasAre { areas }, out)
    }

    // All that is kept in a role is asked for.
    pub(crate) fn pull_meta(
        &self,
        alloc: Global,
        asker: Asker,
        role: Role,
        out: &mut Outbox,
    ) -> Result<(), NoMemory>
        ensures { OnOk result (Row self.now self.now out.old out.new (pull_meta_row self.now (asking asker) role)) }
    {
        let body = self.meta(alloc, role)?;
        self.answer(asker, body, out)
    }

    fn meta(&self, alloc: Global, role: Role) -> Result<Body, NoMemory>
        ensures { IfOk result (λ body. body ≡ Meta (kept self.now role).homes (kept self.now role).areas) }
    {
        let keeper = match role {
            Role::Main => &self.main,
            Role::Spare => &self.spare,
        };
        let homes = keeper.homes(alloc)?;
        let areas = keeper.lists(alloc)?;
        Ok(Body::Meta { homes, areas })
    }

    // What is kept in a role becomes this.
    pub(crate) fn push_meta(
        &mut self,
        asker: Asker,
        role: Role,
        homes: Seq<HomeEntry>,
        areas: Seq<SpaceAreas>,
        out: &mut Outbox,
    ) -> Result<(), NoMemory>
        ensures { OnOk result (Row self.old self.new out.old out.new (push_meta_row self.old (asking asker) role homes areas)) }
    {
        match role {
            Role::Main => {
                self.main.replace(homes.as_slice(), areas)?;
                self.answer(asker, Body::Done, out)
            }
            Role::Spare => {
                self.spare.replace(homes.as_slice(), areas)?;
                self.answer(asker, Body::Done, out)
            }
        }
    }
}

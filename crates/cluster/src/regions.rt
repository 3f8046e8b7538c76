//! Regions: their owners, their areas, and the logs of memories.

ghost use Rattle.std.specs.Prelude.{◌≡◌, ◌<◌, IfOk, None, Some, true};
ghost use Rattle.lego_msg.specs.Granted.{AreasFit};
ghost use Rattle.lego_msg.specs.Maps.{owner_of};
ghost use Rattle.lego_msg.specs.Places.{is_issuer};
ghost use Rattle.lego_msg.specs.Plain.{Plain};
ghost use Rattle.lego_msg.specs.Track.{memory_count};
ghost use Rattle.lego_msg.specs.declared.body.Body.TheVariants.{AreasAre, Done, OwnerIs};
ghost use Rattle.lego_msg.specs.declared.operation.Operation.TheVariants.{AsksAreas, Drains, Finds, SetsAreas, SetsHome};
ghost use Rattle.cluster.specs.Answers.{IsAreas, IsOwner};

use crate::Cluster;
use lego_base::{AreaRuns, Halt, MemId, Pid, RegionNo};
use lego_msg::{Body, Operation, Place, Watch};

impl Cluster {
    ghost use Rattle.cluster.specs.Calls.{Calls};
    ghost use Rattle.cluster.specs.Standing.{IsAtRest, IsAtRestWith, StandsFor};

    /// The owner of a region, as the home of its process knows it.
    pub fn find<W: Watch>(
        &mut self,
        by: Place,
        pid: Pid,
        region: RegionNo,
        watch: &mut W,
    ) -> Result<Option<MemId>, Halt>
        requires issuer { is_issuer by ≡ true }
        requires rests { self.old.halt ≡ None → IsAtRest self.old }
        ensures call { Calls W.told W.faults watch.old watch.new self.old self.new by (Finds pid region) OwnerIs result }
        ensures owner { IfOk result (λ owner. (f : Plain) → StandsFor self.old f → owner ≡ f.homes pid.0 region.0) }
    {
        match self.ask(by, Operation::Finds { pid, region }, watch) {
            Err(halt) => return Err(halt),
            Ok(body) => return Ok(owner_in(body)),
        }
    }

    /// The areas of a region, which its owner holds.
    pub fn areas_of<W: Watch>(
        &mut self,
        by: Place,
        pid: Pid,
        region: RegionNo,
        owner: MemId,
        watch: &mut W,
    ) -> Result<AreaRuns, Halt>
        requires issuer { is_issuer by ≡ true }
        requires owned { self.old.halt ≡ None → owner_of self.old.table.owners pid.0 region.0 ≡ Some owner }
        requires rests { self.old.halt ≡ None → IsAtRest self.old }
        ensures call { Calls W.told W.faults watch.old watch.new self.old self.new by (AsksAreas pid region owner) AreasAre result }
        ensures areas { IfOk result (λ areas. (f : Plain) → StandsFor self.old f → areas ≡ f.areas pid.0 region.0) }
    {
        match self.ask(by, Operation::AsksAreas { pid, region, owner }, watch) {
            Err(halt) => return Err(halt),
            Ok(body) => return Ok(areas_in(body)),
        }
    }

    /// The areas of a region become these. Its pages that are there stay mapped.
    pub fn set_region<W: Watch>(
        &mut self,
        by: Place,
        pid: Pid,
        region: RegionNo,
        areas: AreaRuns,
        owner: MemId,
        watch: &mut W,
    ) -> Result<(), Halt>
        requires issuer { is_issuer by ≡ true }
        requires rests { self.old.halt ≡ None → IsAtRestWith self.old (λ f. AreasFit self.old.table.owners f pid.0 region.0 areas owner) }
        ensures call { Calls W.told W.faults watch.old watch.new self.old self.new by (SetsAreas pid region areas owner) (λ done. Done) result }
    {
        match self.ask(
            by,
            Operation::SetsAreas {
                pid,
                region,
                areas,
                owner,
            },
            watch,
        ) {
            Err(halt) => return Err(halt),
            Ok(_) => return Ok(()),
        }
    }

    /// The home of a process knows the owner of one of its regions.
    pub fn set_home<W: Watch>(
        &mut self,
        by: Place,
        pid: Pid,
        region: RegionNo,
        owner: MemId,
        watch: &mut W,
    ) -> Result<(), Halt>
        requires issuer { is_issuer by ≡ true }
        requires owned { self.old.halt ≡ None → owner_of self.old.table.owners pid.0 region.0 ≡ Some owner }
        requires rests { self.old.halt ≡ None → IsAtRest self.old }
        ensures call { Calls W.told W.faults watch.old watch.new self.old self.new by (SetsHome pid region owner) (λ done. Done) result }
    {
        match self.ask(by, Operation::SetsHome { pid, region, owner }, watch) {
            Err(halt) => return Err(halt),
            Ok(_) => return Ok(()),
        }
    }

    /// The log of a memory is written into the images.
    pub fn drain<W: Watch>(&mut self, by: Place, memory: MemId, watch: &mut W) -> Result<(), Halt>
        requires issuer { is_issuer by ≡ true }
        requires there { self.old.halt ≡ None → memory.0 < memory_count self.old.shape }
        requires rests { self.old.halt ≡ None → IsAtRest self.old }
        ensures call { Calls W.told W.faults watch.old watch.new self.old self.new by (Drains memory) (λ done. Done) result }
    {
        match self.ask(by, Operation::Drains { memory }, watch) {
            Err(halt) => return Err(halt),
            Ok(_) => return Ok(()),
        }
    }
}

fn owner_in(body: Body) -> Option<MemId>
    requires { IsOwner body }
    ensures { body ≡ OwnerIs result }
{
    match body {
        Body::OwnerIs { owner } => owner,
        _ => unreachable!(),
    }
}

fn areas_in(body: Body) -> AreaRuns
    requires { IsAreas body }
    ensures { body ≡ AreasAre result }
{
    match body {
        Body::AreasAre { areas } => areas,
        _ => unreachable!(),
    }
}

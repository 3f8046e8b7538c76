//! The first messages of operations on pages, regions and spaces: a row of the definitions each.

ghost use Rattle.std.specs.Prelude.{◌≡◌, IfOk};
ghost use Rattle.lego_msg.specs.declared.body.Body.TheVariants as body;

use crate::issuer::Issuer;
use lego_base::{AreaRuns, LineNo, MemId, NoMemory, Patch, Pid, RegionNo, Seq, Vpn};
use lego_msg::{Body, Message, Origin, Place, Role};
use placement::home;

impl Issuer {
    ghost use Rattle.std.specs.Prelude.{◌<◌};
    ghost use Rattle.cluster_ops.specs.Issued.{first_of};
    ghost use Rattle.lego_msg.specs.declared.operation.Operation.TheVariants.{AsksAreas, Copies, Drains, Drops, Finds, Reads, SetsAreas, SetsHome, Unmaps, Writes};

    pub(crate) fn finds(self, pid: Pid, region: RegionNo) -> Result<Seq<Message>, NoMemory>
        requires { 0 < self.memories }
        ensures { IfOk result (λ list. list ≡ first_of self (Finds pid region)) }
    {
        let to = home(pid, self.memories);
        self.one(Place::Memory(to), Body::Find { pid, region })
    }

    pub(crate) fn reads(
        self,
        pid: Pid,
        line: LineNo,
        owner: MemId,
    ) -> Result<Seq<Message>, NoMemory>
        ensures { IfOk result (λ list. list ≡ first_of self (Reads pid line owner)) }
    {
        self.one(Place::Memory(owner), Body::Read { pid, line })
    }

    pub(crate) fn writes(
        self,
        origin: Origin,
        patch: &Patch,
        owner: MemId,
    ) -> Result<Seq<Message>, NoMemory>
        requires { 0 < self.memories }
        ensures { IfOk result (λ list. list ≡ first_of self (Writes origin patch.now owner)) }
    {
        let logged = patch.clone()?;
        let written = patch.clone()?;
        self.twice(
            owner,
            Body::LogWrite { patch: logged },
            Body::Write { patch: written },
        )
    }

    pub(crate) fn sets_home(
        self,
        pid: Pid,
        region: RegionNo,
        owner: MemId,
    ) -> Result<Seq<Message>, NoMemory>
        requires { 0 < self.memories }
        ensures { IfOk result (λ list. list ≡ first_of self (SetsHome pid region owner)) }
    {
        let spare = set_home(pid, region, owner, Role::Spare);
        let main = set_home(pid, region, owner, Role::Main);
        self.twice(home(pid, self.memories), spare, main)
    }

    pub(crate) fn sets_areas(
        self,
        pid: Pid,
        region: RegionNo,
        areas: &AreaRuns,
        owner: MemId,
    ) -> Result<Seq<Message>, NoMemory>
        requires { 0 < self.memories }
        ensures { IfOk result (λ list. list ≡ first_of self (SetsAreas pid region areas.now owner)) }
    {
        let spare = set_areas(pid, region, areas, Role::Spare)?;
        let main = set_areas(pid, region, areas, Role::Main)?;
        self.twice(owner, spare, main)
    }

    pub(crate) fn asks_areas(
        self,
        pid: Pid,
        region: RegionNo,
        owner: MemId,
    ) -> Result<Seq<Message>, NoMemory>
        ensures { IfOk result (λ list. list ≡ first_of self (AsksAreas pid region owner)) }
    {
        self.one(Place::Memory(owner), Body::GetAreas { pid, region })
    }

    pub(crate) fn drains(self, memory: MemId) -> Result<Seq<Message>, NoMemory>
        ensures { IfOk result (λ list. list ≡ first_of self (Drains memory)) }
    {
        self.one(Place::Memory(memory), Body::Drain)
    }

    pub(crate) fn unmaps(
        self,
        pid: Pid,
        region: RegionNo,
        first: Vpn,
        pages: u64,
        areas: &AreaRuns,
        owner: MemId,
    ) -> Result<Seq<Message>, NoMemory>
        requires { 0 < self.memories }
        ensures { IfOk result (λ list. list ≡ first_of self (Unmaps pid region first pages areas.now owner)) }
    {
        let spare = unmap(pid, region, first, pages, areas, Role::Spare)?;
        let main = unmap(pid, region, first, pages, areas, Role::Main)?;
        self.thrice(owner, spare, main, Body::ImageDrop { pid, first, pages })
    }

    pub(crate) fn copies(
        self,
        parent: Pid,
        child: Pid,
        regions: &Seq<RegionNo>,
        owner: MemId,
    ) -> Result<Seq<Message>, NoMemory>
        requires { 0 < self.memories }
        ensures { IfOk result (λ list. list ≡ first_of self (Copies parent child regions.now owner)) }
    {
        let spare = copy_space(parent, child, regions, Role::Spare)?;
        let main = copy_space(parent, child, regions, Role::Main)?;
        let regions = regions.clone()?;
        let images = Body::ImageCopy {
            parent,
            child,
            regions,
        };
        self.thrice(owner, spare, main, images)
    }

    pub(crate) fn drops(self, pid: Pid) -> Result<Seq<Message>, NoMemory>
        ensures { IfOk result (λ list. list ≡ first_of self (Drops pid)) }
    {
        self.drop_everywhere(pid)
    }
}

fn set_home(pid: Pid, region: RegionNo, owner: MemId, role: Role) -> Body
    ensures { result ≡ body.SetHome pid region owner role }
{
    Body::SetHome {
        pid,
        region,
        owner,
        role,
    }
}

fn set_areas(pid: Pid, region: RegionNo, areas: &AreaRuns, role: Role) -> Result<Body, NoMemory>
    ensures { IfOk result (λ sent. sent ≡ body.SetAreas pid region areas.now role) }
{
    let areas = areas.clone()?;
    Ok(Body::SetAreas {
        pid,
        region,
        areas,
        role,
    })
}

fn unmap(
    pid: Pid,
    region: RegionNo,
    first: Vpn,
    pages: u64,
    areas: &AreaRuns,
    role: Role,
) -> Result<Body, NoMemory>
    ensures { IfOk result (λ sent. sent ≡ body.Unmap pid region first pages areas.now role) }
{
    let areas = areas.clone()?;
    Ok(Body::Unmap {
        pid,
        region,
        first,
        pages,
        areas,
        role,
    })
}

fn copy_space(
    parent: Pid,
    child: Pid,
    regions: &Seq<RegionNo>,
    role: Role,
) -> Result<Body, NoMemory>
    ensures { IfOk result (λ sent. sent ≡ body.CopySpace parent child regions.now role) }
{
    let regions = regions.clone()?;
    Ok(Body::CopySpace {
        parent,
        child,
        regions,
        role,
    })
}

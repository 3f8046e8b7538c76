//! The rows of pages and spaces.

ghost use Rattle.std.specs.Prelude.{◌≡◌, ◌*◌, ◌/◌, ◌%◌, drop, is_err, length, nat_lt, take, IfOk, OnErr, OnOk};
ghost use Rattle.lego_base.specs.Space.{perms_of};
ghost use Rattle.lego_msg.specs.Form.{ArePages, IsCopy, IsWithinPage};
ghost use Rattle.lego_msg.specs.Maps.{copied_areas, page_at, patched};

use crate::asker::Asker;
use crate::copies::{copy_fits, copy_pages};
use crate::keeper::Keeper;
use crate::memory::Memory;
use lego_base::{
    Area, AreaRuns, Bytes, LINE_BYTES, LineNo, NoMemory, PAGE_BYTES, PageImage, Patch, Perms, Pid,
    REGION_BYTES, RegionNo, Vpn,
};
use lego_msg::{Body, Outbox, Role, Why};
use page_store::{Full, PageStore};
use std::alloc::Global;

// Lines of a page and of a region.
const PAGE_LINES: u64 = PAGE_BYTES / LINE_BYTES;

const REGION_LINES: u64 = REGION_BYTES / LINE_BYTES;

impl Memory {
    ghost use Rattle.lego_msg.specs.Maps.{areas_at};
    ghost use Rattle.lego_msg.specs.declared.place.Role.TheVariants.{Main};
    ghost use Rattle.lego_msg.specs.Table.{areas_set, copy_row, drop_row, line_answer, pages_dropped, pull_pages_row, push_images_row, read_row, unmap_row, write_row};
    ghost use Rattle.mem_monitor.specs.Rows.{Row, asking};

    // A line, where an area of its region has its page.
    pub(crate) fn read(
        &self,
        alloc: Global,
        asker: Asker,
        pid: Pid,
        line: LineNo,
        out: &mut Outbox,
    ) -> Result<(), NoMemory>
        ensures { OnOk result (Row self.now self.now out.old out.new (read_row self.now (asking asker) pid.0 line.0)) }
    {
        let body = self.line_body(alloc, pid, line)?;
        self.answer(asker, body, out)
    }

    fn line_body(&self, alloc: Global, pid: Pid, line: LineNo) -> Result<Body, NoMemory>
        ensures { let areas = areas_at self.now.main.areas pid.0 (line.0 / 32768) in
            let page = page_at self.now.pages pid.0 (line.0 / 64) in
            IfOk result (λ body. body ≡ line_answer (perms_of areas (line.0 / 64)) page line.0) }
    {
        let areas = self.main.areas(pid, RegionNo(line.0 / REGION_LINES));
        match perms_at(areas, line.0 / PAGE_LINES) {
            Some(perms) => {
                let bytes = line_of(alloc, &self.pages, pid, line)?;
                Ok(Body::Line { perms, bytes })
            }
            None => Ok(Body::Refused(Why::NoArea)),
        }
    }

    // The page is written.
    pub(crate) fn write(
        &mut self,
        asker: Asker,
        patch: &Patch,
        out: &mut Outbox,
    ) -> Result<(), NoMemory>
        requires { IsWithinPage patch.now }
        ensures { OnOk result (Row self.old self.new out.old out.new (write_row self.old (asking asker) patch.now)) }
    {
        match self.write_page(patch) {
            Ok(()) => self.answer(asker, Body::Wrote, out),
            Err(Full) => self.answer(asker, Body::Refused(Why::Full), out),
        }
    }

    fn write_page(&mut self, patch: &Patch) -> Result<(), Full>
        requires { IsWithinPage patch.now }
        ensures ok { OnOk result (self.new ≡ record self.old { pages = patched patch.now self.old.pages }) }
        ensures full { is_err result ≡ nat_lt self.old.frames (length (patched patch.now self.old.pages)) }
        ensures err { OnErr result (self.new ≡ self.old) }
    {
        self.pages.write(patch)
    }

    // The list of a region is set, and the memory for whose own sake it is drops the pages.
    pub(crate) fn unmap(
        &mut self,
        asker: Asker,
        pid: Pid,
        region: RegionNo,
        first: Vpn,
        pages: u64,
        areas: AreaRuns,
        role: Role,
        out: &mut Outbox,
    ) -> Result<(), NoMemory>
        ensures { OnOk result (Row self.old self.new out.old out.new (unmap_row self.old (asking asker) pid region first.0 pages areas role)) }
    {
        self.keep_unmapped(pid, region, first, pages, areas, role)?;
        self.answer(asker, Body::Done, out)
    }

    fn keep_unmapped(
        &mut self,
        pid: Pid,
        region: RegionNo,
        first: Vpn,
        pages: u64,
        areas: AreaRuns,
        role: Role,
    ) -> Result<(), NoMemory>
        ensures { OnOk result (self.new ≡ pages_dropped (areas_set self.old role pid region areas) role pid.0 first.0 pages) }
    {
        self.keep_areas(pid, region, areas, role)?;
        self.drop_pages(role, pid, first, pages);
        Ok(())
    }

    fn drop_pages(&mut self, role: Role, pid: Pid, first: Vpn, pages: u64)
        ensures { self.new ≡ pages_dropped self.old role pid.0 first.0 pages }
    {
        match role {
            Role::Main => self.pages.drop_pages(pid, first, pages),
            Role::Spare => {}
        }
    }

    // The child's areas of regions become the parent's, and the pages of the memory for whose own sake it is.
    pub(crate) fn copy_space(
        &mut self,
        alloc: Global,
        asker: Asker,
        parent: Pid,
        child: Pid,
        regions: &[RegionNo],
        role: Role,
        out: &mut Outbox,
    ) -> Result<(), NoMemory>
        requires { IsCopy parent.0 child.0 regions.now }
        ensures { OnOk result (Row self.old self.new out.old out.new (copy_row self.old (asking asker) parent child regions.now role)) }
    {
        match role {
            Role::Main => self.copy_main(alloc, asker, parent, child, regions, out),
            Role::Spare => {
                copy_areas(&mut self.spare, alloc, parent, child, regions)?;
                self.answer(asker, Body::Done, out)
            }
        }
    }

    fn copy_main(
        &mut self,
        alloc: Global,
        asker: Asker,
        parent: Pid,
        child: Pid,
        regions: &[RegionNo],
        out: &mut Outbox,
    ) -> Result<(), NoMemory>
        requires { IsCopy parent.0 child.0 regions.now }
        ensures { OnOk result (Row self.old self.new out.old out.new (copy_row self.old (asking asker) parent child regions.now Main)) }
    {
        if !copy_fits(&self.pages, parent, child, regions) {
            return self.answer(asker, Body::Refused(Why::Full), out);
        }
        copy_pages(&mut self.pages, parent, child, regions);
        copy_areas(&mut self.main, alloc, parent, child, regions)?;
        self.answer(asker, Body::Done, out)
    }

    // All of a process is dropped, in both roles.
    pub(crate) fn drop_space(
        &mut self,
        asker: Asker,
        pid: Pid,
        out: &mut Outbox,
    ) -> Result<(), NoMemory>
        ensures { OnOk result (Row self.old self.new out.old out.new (drop_row self.old (asking asker) pid.0)) }
    {
        self.main.drop_process(pid);
        self.spare.drop_process(pid);
        self.pages.drop_process(pid);
        self.answer(asker, Body::Done, out)
    }

    // The pages of a region are asked for.
    pub(crate) fn pull_pages(
        &self,
        alloc: Global,
        asker: Asker,
        pid: Pid,
        region: RegionNo,
        out: &mut Outbox,
    ) -> Result<(), NoMemory>
        ensures { OnOk result (Row self.now self.now out.old out.new (pull_pages_row self.now (asking asker) pid.0 region.0)) }
    {
        let pages = self.pages.pages_of(alloc, pid, region)?;
        self.answer(asker, Body::Images { pages }, out)
    }

    // The pages of a region become these.
    pub(crate) fn push_images(
        &mut self,
        asker: Asker,
        pid: Pid,
        region: RegionNo,
        pages: &[PageImage],
        out: &mut Outbox,
    ) -> Result<(), NoMemory>
        requires { ArePages pid.0 region.0 pages.now }
        ensures { OnOk result (Row self.old self.new out.old out.new (push_images_row self.old (asking asker) pid.0 region.0 pages.now)) }
    {
        match self.pages.replace_region(pid, region, pages) {
            Ok(()) => self.answer(asker, Body::Done, out),
            Err(Full) => self.answer(asker, Body::Refused(Why::Full), out),
        }
    }
}

// The permissions of a page, where an area has it.
fn perms_at(areas: &[Area], page: u64) -> Option<Perms>
    ensures { result ≡ perms_of areas.now page }
{
    for area in areas {
        if area.first.0 <= page && page - area.first.0 < area.pages {
            return Some(area.perms);
        }
    }
    None
}

// The bytes of a line, in one piece of memory of their own.
fn line_of(alloc: Global, pages: &PageStore, pid: Pid, line: LineNo) -> Result<Bytes, NoMemory>
    ensures { IfOk result (λ bytes. bytes ≡ take 64 (drop (line.0 % 64 * 64) (page_at pages.now.pages pid.0 (line.0 / 64)))) }
{
    let start = (line.0 % PAGE_LINES * LINE_BYTES) as usize;
    match pages.page(pid, Vpn(line.0 / PAGE_LINES)) {
        Some(bytes) => Bytes::from_slice(alloc, &bytes[start..start + LINE_BYTES as usize]),
        None => Bytes::from_slice(alloc, &[0; LINE_BYTES as usize]),
    }
}

// The child's areas of regions become the parent's.
fn copy_areas(
    keeper: &mut Keeper,
    alloc: Global,
    parent: Pid,
    child: Pid,
    regions: &[RegionNo],
) -> Result<(), NoMemory>
    ensures { OnOk result (keeper.new ≡ record keeper.old { areas = copied_areas parent.0 child regions.now keeper.old.areas }) }
{
    for region in regions {
        keeper.copy_areas(alloc, parent, child, *region)?;
    }
    Ok(())
}

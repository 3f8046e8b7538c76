//! Pages that are copied for a child.

ghost use Rattle.std.specs.Prelude.{◌≡◌, ◌≤◌, length, nat_le};
ghost use Rattle.lego_msg.specs.Form.{IsCopy, RegionsRise};
ghost use Rattle.lego_msg.specs.Maps.{copied_pages};
ghost use Rattle.mem_monitor.specs.Counted.{cleared, counts};
ghost use Rattle.page_store.specs.Store.{holding};

use lego_base::{Pid, RegionNo};
use page_store::{Full, PageStore};

/// Whether there are frames for the pages once the child's of these regions are the parent's.
pub fn copy_fits(pages: &PageStore, parent: Pid, child: Pid, regions: &[RegionNo]) -> bool
    requires { IsCopy parent.0 child.0 regions.now }
    ensures { result ≡ nat_le (length (copied_pages parent.0 child regions.now pages.now.pages)) pages.now.frames }
{
    let lost = count_all(pages, child, regions);
    let gained = count_all(pages, parent, regions);
    pages.used() as u64 - lost + gained <= pages.frames() as u64
}

/// The child's pages of regions become the parent's. There are frames for them.
pub fn copy_pages(pages: &mut PageStore, parent: Pid, child: Pid, regions: &[RegionNo])
    requires copy { IsCopy parent.0 child.0 regions.now }
    requires fits { length (copied_pages parent.0 child regions.now pages.old.pages) ≤ pages.old.frames }
    ensures { pages.new ≡ holding pages.old (copied_pages parent.0 child regions.now pages.old.pages) }
{
    let _used = pages.used(); // they are in order
    drop_regions(pages, child, regions);
    copy_regions(pages, parent, child, regions);
}

// How many pages of some regions are present.
fn count_all(pages: &PageStore, pid: Pid, regions: &[RegionNo]) -> u64
    requires { RegionsRise regions.now }
    ensures count { result ≡ counts pid.0 regions.now pages.now.pages }
    ensures few { result ≤ length pages.now.pages }
{
    let _used = pages.used(); // no sum is above this
    let mut total = 0;
    for region in regions {
        total += pages.count(pid, *region) as u64;
    }
    total
}

// Drops the pages of some regions.
fn drop_regions(pages: &mut PageStore, pid: Pid, regions: &[RegionNo])
    ensures { pages.new ≡ holding pages.old (cleared pid.0 regions.now pages.old.pages) }
{
    for region in regions {
        pages.drop_region(pid, *region);
    }
}

// Copies the pages of regions where the child has none. There are frames for them.
fn copy_regions(pages: &mut PageStore, parent: Pid, child: Pid, regions: &[RegionNo])
    requires copy { IsCopy parent.0 child.0 regions.now }
    requires none { counts child.0 regions.now pages.old.pages ≡ 0 }
    requires fits { length (copied_pages parent.0 child regions.now pages.old.pages) ≤ pages.old.frames }
    ensures { pages.new ≡ holding pages.old (copied_pages parent.0 child regions.now pages.old.pages) }
{
    let _used = pages.used(); // they are in form
    for region in regions {
        match pages.copy_pages(parent, child, *region) {
            Ok(()) => {}
            Err(Full) => unreachable!(), // there are frames
        }
    }
}

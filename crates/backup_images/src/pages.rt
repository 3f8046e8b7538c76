//! Images of pages in rising order, as vectors.

ghost use Rattle.std.specs.Prelude.{◌≡◌, ◌+◌, ◌^◌, ◌<◌, ◌≤◌, ◌++◌, IfOk, MatchOption, None, OnOk, Some, drop, length, map, take, vec_capacity};
ghost use Rattle.lego_base.specs.Keys.{Rises, is_of, is_page_from, is_page_of, put, put_all};
ghost use Rattle.lego_base.specs.Pieces.{laid_over};
ghost use Rattle.lego_msg.specs.Maps.{for_child, overlaid, page_at, page_in, page_key, pages_of, patched, with_pages};
ghost use Rattle.backup_images.specs.Spans.{IsSpan};

use crate::page::Page;
use lego_base::{Bytes, NoMemory, PAGE_BYTES, PageImage, Patch, Pid, RegionNo, Vpn};
use std::alloc::Global;

// Bytes of a page.
const PAGE: usize = PAGE_BYTES as usize;

/// The bytes of a page, where it is there.
pub(crate) fn find(pages: &[Page], pid: Pid, vpn: Vpn) -> Option<&[u8]>
    requires { Rises page_key pages.now }
    ensures { MatchOption result (page_in pages.now pid.0 vpn.0 ≡ None) (λ b. page_in pages.now pid.0 vpn.0 ≡ Some b.now) }
{
    let page = keyed_list::get(pages, pid, vpn.0)?;
    Some(page.bytes())
}

// Puts an image in its place.
fn put(
    alloc: Global,
    pages: &mut Vec<Page>,
    pid: Pid,
    vpn: Vpn,
    bytes: Bytes,
) -> Result<(), NoMemory>
    requires { Rises page_key pages.old.items }
    ensures { OnOk result (pages.new.items ≡ put page_key (record { pid = pid; vpn = vpn; bytes = bytes }) pages.old.items) }
{
    let page = Page::new(alloc, pid, vpn, bytes)?;
    keyed_list::put(pages, page)
}

// Bytes with a piece laid over them.
fn laid_over(alloc: Global, old: &[u8], off: usize, piece: &[u8]) -> Result<Bytes, NoMemory>
    requires { off + length piece.now < 2 ^ 64 }
    ensures { IfOk result (λ b. b ≡ laid_over old.now off piece.now) }
{
    let end = off + piece.len();
    let mut bytes = Vec::with_capacity(alloc, old.len().max(end))?;
    bytes.extend_from_slice(&old[..off.min(old.len())])?;
    bytes.extend_from_slice(piece)?;
    bytes.extend_from_slice(&old[end.min(old.len())..])?;
    Bytes::from_vec(bytes)
}

// The bytes of a page with a patch laid over them; a page that isn't there reads 0.
fn patched_bytes(alloc: Global, pages: &[Page], patch: &Patch) -> Result<Bytes, NoMemory>
    requires { Rises page_key pages.now }
    ensures { IfOk result (λ b. b ≡ laid_over (page_at pages.now patch.now.pid.0 patch.now.vpn.0) patch.now.off patch.now.bytes) }
{
    let piece = patch.bytes.as_slice();
    match find(pages, patch.pid, patch.vpn) {
        Some(old) => laid_over(alloc, old, patch.off as usize, piece),
        None => {
            let zeros = vec![in alloc; 0; PAGE]?;
            laid_over(alloc, zeros.as_slice(), patch.off as usize, piece)
        }
    }
}

// The bytes of a page with a patch laid over them, where some pages are laid over others already.
fn patched_over(
    alloc: Global,
    fresh: &[Page],
    pages: &[Page],
    patch: &Patch,
) -> Result<Bytes, NoMemory>
    requires fresh { Rises page_key fresh.now }
    requires pages { Rises page_key pages.now }
    ensures { let p = patch.now in
        IfOk result (λ b. b ≡ laid_over (page_at (put_all page_key fresh.now pages.now) p.pid.0 p.vpn.0) p.off p.bytes) }
{
    match find(fresh, patch.pid, patch.vpn) {
        Some(old) => laid_over(alloc, old, patch.off as usize, patch.bytes.as_slice()),
        None => patched_bytes(alloc, pages, patch),
    }
}

// Lays a patch over its page, where some pages are laid over others already.
fn lay(alloc: Global, fresh: &mut Vec<Page>, pages: &[Page], patch: &Patch) -> Result<(), NoMemory>
    requires fresh { Rises page_key fresh.old.items }
    requires pages { Rises page_key pages.now }
    ensures rises { OnOk result (Rises page_key fresh.new.items) }
    ensures pages { OnOk result (put_all page_key fresh.new.items pages.now ≡ patched patch.now (put_all page_key fresh.old.items pages.now)) }
{
    let bytes = patched_over(alloc, fresh, pages, patch)?;
    put(alloc, fresh, patch.pid, patch.vpn, bytes)
}

/// The pages that patches change, with these laid over them in order. The pages themselves stay as they are.
pub(crate) fn patched(
    alloc: Global,
    pages: &[Page],
    patches: &[Patch],
) -> Result<Vec<Page>, NoMemory>
    requires { Rises page_key pages.now }
    ensures { IfOk result (λ v. put_all page_key v.items pages.now ≡ overlaid patches.now pages.now) }
{
    let mut fresh = Vec::new(alloc);
    for patch in patches {
        lay(alloc, &mut fresh, pages, patch)?;
    }
    Ok(fresh)
}

/// Puts pages in their places, in order. There is room for them.
pub(crate) fn put_fresh(pages: &mut Vec<Page>, fresh: Vec<Page>)
    requires rises { Rises page_key pages.old.items }
    requires room { length pages.old.items + length fresh.items ≤ vec_capacity pages.old }
    ensures { pages.new.items ≡ put_all page_key fresh.items pages.old.items }
{
    for page in fresh {
        match keyed_list::put(pages, page) {
            Ok(()) => {}
            Err(_) => unreachable!(), // there is room
        }
    }
}

/// Where some pages begin, and where those after them do.
pub(crate) fn page_span(pages: &[Page], pid: Pid, first: Vpn, count: u64) -> (usize, usize)
    requires { Rises page_key pages.now }
    ensures { IsSpan (is_page_from pid.0 first.0 count) pages.now result.0 result.1 }
{
    let start = pages.partition_point(|page| page.is_before(pid, first));
    let len = pages[start..].partition_point(|page| page.is_within(pid, first, count));
    (start, start + len)
}

/// Where the pages of a process begin, and where those after them do.
pub(crate) fn process_span(pages: &[Page], pid: Pid) -> (usize, usize)
    requires { Rises page_key pages.now }
    ensures { IsSpan (is_of pid.0) pages.now result.0 result.1 }
{
    let start = pages.partition_point(|page| page.is_before(pid, Vpn(0)));
    let len = pages[start..].partition_point(|page| page.is_of(pid));
    (start, start + len)
}

// Where the pages of a region begin, and where those after them do.
fn region_span(pages: &[Page], pid: Pid, region: RegionNo) -> (usize, usize)
    requires { Rises page_key pages.now }
    ensures { IsSpan (is_page_of pid.0 region.0) pages.now result.0 result.1 }
{
    let start = pages.partition_point(|page| page.is_before_region(pid, region));
    let len = pages[start..].partition_point(|page| page.is_in(pid, region));
    (start, start + len)
}

/// Drops the pages from one place to before another.
pub(crate) fn cut(pages: &mut Vec<Page>, start: usize, end: usize)
    requires order { start ≤ end }
    requires within { end ≤ length pages.old.items }
    ensures { pages.new.items ≡ take start pages.old.items ++ drop end pages.old.items }
{
    let _gone = pages.drain(start..end);
}

// Puts images in their places, in order.
fn put_all(alloc: Global, pages: &mut Vec<Page>, images: &[PageImage]) -> Result<(), NoMemory>
    requires { Rises page_key pages.old.items }
    ensures { OnOk result (pages.new.items ≡ put_all page_key images.now pages.old.items) }
{
    for image in images {
        put(alloc, pages, image.pid, image.vpn, image.bytes.clone()?)?;
    }
    Ok(())
}

/// Makes these the pages of a region.
pub(crate) fn reset(
    alloc: Global,
    pages: &mut Vec<Page>,
    pid: Pid,
    region: RegionNo,
    images: &[PageImage],
) -> Result<(), NoMemory>
    requires { Rises page_key pages.old.items }
    ensures { OnOk result (pages.new.items ≡ with_pages pid.0 region.0 images.now pages.old.items) }
{
    let (start, end) = region_span(pages, pid, region);
    cut(pages, start, end);
    put_all(alloc, pages, images)
}

/// Copies of the images of a region, as images of a process.
pub(crate) fn images_as(
    alloc: Global,
    pages: &[Page],
    pid: Pid,
    region: RegionNo,
    child: Pid,
) -> Result<Vec<PageImage>, NoMemory>
    requires { Rises page_key pages.now }
    ensures { IfOk result (λ v. v.items ≡ map (for_child child) (pages_of pid.0 region.0 pages.now)) }
{
    let (start, end) = region_span(pages, pid, region);
    copies(alloc, &pages[start..end], child)
}

// Copies of images, as images of a process.
fn copies(alloc: Global, pages: &[Page], child: Pid) -> Result<Vec<PageImage>, NoMemory>
    ensures { IfOk result (λ v. v.items ≡ map (for_child child) pages.now) }
{
    let mut images = Vec::with_capacity(alloc, pages.len())?;
    for page in pages {
        let image = page.image(alloc)?;
        images.push(PageImage {
            pid: child,
            vpn: image.vpn,
            bytes: image.bytes,
        })?;
    }
    Ok(images)
}

/// A list of the same pages.
pub(crate) fn copied(alloc: Global, pages: &[Page]) -> Result<Vec<Page>, NoMemory>
    ensures { IfOk result (λ v. v.items ≡ pages.now) }
{
    Ok(Vec::from_clones(alloc, pages)?)
}

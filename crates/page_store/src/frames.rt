//! Frames: the bytes of present pages.

ghost use Rattle.std.specs.Prelude.{◌≡◌, ◌+◌, ◌≤◌, [], None, Some, length, slice_set, IfOk};
ghost use Rattle.lego_base.specs.Pieces.{laid_over, piece, zeros};
ghost use Rattle.slab.specs.Slab.{ContainsKey, HasRoomFor, Updates, get, slab_len};
ghost use Rattle.page_store.specs.Spots.{bytes_in, freed, is_page, laid};

use crate::hints::Hints;
use crate::spot::Spot;
use lego_base::{NoMemory, Pid, Vpn};
use slab::Slab;
use std::alloc::Global;
use std::marker::Model;

/// A page in a frame.
#[derive(Debug, Drop)]
pub struct Page {
    pub pid: Pid,
    pub vpn: Vpn,
    pub bytes: [u8; 4096],
}

/// The frames with their pages, and hints where pages are. Contracts see the frames alone.
#[derive(Debug, Drop)]
pub struct PageFrames {
    slab: Slab<Page>,
    hints: Hints,
}

impl Model for PageFrames {
    ghost use Rattle.slab.specs.Slab.{Slab as Slots};
    ghost use Rattle.page_store.specs.declared.frames.Page.{Page};

    ghost Value = { Slots Page };

    ghost view = { λ f. f.slab };
}

impl PageFrames {
    /// Frames without pages, with room for `frames` of them.
    pub fn new(alloc: Global, frames: u32) -> Result<PageFrames, NoMemory>
        ensures slots { IfOk result (λ f. f.slots ≡ []) }
        ensures capacity { IfOk result (λ f. frames ≤ f.capacity) }
    {
        let slab = Slab::with_capacity(alloc, frames as usize)?;
        let hints = Hints::new(alloc, frames)?;
        Ok(PageFrames { slab, hints })
    }

    /// Puts a page into a free frame.
    pub fn insert(&mut self, page: Page) -> usize
        requires { HasRoomFor self.old 1 }
        ensures was_vacant { get self.old result ≡ None }
        ensures updates { Updates self.old self.new result (Some page) }
        ensures len { slab_len self.new ≡ slab_len self.old + 1 }
        ensures capacity { self.new.capacity ≡ self.old.capacity }
    {
        let pid = page.pid;
        let vpn = page.vpn;
        let frame = self.slab.insert_reserved(page);
        self.hints.set(pid, vpn, frame);
        frame
    }

    /// The frame that a page may be in: whether it is there has to be looked at.
    pub fn hint(&self, pid: Pid, vpn: Vpn) -> usize {
        self.hints.frame(pid, vpn)
    }

    // Frees a frame.
    fn free(&mut self, frame: usize)
        ensures slots { self.new.slots ≡ slice_set self.old.slots frame None }
        ensures capacity { self.new.capacity ≡ self.old.capacity }
    {
        let _page = self.slab.try_remove(frame);
    }

    /// Frees all frames.
    pub fn clear(&mut self)
        ensures slots { self.new.slots ≡ [] }
        ensures capacity { self.new.capacity ≡ self.old.capacity }
    {
        self.slab.clear();
    }
}

/// Whether a frame has a page.
pub fn has_page(frames: &PageFrames, frame: usize, pid: Pid, vpn: Vpn) -> bool
    ensures { result ≡ is_page pid.0 vpn.0 (get frames.now frame) }
{
    match frames.slab.get(frame) {
        Some(page) => page.pid.0 == pid.0 && page.vpn.0 == vpn.0,
        None => false,
    }
}

/// A page of zeros with bytes laid over it.
pub fn page_of(pid: Pid, vpn: Vpn, off: u16, bytes: &[u8]) -> Page
    requires { off + length bytes.now ≤ 4096 }
    ensures pid { result.pid ≡ pid }
    ensures vpn { result.vpn ≡ vpn }
    ensures bytes { result.bytes ≡ laid_over (zeros 4096) off bytes.now }
{
    let off = off as usize;
    let mut page = [0; 4096];
    page[off..off + bytes.len()].copy_from_slice(bytes);
    Page {
        pid,
        vpn,
        bytes: page,
    }
}

/// Copies bytes of a frame.
pub fn read(frames: &PageFrames, frame: usize, off: usize, buf: &mut [u8])
    requires held { ContainsKey frames.now frame }
    requires within { off + length buf.old ≤ 4096 }
    ensures { (page : _) → get frames.now frame ≡ Some page → buf.new ≡ piece page.bytes off (length buf.old) }
{
    match frames.slab.get(frame) {
        Some(page) => buf.copy_from_slice(&page.bytes[off..off + buf.len()]),
        None => unreachable!(),
    }
}

/// The bytes of a frame.
pub fn bytes(frames: &PageFrames, frame: usize) -> &[u8]
    requires { ContainsKey frames.now frame }
    ensures { result.now ≡ bytes_in (get frames.now frame) }
{
    match frames.slab.get(frame) {
        Some(page) => &page.bytes,
        None => unreachable!(),
    }
}

/// A copy of the page at a place, for another process.
pub fn copy(frames: &PageFrames, spot: Spot, child: Pid) -> Page
    requires { ContainsKey frames.now spot.frame }
    ensures pid { result.pid ≡ child }
    ensures vpn { result.vpn ≡ spot.vpn }
    ensures bytes { result.bytes ≡ bytes_in (get frames.now spot.frame) }
{
    match frames.slab.get(spot.frame) {
        Some(page) => Page {
            pid: child,
            vpn: spot.vpn,
            bytes: page.bytes,
        },
        None => unreachable!(),
    }
}

/// Lays bytes over those of a frame.
pub fn lay(frames: &mut PageFrames, frame: usize, off: usize, bytes: &[u8])
    requires held { ContainsKey frames.old frame }
    requires within { off + length bytes.now ≤ 4096 }
    ensures slots { frames.new.slots ≡ slice_set frames.old.slots frame (laid off bytes.now (get frames.old frame)) }
    ensures len { slab_len frames.new ≡ slab_len frames.old }
    ensures capacity { frames.new.capacity ≡ frames.old.capacity }
{
    match frames.slab.get_mut(frame) {
        Some(page) => page.bytes[off..off + bytes.len()].copy_from_slice(bytes),
        None => unreachable!(),
    }
}

/// Frees the frames of these places.
pub fn free(frames: &mut PageFrames, spots: &[Spot])
    ensures slots { frames.new.slots ≡ freed frames.old.slots spots.now }
    ensures capacity { frames.new.capacity ≡ frames.old.capacity }
{
    for spot in spots {
        frames.free(spot.frame);
    }
}

//! A map from pages to their bytes.

ghost use Rattle.std.specs.Prelude.{◌≡◌, ℕ, ◌+◌, ◌-◌, ◌<◌, ◌≤◌, ◌^◌, ◌++◌, [], Bool, Some, None, drop, is_err, length, nat_lt, take, vec_capacity, OnOk, OnErr, IfOk, IfSome, MatchOption};
ghost use Rattle.std.specs.List.{AllByRecursion};
ghost use Rattle.lego_base.specs.Pieces.{piece};
ghost use Rattle.lego_base.specs.Keys.{Key, Rises, find, is_of, is_page_from, is_page_of, key_at, put, put_all, those, without};
ghost use Rattle.lego_msg.specs.Maps.{page_at, page_in, page_key, pages_of, patched, with_pages};
ghost use Rattle.lego_msg.specs.Form.{ArePages, IsWithinPage};
ghost use Rattle.page_store.specs.Spots.{AreHeld, IsTied, SaysWithin, frame_in, images, page_image, spot_key};
ghost use Rattle.page_store.specs.Store.{patch_of};

use crate::frames::{self, Page, PageFrames, page_of};
use crate::spot::Spot;
use keyed_list::{get, put, span};
use lego_base::{Bytes, NoMemory, PageImage, Patch, Pid, RegionNo, Seq, Vpn};
use std::alloc::Global;
use std::marker::Model;

// Pages of a region.
const REGION_PAGES: u64 = 512;

/// More pages would be present than there are frames.
#[derive(Clone, Copy, Debug, PartialEq, Eq)]
pub struct Full;

/// The present pages of a memory, with the bytes of each in a frame (LegoOS, section 4.4). A page that isn't present
/// reads 0.
#[derive(Debug, Drop)]
pub struct PageStore {
    pub(crate) most: u32, // frames
    pub(crate) spots: Vec<Spot>, // rising by process and page
    pub(crate) frames: PageFrames,
}

impl Model for PageStore {
    ghost use Rattle.std.specs.Prelude.{◌≤◌, length, vec_capacity};
    ghost use Rattle.page_store.specs.Store.{Store};

    ghost Value = { Store };

    ghost use Rattle.page_store.specs.Spots.{IsTied, images};

    ghost view = { λ a. record { frames = a.most; pages = images a.frames.slots a.spots.items } };

    ghost invariant = { λ a. IsTied a.spots.items a.frames.slots
        × (length a.spots.items ≤ a.most)
        × (a.most ≤ vec_capacity a.spots)
        × (a.most ≤ a.frames.capacity) };
}

impl PageStore {
    ghost use Rattle.page_store.specs.Store.{are_too_many, holding};

    /// A store without pages, with room for `frames` of them. Takes all memory that the store will ever need.
    pub fn new(alloc: Global, frames: u32) -> Result<PageStore, NoMemory>
        ensures { IfOk result (λ store. store ≡ record { frames = frames; pages = [] }) }
    {
        let spots = Vec::with_capacity(alloc, frames as usize)?;
        let places = PageFrames::new(alloc, frames)?;
        Ok(PageStore {
            most: frames,
            spots,
            frames: places,
        })
    }

    /// Copies bytes of a page, `off` bytes into it, into the buffer: 0 where the page isn't present.
    pub fn read(&self, pid: Pid, vpn: Vpn, off: u16, buf: &mut [u8])
        requires { off + length buf.old ≤ 4096 }
        ensures { buf.new ≡ piece (page_at self.now.pages pid.0 vpn.0) off (length buf.old) }
    {
        copy_out(self.spots.as_slice(), &self.frames, pid, vpn, off, buf);
    }

    /// The 4096 bytes of a page, where it is present.
    pub fn page(&self, pid: Pid, vpn: Vpn) -> Option<&[u8]>
        ensures bytes { let held = page_in self.now.pages pid.0 vpn.0 in
            MatchOption result (held ≡ None) (λ bytes. held ≡ Some bytes.now) }
        ensures length { IfSome result (λ bytes. length bytes.now ≡ 4096) }
    {
        bytes_of(self.spots.as_slice(), &self.frames, pid, vpn)
    }

    /// Writes the bytes of a patch into its page. `Full` where the page isn't present and all frames are taken; then
    /// nothing changes.
    pub fn write(&mut self, p: &Patch) -> Result<(), Full>
        requires { IsWithinPage p.now }
        ensures ok { OnOk result (self.new ≡ holding self.old (patched p.now self.old.pages)) }
        ensures full { is_err result ≡ are_too_many self.old (patched p.now self.old.pages) }
        ensures err { OnErr result (self.new ≡ self.old) }
    {
        lay(
            &mut self.spots,
            &mut self.frames,
            self.most,
            p.pid,
            p.vpn,
            p.off,
            p.bytes.as_slice(),
        )
    }

    /// Makes these the bytes of a page, `Full` as in `write`.
    pub fn put_page(&mut self, p: &PageImage) -> Result<(), Full>
        requires { length p.now.bytes ≡ 4096 }
        ensures ok { OnOk result (self.new ≡ holding self.old (put page_key p.now self.old.pages)) }
        ensures full { is_err result ≡ are_too_many self.old (put page_key p.now self.old.pages) }
        ensures err { OnErr result (self.new ≡ self.old) }
    {
        put_whole(
            &mut self.spots,
            &mut self.frames,
            self.most,
            p.pid,
            p.vpn,
            p.bytes.as_slice(),
        )
    }

    /// Drops the pages of a process that start at `first`, `pages` of them.
    pub fn drop_pages(&mut self, pid: Pid, first: Vpn, pages: u64)
        ensures { self.new ≡ holding self.old (without page_key (is_page_from pid.0 first.0 pages) self.old.pages) }
    {
        if pages > 0 {
            let last = first.0.saturating_add(pages - 1);
            drop_span(&mut self.spots, &mut self.frames, pid, first.0, last);
        }
    }

    /// Drops the pages of a region.
    pub fn drop_region(&mut self, pid: Pid, region: RegionNo)
        ensures { self.new ≡ holding self.old (without page_key (is_page_of pid.0 region.0) self.old.pages) }
    {
        drop_region(&mut self.spots, &mut self.frames, pid, region);
    }

    /// Drops all pages of a process.
    pub fn drop_process(&mut self, pid: Pid)
        ensures { self.new ≡ holding self.old (without page_key (is_of pid.0) self.old.pages) }
    {
        drop_span(&mut self.spots, &mut self.frames, pid, 0, u64::MAX);
    }

    /// Drops all pages.
    pub fn clear(&mut self)
        ensures { self.new ≡ holding self.old [] }
    {
        self.spots.clear();
        self.frames.clear();
    }

    /// How many pages may be present.
    pub fn frames(&self) -> u32
        ensures { result ≡ self.now.frames }
    {
        self.most
    }

    /// How many pages are present.
    pub fn used(&self) -> u32
        ensures used { result ≡ length self.now.pages }
        ensures few { length self.now.pages ≤ self.now.frames }
        ensures rises { Rises page_key self.now.pages }
        ensures form { (pid region : ℕ) → ArePages pid region (pages_of pid region self.now.pages) }
    {
        let _most = self.most; // there are no more pages than this
        used_in(self.spots.as_slice(), &self.frames) as u32
    }

    /// How many pages of a region are present.
    pub fn count(&self, pid: Pid, region: RegionNo) -> u32
        ensures { result ≡ length (pages_of pid.0 region.0 self.now.pages) }
    {
        let _most = self.most; // there are no more pages than this
        count_in(self.spots.as_slice(), &self.frames, pid, region) as u32
    }

    /// Copies of the present pages of a region, in rising order.
    pub fn pages_of(
        &self,
        alloc: Global,
        pid: Pid,
        region: RegionNo,
    ) -> Result<Seq<PageImage>, NoMemory>
        ensures pages { IfOk result (λ pages. pages ≡ pages_of pid.0 region.0 self.now.pages) }
        ensures form { ArePages pid.0 region.0 (pages_of pid.0 region.0 self.now.pages) }
    {
        pages_in(alloc, self.spots.as_slice(), &self.frames, pid, region)
    }

    /// Makes these the pages of a region. `Full` where more pages would be present than there are frames; then nothing
    /// changes.
    pub fn replace_region(
        &mut self,
        pid: Pid,
        region: RegionNo,
        pages: &[PageImage],
    ) -> Result<(), Full>
        requires { ArePages pid.0 region.0 pages.now }
        ensures ok { OnOk result (self.new ≡ holding self.old (with_pages pid.0 region.0 pages.now self.old.pages)) }
        ensures full { is_err result ≡ are_too_many self.old (with_pages pid.0 region.0 pages.now self.old.pages) }
        ensures err { OnErr result (self.new ≡ self.old) }
    {
        replace_in(
            &mut self.spots,
            &mut self.frames,
            self.most,
            pid,
            region,
            pages,
        )
    }
}

// Copies bytes of a page into the buffer: 0 where the page isn't present.
fn copy_out(spots: &[Spot], frames: &PageFrames, pid: Pid, vpn: Vpn, off: u16, buf: &mut [u8])
    requires tied { IsTied spots.now frames.now.slots }
    requires within { off + length buf.old ≤ 4096 }
    ensures { buf.new ≡ piece (page_at (images frames.now.slots spots.now) pid.0 vpn.0) off (length buf.old) }
{
    match frame_of(spots, frames, pid, vpn) {
        Some(frame) => frames::read(frames, frame, off as usize, buf),
        None => buf.fill(0),
    }
}

// The bytes of a page, where it is present.
fn bytes_of<'a>(spots: &[Spot], frames: &'a PageFrames, pid: Pid, vpn: Vpn) -> Option<&'a [u8]>
    requires { IsTied spots.now frames.now.slots }
    ensures bytes { let held = page_in (images frames.now.slots spots.now) pid.0 vpn.0 in
        MatchOption result (held ≡ None) (λ bytes. held ≡ Some bytes.now) }
    ensures length { IfSome result (λ bytes. length bytes.now ≡ 4096) }
{
    match frame_of(spots, frames, pid, vpn) {
        Some(frame) => Some(frames::bytes(frames, frame)),
        None => None,
    }
}

// The frame of a page: the one that a hint names, else by a search.
fn frame_of(spots: &[Spot], frames: &PageFrames, pid: Pid, vpn: Vpn) -> Option<usize>
    requires { IsTied spots.now frames.now.slots }
    ensures { result ≡ frame_in (find spot_key (key_at pid.0 vpn.0) spots.now) }
{
    let hint = frames.hint(pid, vpn);
    if frames::has_page(frames, hint, pid, vpn) {
        return Some(hint);
    }
    searched(spots, pid, vpn)
}

// The frame of a page by a search.
fn searched(spots: &[Spot], pid: Pid, vpn: Vpn) -> Option<usize>
    requires { Rises spot_key spots.now }
    ensures { result ≡ frame_in (find spot_key (key_at pid.0 vpn.0) spots.now) }
{
    match get(spots, pid, vpn.0) {
        Some(spot) => Some(spot.frame),
        None => None,
    }
}

// Lays bytes over those of a page.
fn lay(
    spots: &mut Vec<Spot>,
    frames: &mut PageFrames,
    most: u32,
    pid: Pid,
    vpn: Vpn,
    off: u16,
    bytes: &[u8],
) -> Result<(), Full>
    requires tied { IsTied spots.old.items frames.old.slots }
    requires few { length spots.old.items ≤ most }
    requires spots { most ≤ vec_capacity spots.old }
    requires frames { most ≤ frames.old.capacity }
    requires within { off + length bytes.now ≤ 4096 }
    ensures ok { let before = images frames.old.slots spots.old.items in
        let after = images frames.new.slots spots.new.items in
        OnOk result (after ≡ patched (patch_of pid vpn off bytes.now) before) }
    ensures full { let before = images frames.old.slots spots.old.items in
        is_err result ≡ nat_lt most (length (patched (patch_of pid vpn off bytes.now) before)) }
    ensures err { OnErr result ((frames.new ≡ frames.old) × (spots.new ≡ spots.old)) }
    ensures tied { IsTied spots.new.items frames.new.slots }
    ensures few { length spots.new.items ≤ most }
    ensures spots { vec_capacity spots.old ≤ vec_capacity spots.new }
    ensures frames { frames.new.capacity ≡ frames.old.capacity }
{
    match frame_of(spots.as_slice(), frames, pid, vpn) {
        Some(frame) => {
            lay_over(spots.as_slice(), frames, frame, pid, vpn, off, bytes);
            Ok(())
        }
        None => {
            if spots.len() == most as usize {
                return Err(Full);
            }
            add(spots, frames, page_of(pid, vpn, off, bytes));
            Ok(())
        }
    }
}

// Lays bytes over those of a page, which is present.
fn lay_over(
    spots: &[Spot],
    frames: &mut PageFrames,
    frame: usize,
    pid: Pid,
    vpn: Vpn,
    off: u16,
    bytes: &[u8],
)
    requires tied { IsTied spots.now frames.old.slots }
    requires frame { frame_in (find spot_key (key_at pid.0 vpn.0) spots.now) ≡ Some frame }
    requires within { off + length bytes.now ≤ 4096 }
    ensures pages { images frames.new.slots spots.now ≡ patched (patch_of pid vpn off bytes.now) (images frames.old.slots spots.now) }
    ensures length { length (patched (patch_of pid vpn off bytes.now) (images frames.old.slots spots.now)) ≡ length spots.now }
    ensures tied { IsTied spots.now frames.new.slots }
    ensures capacity { frames.new.capacity ≡ frames.old.capacity }
{
    let _places = spots; // they don't change
    frames::lay(frames, frame, off as usize, bytes);
}

// Adds a page that isn't present.
pub(crate) fn add(spots: &mut Vec<Spot>, frames: &mut PageFrames, page: Page)
    requires tied { IsTied spots.old.items frames.old.slots }
    requires absent { find spot_key (key_at page.pid.0 page.vpn.0) spots.old.items ≡ None }
    requires bytes { length page.bytes ≡ 4096 }
    requires fits { page.vpn.0 < 2 ^ 64 }
    requires spots { length spots.old.items < vec_capacity spots.old }
    requires frames { length spots.old.items < frames.old.capacity }
    ensures pages { let before = images frames.old.slots spots.old.items in
        let after = images frames.new.slots spots.new.items in
        after ≡ put page_key (record { pid = page.pid; vpn = page.vpn; bytes = page.bytes }) before }
    ensures length { length spots.new.items ≡ length spots.old.items + 1 }
    ensures tied { IsTied spots.new.items frames.new.slots }
    ensures spots { vec_capacity spots.old ≤ vec_capacity spots.new }
    ensures frames { frames.new.capacity ≡ frames.old.capacity }
{
    let pid = page.pid;
    let vpn = page.vpn;
    let frame = frames.insert(page);
    match put(spots, Spot { pid, vpn, frame }) {
        Ok(()) => {}
        Err(_) => unreachable!(), // there is room
    }
}

// Makes these the bytes of a page.
fn put_whole(
    spots: &mut Vec<Spot>,
    frames: &mut PageFrames,
    most: u32,
    pid: Pid,
    vpn: Vpn,
    bytes: &[u8],
) -> Result<(), Full>
    requires tied { IsTied spots.old.items frames.old.slots }
    requires few { length spots.old.items ≤ most }
    requires spots { most ≤ vec_capacity spots.old }
    requires frames { most ≤ frames.old.capacity }
    requires bytes { length bytes.now ≡ 4096 }
    ensures ok { let before = images frames.old.slots spots.old.items in
        let after = images frames.new.slots spots.new.items in
        OnOk result (after ≡ put page_key (page_image pid vpn bytes.now) before) }
    ensures full { let before = images frames.old.slots spots.old.items in
        is_err result ≡ nat_lt most (length (put page_key (page_image pid vpn bytes.now) before)) }
    ensures err { OnErr result ((frames.new ≡ frames.old) × (spots.new ≡ spots.old)) }
    ensures tied { IsTied spots.new.items frames.new.slots }
    ensures few { length spots.new.items ≤ most }
    ensures spots { vec_capacity spots.old ≤ vec_capacity spots.new }
    ensures frames { frames.new.capacity ≡ frames.old.capacity }
{
    lay(spots, frames, most, pid, vpn, 0, bytes)
}

// Where the pages of a region are.
pub(crate) fn region_span(spots: &[Spot], pid: Pid, region: RegionNo) -> (usize, usize)
    requires rises { Rises spot_key spots.now }
    requires fit { AllByRecursion (λ s. s.vpn.0 < 2 ^ 64) spots.now }
    ensures order { result.0 ≤ result.1 }
    ensures within { result.1 ≤ length spots.now }
    ensures those { those spot_key (is_page_of pid.0 region.0) spots.now ≡ take (result.1 - result.0) (drop result.0 spots.now) }
    ensures count { length (those spot_key (is_page_of pid.0 region.0) spots.now) ≡ result.1 - result.0 }
{
    if region.0 > u64::MAX / REGION_PAGES {
        return (0, 0);
    }
    let first = region.0 * REGION_PAGES;
    span(spots, pid, first, first + (REGION_PAGES - 1))
}

// How many pages are present.
fn used_in(spots: &[Spot], frames: &PageFrames) -> usize
    requires { IsTied spots.now frames.now.slots }
    ensures used { result ≡ length (images frames.now.slots spots.now) }
    ensures spots { result ≡ length spots.now }
    ensures rises { Rises page_key (images frames.now.slots spots.now) }
    ensures form { (pid region : ℕ) → ArePages pid region (pages_of pid region (images frames.now.slots spots.now)) }
{
    let _frames = frames; // what they hold is in form
    spots.len()
}

// How many pages of a region are present.
pub(crate) fn count_in(spots: &[Spot], frames: &PageFrames, pid: Pid, region: RegionNo) -> usize
    requires { IsTied spots.now frames.now.slots }
    ensures count { result ≡ length (pages_of pid.0 region.0 (images frames.now.slots spots.now)) }
    ensures few { result ≤ length spots.now }
{
    let (start, end) = region_span(spots, pid, region);
    end - start
}

// Copies of the present pages of a region.
fn pages_in(
    alloc: Global,
    spots: &[Spot],
    frames: &PageFrames,
    pid: Pid,
    region: RegionNo,
) -> Result<Seq<PageImage>, NoMemory>
    requires { IsTied spots.now frames.now.slots }
    ensures pages { IfOk result (λ pages. pages ≡ pages_of pid.0 region.0 (images frames.now.slots spots.now)) }
    ensures form { ArePages pid.0 region.0 (pages_of pid.0 region.0 (images frames.now.slots spots.now)) }
{
    let (start, end) = region_span(spots, pid, region);
    copies(alloc, &spots[start..end], frames)
}

// Copies of the pages at these places.
fn copies(alloc: Global, spots: &[Spot], frames: &PageFrames) -> Result<Seq<PageImage>, NoMemory>
    requires { AreHeld frames.now.slots spots.now }
    ensures { IfOk result (λ pages. pages ≡ images frames.now.slots spots.now) }
{
    let mut pages = Vec::with_capacity(alloc, spots.len())?;
    for spot in spots {
        let bytes = Bytes::from_slice(alloc, frames::bytes(frames, spot.frame))?;
        pages.push(PageImage {
            pid: spot.pid,
            vpn: spot.vpn,
            bytes,
        })?;
    }
    Ok(Seq::from_vec(pages))
}

// Drops the pages of a process with numbers from `first` to `last`.
fn drop_span(spots: &mut Vec<Spot>, frames: &mut PageFrames, pid: Pid, first: u64, last: u64)
    requires tied { IsTied spots.old.items frames.old.slots }
    requires order { first ≤ last }
    ensures pages { let before = images frames.old.slots spots.old.items in
        let after = images frames.new.slots spots.new.items in
        (test : Key → Bool) → SaysWithin pid.0 first last test → after ≡ without page_key test before }
    ensures tied { IsTied spots.new.items frames.new.slots }
    ensures few { length spots.new.items ≤ length spots.old.items }
    ensures spots { vec_capacity spots.new ≡ vec_capacity spots.old }
    ensures frames { frames.new.capacity ≡ frames.old.capacity }
{
    let (start, end) = span(spots.as_slice(), pid, first, last);
    frames::free(frames, &spots[start..end]);
    cut(spots, start, end);
}

// Removes the places from one to before another.
fn cut(spots: &mut Vec<Spot>, start: usize, end: usize)
    requires order { start ≤ end }
    requires within { end ≤ length spots.old.items }
    ensures items { spots.new.items ≡ take start spots.old.items ++ drop end spots.old.items }
    ensures room { vec_capacity spots.new ≡ vec_capacity spots.old }
{
    let rest = spots.len() - (end - start);
    spots[start..].rotate_left(end - start);
    spots.truncate(rest);
}

// Makes these the pages of a region.
fn replace_in(
    spots: &mut Vec<Spot>,
    frames: &mut PageFrames,
    most: u32,
    pid: Pid,
    region: RegionNo,
    pages: &[PageImage],
) -> Result<(), Full>
    requires tied { IsTied spots.old.items frames.old.slots }
    requires few { length spots.old.items ≤ most }
    requires spots { most ≤ vec_capacity spots.old }
    requires frames { most ≤ frames.old.capacity }
    requires pages { ArePages pid.0 region.0 pages.now }
    ensures ok { let before = images frames.old.slots spots.old.items in
        let after = images frames.new.slots spots.new.items in
        OnOk result (after ≡ with_pages pid.0 region.0 pages.now before) }
    ensures full { let before = images frames.old.slots spots.old.items in
        is_err result ≡ nat_lt most (length (with_pages pid.0 region.0 pages.now before)) }
    ensures err { OnErr result ((frames.new ≡ frames.old) × (spots.new ≡ spots.old)) }
    ensures tied { IsTied spots.new.items frames.new.slots }
    ensures few { length spots.new.items ≤ most }
    ensures spots { vec_capacity spots.old ≤ vec_capacity spots.new }
    ensures frames { frames.new.capacity ≡ frames.old.capacity }
{
    let others = spots.len() - count_in(spots.as_slice(), frames, pid, region);
    if pages.len() > most as usize - others {
        return Err(Full);
    }
    drop_region(spots, frames, pid, region);
    put_each(spots, frames, most, pages);
    Ok(())
}

// Drops the pages of a region.
pub(crate) fn drop_region(
    spots: &mut Vec<Spot>,
    frames: &mut PageFrames,
    pid: Pid,
    region: RegionNo,
)
    requires tied { IsTied spots.old.items frames.old.slots }
    ensures pages { let before = images frames.old.slots spots.old.items in
        images frames.new.slots spots.new.items ≡ without page_key (is_page_of pid.0 region.0) before }
    ensures tied { IsTied spots.new.items frames.new.slots }
    ensures few { length spots.new.items ≤ length spots.old.items }
    ensures spots { vec_capacity spots.new ≡ vec_capacity spots.old }
    ensures frames { frames.new.capacity ≡ frames.old.capacity }
{
    if region.0 > u64::MAX / REGION_PAGES {
        return;
    }
    let first = region.0 * REGION_PAGES;
    drop_span(spots, frames, pid, first, first + (REGION_PAGES - 1));
}

// Puts pages one after the other. There is a frame for each.
fn put_each(spots: &mut Vec<Spot>, frames: &mut PageFrames, most: u32, pages: &[PageImage])
    requires tied { IsTied spots.old.items frames.old.slots }
    requires few { length spots.old.items ≤ most }
    requires spots { most ≤ vec_capacity spots.old }
    requires frames { most ≤ frames.old.capacity }
    requires whole { AllByRecursion (λ p. length p.bytes ≡ 4096) pages.now }
    requires room { length (put_all page_key pages.now (images frames.old.slots spots.old.items)) ≤ most }
    ensures pages { images frames.new.slots spots.new.items ≡ put_all page_key pages.now (images frames.old.slots spots.old.items) }
    ensures tied { IsTied spots.new.items frames.new.slots }
    ensures few { length spots.new.items ≤ most }
    ensures spots { vec_capacity spots.old ≤ vec_capacity spots.new }
    ensures frames { frames.new.capacity ≡ frames.old.capacity }
{
    for page in pages {
        match put_whole(
            spots,
            frames,
            most,
            page.pid,
            page.vpn,
            page.bytes.as_slice(),
        ) {
            Ok(()) => {}
            Err(_) => unreachable!(), // there is a frame
        }
    }
}

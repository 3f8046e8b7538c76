//! Pages that are copied for a child.

ghost use Rattle.std.specs.Prelude.{◌≡◌, ℕ, ◌+◌, ◌/◌, ◌<◌, ◌≤◌, ◌^◌, ◌==◌, None, false, is_err, length, map, nat_lt, slice_index_or, vec_capacity, OnOk, OnErr};
ghost use Rattle.std.specs.List.{AllByRecursion};
ghost use Rattle.lego_base.specs.Keys.{Rises, find, is_page_of, key_at, put, put_all, those};
ghost use Rattle.lego_msg.specs.Maps.{for_child, page_key, pages_of};
ghost use Rattle.page_store.specs.Spots.{IsHeld, IsTied, image, images, spot_key};
ghost use Rattle.page_store.specs.Store.{copied};

use crate::frames::{self, PageFrames};
use crate::spot::Spot;
use crate::store::{Full, PageStore, add, count_in, drop_region, region_span};
use lego_base::{Pid, RegionNo};

impl PageStore {
    ghost use Rattle.page_store.specs.Store.{are_too_many, holding};

    /// Makes the child's pages of a region those of the parent, which is another process. They are copied from frame to
    /// frame. `Full` where more pages would be present than there are frames; then nothing changes.
    pub fn copy_pages(&mut self, parent: Pid, child: Pid, region: RegionNo) -> Result<(), Full>
        requires { (parent.0 == child.0) ≡ false }
        ensures ok { OnOk result (self.new ≡ holding self.old (copied parent child region self.old.pages)) }
        ensures full { is_err result ≡ are_too_many self.old (copied parent child region self.old.pages) }
        ensures err { OnErr result (self.new ≡ self.old) }
    {
        copy_region(
            &mut self.spots,
            &mut self.frames,
            self.most,
            parent,
            child,
            region,
        )
    }
}

// Makes the child's pages of a region those of the parent.
fn copy_region(
    spots: &mut Vec<Spot>,
    frames: &mut PageFrames,
    most: u32,
    parent: Pid,
    child: Pid,
    region: RegionNo,
) -> Result<(), Full>
    requires tied { IsTied spots.old.items frames.old.slots }
    requires few { length spots.old.items ≤ most }
    requires spots { most ≤ vec_capacity spots.old }
    requires frames { most ≤ frames.old.capacity }
    requires apart { (parent.0 == child.0) ≡ false }
    ensures ok { let before = images frames.old.slots spots.old.items in
        let after = images frames.new.slots spots.new.items in
        OnOk result (after ≡ copied parent child region before) }
    ensures full { is_err result ≡ nat_lt most (length (copied parent child region (images frames.old.slots spots.old.items))) }
    ensures err { OnErr result ((frames.new ≡ frames.old) × (spots.new ≡ spots.old)) }
    ensures tied { IsTied spots.new.items frames.new.slots }
    ensures few { length spots.new.items ≤ most }
    ensures spots { vec_capacity spots.old ≤ vec_capacity spots.new }
    ensures frames { frames.new.capacity ≡ frames.old.capacity }
{
    let others = spots.len() - count_in(spots.as_slice(), frames, child, region);
    if count_in(spots.as_slice(), frames, parent, region) > most as usize - others {
        return Err(Full);
    }
    drop_region(spots, frames, child, region);
    copy_each(spots, frames, most, parent, child, region);
    Ok(())
}

// Copies the pages of a region one after the other. The child has none there, and there is a frame for each.
fn copy_each(
    spots: &mut Vec<Spot>,
    frames: &mut PageFrames,
    most: u32,
    parent: Pid,
    child: Pid,
    region: RegionNo,
)
    requires tied { IsTied spots.old.items frames.old.slots }
    requires spots { most ≤ vec_capacity spots.old }
    requires frames { most ≤ frames.old.capacity }
    requires apart { (parent.0 == child.0) ≡ false }
    requires none { let before = images frames.old.slots spots.old.items in
        (n : ℕ) → n / 512 ≡ region.0 → find page_key (key_at child.0 n) before ≡ None }
    requires room { let before = images frames.old.slots spots.old.items in
        length (pages_of parent.0 region.0 before) + length before ≤ most }
    ensures pages { let before = images frames.old.slots spots.old.items in
        let copies = map (for_child child) (pages_of parent.0 region.0 before) in
        images frames.new.slots spots.new.items ≡ put_all page_key copies before }
    ensures tied { IsTied spots.new.items frames.new.slots }
    ensures few { length spots.new.items ≤ most }
    ensures spots { vec_capacity spots.old ≤ vec_capacity spots.new }
    ensures frames { frames.new.capacity ≡ frames.old.capacity }
{
    let count = count_in(spots.as_slice(), frames, parent, region);
    for index in 0..count {
        let spot = spot_in(spots.as_slice(), parent, region, index);
        copy_one(spots, frames, spot, child);
    }
}

// The place of the page of a region before which there are `index` others.
fn spot_in(spots: &[Spot], pid: Pid, region: RegionNo, index: usize) -> Spot
    requires rises { Rises spot_key spots.now }
    requires fit { AllByRecursion (λ s. s.vpn.0 < 2 ^ 64) spots.now }
    requires within { index < length (those spot_key (is_page_of pid.0 region.0) spots.now) }
    ensures { (d : _) → result ≡ slice_index_or (those spot_key (is_page_of pid.0 region.0) spots.now) index d }
{
    let (start, _end) = region_span(spots, pid, region);
    spots[start + index]
}

// Copies a page for a child, which has none with its number. There is a frame.
fn copy_one(spots: &mut Vec<Spot>, frames: &mut PageFrames, spot: Spot, child: Pid)
    requires tied { IsTied spots.old.items frames.old.slots }
    requires held { IsHeld frames.old.slots spot }
    requires absent { find spot_key (key_at child.0 spot.vpn.0) spots.old.items ≡ None }
    requires spots { length spots.old.items < vec_capacity spots.old }
    requires frames { length spots.old.items < frames.old.capacity }
    ensures pages { let before = images frames.old.slots spots.old.items in
        let after = images frames.new.slots spots.new.items in
        after ≡ put page_key (for_child child (image frames.old.slots spot)) before }
    ensures length { length spots.new.items ≡ length spots.old.items + 1 }
    ensures tied { IsTied spots.new.items frames.new.slots }
    ensures spots { vec_capacity spots.old ≤ vec_capacity spots.new }
    ensures frames { frames.new.capacity ≡ frames.old.capacity }
{
    let page = frames::copy(frames, spot, child);
    add(spots, frames, page);
}

//! The pages that a process begins with.

ghost use Rattle.std.specs.Prelude.{◌≡◌, ℕ, ◌+◌, ◌≤◌, ◌^◌, [], ◌∷◌, length, All, IfOk};
ghost use Rattle.area_list.specs.declared.TheConstants.{MOST_RUNS};
ghost use Rattle.elf_image.specs.Image.{IsBoundedSegment};
ghost use Rattle.space_rules.specs.Mapped.{union, with_pages, first_page, page_count, areas_of, image_areas_of};

use crate::{STACK_END, STACK_START};
use area_list::Areas;
use bitflags::Flags;
use elf_image::{Image, Segment};
use lego_base::{NoMemory, PAGE_BYTES, Perms, Vpn};
use std::alloc::Global;

/// The areas that a process begins with: each page that a load of its image meets, with the union of the
/// permissions of the loads that meet it, and the stack to read and to write.
pub fn image_areas(alloc: Global, image: &Image) -> Result<Areas, NoMemory>
    ensures { IfOk result (λ areas. areas ≡ image_areas_of image.now.segments) }
{
    let mut areas = load_areas(alloc, image.segments())?;
    let stack = Vpn(STACK_START / PAGE_BYTES);
    let pages = (STACK_END - STACK_START) / PAGE_BYTES;
    match areas.put(stack, pages, Flags::union(Perms::READ, Perms::WRITE)) {
        Ok(()) => Ok(areas),
        Err(_) => unreachable!(), // 64 loads and the stack make 130 runs at most
    }
}

// The pages of the loads.
fn load_areas(alloc: Global, segments: &[Segment]) -> Result<Areas, NoMemory>
    requires bounded { All IsBoundedSegment segments.now }
    requires few { length segments.now ≤ 64 }
    ensures { IfOk result (λ areas. areas ≡ areas_of segments.now []) }
{
    let mut areas = Areas::new(alloc)?;
    for segment in segments {
        map_pages(&mut areas, segment);
    }
    Ok(areas)
}

// The pages that one load meets.
fn map_pages(areas: &mut Areas, segment: &Segment)
    requires bounded { IsBoundedSegment segment.now }
    requires few { (pages : ℕ) → pages ≤ page_count segment.now → length (with_pages (first_page segment.now) pages segment.now.perms areas.old) ≤ MOST_RUNS }
    ensures { areas.new ≡ areas_of (segment.now ∷ []) areas.old }
{
    let first = segment.vaddr / PAGE_BYTES;
    let count = (segment.vaddr + segment.memsz - 1) / PAGE_BYTES + 1 - first;
    add_pages(areas, first, count, segment.perms);
}

// Adds permissions to `count` pages, starting at page `first`.
fn add_pages(areas: &mut Areas, first: u64, count: u64, perms: Perms)
    requires ends { first + count ≤ 2 ^ 26 }
    requires few { (pages : ℕ) → pages ≤ count → length (with_pages first pages perms areas.old) ≤ MOST_RUNS }
    ensures { areas.new ≡ with_pages first count perms areas.old }
{
    for page in 0..count {
        let vpn = Vpn(first + page);
        let all = with_more(areas.perms_at(vpn), perms);
        match areas.put(vpn, 1, all) {
            Ok(()) => {}
            Err(_) => unreachable!(), // 64 loads make 128 runs at most, on the way to the last page too
        }
    }
}

// The permissions of a page together with more.
fn with_more(perms: Option<Perms>, more: Perms) -> Perms
    ensures { result ≡ union perms more }
{
    match perms {
        Some(perms) => Flags::union(perms, more),
        None => more,
    }
}

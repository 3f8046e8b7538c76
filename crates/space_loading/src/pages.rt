//! What the loads have in a page.

ghost use Rattle.std.specs.Prelude.{◌≡◌, ◌+◌, ◌-◌, ◌/◌, ◌<◌, ◌≤◌, ◌^◌, [], All, IfOk, IfSome, length};
ghost use Rattle.lego_base.specs.Pieces.{laid_over};
ghost use Rattle.lego_base.specs.Space.{bytes_at, Space, with_bytes};
ghost use Rattle.elf_image.specs.Image.{IsBoundedSegment};
ghost use Rattle.space_rules.specs.Pages.{filled_pages, first_byte, last_end, loaded, pages_in, part_end, part_start, with_numbers};
ghost use Rattle.space_loading.specs.Pages.{earlier, HasPart, next_page};

use elf_image::Segment;
use lego_base::{Bytes, NoMemory, PAGE_BYTES};
use std::alloc::Global;

// The lowest page, `from` or above, in which a load has a byte.
pub(crate) fn next_page(segments: &[Segment], from: u64) -> Option<u64>
    requires { All IsBoundedSegment segments.now }
    ensures next { result ≡ next_page from (filled_pages segments.now) }
    ensures part { IfSome result (HasPart segments.now) }
    ensures above { IfSome result (λ page. from ≤ page) }
    ensures low { IfSome result (λ page. page < 2 ^ 26) }
{
    let mut next = None;
    for i in (0..segments.len()).rev() {
        next = earlier(next_page_of(&segments[i], from), next);
    }
    next
}

// The lowest page, `from` or above, in which one load has a byte.
fn next_page_of(segment: &Segment, from: u64) -> Option<u64>
    requires { IsBoundedSegment segment.now }
    ensures { result ≡ next_page from (with_numbers (segment.now.vaddr / 4096) (pages_in segment.now) []) }
{
    if segment.bytes.is_empty() {
        return None;
    }
    let last = (segment.vaddr + segment.bytes.len() as u64 - 1) / PAGE_BYTES;
    if last < from {
        return None;
    }
    Some(from.max(segment.vaddr / PAGE_BYTES))
}

// The lower of two numbers, where there are two.
fn earlier(a: Option<u64>, b: Option<u64>) -> Option<u64>
    ensures { result ≡ earlier a b }
{
    match (a, b) {
        (Some(a), Some(b)) => Some(a.min(b)),
        (Some(a), None) => Some(a),
        (None, b) => b,
    }
}

// The address of the first byte that a load has in a page; the end of the page, where none has one.
pub(crate) fn first_byte(segments: &[Segment], page: u64) -> u64
    requires bounded { All IsBoundedSegment segments.now }
    requires within { page < 2 ^ 26 }
    ensures { result ≡ first_byte segments.now page }
{
    let mut first = (page + 1) * PAGE_BYTES;
    for i in (0..segments.len()).rev() {
        let (start, end) = part(&segments[i], page);
        if start < end {
            first = first.min(start);
        }
    }
    first
}

// The address after the last byte that a load has in a page; the start of the page, where none has one.
pub(crate) fn last_end(segments: &[Segment], page: u64) -> u64
    requires bounded { All IsBoundedSegment segments.now }
    requires within { page < 2 ^ 26 }
    ensures { result ≡ last_end segments.now page }
{
    let mut last = page * PAGE_BYTES;
    for i in (0..segments.len()).rev() {
        let (start, end) = part(&segments[i], page);
        if start < end {
            last = last.max(end);
        }
    }
    last
}

// Where the bytes of a load in a page begin and end, if it has some there.
fn part(segment: &Segment, page: u64) -> (u64, u64)
    requires bounded { IsBoundedSegment segment.now }
    requires within { page < 2 ^ 26 }
    ensures start { result.0 ≡ part_start segment.now page }
    ensures end { result.1 ≡ part_end segment.now page }
{
    let end = segment.vaddr + segment.bytes.len() as u64;
    (
        segment.vaddr.max(page * PAGE_BYTES),
        end.min((page + 1) * PAGE_BYTES),
    )
}

// The bytes that the loads have from an address to before another, 0 where none has one.
pub(crate) fn loaded_between(
    alloc: Global,
    segments: &[Segment],
    first: u64,
    end: u64,
) -> Result<Bytes, NoMemory>
    requires bounded { All IsBoundedSegment segments.now }
    requires ordered { first ≤ end }
    requires low { end ≤ 2 ^ 38 }
    ensures { IfOk result (λ bytes. bytes ≡ bytes_at (record { areas = []; byte = loaded segments.now }) first (end - first)) }
{
    let mut bytes = vec![in alloc; 0; (end - first) as usize]?;
    for i in (0..segments.len()).rev() {
        lay(bytes.as_mut_slice(), first, &segments[i]);
    }
    Ok(Bytes::from_vec(bytes)?)
}

// Lays the bytes of a load over bytes that start at an address.
fn lay(bytes: &mut [u8], first: u64, segment: &Segment)
    requires bounded { IsBoundedSegment segment.now }
    requires low { first + length bytes.old ≤ 2 ^ 38 }
    ensures { (space : Space) → bytes.old ≡ bytes_at space first (length bytes.old) → bytes.new ≡ bytes_at (with_bytes space segment.now.vaddr segment.now.bytes) first (length bytes.old) }
{
    let from = first.max(segment.vaddr);
    let to = (first + bytes.len() as u64).min(segment.vaddr + segment.bytes.len() as u64);
    if from < to {
        let skipped = (from - segment.vaddr) as usize;
        let piece = &segment.bytes.as_slice()[skipped..skipped + (to - from) as usize];
        put(bytes, (from - first) as usize, piece);
    }
}

// Puts bytes in place of others, starting at an offset.
fn put(bytes: &mut [u8], off: usize, piece: &[u8])
    requires { off + length piece.now ≤ length bytes.old }
    ensures { bytes.new ≡ laid_over bytes.old off piece.now }
{
    bytes[off..off + piece.len()].copy_from_slice(piece);
}

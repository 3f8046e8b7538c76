//! Pages, and areas with more or fewer of them.

ghost use Rattle.std.specs.Prelude.{◌≡◌, ◌+◌, ◌<◌, ◌≤◌, ℕ, None, Some, true, not, nat_lt, length};
ghost use Rattle.lego_base.specs.Space.{perms_of as perms_at};
ghost use Rattle.lego_base.specs.declared.sizes.TheConstants.{PAGES_END, USER_END};
ghost use Rattle.area_list.specs.Runs.{cut_runs, in_range, put_runs};
ghost use Rattle.space_rules.specs.Place.{pages_for};
ghost use Rattle.linux_model.specs.SpaceCalls.{has_many_runs, is_free, is_past_limits, perms};

use area_list::Areas;
use bitflags::Flags;
use lego_base::{PAGE_BYTES, Perms, USER_END, Vpn};

/// The most mapped pages of a process.
pub(crate) const MOST_PAGES: u64 = 16_384;

// The number of pages that `len` bytes need.
pub(crate) fn pages_for(len: u64) -> u64
    ensures { result ≡ pages_for len }
{
    len.div_ceil(PAGE_BYTES)
}

// Whether `len` bytes, starting at an address, end past the addresses of a program.
pub(crate) fn ends_outside(address: u64, len: u64) -> bool
    ensures { result ≡ nat_lt USER_END (address + len) }
{
    address > USER_END || len > USER_END - address
}

// READ 1, WRITE 2 and EXEC 4, as of mmap(2).
pub(crate) fn perms_of(prot: u64) -> Perms
    requires { prot < 8 }
    ensures { result ≡ perms prot }
{
    Perms::from_bits_retain(prot as u8)
}

// Whether none of `pages` pages, starting at `first`, is mapped.
pub(crate) fn is_free(areas: &Areas, first: Vpn, pages: u64) -> bool
    requires { first.0 + pages ≤ PAGES_END }
    ensures { result ≡ is_free areas.now first.0 pages }
{
    match areas.gap_from(first, pages) {
        Some(at) => at.0 == first.0,
        None => false,
    }
}

// Maps `pages` pages, starting at `first`, unless there are then more runs than a process may have.
pub(crate) fn put_few(areas: &mut Areas, first: Vpn, pages: u64, perms: Perms) -> bool
    requires { first.0 + pages ≤ PAGES_END }
    ensures few { result ≡ not (has_many_runs (put_runs first.0 pages perms areas.old)) }
    ensures put { result ≡ true → areas.new ≡ put_runs first.0 pages perms areas.old }
    ensures sets { result ≡ true → (page : ℕ) → perms_at areas.new page ≡ in_range first.0 pages page (Some perms) (perms_at areas.old page) }
{
    areas.put(first, pages, perms).is_ok()
}

// The same, unless there are then more runs or more pages.
pub(crate) fn put_within(areas: &mut Areas, first: Vpn, pages: u64, perms: Perms) -> bool
    requires { first.0 + pages ≤ PAGES_END }
    ensures within { result ≡ not (is_past_limits (put_runs first.0 pages perms areas.old)) }
    ensures put { result ≡ true → areas.new ≡ put_runs first.0 pages perms areas.old }
    ensures sets { result ≡ true → (page : ℕ) → perms_at areas.new page ≡ in_range first.0 pages page (Some perms) (perms_at areas.old page) }
{
    put_few(areas, first, pages, perms) && areas.pages() <= MOST_PAGES
}

// Unmaps `pages` pages, starting at `first`, unless there are then more runs than a process may have.
pub(crate) fn cut_few(areas: &mut Areas, first: Vpn, pages: u64) -> bool
    requires { first.0 + pages ≤ PAGES_END }
    ensures few { result ≡ not (has_many_runs (cut_runs first.0 pages areas.old)) }
    ensures cut { result ≡ true → areas.new ≡ cut_runs first.0 pages areas.old }
    ensures clears { result ≡ true → (page : ℕ) → perms_at areas.new page ≡ in_range first.0 pages page None (perms_at areas.old page) }
{
    areas.cut(first, pages).is_ok()
}

// The same, unless there are then more runs or more pages.
pub(crate) fn cut_within(areas: &mut Areas, first: Vpn, pages: u64) -> bool
    requires { first.0 + pages ≤ PAGES_END }
    ensures within { result ≡ not (is_past_limits (cut_runs first.0 pages areas.old)) }
    ensures cut { result ≡ true → areas.new ≡ cut_runs first.0 pages areas.old }
    ensures clears { result ≡ true → (page : ℕ) → perms_at areas.new page ≡ in_range first.0 pages page None (perms_at areas.old page) }
{
    cut_few(areas, first, pages) && areas.pages() <= MOST_PAGES
}

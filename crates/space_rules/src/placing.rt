//! Where a mapping goes.

ghost use Rattle.std.specs.Prelude.{◌≡◌, ℕ, MatchOption};
ghost use Rattle.space_rules.specs.Place.{pages_for, place_of, IsPlace, IsLowestPlace};

use crate::MAPPINGS_START;
use area_list::Areas;
use lego_base::{PAGE_BYTES, Vpn};

/// Where `mmap(2)` puts `len` bytes whose caller names no address: the lowest page address,
/// `MAPPINGS_START` or above, at which unmapped pages for the whole length start that end within the
/// address space. `None` exactly where there is no such address.
pub fn place(areas: &Areas, len: u64) -> Option<u64>
    ensures place { result ≡ place_of areas.now len }
    ensures lowest { MatchOption result ((at : ℕ) → IsPlace areas.now len at → ⊥) (IsLowestPlace areas.now len) }
{
    match areas.gap_from(Vpn(MAPPINGS_START / PAGE_BYTES), pages_for(len)) {
        Some(page) => Some(page.0 * PAGE_BYTES),
        None => None,
    }
}

// The number of pages that `len` bytes need.
fn pages_for(len: u64) -> u64
    ensures { result ≡ pages_for len }
{
    len.div_ceil(PAGE_BYTES)
}

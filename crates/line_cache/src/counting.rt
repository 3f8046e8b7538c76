//! What a cache counts. A count goes on at 0 after 2^64 - 1.

ghost use Rattle.std.specs.Prelude.{◌≡◌};
ghost use Rattle.line_cache.specs.Counting.{tally_of, with_hit, with_touch, with_victim, with_writeback};

use cache_tags::{Touch, Victim};
use lego_base::Counts;

/// Nothing was counted yet.
pub(crate) const NONE: Counts = Counts {
    hits: 0,
    misses: 0,
    evictions: 0,
    writebacks: 0,
};

/// Counts a hit.
#[inline(always)]
pub(crate) fn hit(counts: &mut Counts)
    ensures { tally_of counts.new ≡ with_hit (tally_of counts.old) }
{
    counts.hits = counts.hits.wrapping_add(1);
}

/// Counts a line that was written back.
pub(crate) fn writeback(counts: &mut Counts)
    ensures { tally_of counts.new ≡ with_writeback (tally_of counts.old) }
{
    counts.writebacks = counts.writebacks.wrapping_add(1);
}

/// Counts what a touch found.
pub(crate) fn touch(counts: &mut Counts, touch: Touch)
    ensures { tally_of counts.new ≡ with_touch touch (tally_of counts.old) }
{
    match touch {
        Touch::Hit(_) => hit(counts),
        Touch::Miss {
            slot: _,
            victim: left,
        } => {
            counts.misses = counts.misses.wrapping_add(1);
            victim(counts, left);
        }
    }
}

// Counts a line that left, and that it was written back where it was dirty.
fn victim(counts: &mut Counts, left: Option<Victim>)
    ensures { tally_of counts.new ≡ with_victim left (tally_of counts.old) }
{
    if let Some(line) = left {
        counts.evictions = counts.evictions.wrapping_add(1);
        if line.dirty {
            writeback(counts);
        }
    }
}

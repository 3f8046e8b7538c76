//! What segments weigh.

ghost use Rattle.std.specs.Prelude.{◌≡◌, ◌+◌, ◌^◌, ◌<◌, ◌≤◌, IfOk, MatchOption, length, sum_by};
ghost use Rattle.lego_base.specs.declared.records.PageImage.{PageImage};
ghost use Rattle.lego_base.specs.declared.records.Patch.{Patch};
ghost use Rattle.backup_images.specs.Segments.{is_heavy, weight_of, weights};

use crate::segment::Seg;
use lego_base::{NoMemory, PageImage, Patch};

// What a segment weighs besides its bytes.
const SEGMENT_WEIGHT: u64 = 64;

// A sum, which memory that is there never lets wrap.
fn sum(a: u64, b: u64) -> Result<u64, NoMemory>
    ensures { IfOk result (λ n. n ≡ a + b) }
{
    a.checked_add(b).ok_or(NoMemory)
}

fn patches_weight(patches: &[Patch]) -> Result<u64, NoMemory>
    ensures { IfOk result (λ n. n ≡ sum_by (λ (p : Patch). length p.bytes) patches.now) }
{
    let mut bytes = 0;
    for patch in patches {
        bytes = sum(bytes, patch.bytes.len() as u64)?;
    }
    Ok(bytes)
}

fn pages_weight(pages: &[PageImage]) -> Result<u64, NoMemory>
    ensures { IfOk result (λ n. n ≡ sum_by (λ (p : PageImage). length p.bytes) pages.now) }
{
    let mut bytes = 0;
    for page in pages {
        bytes = sum(bytes, page.bytes.len() as u64)?;
    }
    Ok(bytes)
}

fn weight_of(segment: &Seg) -> Result<u64, NoMemory>
    ensures { IfOk result (λ n. n ≡ weight_of segment.now) }
{
    match segment {
        Seg::Patches(patches) => sum(SEGMENT_WEIGHT, patches_weight(patches.as_slice())?),
        Seg::Dropped { .. } => Ok(SEGMENT_WEIGHT),
        Seg::Freed { .. } => Ok(SEGMENT_WEIGHT),
        Seg::Reset { pages, .. } => sum(SEGMENT_WEIGHT, pages_weight(pages.as_slice())?),
    }
}

/// What a segment weighs after others that weigh `before`.
pub(crate) fn weight_with(before: u64, segment: &Seg) -> Result<u64, NoMemory>
    ensures { IfOk result (λ n. n ≡ before + weight_of segment.now) }
{
    sum(before, weight_of(segment)?)
}

/// What segments weigh after others that weigh `before`.
pub(crate) fn weights(before: u64, segments: &[Seg]) -> Result<u64, NoMemory>
    ensures { IfOk result (λ n. n ≡ before + weights segments.now) }
{
    let mut weight = before;
    for segment in segments {
        weight = weight_with(weight, segment)?;
    }
    Ok(weight)
}

/// Whether segments of this weight are too heavy for `images` images.
pub(crate) fn is_heavy(weight: u64, images: usize) -> bool
    ensures { result ≡ is_heavy weight images }
{
    let most = (images as u64)
        .saturating_mul(8192)
        .saturating_add(1_048_576);
    most < weight
}

//! Segments that make the images of regions anew.

ghost use Rattle.std.specs.Prelude.{◌≡◌, IfOk, OnOk};
ghost use Rattle.lego_base.specs.Keys.{Rises};
ghost use Rattle.lego_msg.specs.Maps.{page_key};
ghost use Rattle.backup_images.specs.Segments.{alone, belongs_to, copied, extended, images_after, regions_reset, with_image};

use crate::page::Page;
use crate::pages;
use crate::segment::Seg;
use lego_base::{NoMemory, PageImage, Pid, RegionNo, Seq};
use std::alloc::Global;

// The segment of one image.
fn alone(alloc: Global, image: PageImage) -> Result<Seg, NoMemory>
    ensures { IfOk result (λ s. s ≡ alone image) }
{
    let pid = image.pid;
    let region = RegionNo(image.vpn.0 / 512);
    let mut pages = Seq::new(alloc);
    pages.push(image)?;
    Ok(Seg::Reset { pid, region, pages })
}

// Whether an image belongs to a segment of its region.
fn belongs_to(segment: &Seg, image: &PageImage) -> bool
    ensures { result ≡ belongs_to segment.now image.now }
{
    match segment {
        Seg::Reset { pid, region, .. } => image.pid == *pid && image.vpn.0 / 512 == region.0,
        _ => false,
    }
}

// A segment with an image that belongs to it.
fn with_image(segment: Seg, image: PageImage) -> Result<Seg, NoMemory>
    ensures { IfOk result (λ s. s ≡ with_image segment image) }
{
    match segment {
        Seg::Reset {
            pid,
            region,
            mut pages,
        } => {
            pages.push(image)?;
            Ok(Seg::Reset { pid, region, pages })
        }
        other => Ok(other),
    }
}

// Adds an image to the last segment where it belongs to that, else as a segment of its own.
fn extend(alloc: Global, segments: &mut Vec<Seg>, image: PageImage) -> Result<(), NoMemory>
    ensures { OnOk result (segments.new.items ≡ extended segments.old.items image) }
{
    let Some(last) = segments.pop() else {
        segments.push(alone(alloc, image)?)?;
        return Ok(());
    };
    if belongs_to(&last, &image) {
        segments.push(with_image(last, image)?)?;
        return Ok(());
    }
    segments.push(last)?;
    segments.push(alone(alloc, image)?)?;
    Ok(())
}

/// One segment for each region that has pages, in rising order.
pub(crate) fn regions_reset(alloc: Global, pages: &[Page]) -> Result<Vec<Seg>, NoMemory>
    ensures { IfOk result (λ v. v.items ≡ regions_reset pages.now) }
{
    let mut segments = Vec::new(alloc);
    for page in pages {
        extend(alloc, &mut segments, page.image(alloc)?)?;
    }
    Ok(segments)
}

/// One segment for each of some regions, by which the child's images become the parent's. The pages become what they
/// make of them.
pub(crate) fn copy_regions(
    alloc: Global,
    pages: &mut Vec<Page>,
    parent: Pid,
    child: Pid,
    regions: &[RegionNo],
) -> Result<Vec<Seg>, NoMemory>
    requires { Rises page_key pages.old.items }
    ensures segments { IfOk result (λ v. v.items ≡ copied parent child regions.now pages.old.items) }
    ensures pages { IfOk result (λ v. pages.new.items ≡ images_after v.items pages.old.items) }
{
    let mut segments = Vec::new(alloc);
    for region in regions {
        let images = pages::images_as(alloc, pages.as_slice(), parent, *region, child)?;
        pages::reset(alloc, pages, child, *region, images.as_slice())?;
        segments.push(Seg::Reset {
            pid: child,
            region: *region,
            pages: Seq::from_vec(images),
        })?;
    }
    Ok(segments)
}

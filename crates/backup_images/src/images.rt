//! The images of pages at storage.

ghost use Rattle.std.specs.Prelude.{◌≡◌, ◌≤◌, [], ◌∷◌, ◌++◌, IfOk, OnOk, OnErr, drop, length, map, take};
ghost use Rattle.lego_base.specs.Keys.{Rises, is_of, is_page_from, put_all, without};
ghost use Rattle.lego_base.specs.declared.records.PageImage.{PageImage};
ghost use Rattle.lego_msg.specs.Maps.{copied_pages, overlaid, page_key, pages_of, with_pages};

use crate::page::Page;
use crate::pages;
use crate::regions::{copy_regions, regions_reset};
use crate::segment::Seg;
use crate::weight::{is_heavy, weight_with, weights};
use lego_base::{NoMemory, PageImage, Patch, Pid, RegionNo, Seq, Vpn};
use std::alloc::Global;
use std::marker::Model;

/// The images of pages, as the list of the segments that made them. Contracts see this list; the images are `images_in` of
/// it. Where the list becomes too heavy for its images, it is made anew. If memory runs out, nothing changes.
#[derive(Drop)]
pub struct Images {
    alloc: Global,
    segments: Vec<Seg>,
    weight: u64,
    pages: Vec<Page>, // the images, in rising order
}

impl Model for Images {
    ghost use Rattle.std.specs.Prelude.{◌≡◌, List};
    ghost use Rattle.backup_images.specs.declared.segment.Seg.{Seg};

    ghost Value = { List Seg };

    ghost use Rattle.backup_images.specs.Segments.{images_in, weights};

    ghost view = { λ i. i.segments.items };

    ghost invariant = { λ i. (i.weight ≡ weights i.segments.items) × (i.pages.items ≡ images_in i.segments.items) };
}

impl Images {
    ghost use Rattle.backup_images.specs.declared.segment.Seg.TheVariants.{Dropped, Freed, Patches, Reset};
    ghost use Rattle.backup_images.specs.Segments.{after_segment, compacted, copied, images_after, images_in, regions_reset, weights};

    /// No image.
    pub fn new(alloc: Global) -> Result<Images, NoMemory>
        ensures { IfOk result (λ i. i ≡ []) }
    {
        Ok(Images {
            alloc,
            segments: Vec::new(alloc),
            weight: 0,
            pages: Vec::new(alloc),
        })
    }

    /// Lays a batch of patches over the images, in order. An image that isn't there starts as zeros.
    pub fn apply(&mut self, batch: &[Patch]) -> Result<(), NoMemory>
        ensures ok { OnOk result (self.new ≡ compacted (self.old ++ Patches batch.now ∷ [])) }
        ensures images { OnOk result (images_in self.new ≡ overlaid batch.now (images_in self.old)) }
        ensures err { OnErr result (self.new ≡ self.old) }
    {
        let fresh = pages::patched(self.alloc, self.pages.as_slice(), batch)?;
        let batch = Seq::from_vec(Vec::from_clones(self.alloc, batch)?);
        self.put(fresh, Seg::Patches(batch))
    }

    /// Drops the images of pages.
    pub fn drop_pages(&mut self, pid: Pid, first: Vpn, pages: u64) -> Result<(), NoMemory>
        ensures ok { OnOk result (self.new ≡ compacted (self.old ++ Dropped pid first pages ∷ [])) }
        ensures images { OnOk result (images_in self.new ≡ without page_key (is_page_from pid.0 first.0 pages) (images_in self.old)) }
        ensures err { OnErr result (self.new ≡ self.old) }
    {
        let (start, end) = pages::page_span(self.pages.as_slice(), pid, first, pages);
        self.cut(start, end, Seg::Dropped { pid, first, pages })
    }

    /// Drops the images of a process.
    pub fn drop_process(&mut self, pid: Pid) -> Result<(), NoMemory>
        ensures ok { OnOk result (self.new ≡ compacted (self.old ++ Freed pid ∷ [])) }
        ensures images { OnOk result (images_in self.new ≡ without page_key (is_of pid.0) (images_in self.old)) }
        ensures err { OnErr result (self.new ≡ self.old) }
    {
        let (start, end) = pages::process_span(self.pages.as_slice(), pid);
        self.cut(start, end, Seg::Freed { pid })
    }

    /// Makes these the images of a region.
    pub fn reset(&mut self, pid: Pid, region: RegionNo, pages: &[PageImage]) -> Result<(), NoMemory>
        ensures ok { OnOk result (self.new ≡ compacted (self.old ++ Reset pid region pages.now ∷ [])) }
        ensures images { OnOk result (images_in self.new ≡ with_pages pid.0 region.0 pages.now (images_in self.old)) }
        ensures err { OnErr result (self.new ≡ self.old) }
    {
        let mut images = pages::copied(self.alloc, self.pages.as_slice())?;
        pages::reset(self.alloc, &mut images, pid, region, pages)?;
        let pages = Seq::from_vec(Vec::from_clones(self.alloc, pages)?);
        self.append(Seg::Reset { pid, region, pages }, images)
    }

    /// Makes the child's images of some regions the parent's, as `fork(2)` needs it.
    pub fn copy_space(
        &mut self,
        parent: Pid,
        child: Pid,
        regions: &[RegionNo],
    ) -> Result<(), NoMemory>
        ensures ok { OnOk result (self.new ≡ compacted (self.old ++ copied parent child regions.now (images_in self.old))) }
        ensures images { OnOk result (images_in self.new ≡ copied_pages parent.0 child regions.now (images_in self.old)) }
        ensures err { OnErr result (self.new ≡ self.old) }
    {
        let mut pages = pages::copied(self.alloc, self.pages.as_slice())?;
        let segments = copy_regions(self.alloc, &mut pages, parent, child, regions)?;
        self.commit(segments, pages)
    }

    /// Copies of the images of a region, in rising order.
    pub fn images_of(
        &self,
        alloc: Global,
        pid: Pid,
        region: RegionNo,
    ) -> Result<Vec<PageImage>, NoMemory>
        ensures { IfOk result (λ v. v.items ≡ pages_of pid.0 region.0 (images_in self.now)) }
    {
        pages::images_as(alloc, self.pages.as_slice(), pid, region, pid)
    }

    /// The segments, oldest first.
    pub fn segments(&self) -> &[Seg]
        ensures { result.now ≡ self.now }
    {
        self.segments.as_slice()
    }

    /// What the segments weigh: 64 each, and the bytes of their patches and pages.
    pub fn weight(&self) -> u64
        ensures { result ≡ weights self.now }
    {
        self.weight
    }

    // Adds a segment, given the images after it.
    fn append(&mut self, segment: Seg, pages: Vec<Page>) -> Result<(), NoMemory>
        requires { pages.items ≡ after_segment (images_in self.old) segment }
        ensures ok { OnOk result (self.new ≡ compacted (self.old ++ segment ∷ [])) }
        ensures images { OnOk result (images_in self.new ≡ pages.items) }
        ensures err { OnErr result (self.new ≡ self.old) }
    {
        let mut segments = Vec::new(self.alloc);
        segments.push(segment)?;
        self.commit(segments, pages)
    }

    // Adds a segment that puts images in their places. The other images stay where they are, unless the list may become too
    // heavy.
    fn put(&mut self, fresh: Vec<Page>, segment: Seg) -> Result<(), NoMemory>
        requires { put_all page_key fresh.items (images_in self.old) ≡ after_segment (images_in self.old) segment }
        ensures ok { OnOk result (self.new ≡ compacted (self.old ++ segment ∷ [])) }
        ensures images { OnOk result (images_in self.new ≡ after_segment (images_in self.old) segment) }
        ensures err { OnErr result (self.new ≡ self.old) }
    {
        let weight = weight_with(self.weight, &segment)?;
        if is_heavy(weight, self.pages.len()) {
            let mut pages = pages::copied(self.alloc, self.pages.as_slice())?;
            pages.reserve(fresh.len())?;
            pages::put_fresh(&mut pages, fresh);
            return self.append(segment, pages);
        }
        self.pages.reserve(fresh.len())?;
        self.segments.push(segment)?;
        pages::put_fresh(&mut self.pages, fresh);
        self.weight = weight;
        Ok(())
    }

    // Adds a segment that drops the images from one place to before another. The other images stay where they are.
    fn cut(&mut self, start: usize, end: usize, segment: Seg) -> Result<(), NoMemory>
        requires order { start ≤ end }
        requires within { end ≤ length (images_in self.old) }
        requires rest { after_segment (images_in self.old) segment ≡ take start (images_in self.old) ++ drop end (images_in self.old) }
        ensures ok { OnOk result (self.new ≡ compacted (self.old ++ segment ∷ [])) }
        ensures images { OnOk result (images_in self.new ≡ after_segment (images_in self.old) segment) }
        ensures err { OnErr result (self.new ≡ self.old) }
    {
        let weight = weight_with(self.weight, &segment)?;
        if is_heavy(weight, self.pages.len() - (end - start)) {
            let mut pages = pages::copied(self.alloc, self.pages.as_slice())?;
            pages::cut(&mut pages, start, end);
            return self.make_anew(pages);
        }
        self.segments.push(segment)?;
        pages::cut(&mut self.pages, start, end);
        self.weight = weight;
        Ok(())
    }

    // Adds segments, given the images after them.
    fn commit(&mut self, segments: Vec<Seg>, pages: Vec<Page>) -> Result<(), NoMemory>
        requires { pages.items ≡ images_after segments.items (images_in self.old) }
        ensures ok { OnOk result (self.new ≡ compacted (self.old ++ segments.items)) }
        ensures images { OnOk result (images_in self.new ≡ pages.items) }
        ensures err { OnErr result (self.new ≡ self.old) }
    {
        let weight = weights(self.weight, segments.as_slice())?;
        if is_heavy(weight, pages.len()) {
            return self.make_anew(pages);
        }
        let mut segments = segments;
        self.segments.append(&mut segments)?;
        self.weight = weight;
        self.pages = pages;
        Ok(())
    }

    // Makes the list anew, one segment a region, given the images.
    fn make_anew(&mut self, pages: Vec<Page>) -> Result<(), NoMemory>
        requires { Rises page_key pages.items }
        ensures ok { OnOk result (self.new ≡ regions_reset pages.items) }
        ensures err { OnErr result (self.new ≡ self.old) }
    {
        let segments = regions_reset(self.alloc, pages.as_slice())?;
        let weight = weights(0, segments.as_slice())?;
        self.segments = segments;
        self.weight = weight;
        self.pages = pages;
        Ok(())
    }
}

//! The image of one page, whose bytes several lists share.

ghost use Rattle.std.specs.Prelude.{◌≡◌, IfOk};
ghost use Rattle.lego_base.specs.Keys.{is_below, is_of, is_page_from, is_page_of, key_at};
ghost use Rattle.lego_msg.specs.Maps.{page_key};
ghost use Rattle.backup_images.specs.Spans.{is_before_region};

use keyed_list::Keyed;
use lego_base::{Bytes, NoMemory, PageImage, Pid, RegionNo, Vpn};
use std::alloc::{AllocError, Global};
use std::marker::Model;
use std::rc::Rc;

/// The image of a page. A clone shares its bytes. Contracts see it as the image.
#[derive(Drop)]
pub(crate) struct Page {
    pid: Pid,
    vpn: Vpn,
    bytes: Rc<Bytes>,
}

impl Model for Page {
    ghost use Rattle.lego_base.specs.declared.records.PageImage.{PageImage};

    ghost Value = { PageImage };

    ghost view = { λ p. record { pid = p.pid; vpn = p.vpn; bytes = p.bytes.value } };
}

impl Page {
    /// The image of a page with these bytes.
    pub(crate) fn new(alloc: Global, pid: Pid, vpn: Vpn, bytes: Bytes) -> Result<Page, NoMemory>
        ensures { IfOk result (λ p. p ≡ record { pid = pid; vpn = vpn; bytes = bytes }) }
    {
        let bytes = Rc::new(alloc, bytes)?;
        Ok(Page { pid, vpn, bytes })
    }

    /// Its bytes.
    pub(crate) fn bytes(&self) -> &[u8]
        ensures { result.now ≡ self.now.bytes }
    {
        self.bytes.as_slice()
    }

    /// Whether it comes before a page.
    pub(crate) fn is_before(&self, pid: Pid, vpn: Vpn) -> bool
        ensures { result ≡ is_below (page_key self.now) (key_at pid.0 vpn.0) }
    {
        if self.pid == pid {
            self.vpn < vpn
        } else {
            self.pid < pid
        }
    }

    /// Whether its region comes before a region.
    pub(crate) fn is_before_region(&self, pid: Pid, region: RegionNo) -> bool
        ensures { result ≡ is_before_region pid.0 region.0 (page_key self.now) }
    {
        if self.pid == pid {
            self.vpn.0 / 512 < region.0
        } else {
            self.pid < pid
        }
    }

    /// Whether it is of a process.
    pub(crate) fn is_of(&self, pid: Pid) -> bool
        ensures { result ≡ is_of pid.0 (page_key self.now) }
    {
        self.pid == pid
    }

    /// Whether it is of a region.
    pub(crate) fn is_in(&self, pid: Pid, region: RegionNo) -> bool
        ensures { result ≡ is_page_of pid.0 region.0 (page_key self.now) }
    {
        self.pid == pid && self.vpn.0 / 512 == region.0
    }

    /// Whether it is one of the `pages` pages starting at one.
    pub(crate) fn is_within(&self, pid: Pid, first: Vpn, pages: u64) -> bool
        ensures { result ≡ is_page_from pid.0 first.0 pages (page_key self.now) }
    {
        self.pid == pid && self.vpn >= first && self.vpn.0 - first.0 < pages
    }

    /// A copy of the image that shares nothing.
    pub(crate) fn image(&self, alloc: Global) -> Result<PageImage, NoMemory>
        ensures { IfOk result (λ p. p ≡ self.now) }
    {
        let bytes = Bytes::from_slice(alloc, self.bytes.as_slice())?;
        Ok(PageImage {
            pid: self.pid,
            vpn: self.vpn,
            bytes,
        })
    }
}

impl Keyed for Page {
    ghost use Rattle.lego_msg.specs.Maps.{page_key};

    ghost key = { λ p. page_key p };

    fn pid(&self) -> Pid {
        self.pid
    }

    fn number(&self) -> u64 {
        self.vpn.0
    }
}

impl Clone for Page {
    ghost is_clone = { λ page copy. copy ≡ page };

    fn clone(&self) -> Result<Page, AllocError> {
        let bytes = self.bytes.clone()?;
        Ok(Page {
            pid: self.pid,
            vpn: self.vpn,
            bytes,
        })
    }
}

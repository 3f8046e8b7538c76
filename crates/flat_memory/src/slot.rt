//! The fast path from an address to its byte.
ghost use Rattle.std.specs.Prelude.{◌≡◌, ◌+◌, ◌-◌, ◌%◌, ◌^◌, ◌<◌, IfSome, IfNone};
ghost use Rattle.lego_base.specs.Space.{allows};
ghost use Rattle.rv64_step.specs.Access.{bytes_in};
ghost use Rattle.flat_memory.specs.FastPath.{needed, tag_of, tag_if, slot_of};

use bitflags::Flags;
use lego_base::{PAGE_BYTES, Perms};
use rv64_step::Width;

/// What an access does.
#[derive(Clone, Copy, Debug, PartialEq, Eq)]
pub enum Use {
    Load,
    Store,
    Fetch,
}

/// A tag with which no page begins.
const NO_PAGE: u64 = u64::MAX;

/// Where the bytes of a page are. A tag is where the page begins, if the use is permitted, else `NO_PAGE`.
#[derive(Clone, Copy, Debug, PartialEq, Eq)]
pub struct Slot {
    load: u64,
    store: u64, // also `NO_PAGE` where the page has no bytes of its own yet
    fetch: u64,
    shift: u64, // what to add to an address of the page, modulo 2^64, for the place of its byte
}

impl Use {
    /// The permission that it needs, as a number.
    #[inline(always)]
    pub fn need(self) -> u8
        ensures { result ≡ needed self }
    {
        self.needs().bits()
    }

    // The permission that it needs.
    #[inline(always)]
    fn needs(self) -> Perms
        ensures { result.0 ≡ needed self }
    {
        match self {
            Use::Load => Perms::READ,
            Use::Store => Perms::WRITE,
            Use::Fetch => Perms::EXEC,
        }
    }
}

/// Whether a page with these permissions, if it is mapped, permits a use.
fn permits(perms: Option<Perms>, access: Use) -> bool
    ensures { result ≡ allows perms (needed access) }
{
    match perms {
        Some(perms) => perms.contains(access.needs()),
        None => false,
    }
}

// Where a page begins, if that is allowed.
fn tag(allowed: bool, page: u64) -> u64
    requires { page < 2 ^ 52 }
    ensures { result ≡ tag_if allowed page }
{
    if allowed { page * PAGE_BYTES } else { NO_PAGE }
}

impl Slot {
    /// The slot of no page.
    pub const NONE: Slot = Slot {
        load: NO_PAGE,
        store: NO_PAGE,
        fetch: NO_PAGE,
        shift: 0,
    };

    /// The slot of a page with these permissions whose bytes begin at `start`: 0 is where the shared zeros are.
    pub fn new(page: u64, perms: Option<Perms>, start: usize) -> Slot
        requires { page < 2 ^ 52 }
        ensures { result ≡ slot_of page perms start }
    {
        Slot {
            load: tag(permits(perms, Use::Load), page),
            store: tag(start > 0 && permits(perms, Use::Store), page),
            fetch: tag(permits(perms, Use::Fetch), page),
            shift: (start as u64).wrapping_sub(page * PAGE_BYTES),
        }
    }

    // Where the page begins, if it permits a use.
    #[inline(always)]
    fn tag(&self, access: Use) -> u64
        ensures { result ≡ tag_of access self.now }
    {
        match access {
            Use::Load => self.load,
            Use::Store => self.store,
            Use::Fetch => self.fetch,
        }
    }

    /// Where the bytes at an address are, if they are in the slot's page and permit the use. The address of `width`
    /// bytes has to be a multiple of their number, so they lie in one page: with its remainder added to where its page
    /// begins, a misaligned address equals no tag, and one comparison serves for both.
    #[inline(always)]
    pub fn find(&self, access: Use, addr: u64, width: Width) -> Option<usize>
        ensures found { IfSome result (λ at. (tag_of access self.now ≡ addr - addr % 4096 + addr % bytes_in width) × (at ≡ (addr + self.now.shift) % 2 ^ 64)) }
        ensures none { IfNone result (tag_of access self.now ≡ addr - addr % 4096 + addr % bytes_in width → ⊥) }
    {
        if self.tag(access) != addr - addr % PAGE_BYTES + addr % width.bytes() {
            return None;
        }
        Some(addr.wrapping_add(self.shift) as usize)
    }
}

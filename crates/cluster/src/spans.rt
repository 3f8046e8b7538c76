//! Whether a process may reach bytes.

ghost use Rattle.std.specs.Prelude.{◌≡◌, ◌%◌, ◌+◌, ◌/◌, ◌<◌, ◌==◌, ◌≤◌, IfOk, None, nat_lt, true};
ghost use Rattle.lego_base.specs.Keys.{is_of, those};
ghost use Rattle.lego_base.specs.Space.{allows, has_page, perms_of, permits};
ghost use Rattle.lego_base.specs.declared.sizes.TheConstants.{USER_END};
ghost use Rattle.lego_msg.specs.Maps.{home_key};
ghost use Rattle.lego_msg.specs.Places.{is_issuer};
ghost use Rattle.lego_msg.specs.Plain.{Plain};
ghost use Rattle.cluster.specs.Askings.{asks_of};
ghost use Rattle.cluster.specs.Permitted.{IsUser, asked_for, bare, space_at};

use crate::Cluster;
use bitflags::Flags;
use lego_base::{Area, Halt, PAGE_BYTES, Perms, Pid, USER_END};
use lego_msg::{Place, Watch};

impl Cluster {
    ghost use Rattle.cluster.specs.Sequences.{CallsAll, all_served};
    ghost use Rattle.cluster.specs.Standing.{IsAtRest, StandsFor};

    /// Whether each of `len` bytes at `start` lies in a page of a process that has a permission, `need`: READ, WRITE or EXEC. The
    /// areas of the regions that they meet are asked for. No byte is permitted whatever the areas, and bytes that end past the
    /// end of user addresses are not; neither asks anything.
    pub fn check_span<W: Watch>(
        &mut self,
        by: Place,
        pid: Pid,
        start: u64,
        len: u64,
        need: Perms,
        watch: &mut W,
    ) -> Result<bool, Halt>
        requires issuer { is_issuer by ≡ true }
        requires rests { self.old.halt ≡ None → IsAtRest self.old }
        ensures call { let asks = asks_of (asked_for start len (those home_key (is_of pid.0) self.old.table.owners)) in
            CallsAll W.told W.faults watch.old watch.new self.old self.new by asks (λ good. all_served by asks) result }
        ensures answer { IfOk result (λ good. (f : Plain) → StandsFor self.old f → IsUser f pid.0 → good ≡ permits (space_at f pid.0 self.old.table.owners) need.0 start len) }
        ensures within { IfOk result (λ good. good ≡ true → 0 < len → start + len ≤ USER_END) }
    {
        match self.halted() {
            Some(halt) => return Err(halt),
            None => {}
        }
        if len == 0 {
            return Ok(true);
        }
        if is_past(start, len) {
            return Ok(false);
        }
        match self.span_areas(by, pid, start, len, watch) {
            Err(halt) => return Err(halt),
            Ok(areas) => return Ok(permits(areas.as_slice(), need, start, len)),
        }
    }
}

// Whether bytes end past the end of user addresses.
fn is_past(start: u64, len: u64) -> bool
    ensures { result ≡ nat_lt USER_END (start + len) }
{
    if len > USER_END {
        return true;
    }
    start > USER_END - len
}

// Whether areas give the page of each of these bytes a permission.
fn permits(areas: &[Area], need: Perms, start: u64, len: u64) -> bool
    requires { start + len ≤ USER_END }
    ensures { result ≡ permits (bare areas.now) need.0 start len }
{
    let mut at = start; // the first byte that isn't known to have it
    let mut left = len; // the bytes that start there
    while left > 0 {
        if !page_allows(areas, at / PAGE_BYTES, need) {
            return false;
        }
        let room = PAGE_BYTES - at % PAGE_BYTES;
        if left <= room {
            return true;
        }
        left -= room;
        at += room;
    }
    true
}

// Whether areas give a page a permission.
fn page_allows(areas: &[Area], page: u64, need: Perms) -> bool
    ensures { result ≡ allows (perms_of areas.now page) need.0 }
{
    for area in areas {
        if has_page(*area, page) {
            return has(area.perms.bits(), need.bits());
        }
    }
    false
}

// Whether a page lies in an area.
fn has_page(area: Area, page: u64) -> bool
    ensures { result ≡ has_page area page }
{
    area.first.0 <= page && page - area.first.0 < area.pages
}

// Whether permissions have one of them.
fn has(perms: u8, need: u8) -> bool
    ensures { result ≡ (perms / need % 2 == 1) }
{
    if need == 0 {
        return false;
    }
    perms / need % 2 == 1
}

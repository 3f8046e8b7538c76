//! Bytes of an image are laid into pages.

ghost use Rattle.std.specs.Prelude.{◌≡◌, ◌∷◌, [], Err, IfErr, IsSome, None, OnOk, Some, true};
ghost use Rattle.lego_msg.specs.Granted.{WriteFits};
ghost use Rattle.lego_msg.specs.Places.{is_issuer};
ghost use Rattle.lego_msg.specs.Plain.{Plain, with_patch};
ghost use Rattle.lego_msg.specs.Watching.{ShownTo};
ghost use Rattle.lego_msg.specs.declared.body.Body.TheVariants.{Done};
ghost use Rattle.lego_msg.specs.declared.operation.Operation.TheVariants.{Writes};
ghost use Rattle.lego_msg.specs.declared.operation.Origin.TheVariants.{Fill};
ghost use Rattle.cluster.specs.Filling.{FillEnds, FillFits, FillHalts, bytes_in, fill_patch};

use crate::Cluster;
use lego_base::{Bytes, Halt, MemId, PAGE_BYTES, Patch, Pid, REGION_BYTES, RegionNo, Vpn};
use lego_msg::{Event, Operation, Origin, Place, Watch};

impl Cluster {
    ghost use Rattle.cluster.specs.Calls.{Calls};
    ghost use Rattle.cluster.specs.Standing.{IsAtRestWith, StandsFor};

    /// Bytes of a program's image are laid into a page, which an area of the process has: at least one, and all of them in that
    /// page. The fill is shown, and then the owner of the page's region gets the bytes.
    pub fn fill<W: Watch>(
        &mut self,
        by: Place,
        pid: Pid,
        address: u64,
        bytes: &[u8],
        watch: &mut W,
    ) -> Result<(), Halt>
        requires issuer { is_issuer by ≡ true }
        requires rests { self.old.halt ≡ None → IsAtRestWith self.old (FillFits pid.0 address bytes.now) }
        ensures went { OnOk result (FillEnds W.told W.faults watch.old watch.new self.old self.new by pid address bytes.now) }
        ensures stands { OnOk result ((f : Plain) → StandsFor self.old f → FillFits pid.0 address bytes.now f → StandsFor self.new (with_patch (fill_patch pid address bytes.now) f)) }
        ensures shape { OnOk result (self.new.shape ≡ self.old.shape) }
        ensures table { OnOk result (self.new.table ≡ self.old.table) }
        ensures halted { IfErr result (FillHalts W.told W.faults watch.old watch.new self.old by pid address bytes.now) }
        ensures kept { (h : Halt) → self.old.halt ≡ Some h → (result ≡ Err h) × (self.new.halt ≡ Some h) × (watch.new ≡ watch.old) }
        ensures keeps { IfErr result (λ h. self.new.halt ≡ Some h) }
        ensures goes { OnOk result ((self.old.halt ≡ None) × (self.new.halt ≡ None)) }
    {
        match self.halted() {
            Some(halt) => return Err(halt),
            None => {}
        }
        match Bytes::from_slice(self.alloc(), bytes) {
            Err(_) => {
                self.out_of_memory();
                return Err(Halt::NoMemory);
            }
            Ok(copy) => match self.owner(pid, RegionNo(address / REGION_BYTES)) {
                None => unreachable!(),
                Some(owner) => {
                    self.is_calm();
                    let patch = show_fill(pid, address, copy, watch);
                    match self.write_fill(by, patch, owner, watch) {
                        Err(halt) => return Err(halt),
                        Ok(()) => return Ok(()),
                    }
                }
            },
        }
    }

    // Bytes that were shown as a fill are written into a page.
    fn write_fill<W: Watch>(
        &mut self,
        by: Place,
        patch: Patch,
        owner: MemId,
        watch: &mut W,
    ) -> Result<(), Halt>
        requires issuer { is_issuer by ≡ true }
        requires rests { self.old.halt ≡ None → IsAtRestWith self.old (λ f. WriteFits self.old.table.owners f patch owner) }
        ensures call { Calls W.told W.faults watch.old watch.new self.old self.new by (Writes Fill patch owner) (λ done. Done) result }
    {
        match self.ask(
            by,
            Operation::Writes {
                origin: Origin::Fill,
                patch,
                owner,
            },
            watch,
        ) {
            Err(halt) => return Err(halt),
            Ok(_) => return Ok(()),
        }
    }
}

// Shows that bytes are laid into a page, and gives them as a patch. The event's own bytes go into it, so none are copied.
fn show_fill<W: Watch>(pid: Pid, address: u64, bytes: Bytes, watch: &mut W) -> Patch
    ensures shown { ShownTo W.told W.faults watch.old watch.new (Event.Fill pid address bytes ∷ []) }
    ensures patch { result ≡ fill_patch pid address bytes }
{
    let event = Event::Fill {
        pid,
        address,
        bytes,
    };
    watch.see(&event);
    Patch {
        pid,
        vpn: Vpn(address / PAGE_BYTES),
        off: (address % PAGE_BYTES) as u16,
        bytes: bytes_of(event),
    }
}

// The bytes of a fill.
fn bytes_of(event: Event) -> Bytes
    requires { IsSome (bytes_in event) }
    ensures { bytes_in event ≡ Some result }
{
    match event {
        Event::Fill { bytes, .. } => bytes,
        _ => unreachable!(),
    }
}

//! Bytes of pages are written.

ghost use Rattle.std.specs.Prelude.{◌≡◌, None, true};
ghost use Rattle.lego_msg.specs.Granted.{WriteFits};
ghost use Rattle.lego_msg.specs.Places.{is_issuer};
ghost use Rattle.lego_msg.specs.Sends.{WritesLine};
ghost use Rattle.lego_msg.specs.Track.{Caches};
ghost use Rattle.lego_msg.specs.declared.body.Body.TheVariants.{Done};
ghost use Rattle.lego_msg.specs.declared.operation.Operation.TheVariants.{Writes};
ghost use Rattle.lego_msg.specs.declared.operation.Origin.TheVariants.{Line, Run};

use crate::Cluster;
use lego_base::{Halt, MemId, Patch};
use lego_msg::{Operation, Origin, Place, Watch};

impl Cluster {
    ghost use Rattle.cluster.specs.Calls.{Calls};
    ghost use Rattle.cluster.specs.Standing.{IsAtRestWith};

    /// Bytes that no cache holds are written into a page.
    pub fn write_run<W: Watch>(
        &mut self,
        by: Place,
        patch: Patch,
        owner: MemId,
        watch: &mut W,
    ) -> Result<(), Halt>
        requires issuer { is_issuer by ≡ true }
        requires rests { self.old.halt ≡ None → IsAtRestWith self.old (λ f. WriteFits self.old.table.owners f patch owner) }
        ensures call { Calls W.told W.faults watch.old watch.new self.old self.new by (Writes Run patch owner) (λ done. Done) result }
    {
        match self.ask(
            by,
            Operation::Writes {
                origin: Origin::Run,
                patch,
                owner,
            },
            watch,
        ) {
            Err(halt) => return Err(halt),
            Ok(_) => return Ok(()),
        }
    }

    /// A line of a processor's cache is written back as the cache has it.
    pub fn write_line<W: Watch>(
        &mut self,
        by: Place,
        patch: Patch,
        owner: MemId,
        watch: &mut W,
    ) -> Result<(), Halt>
        requires issuer { is_issuer by ≡ true }
        requires cached { (caches : Caches) × WritesLine caches by patch }
        requires rests { self.old.halt ≡ None → IsAtRestWith self.old (λ f. WriteFits self.old.table.owners f patch owner) }
        ensures call { Calls W.told W.faults watch.old watch.new self.old self.new by (Writes Line patch owner) (λ done. Done) result }
    {
        match self.ask(
            by,
            Operation::Writes {
                origin: Origin::Line,
                patch,
                owner,
            },
            watch,
        ) {
            Err(halt) => return Err(halt),
            Ok(_) => return Ok(()),
        }
    }
}

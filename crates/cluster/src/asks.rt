//! One operation.

ghost use Rattle.std.specs.Prelude.{◌≡◌, List, None};
ghost use Rattle.lego_base.specs.declared.records.HomeEntry.{HomeEntry};
ghost use Rattle.cluster.specs.Whole.{Whole};

use crate::Cluster;
use lego_base::Halt;
use lego_msg::{Body, Operation, Place, Watch};

impl Cluster {
    ghost use Rattle.cluster.specs.Calls.{Calls, CallsWith};
    ghost use Rattle.cluster.specs.Standing.{Brings, MayAsk, MayAskWith, MayBring};

    // Performs an operation that its caller may ask for, and gives its answer.
    pub(crate) fn ask<W: Watch>(
        &mut self,
        by: Place,
        operation: Operation,
        watch: &mut W,
    ) -> Result<Body, Halt>
        requires { self.old.halt ≡ None → MayAsk self.old by operation }
        ensures { Calls W.told W.faults watch.old watch.new self.old self.new by operation (λ body. body) result }
    {
        self.ask_with(by, operation, watch)
    }

    // The same of an operation with which owners of regions come. They are in the table already.
    pub(crate) fn ask_with<W: Watch>(
        &mut self,
        by: Place,
        operation: Operation,
        watch: &mut W,
    ) -> Result<Body, Halt>
        requires { self.old.halt ≡ None → MayBring self.old by operation }
        ensures { (new : List HomeEntry) (c : Whole) → Brings new c self.old → (c.halt ≡ None → MayAskWith new c by operation) →
            CallsWith new self.old.table W.told W.faults watch.old watch.new c self.new by operation (λ body. body) result }
    {
        match self.perform(by, operation, watch) {
            Err(halt) => return Err(halt),
            Ok(running) => match running.into_answer() {
                None => unreachable!(),
                Some(body) => return Ok(body),
            },
        }
    }
}

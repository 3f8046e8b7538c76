//! One operation, from its first message to its completion and the end of any healing.

ghost use Rattle.std.specs.Prelude.{◌≡◌, Bool, IfErr, IfOk, List, OnOk, Some};

use crate::engine::Engine;
use crate::running::Running;
use lego_base::Halt;
use lego_msg::{Operation, Place, Watch};

impl Engine {
    ghost use Rattle.protocol_engine.specs.Called.{IsSoundCall};
    ghost use Rattle.protocol_engine.specs.Later.{called_by};
    ghost use Rattle.protocol_engine.specs.Steps.{Rests};
    ghost use Rattle.protocol_engine.specs.Tracks.{HasCount, SameMachine};
    ghost use Rattle.protocol_engine.specs.Ways.{Operates, OperationHalts, WasCalled};

    /// Plays an operation that is called for, and gives it once it is complete. The owners that come with it are in the table
    /// already.
    pub fn operate<W: Watch>(
        &mut self,
        by: Place,
        operation: Operation,
        watch: &mut W,
    ) -> Result<Running, Halt>
        requires rests { Rests self.old }
        requires count { HasCount self.old }
        requires sound { IsSoundCall self.old by operation }
        ensures went { IfOk result (λ o. Operates W.told W.faults watch.old watch.new self.old self.new by operation o) }
        ensures halted { IfErr result (λ h. OperationHalts W.told W.faults watch.old watch.new self.old by operation h) }
        ensures machine { SameMachine self.old self.new }
        ensures rests { OnOk result (Rests self.new) }
        ensures was { IfOk result (λ o. called_by (Some o) ≡ Some (record { number = record { 0 = self.old.next }; by = by; operation = operation })) }
        ensures opened { IfOk result (λ o. WasCalled self.old by operation o) }
    {
        match self.begin(by, operation, watch) {
            Err(_) => return Err(Halt::NoMemory),
            Ok(()) => {}
        }
        match self.settle(watch) {
            Err(halt) => return Err(halt),
            Ok(None) => unreachable!(),
            Ok(Some(running)) => return Ok(running),
        }
    }
}

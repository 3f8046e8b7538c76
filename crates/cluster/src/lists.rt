//! Several operations, one after the other.

ghost use Rattle.std.specs.Prelude.{◌≡◌, IfOk, List, None};
ghost use Rattle.lego_base.specs.declared.records.HomeEntry.{HomeEntry};
ghost use Rattle.lego_msg.specs.Plain.{Plain};
ghost use Rattle.cluster.specs.Whole.{Whole};

use crate::Cluster;
use lego_base::Halt;
use lego_msg::{Body, Operation, Place, Watch};

impl Cluster {
    ghost use Rattle.cluster.specs.Sequences.{AreGrantedAt, AreReplies, CallsAll, CallsEach, MayAskAll, MayAskEach, MayBringAll, ReadNoLine, ReadsNoLine, all_served, brought, served_each};
    ghost use Rattle.cluster.specs.Standing.{Brings};

    // Performs operations that read no line and that their caller may ask for, in order, and gives their answers.
    pub(crate) fn ask_all<W: Watch>(
        &mut self,
        by: Place,
        operations: Vec<Operation>,
        watch: &mut W,
    ) -> Result<Vec<Body>, Halt>
        requires may { self.old.halt ≡ None → MayAskAll self.old by operations.items }
        requires lines { ReadNoLine operations.items }
        ensures call { CallsAll W.told W.faults watch.old watch.new self.old self.new by operations.items (λ answers. all_served by operations.items) result }
        ensures replies { IfOk result (λ answers. (f : Plain) → AreGrantedAt self.old f by operations.items → AreReplies f operations.items answers.items) }
    {
        match self.halted() {
            Some(halt) => return Err(halt),
            None => {}
        }
        let mut answers = Vec::new(*operations.allocator());
        for operation in operations {
            match self.ask(by, operation, watch) {
                Err(halt) => return Err(halt),
                Ok(body) => match answers.push(body) {
                    Err(_) => {
                        self.out_of_memory();
                        return Err(Halt::NoMemory);
                    }
                    Ok(()) => {}
                },
            }
        }
        Ok(answers)
    }
    // Performs an operation with which owners of regions come, which are in the table already, and then others.
    pub(crate) fn bring_all<W: Watch>(
        &mut self,
        by: Place,
        first: Operation,
        rest: Vec<Operation>,
        watch: &mut W,
    ) -> Result<(), Halt>
        requires none { self.old.halt ≡ None }
        requires may { MayBringAll self.old by first rest.items }
        requires line { ReadsNoLine first }
        requires lines { ReadNoLine rest.items }
        ensures { (new : List HomeEntry) (c : Whole) → Brings new c self.old → MayAskEach c by (brought new first rest.items) → let asks = brought new first rest.items in
            CallsEach self.old.table W.told W.faults watch.old watch.new c self.new by asks (λ done. served_each by asks) result }
    {
        match self.ask_with(by, first, watch) {
            Err(halt) => return Err(halt),
            Ok(_) => match self.ask_all(by, rest, watch) {
                Err(halt) => return Err(halt),
                Ok(_) => return Ok(()),
            },
        }
    }
}

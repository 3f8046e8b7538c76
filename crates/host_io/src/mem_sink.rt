//! A sink in memory.

ghost use Rattle.std.specs.Prelude.{◌≡◌, ◌+◌, ◌<◌, [], true, false, length, IfOk, OnErr, is_ok, IsErr};
ghost use Rattle.lego_base.specs.Counts.{HasCause};
ghost use Rattle.host_io.specs.Sinks.{Took};
ghost use Rattle.host_io.specs.Calls.{untried, is_due, counted};

use crate::fail_plan::FailPlan;
use crate::failed::Failed;
use crate::sink::Sink;
use lego_base::NoMemory;
use std::alloc::Global;
use std::marker::Model;

/// A sink in memory whose calls fail by a list, or because memory runs out where it has no room.
#[derive(Debug, Drop)]
pub struct MemSink {
    bytes: Vec<u8>,
    room: usize, // bytes that it can hold without taking more memory
    plan: FailPlan,
}

impl Model for MemSink {
    ghost use Rattle.std.specs.Prelude.{◌≤◌, vec_capacity};
    ghost use Rattle.host_io.specs.Objects.{Tray};

    ghost Value = { Tray };

    ghost view = { λ s. record { held = s.bytes.items; room = s.room; calls = s.plan } };

    ghost invariant = { λ s. s.room ≤ vec_capacity s.bytes };
}

impl MemSink {
    /// An empty sink with room for `room` bytes. `fails` has the numbers of the calls that are to fail,
    /// counted from 1.
    pub fn new(alloc: Global, room: usize, fails: &[u64]) -> Result<MemSink, NoMemory>
        ensures { IfOk result (λ s. s ≡ record { held = []; room = room; calls = untried fails.now }) }
    {
        let bytes = Vec::with_capacity(alloc, room)?;
        let plan = FailPlan::new(alloc, fails)?;
        Ok(MemSink { bytes, room, plan })
    }

    /// The bytes that it holds.
    pub fn bytes(&self) -> &[u8]
        ensures { result.now ≡ self.now.held }
    {
        self.bytes.as_slice()
    }

    /// How often the sink failed.
    pub fn faults(&self) -> u64
        ensures { result ≡ self.now.calls.faults }
    {
        self.plan.faults()
    }
}

impl Sink for MemSink {
    ghost use Rattle.std.specs.Prelude.{Some};

    ghost state = { λ s. record { held = Some s.held; faults = s.calls.faults } };

    /// Takes all of `bytes`, or fails. It fails where its number is planned, and elsewhere only if memory
    /// runs out past the room.
    fn write(&mut self, bytes: &[u8]) -> Result<usize, Failed>
        ensures cause { HasCause self.old.calls.faults self.new.calls.faults result }
        ensures took { Took (Some self.old.held) (Some self.new.held) bytes.now result }
        ensures whole { IfOk result (λ n. n ≡ length bytes.now) }
        ensures planned { is_due self.old.calls ≡ true → IsErr result }
        ensures only { OnErr result (is_due self.old.calls ≡ false → self.old.room < length self.old.held + length bytes.now) }
        ensures counted { self.new.calls ≡ counted (is_ok result) self.old.calls }
        ensures room { self.new.room ≡ self.old.room }
    {
        if self.plan.begin() {
            return Err(Failed);
        }
        match self.bytes.extend_from_slice(bytes) {
            Ok(()) => Ok(bytes.len()),
            Err(_) => {
                self.plan.raise();
                Err(Failed)
            }
        }
    }
}

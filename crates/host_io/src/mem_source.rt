//! A source in memory whose calls fail by a list.

ghost use Rattle.std.specs.Prelude.{◌≡◌, IfOk, is_ok};
ghost use Rattle.lego_base.specs.Counts.{HasCause};
ghost use Rattle.host_io.specs.Sources.{Moved};
ghost use Rattle.host_io.specs.Calls.{untried, is_due, counted};

use crate::calm_source::CalmSource;
use crate::fail_plan::FailPlan;
use crate::failed::Failed;
use crate::source::Source;
use lego_base::NoMemory;
use std::alloc::Global;
use std::marker::Model;

/// A source in memory whose calls fail by a list.
#[derive(Debug, Drop)]
pub struct MemSource {
    source: CalmSource,
    plan: FailPlan,
}

impl Model for MemSource {
    ghost use Rattle.host_io.specs.Objects.{Feed};

    ghost Value = { Feed };

    ghost view = { λ s. record { left = s.source; calls = s.plan } };
}

impl MemSource {
    /// A source of these bytes. `fails` has the numbers, from 1, of the calls that are to fail.
    pub fn new(alloc: Global, bytes: &[u8], fails: &[u64]) -> Result<MemSource, NoMemory>
        ensures { IfOk result (λ s. s ≡ record { left = bytes.now; calls = untried fails.now }) }
    {
        let source = CalmSource::new(alloc, bytes)?;
        let plan = FailPlan::new(alloc, fails)?;
        Ok(MemSource { source, plan })
    }

    /// How often the source failed.
    pub fn faults(&self) -> u64
        ensures { result ≡ self.now.calls.faults }
    {
        self.plan.faults()
    }
}

impl Source for MemSource {
    ghost use Rattle.std.specs.Prelude.{Some, not};

    ghost state = { λ s. record { left = Some s.left; faults = s.calls.faults } };

    fn read(&mut self, buf: &mut [u8]) -> Result<usize, Failed>
        ensures cause { HasCause self.old.calls.faults self.new.calls.faults result }
        ensures moved { Moved (Some self.old.left) (Some self.new.left) buf.new result }
        ensures planned { is_ok result ≡ not (is_due self.old.calls) }
        ensures counted { self.new.calls ≡ counted (is_ok result) self.old.calls }
    {
        if self.plan.begin() {
            return Err(Failed);
        }
        match self.source.read(buf) {
            Ok(count) => Ok(count),
            Err(_) => unreachable!(), // a calm source never fails
        }
    }
}

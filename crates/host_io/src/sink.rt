//! Where bytes go.

ghost use Rattle.std.specs.Prelude.{OnOk, OnErr};
ghost use Rattle.lego_base.specs.Counts.{HasCause};
ghost use Rattle.host_io.specs.Sinks.{Took, TookAll, TookFront};

use crate::failed::Failed;

/// Where bytes go, as a host's standard output.
pub trait Sink {
    ghost use Rattle.host_io.specs.Sinks.{SinkState};

    // What the sink tells.
    ghost state: { Self → SinkState };

    /// Appends the first n bytes of `bytes` and returns n, which is at least 1 unless `bytes` is empty.
    fn write(&mut self, bytes: &[u8]) -> Result<usize, Failed>
        ensures cause { HasCause (state self.old).faults (state self.new).faults result }
        ensures took { Took (state self.old).held (state self.new).held bytes.now result };
}

/// Appends all of `bytes`. If the sink fails, it has taken a proper prefix of them.
pub fn write_all<K: Sink>(sink: &mut K, bytes: &[u8]) -> Result<(), Failed>
    ensures cause { HasCause (K.state sink.old).faults (K.state sink.new).faults result }
    ensures all { OnOk result (TookAll (K.state sink.old).held (K.state sink.new).held bytes.now) }
    ensures front { OnErr result (TookFront (K.state sink.old).held (K.state sink.new).held bytes.now) }
{
    let mut rest = bytes;
    while !rest.is_empty() {
        let count = sink.write(rest)?;
        let (_, more) = rest.split_at(count);
        rest = more;
    }
    Ok(())
}

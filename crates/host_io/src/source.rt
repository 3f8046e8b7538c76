//! Where bytes come from.

ghost use Rattle.lego_base.specs.Counts.{HasCause};
ghost use Rattle.host_io.specs.Sources.{Moved};

use crate::failed::Failed;

/// Where bytes come from, as a host's standard input.
pub trait Source {
    ghost use Rattle.host_io.specs.Sources.{SourceState};

    // What the source tells.
    ghost state: { Self → SourceState };

    /// Moves the first n bytes left to the start of the buffer and returns n. If the buffer has room, n is
    /// 0 only at the end.
    fn read(&mut self, buf: &mut [u8]) -> Result<usize, Failed>
        ensures cause { HasCause (state self.old).faults (state self.new).faults result }
        ensures moved { Moved (state self.old).left (state self.new).left buf.new result };
}

//! A writer of std as a sink.

ghost use Rattle.std.specs.Prelude.{◌≡◌, ◌≤◌, None, length, IfOk, is_ok, if◌then◌else◌};
ghost use Rattle.lego_base.specs.Counts.{risen, HasCause};
ghost use Rattle.host_io.specs.Sinks.{Took};

use crate::failed::Failed;
use crate::sink::Sink;
use std::io;
use std::io::Write;
use std::marker::Model;

/// A writer of std as a sink, as the runtime's standard output or error. Each write is flushed. It
/// doesn't tell what it took: contracts see it as its count of faults.
#[derive(Drop)]
pub struct StdSink<W> {
    writer: W,
    faults: u64,
}

impl<W> Model for StdSink<W> {
    ghost use Rattle.std.specs.Prelude.{ℕ};

    ghost Value = { ℕ };

    ghost view = { λ s. s.faults };
}

impl<W> StdSink<W> {
    /// A sink that writes to this writer.
    pub fn new(writer: W) -> StdSink<W>
        ensures { result ≡ 0 }
    {
        StdSink { writer, faults: 0 }
    }

    /// How often the sink failed.
    pub fn faults(&self) -> u64
        ensures { result ≡ self.now }
    {
        self.faults
    }
}

impl<W: Write> Sink for StdSink<W> {
    ghost use Rattle.std.specs.Prelude.{None};

    ghost state = { λ s. record { held = None; faults = s } };

    /// It fails where the writer or its flush does, and where the writer takes none of `bytes` though there
    /// are some.
    fn write(&mut self, bytes: &[u8]) -> Result<usize, Failed>
        ensures cause { HasCause self.old self.new result }
        ensures took { Took None None bytes.now result }
        ensures counted { self.new ≡ (if is_ok result then self.old else risen self.old) }
    {
        match write_some(&mut self.writer, bytes) {
            Ok(count) if count > 0 || bytes.is_empty() => Ok(count),
            _ => {
                self.faults = self.faults.saturating_add(1);
                Err(Failed)
            }
        }
    }
}

// One write, flushed.
fn write_some<W: Write>(writer: &mut W, bytes: &[u8]) -> io::Result<usize>
    ensures { IfOk result (λ n. n ≤ length bytes.now) }
{
    let count = writer.write(bytes)?;
    writer.flush()?;
    Ok(count)
}

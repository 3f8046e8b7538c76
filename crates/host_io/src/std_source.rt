//! A reader of std as a source.

ghost use Rattle.std.specs.Prelude.{◌≡◌, None, is_ok, if◌then◌else◌};
ghost use Rattle.lego_base.specs.Counts.{risen, HasCause};
ghost use Rattle.host_io.specs.Sources.{Moved};

use crate::failed::Failed;
use crate::source::Source;
use std::io::Read;
use std::marker::Model;

/// A reader of std as a source, as the runtime's standard input. It doesn't tell what is left: contracts
/// see it as its count of faults.
#[derive(Drop)]
pub struct StdSource<R> {
    reader: R,
    faults: u64,
}

impl<R> Model for StdSource<R> {
    ghost use Rattle.std.specs.Prelude.{ℕ};

    ghost Value = { ℕ };

    ghost view = { λ s. s.faults };
}

impl<R> StdSource<R> {
    /// A source that reads from this reader.
    pub fn new(reader: R) -> StdSource<R>
        ensures { result ≡ 0 }
    {
        StdSource { reader, faults: 0 }
    }

    /// How often the source failed.
    pub fn faults(&self) -> u64
        ensures { result ≡ self.now }
    {
        self.faults
    }
}

impl<R: Read> Source for StdSource<R> {
    ghost use Rattle.std.specs.Prelude.{None};

    ghost state = { λ s. record { left = None; faults = s } };

    /// It fails where the reader does, and counts nothing else.
    fn read(&mut self, buf: &mut [u8]) -> Result<usize, Failed>
        ensures cause { HasCause self.old self.new result }
        ensures moved { Moved None None buf.new result }
        ensures counted { self.new ≡ (if is_ok result then self.old else risen self.old) }
    {
        match self.reader.read(buf) {
            Ok(count) => Ok(count),
            Err(_) => {
                self.faults = self.faults.saturating_add(1);
                Err(Failed)
            }
        }
    }
}

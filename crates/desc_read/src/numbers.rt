//! Fields that are numbers.

ghost use Rattle.std.specs.Prelude.{◌≡◌};
ghost use Rattle.serde_json.specs.View.{view, number_view};
ghost use Rattle.desc_read.specs.Checks.{is_within, number_in, number};

use crate::fault::Flaw;
use serde_json::{Number, Value};

/// The whole numbers from the first to the last, both included.
#[derive(Clone, Copy, Debug, PartialEq, Eq)]
pub(crate) struct Span(pub(crate) u64, pub(crate) u32);

impl Span {
    pub(crate) fn has(self, n: u64) -> bool
        ensures { result ≡ is_within self.0 self.1 n }
    {
        self.0 <= n && n <= u64::from(self.1)
    }

    // The value of a JSON number that is one of these.
    fn take(self, n: &Number) -> Result<u32, Flaw>
        ensures { result ≡ number_in self.0 self.1 (number_view n.now) }
    {
        match n.as_u64() {
            Some(n) => {
                if self.has(n) {
                    Ok(n as u32)
                } else {
                    Err(Flaw::OutOfRange)
                }
            }
            None => {
                if n.is_f64() {
                    Err(Flaw::WrongKind)
                } else {
                    Err(Flaw::OutOfRange)
                }
            }
        }
    }
}

// A whole number in a span.
#[tactic(auto, unfolding(crate::specs::Checks::number))]
pub(crate) fn number_of(value: &Value, span: Span) -> Result<u32, Flaw>
    ensures { result ≡ number span.0 span.1 (view value.now) }
{
    match value.as_number() {
        Some(n) => span.take(n),
        None => Err(Flaw::WrongKind),
    }
}

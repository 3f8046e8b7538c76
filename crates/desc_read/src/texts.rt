//! Fields that are texts, and how much room strings need.

ghost use Rattle.std.specs.Prelude.{◌≡◌, Ok, Err, MatchResult, MatchOption, ◌+◌, ◌<◌};
ghost use Rattle.serde_json.specs.View.{view};
ghost use Rattle.desc_read.specs.Checks.{allows, is_depot_name, text, bytes_of, fit};

use crate::fault::Flaw;
use lego_base::Bytes;
use serde_json::Value;

// The most bytes of the arguments and the environment together, a closing 0 counted for each.
const STRING_BYTES: u64 = 65536;

/// What a text may be.
#[derive(Clone, Copy, Debug, PartialEq, Eq)]
pub(crate) enum TextRule {
    /// A string of a program's arguments or environment: no byte 0.
    Argument,
    /// The name of an object in the depot: 1 to 255 bytes, no byte 0.
    DepotName,
    /// A name in the root directory: 1 to 255 bytes, no byte 0, no `/`, not `.` and not `..`.
    FileName,
}

impl TextRule {
    fn allows(self, text: &str) -> bool
        ensures { result ≡ allows self text.now }
    {
        match self {
            TextRule::Argument => !text.as_bytes().contains(&0),
            TextRule::DepotName => is_depot_name(text),
            TextRule::FileName => {
                is_depot_name(text)
                    && !text.as_bytes().contains(&b'/')
                    && text != "."
                    && text != ".."
            }
        }
    }
}

/// Whether an object in the depot can have this name: 1 to 255 bytes, none of them 0.
pub fn is_depot_name(name: &str) -> bool
    ensures { result ≡ is_depot_name name.now }
{
    !name.is_empty() && name.len() <= 255 && !name.as_bytes().contains(&0)
}

// A text that the rule allows.
#[tactic(auto, unfolding(crate::specs::Checks::text))]
pub(crate) fn text_of(value: &Value, rule: TextRule) -> Result<&str, Flaw>
    ensures { MatchResult result (λ s. text rule (view value.now) ≡ Ok s.now) (λ flaw. text rule (view value.now) ≡ Err flaw) }
{
    match value.as_str() {
        Some(s) => {
            if rule.allows(s) {
                Ok(s)
            } else {
                Err(Flaw::OutOfRange)
            }
        }
        None => Err(Flaw::WrongKind),
    }
}

// The room that is left for bytes after these texts, a closing 0 counted for each, where they fit.
fn left_after(texts: &[Bytes], room: u64) -> Option<u64>
    ensures { MatchOption result (room < bytes_of texts.now) (λ left. left + bytes_of texts.now ≡ room) }
{
    let mut left = room;
    for text in texts {
        let len = text.len() as u64;
        if left <= len {
            return None;
        }
        left -= len + 1;
    }
    Some(left)
}

// Whether the arguments and the environment fit together.
pub(crate) fn fit(args: &[Bytes], env: &[Bytes]) -> bool
    ensures { result ≡ fit args.now env.now }
{
    match left_after(args, STRING_BYTES) {
        Some(left) => left_after(env, left).is_some(),
        None => false,
    }
}

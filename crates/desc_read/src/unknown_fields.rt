//! Fields that aren't known.

ghost use Rattle.std.specs.Prelude.{◌≡◌, map};
ghost use Rattle.std.specs.Option.{option_map};
ghost use Rattle.serde_json.specs.View.{members_view};
ghost use Rattle.desc_read.specs.Objects.{first_unknown};

use serde_json::{Map, Value};

// The first name of an object, in byte order, that isn't among the known ones.
pub(crate) fn unknown_name<'v>(members: &'v Map<String, Value>, known: &[&str]) -> Option<&'v str>
    ensures { option_map (λ name. name.now) result ≡ first_unknown (map (λ k. k.now) known.now) (members_view members.now.entries) }
{
    for name in members.keys() {
        let name = name.as_str();
        if !(&*known).contains(&name) {
            return Some(name);
        }
    }
    None
}

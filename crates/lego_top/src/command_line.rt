//! The command line.

ghost use Rattle.std.specs.Prelude.{◌≡◌, map, string_bytes, Some, None, MatchOption};
ghost use Rattle.lego_top.specs.CommandLine.{is_depot_name, named};

/// The description's name in the command line `plain DESC`, and `None` in any other.
pub fn named_description(words: &[String]) -> Option<&str>
    ensures { MatchOption result (named (map string_bytes words.now) ≡ None) (λ name. named (map string_bytes words.now) ≡ Some name.now) }
{
    match words {
        [command, name] => {
            if command.as_str() == "plain" && is_depot_name(name.as_str()) {
                Some(name.as_str())
            } else {
                None
            }
        }
        _ => None,
    }
}

// Whether a depot's entry can have this name.
fn is_depot_name(name: &str) -> bool
    ensures { result ≡ is_depot_name name.now }
{
    if name.is_empty() || name.len() > 255 {
        return false;
    }
    !name.as_bytes().contains(&0)
}

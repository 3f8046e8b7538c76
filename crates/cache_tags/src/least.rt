//! The least line of a process in a range.

ghost use Rattle.std.specs.Prelude.{◌≡◌};
ghost use Rattle.cache_tags.specs.Tags.{in_range, least_in, least_of, line_in as line_within, lower as lower_of};

use crate::set::{Held, Set};
use lego_base::{LineNo, Pid};

/// The least line of a process in the sets, from `from` to before `to`.
pub(crate) fn of_sets(sets: &[Set], pid: Pid, from: LineNo, to: LineNo) -> Option<LineNo>
    ensures { result ≡ least_of pid from to sets.now }
{
    let mut least = None;
    for set in sets {
        least = lower(least, of_lines(set.lines(), pid, from, to));
    }
    least
}

// The least line of a process among some, from `from` to before `to`.
fn of_lines(lines: &[Held], pid: Pid, from: LineNo, to: LineNo) -> Option<LineNo>
    ensures { result ≡ least_in pid from to lines.now }
{
    let mut least = None;
    for held in lines {
        least = lower(least, line_in(held, pid, from, to));
    }
    least
}

fn line_in(held: &Held, pid: Pid, from: LineNo, to: LineNo) -> Option<LineNo>
    ensures { result ≡ line_within pid from to held.now }
{
    let inside = held.pid.0 == pid.0 && from.0 <= held.line.0 && held.line.0 < to.0;
    if inside { Some(held.line) } else { None }
}

fn lower(a: Option<LineNo>, b: Option<LineNo>) -> Option<LineNo>
    ensures { result ≡ lower_of a b }
{
    match (a, b) {
        (Some(x), Some(y)) => Some(LineNo(x.0.min(y.0))),
        (Some(x), None) => Some(x),
        (None, other) => other,
    }
}

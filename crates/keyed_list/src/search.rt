//! Where a key is.

ghost use Rattle.std.specs.Prelude.{◌≡◌, ◌≤◌, length, IfErr, IfOk};
ghost use Rattle.std.specs.Option.{option_copied};
ghost use Rattle.lego_base.specs.Keys.{Rises, find, is_below, key_at, same_key};
ghost use Rattle.keyed_list.specs.Below.{count_below};
ghost use Rattle.keyed_list.specs.Places.{Belongs, IsAt, IsSpan};

use crate::keyed::Keyed;
use lego_base::Pid;

// Whether an item comes before a key.
fn is_below<T: Keyed>(item: &T, pid: Pid, number: u64) -> bool
    ensures { result ≡ is_below (T.key item.now) (key_at pid.0 number) }
{
    if item.pid().0 == pid.0 {
        item.number() < number
    } else {
        item.pid().0 < pid.0
    }
}

// Whether an item has a key.
fn has_key<T: Keyed>(item: &T, pid: Pid, number: u64) -> bool
    ensures { result ≡ same_key (T.key item.now) (key_at pid.0 number) }
{
    item.pid().0 == pid.0 && item.number() == number
}

// How many items come before the place of a key.
fn count_below<T: Keyed>(items: &[T], pid: Pid, number: u64) -> usize
    requires { Rises T.key items.now }
    ensures below { result ≡ count_below T.key (key_at pid.0 number) items.now }
    ensures within { result ≤ length items.now }
{
    let mut low = 0; // the items before this one are below the key
    let mut high = items.len(); // this item and those after it aren't
    while low < high {
        let middle = low + (high - low) / 2;
        if is_below(&items[middle], pid, number) {
            low = middle + 1;
        } else {
            high = middle;
        }
    }
    low
}

/// The place of the item with a key; an error is the place where one would go.
pub fn position<T: Keyed>(items: &[T], pid: Pid, number: u64) -> Result<usize, usize>
    requires { Rises T.key items.now }
    ensures ok { IfOk result (IsAt T.key (key_at pid.0 number) items.now) }
    ensures err { IfErr result (Belongs T.key (key_at pid.0 number) items.now) }
{
    let place = count_below(items, pid, number);
    if place == items.len() {
        return Err(place);
    }
    if has_key(&items[place], pid, number) {
        return Ok(place);
    }
    Err(place)
}

/// The item with a key.
pub fn get<T: Keyed>(items: &[T], pid: Pid, number: u64) -> Option<&T>
    requires { Rises T.key items.now }
    ensures { option_copied result ≡ find T.key (key_at pid.0 number) items.now }
{
    match position(items, pid, number) {
        Ok(place) => Some(&items[place]),
        Err(_) => None,
    }
}

/// Where the items of a process with the numbers from `first` to `last` begin, and where those after them do.
pub fn span<T: Keyed>(items: &[T], pid: Pid, first: u64, last: u64) -> (usize, usize)
    requires rises { Rises T.key items.now }
    requires order { first ≤ last }
    ensures { IsSpan T.key pid.0 first last items.now result.0 result.1 }
{
    let start = count_below(items, pid, first);
    let end = match position(items, pid, last) {
        Ok(place) => place + 1,
        Err(place) => place,
    };
    (start, end)
}

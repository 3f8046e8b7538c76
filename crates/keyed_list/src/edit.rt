//! How lists that rise change.

ghost use Rattle.std.specs.Prelude.{◌≡◌, ◌≤◌, not, vec_capacity, vec_len, OnOk, OnErr};
ghost use Rattle.lego_base.specs.Keys.{Rises, is_at, is_of, put, without};

use crate::keyed::Keyed;
use crate::search::position;
use lego_base::{NoMemory, Pid};

/// Puts an item at its place, in place of one with its key. If memory runs out, the items are unchanged; a vector with
/// room takes none.
pub fn put<T: Keyed + Drop>(items: &mut Vec<T>, item: T) -> Result<(), NoMemory>
    requires { Rises T.key items.old.items }
    ensures ok { OnOk result (items.new.items ≡ put T.key item items.old.items) }
    ensures err { OnErr result (items.new.items ≡ items.old.items) }
    ensures rises { Rises T.key items.new.items }
    ensures full { OnErr result (vec_capacity items.old ≤ vec_len items.old) }
    ensures room { vec_capacity items.old ≤ vec_capacity items.new }
{
    match position(items.as_slice(), item.pid(), item.number()) {
        Ok(place) => items[place] = item,
        Err(place) => items.insert(place, item)?,
    }
    Ok(())
}

/// Removes the item with a key, where there is one.
pub fn remove<T: Keyed + Drop>(items: &mut Vec<T>, pid: Pid, number: u64)
    requires { Rises T.key items.old.items }
    ensures items { items.new.items ≡ without T.key (is_at pid.0 number) items.old.items }
    ensures rises { Rises T.key items.new.items }
    ensures room { vec_capacity items.old ≤ vec_capacity items.new }
{
    if let Ok(place) = position(items.as_slice(), pid, number) {
        let _gone = items.remove(place);
    }
}

/// Removes all items of a process.
pub fn remove_process<T: Keyed + Drop>(items: &mut Vec<T>, pid: Pid)
    requires { Rises T.key items.old.items }
    ensures items { items.new.items ≡ without T.key (is_of pid.0) items.old.items }
    ensures rises { Rises T.key items.new.items }
{
    let gone = pid.0;
    items.retain(
        |item: &T| -> bool
            ensures { result ≡ not (is_of gone (T.key item.now)) }
        { item.pid().0 != gone },
    );
}

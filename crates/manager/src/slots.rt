//! A table in which the next thing gets the lowest free slot.

ghost use Rattle.std.specs.Prelude.{◌≡◌, ◌≤◌, ◌<◌, length, vec_capacity};
ghost use Rattle.kernel_objects.specs.Slots.{held, next_slot, with_next};
ghost use Rattle.manager.specs.declared.counts.TheConstants.{NUMBERS};

use crate::counts::NUMBERS;

/// Puts a thing into the lowest free slot, or into a new one at the end, and returns the slot.
pub fn put_next<T: Drop>(slots: &mut Vec<Option<T>>, thing: T) -> usize
    requires room { length (held slots.old.items) < NUMBERS }
    requires length { length slots.old.items ≤ NUMBERS }
    requires capacity { NUMBERS ≤ vec_capacity slots.old }
    ensures slot { result ≡ next_slot slots.old.items }
    ensures within { result < NUMBERS }
    ensures items { slots.new.items ≡ with_next thing slots.old.items }
    ensures length { length slots.new.items ≤ NUMBERS }
    ensures capacity { NUMBERS ≤ vec_capacity slots.new }
{
    let slot = next_slot(slots.as_slice());
    if slot < slots.len() {
        slots[slot] = Some(thing);
    } else {
        slots.push_reserved(Some(thing));
    }
    slot
}

// The slot that the next thing gets.
fn next_slot<T>(slots: &[Option<T>]) -> usize
    ensures slot { result ≡ next_slot slots.now }
    ensures within { result ≤ length slots.now }
{
    for slot in 0..slots.len() {
        if slots[slot].is_none() {
            return slot;
        }
    }
    slots.len()
}

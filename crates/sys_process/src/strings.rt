//! The lists of strings that execve(2) is given.

ghost use Rattle.std.specs.Prelude.{◌≡◌, ◌+◌, ◌≤◌, length, IfOk, IfSome, OnOk};
ghost use Rattle.lego_base.specs.declared.sizes.TheConstants.{USER_END};
ghost use Rattle.linux_model.specs.ProcessCalls.{list_at, strings_at};
ghost use Rattle.call_machine.specs.Effects.{copied_in};
ghost use Rattle.sys_process.specs.Strings.{told, word_at, Counts, ItemIs};

use call_machine::Machine;
use call_machine::errno::{E2BIG, EFAULT};
use call_parts::word_of;
use lego_base::{Bytes, Halt, Pid, Seq};
use std::alloc::Global;
use sys_paths::{Text, read_text};

/// Strings that were read, and how many more there may be.
#[derive(Drop)]
pub(crate) struct StringList {
    pub strings: Seq<Bytes>,
    /// Addresses of strings, at most 512 over both lists.
    pub left: usize,
    /// Bytes of strings, each with its closing 0, at most 65536 over both lists.
    pub room: usize,
}

/// What stands at a place of a list.
#[derive(Drop)]
pub(crate) enum Item {
    /// The address of a string, and the string.
    String(Bytes),
    /// Address 0, the end.
    End,
    /// An error, as a call answers it.
    Fault(u64),
}

/// Reads a list of strings, each directly after its address; or EFAULT, or E2BIG where there are more strings or bytes.
pub(crate) fn read_list<M: Machine>(
    machine: &mut M,
    alloc: Global,
    pid: Pid,
    left: usize,
    address: u64,
    room: usize,
) -> Result<Result<StringList, u64>, Halt>
    ensures does { OnOk result (M.does machine.old machine.new (list_at pid.0 ((M.held machine.old).space pid.0) left address room).reads) }
    ensures strings { IfOk result (λ list. list ≡ told (list_at pid.0 ((M.held machine.old).space pid.0) left address room)) }
    ensures counts { IfOk result (λ list. IfOk list (Counts left room)) }
    ensures stops { M.stops machine.old machine.new (list_at pid.0 ((M.held machine.old).space pid.0) left address room).reads }
{
    if address == 0 {
        return Ok(Ok(StringList {
            strings: Seq::new(alloc),
            left,
            room,
        }));
    }
    read_strings(machine, alloc, pid, left, address, room)
}

// The same for a list that isn't at address 0.
fn read_strings<M: Machine>(
    machine: &mut M,
    alloc: Global,
    pid: Pid,
    left: usize,
    address: u64,
    room: usize,
) -> Result<Result<StringList, u64>, Halt>
    ensures does { OnOk result (M.does machine.old machine.new (strings_at pid.0 ((M.held machine.old).space pid.0) left address room).reads) }
    ensures strings { IfOk result (λ list. list ≡ told (strings_at pid.0 ((M.held machine.old).space pid.0) left address room)) }
    ensures counts { IfOk result (λ list. IfOk list (Counts left room)) }
    ensures stops { M.stops machine.old machine.new (strings_at pid.0 ((M.held machine.old).space pid.0) left address room).reads }
{
    let mut strings = Seq::new(alloc);
    let mut at = address;
    let mut left = left;
    let mut room = room;
    loop {
        match read_item(machine, alloc, pid, left, at, room)? {
            Item::String(string) => {
                room -= string.len() + 1;
                strings.push(string)?;
            }
            Item::End => {
                return Ok(Ok(StringList {
                    strings,
                    left,
                    room,
                }));
            }
            Item::Fault(errno) => return Ok(Err(errno)),
        }
        left -= 1;
        at += 8;
    }
}

// What stands at a place of a list, where `left` more addresses and `room` more bytes may follow.
fn read_item<M: Machine>(
    machine: &mut M,
    alloc: Global,
    pid: Pid,
    left: usize,
    at: u64,
    room: usize,
) -> Result<Item, Halt>
    ensures item { IfOk result (λ item. ItemIs M.does machine.old machine.new pid.0 ((M.held machine.old).space pid.0) left at room item) }
    ensures still { OnOk result (M.held machine.new ≡ M.held machine.old) }
    ensures stops { M.stops machine.old machine.new (strings_at pid.0 ((M.held machine.old).space pid.0) left at room).reads }
{
    let Some(address) = read_address(machine, alloc, pid, at)? else {
        return Ok(Item::Fault(EFAULT));
    };
    if address == 0 {
        return Ok(Item::End);
    }
    if left == 0 {
        return Ok(Item::Fault(E2BIG));
    }
    match read_text(machine, alloc, pid, address, room)? {
        Text::Whole(string) => Ok(Item::String(string)),
        Text::Denied => Ok(Item::Fault(EFAULT)),
        Text::Long => Ok(Item::Fault(E2BIG)),
    }
}

// The 8 bytes at an address, where they may be read, as a number.
fn read_address<M: Machine>(
    machine: &mut M,
    alloc: Global,
    pid: Pid,
    at: u64,
) -> Result<Option<u64>, Halt>
    ensures does { OnOk result (M.does machine.old machine.new (copied_in ((M.held machine.old).space pid.0) pid.0 at 8)) }
    ensures address { IfOk result (λ address. address ≡ word_at ((M.held machine.old).space pid.0) at) }
    ensures within { IfOk result (λ address. IfSome address (λ a. at + 8 ≤ USER_END)) }
    ensures stops { M.stops machine.old machine.new (copied_in ((M.held machine.old).space pid.0) pid.0 at 8) }
{
    match machine.copy_in(alloc, pid, at, 8)? {
        Some(bytes) => Ok(Some(word_of(bytes.as_slice()))),
        None => Ok(None),
    }
}

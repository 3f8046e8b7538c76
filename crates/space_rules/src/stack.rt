//! The stack at a program's entry.

ghost use Rattle.std.specs.Prelude.{◌≡◌, ◌+◌, ◌≤◌, ◌<◌, ◌^◌, ◌↔◌, false, IsTrue, IsErrOf, length, IfOk, OnOk, MatchOption, ◌++◌, ◌∷◌, [], flat_map, replicate};
ghost use Rattle.lego_base.specs.Space.{bytes_of};
ghost use Rattle.space_rules.specs.Start.{closed_all, is_too_big, addresses, auxiliary_vector, sp_of, stack_bytes, strings_of};
ghost use Rattle.space_rules.specs.Standing.{IsLayout, IsStack};

use crate::{AT_ENTRY, AT_NULL, AT_PAGESZ, MOST_STRING_BYTES, MOST_STRINGS, STACK_END};
use lego_base::{Bytes, NoMemory, PAGE_BYTES};
use std::alloc::Global;

// The words of a start stack that aren't addresses of strings: argc, the zeros after the arguments and after the
// environment, and the six words of the auxiliary vector.
const OTHER_WORDS: usize = 1 + 2 + 6;

/// What a process finds on its stack when it starts.
#[derive(Debug, Drop)]
pub struct StackImage {
    pub sp: u64, // the stack pointer, a multiple of 16
    pub bytes: Bytes, // from the stack pointer to the stack's end
}

/// Why there is no such stack.
#[derive(Clone, Copy, Debug, PartialEq, Eq)]
pub enum StackFault {
    /// There are more than `MOST_STRINGS` strings, or more than `MOST_STRING_BYTES` bytes in them.
    TooBig,
    /// Memory of the host ran out.
    NoMemory,
}

/// The stack on which a process starts with these arguments, this environment and this entry, as the
/// System V ABI has it. `TooBig` exactly where the strings are too many or too long.
pub fn stack_image(
    alloc: Global,
    args: &[Bytes],
    env: &[Bytes],
    entry: u64,
) -> Result<StackImage, StackFault>
    ensures image { IfOk result (IsStack args.now env.now entry) }
    ensures too_big { IsErrOf result StackFault.TooBig ↔ IsTrue (is_too_big args.now env.now) }
{
    if is_too_big(args, env) {
        return Err(StackFault::TooBig);
    }
    match build(alloc, args, env, entry) {
        Ok(image) => Ok(image),
        Err(_) => Err(StackFault::NoMemory),
    }
}

// Whether the strings are too many or too long.
fn is_too_big(args: &[Bytes], env: &[Bytes]) -> bool
    ensures { result ≡ is_too_big args.now env.now }
{
    if args.len() + env.len() > MOST_STRINGS {
        return true;
    }
    match room_after(args, MOST_STRING_BYTES) {
        Some(left) => room_after(env, left).is_none(),
        None => true,
    }
}

// The bytes of `room` that are left after strings with their closing zeros; `None` where these don't fit.
fn room_after(strings: &[Bytes], room: usize) -> Option<usize>
    ensures { MatchOption result (room < length (closed_all strings.now)) (λ left. left + length (closed_all strings.now) ≡ room) }
{
    let mut left = room;
    for string in strings {
        if string.len() >= left {
            return None;
        }
        left -= string.len() + 1;
    }
    Some(left)
}

// Where the parts of a stack are.
#[derive(Clone, Copy)]
struct Layout {
    strings: u64, // the address of the first string
    env: u64, // the address of the first string of the environment
    sp: u64,
    gap: u64, // bytes between the words and the strings
}

fn lay_out(args: &[Bytes], env: &[Bytes]) -> Layout
    requires { is_too_big args.now env.now ≡ false }
    ensures { IsLayout args.now env.now result }
{
    let args_size = closed_size(args);
    let strings = STACK_END - (args_size + closed_size(env)) as u64;
    let words = 8 * (args.len() + env.len() + OTHER_WORDS) as u64;
    let sp = (strings - words) / 16 * 16;
    Layout {
        strings,
        env: strings + args_size as u64,
        sp,
        gap: strings - (sp + words),
    }
}

// The bytes of strings with their closing zeros.
fn closed_size(strings: &[Bytes]) -> usize
    requires { length (closed_all strings.now) ≤ MOST_STRING_BYTES }
    ensures { result ≡ length (closed_all strings.now) }
{
    let mut size = 0;
    for string in strings {
        size += string.len() + 1;
    }
    size
}

// The stack of strings that aren't too big.
fn build(alloc: Global, args: &[Bytes], env: &[Bytes], entry: u64) -> Result<StackImage, NoMemory>
    requires { is_too_big args.now env.now ≡ false }
    ensures { IfOk result (IsStack args.now env.now entry) }
{
    let layout = lay_out(args, env);
    let mut bytes = Vec::with_capacity(alloc, (STACK_END - layout.sp) as usize)?;
    push_word(&mut bytes, args.len() as u64)?;
    push_addresses(&mut bytes, layout.strings, args)?;
    push_word(&mut bytes, 0)?; // ends the arguments
    push_addresses(&mut bytes, layout.env, env)?;
    push_word(&mut bytes, 0)?; // ends the environment
    let auxiliary_vector = [AT_PAGESZ, PAGE_BYTES, AT_ENTRY, entry, AT_NULL, 0];
    push_words(&mut bytes, auxiliary_vector.as_slice())?;
    push_zeros(&mut bytes, layout.gap)?;
    push_strings(&mut bytes, args)?;
    push_strings(&mut bytes, env)?;
    let bytes = Bytes::from_vec(bytes)?;
    Ok(StackImage {
        sp: layout.sp,
        bytes,
    })
}

// One word, the lowest byte first.
fn push_word(bytes: &mut Vec<u8>, word: u64) -> Result<(), NoMemory>
    ensures { OnOk result (bytes.new.items ≡ bytes.old.items ++ bytes_of 8 word) }
{
    bytes.extend_from_slice(word.to_le_bytes().as_slice())?;
    Ok(())
}

// The addresses of strings of which the first is at an address and each next one follows.
fn push_addresses(bytes: &mut Vec<u8>, from: u64, strings: &[Bytes]) -> Result<(), NoMemory>
    requires { from + length (closed_all strings.now) < 2 ^ 64 }
    ensures { OnOk result (bytes.new.items ≡ bytes.old.items ++ flat_map (bytes_of 8) (addresses from strings.now)) }
{
    let mut address = from;
    for string in strings {
        push_word(bytes, address)?;
        address += string.len() as u64 + 1;
    }
    Ok(())
}

// Words, each with its lowest byte first.
fn push_words(bytes: &mut Vec<u8>, words: &[u64]) -> Result<(), NoMemory>
    ensures { OnOk result (bytes.new.items ≡ bytes.old.items ++ flat_map (bytes_of 8) words.now) }
{
    for word in words {
        push_word(bytes, *word)?;
    }
    Ok(())
}

fn push_zeros(bytes: &mut Vec<u8>, count: u64) -> Result<(), NoMemory>
    ensures { OnOk result (bytes.new.items ≡ bytes.old.items ++ replicate count 0) }
{
    for _zero in 0..count {
        bytes.push(0)?;
    }
    Ok(())
}

// Strings one after the other, each with its closing 0.
fn push_strings(bytes: &mut Vec<u8>, strings: &[Bytes]) -> Result<(), NoMemory>
    ensures { OnOk result (bytes.new.items ≡ bytes.old.items ++ closed_all strings.now) }
{
    for string in strings {
        bytes.extend_from_slice(string.as_slice())?;
        bytes.push(0)?; // closes the string
    }
    Ok(())
}

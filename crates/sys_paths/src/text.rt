//! Texts, each of which ends with a byte that is 0.

ghost use Rattle.std.specs.Prelude.{◌≡◌, ◌<◌, IfOk, IfSome, OnOk};
ghost use Rattle.lego_base.specs.declared.sizes.TheConstants.{USER_END};
ghost use Rattle.linux_model.specs.Paths.{text_at};
ghost use Rattle.call_machine.specs.Effects.{copied_in};
ghost use Rattle.sys_paths.specs.Texts.{byte_at, told};

use call_machine::Machine;
use lego_base::{Bytes, Halt, Pid, Seq};
use std::alloc::Global;

/// What was read of a text.
#[derive(Drop)]
pub enum Text {
    /// Its bytes, without the closing 0.
    Whole(Bytes),
    /// It has a byte that may not be read.
    Denied,
    /// None of the most bytes is 0.
    Long,
}

/// Reads the text at an address, of at most `most` bytes with its closing 0, byte by byte.
pub fn read_text<M: Machine>(
    machine: &mut M,
    alloc: Global,
    pid: Pid,
    address: u64,
    most: usize,
) -> Result<Text, Halt>
    ensures does { OnOk result (M.does machine.old machine.new (text_at pid.0 ((M.held machine.old).space pid.0) most address).reads) }
    ensures text { IfOk result (λ text. text ≡ told (text_at pid.0 ((M.held machine.old).space pid.0) most address)) }
    ensures stops { M.stops machine.old machine.new (text_at pid.0 ((M.held machine.old).space pid.0) most address).reads }
{
    let mut bytes = Seq::new(alloc);
    let mut at = address;
    let mut left = most;
    while left > 0 {
        let Some(byte) = read_byte(machine, alloc, pid, at)? else {
            return Ok(Text::Denied);
        };
        if byte == 0 {
            return Ok(Text::Whole(Bytes::from_vec(bytes.into_vec())?));
        }
        bytes.push(byte)?;
        at += 1;
        left -= 1;
    }
    Ok(Text::Long)
}

// The byte at an address, where it may be read.
fn read_byte<M: Machine>(
    machine: &mut M,
    alloc: Global,
    pid: Pid,
    at: u64,
) -> Result<Option<u8>, Halt>
    ensures does { OnOk result (M.does machine.old machine.new (copied_in ((M.held machine.old).space pid.0) pid.0 at 1)) }
    ensures byte { IfOk result (λ byte. byte ≡ byte_at ((M.held machine.old).space pid.0) at) }
    ensures within { IfOk result (λ byte. IfSome byte (λ b. at < USER_END)) }
    ensures stops { M.stops machine.old machine.new (copied_in ((M.held machine.old).space pid.0) pid.0 at 1) }
{
    match machine.copy_in(alloc, pid, at, 1)? {
        Some(bytes) => Ok(Some(bytes.as_slice()[0])),
        None => Ok(None),
    }
}

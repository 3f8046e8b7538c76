//! Bytes of standard input and of pipes, in memory of their own.

ghost use Rattle.std.specs.Prelude.{◌≡◌, ◌≤◌, length, take, true, is_some, IfOk, OnErr, OnOk};
ghost use Rattle.kernel_objects.specs.Slots.{slot};
ghost use Rattle.linux_model.specs.Effects.{bytes_in_pipe, Takes, TakesPipe};
ghost use Rattle.linux_model.specs.Managed.{managed_after};

use lego_base::NoMemory;
use manager::Manager;
use std::alloc::Global;

/// Takes the next bytes of standard input, which has as many.
pub fn take_input(man: &mut Manager, alloc: Global, count: usize) -> Result<Vec<u8>, NoMemory>
    requires { count ≤ length man.old.input }
    ensures bytes { IfOk result (λ bytes. bytes.items ≡ take count man.old.input) }
    ensures taken { OnOk result (man.new ≡ managed_after (Takes count) man.old) }
    ensures err { OnErr result (man.new ≡ man.old) }
{
    let mut bytes = zeros(alloc, count)?;
    man.take_input(bytes.as_mut_slice());
    Ok(bytes)
}

/// Takes the oldest bytes out of a pipe that is there and has as many.
pub fn take_from_pipe(
    man: &mut Manager,
    alloc: Global,
    pipe: u16,
    count: usize,
) -> Result<Vec<u8>, NoMemory>
    requires there { is_some (slot man.old.pipes pipe) ≡ true }
    requires enough { count ≤ length (bytes_in_pipe (slot man.old.pipes pipe)) }
    ensures bytes { IfOk result (λ bytes. bytes.items ≡ take count (bytes_in_pipe (slot man.old.pipes pipe))) }
    ensures taken { OnOk result (man.new ≡ managed_after (TakesPipe pipe count) man.old) }
    ensures err { OnErr result (man.new ≡ man.old) }
{
    let mut bytes = zeros(alloc, count)?;
    man.pipe_take(pipe, bytes.as_mut_slice());
    Ok(bytes)
}

// Bytes that are all 0.
fn zeros(alloc: Global, count: usize) -> Result<Vec<u8>, NoMemory>
    ensures length { IfOk result (λ bytes. length bytes.items ≡ count) }
    ensures len { IfOk result (λ bytes. bytes.len ≡ count) }
{
    let mut bytes = Vec::with_capacity(alloc, count)?;
    bytes.resize(count, 0)?;
    Ok(bytes)
}

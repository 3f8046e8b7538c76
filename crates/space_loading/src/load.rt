//! A program, and the stack with which it starts.

ghost use Rattle.std.specs.Prelude.{◌≡◌, false, IfOk, OnOk};
ghost use Rattle.lego_base.specs.Space.{no_space};
ghost use Rattle.space_rules.specs.Start.{is_too_big, sp_of};
ghost use Rattle.space_rules.specs.Standing.{IsStack};
ghost use Rattle.linux_model.specs.Loading.{loads_program};

use crate::fills::fill_loads;
use crate::stack::fill_stack;
use call_machine::Machine;
use elf_image::Image;
use lego_base::{Bytes, Halt, NoMemory, Pid};
use space_rules::{StackFault, StackImage, image_areas, stack_image};
use std::alloc::Global;

/// Loads a program with its arguments and its environment for a process without a space. Gives the stack pointer with which
/// it starts.
pub fn load_program<M: Machine>(
    machine: &mut M,
    alloc: Global,
    pid: Pid,
    image: &Image,
    args: &[Bytes],
    env: &[Bytes],
) -> Result<u64, Halt>
    requires bare { (M.held machine.old).space pid.0 ≡ no_space }
    requires few { is_too_big args.now env.now ≡ false }
    ensures does { OnOk result (M.does machine.old machine.new (loads_program pid.0 image.now args.now env.now)) }
    ensures stops { M.stops machine.old machine.new (loads_program pid.0 image.now args.now env.now) }
    ensures sp { IfOk result (λ sp. sp ≡ sp_of args.now env.now) }
{
    let stack = start_stack(alloc, args, env, image.entry())?;
    let areas = image_areas(alloc, image)?;
    machine.map(pid, areas)?;
    fill_loads(machine, alloc, pid, image.segments())?;
    fill_stack(machine, pid, stack.sp, stack.bytes.as_slice())?;
    Ok(stack.sp)
}

// The start stack. Its strings are few enough.
fn start_stack(
    alloc: Global,
    args: &[Bytes],
    env: &[Bytes],
    entry: u64,
) -> Result<StackImage, NoMemory>
    requires { is_too_big args.now env.now ≡ false }
    ensures { IfOk result (IsStack args.now env.now entry) }
{
    match stack_image(alloc, args, env, entry) {
        Ok(stack) => Ok(stack),
        Err(StackFault::NoMemory) => Err(NoMemory),
        Err(StackFault::TooBig) => unreachable!(),
    }
}

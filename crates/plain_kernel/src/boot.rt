//! Booting, which is turn 0.

ghost use Rattle.std.specs.Prelude.{◌≡◌, ◌≤◌, ◌∷◌, [], AllPairs, ◌≢◌, All, IfOk, OnOk, false, length, replicate};
ghost use Rattle.call_machine.specs.Tried.{bare};
ghost use Rattle.lego_base.specs.declared.sizes.TheConstants.{LONGEST_FILE};
ghost use Rattle.linux_model.specs.Boot.{file_effects};
ghost use Rattle.linux_model.specs.Limits.{FILES};
ghost use Rattle.plain_machine.specs.Plain.{held_of, Did};
ghost use Rattle.plain_kernel.specs.Booted.{IsBooted};
ghost use Rattle.plain_kernel.specs.Making.{CanMake, NotMade};
ghost use Rattle.space_rules.specs.Start.{is_too_big};

use crate::kernel::{FIRST, PlainKernel};
use call_machine::Machine;
use elf_image::Image;
use kernel_objects::Brk;
use lego_base::{Bytes, FileNo, FileOut, NoMemory};
use manager::Manager;
use plain_machine::PlainMachine;
use rv64_step::Cpu;
use space_loading::load_program;
use std::alloc::Global;

impl PlainKernel {
    /// The kernel that is booted with an image, its arguments and its environment, with these files and this on standard input.
    pub fn boot(
        alloc: Global,
        image: &Image,
        args: &[Bytes],
        env: &[Bytes],
        files: &[FileOut],
        input: Bytes,
    ) -> Result<PlainKernel, NoMemory>
        requires few { is_too_big args.now env.now ≡ false }
        requires files { CanMake files.now }
        ensures { IfOk result (λ kernel. IsBooted kernel image.now args.now env.now files.now input) }
    {
        let mut machine = PlainMachine::new(alloc)?;
        make_files(&mut machine, files)?;
        let Ok(sp) = load_program(&mut machine, alloc, FIRST, image, args, env) else {
            return Err(NoMemory);
        };
        let mut manager = Manager::new(alloc, input)?;
        let brk = Brk {
            base: image.brk(),
            now: image.brk(),
        };
        if let Err(_) = manager.start(alloc, start_of(image.entry(), sp), brk) {
            return Err(NoMemory);
        }
        Ok(PlainKernel { manager, machine })
    }
}

// Makes files with their names, the first of them under number 0, in a machine that has none.
fn make_files(machine: &mut PlainMachine, files: &[FileOut]) -> Result<(), NoMemory>
    requires bare { held_of machine.old ≡ bare }
    requires can { CanMake files.now }
    ensures does { OnOk result (Did machine.old machine.new (file_effects 0 files.now)) }
{
    for i in 0..files.len() {
        make_file(machine, FileNo(i as u32), &files[i])?;
    }
    Ok(())
}

// Makes a file, whose number is the next one, and writes its bytes.
fn make_file(machine: &mut PlainMachine, number: FileNo, file: &FileOut) -> Result<(), NoMemory>
    requires next { (held_of machine.old).next ≡ number.0 }
    requires can { NotMade file.now (held_of machine.old) }
    ensures does { OnOk result (Did machine.old machine.new (file_effects number.0 (file.now ∷ []))) }
{
    let Ok(made) = machine.make(file.name.as_slice()) else {
        return Err(NoMemory);
    };
    if made.is_none() {
        unreachable!(); // there are fewer than 1024
    }
    match machine.write(number, 0, file.bytes.as_slice()) {
        Ok(()) => Ok(()),
        Err(_) => Err(NoMemory),
    }
}

// The registers with which a program starts: 0, but the stack pointer.
fn start_of(entry: u64, sp: u64) -> Cpu
    ensures { result ≡ record { pc = entry; x = 0 ∷ 0 ∷ sp ∷ replicate 29 0 } }
{
    let mut x = [0; 32];
    x[2] = sp;
    Cpu { pc: entry, x }
}

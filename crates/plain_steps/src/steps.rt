//! Instructions of a process.
ghost use Rattle.std.specs.Prelude.{◌≡◌, ◌==◌, ℕ, IsTrue, IfOk};
ghost use Rattle.flat_memory.specs.Spaces.{space_of, spaces_of};
ghost use Rattle.linux_model.specs.Agrees.{Agrees};
ghost use Rattle.linux_model.specs.Instructions.{many};
ghost use Rattle.rv64_step.specs.Harts.{cpu_of};

use flat_memory::{FlatMemory, TurnSpace};
use lego_base::{NoMemory, Pid};
use rv64_step::{Cpu, Hart, StepEnd};

/// At most `most` instructions of a process. A system call, which isn't done here, or a signal ends them.
// It is a function of its own also when compiled, and has the registers and the space of the process in places of its
// own, which no store of the process can reach: so its loop keeps what it needs in host registers.
#[inline(never)]
pub fn run_some(
    cpu: &mut Cpu,
    pid: Pid,
    memory: &mut FlatMemory,
    most: u32,
) -> Result<StepEnd, NoMemory>
    ensures others { (q : ℕ) → (q ≡ pid.0 → ⊥) → spaces_of memory.new q ≡ spaces_of memory.old q }
    ensures ran { IfOk result (λ stop. Agrees (many most pid.0 cpu.old (spaces_of memory.old pid.0)) stop cpu.new (spaces_of memory.new pid.0)) }
{
    let mut hart = Hart::new(*cpu);
    let mut space = memory.take(pid)?;
    let stop = run(&mut hart, pid, &mut space, most)?;
    memory.put(space)?;
    *cpu = hart.cpu();
    Ok(stop)
}

// At most `most` instructions on the registers and the space of a process.
#[inline(always)]
fn run(hart: &mut Hart, pid: Pid, space: &mut TurnSpace, most: u32) -> Result<StepEnd, NoMemory>
    requires { space.old.pid ≡ pid }
    ensures pid { space.new.pid ≡ pid }
    ensures ran { IfOk result (λ stop. Agrees (many most pid.0 (cpu_of hart.old) (space_of space.old.space)) stop (cpu_of hart.new) (space_of space.new.space)) }
{
    for n in 0..most {
        match hart.step(pid, space) {
            Ok(StepEnd::Next) => {}
            Ok(StepEnd::Call) => return Ok(StepEnd::Call),
            Ok(StepEnd::Dead(signal)) => return Ok(StepEnd::Dead(signal)),
            Err(_) => return Err(NoMemory),
        }
    }
    Ok(StepEnd::Next)
}

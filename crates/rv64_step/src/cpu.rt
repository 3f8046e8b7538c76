//! The registers of a processor, and how a step ends.
ghost use Rattle.std.specs.Prelude.{◌≡◌, ◌<◌};
ghost use Rattle.rv64_step.specs.declared.cpu.StepEnd.TheVariants.{Dead};
ghost use Rattle.rv64_step.specs.Meaning.{reg, stopped};

use lego_base::{Halt, MemStop};

/// The registers of a processor. What `x[0]` holds doesn't matter: register 0 reads 0.
#[derive(Clone, Copy, Debug, PartialEq, Eq)]
pub struct Cpu {
    pub pc: u64,
    pub x: [u64; 32],
}

/// How a step ended.
#[derive(Clone, Copy, Debug, PartialEq, Eq)]
pub enum StepEnd {
    /// The next instruction follows.
    Next,
    /// A system call: `pc` stays at the `ECALL`.
    Call,
    /// The process dies by this signal, as `signal(7)` numbers them: 4 for an illegal instruction, 5 for
    /// a breakpoint, 7 for a jump to a misaligned address, 11 for an access that isn't permitted.
    Dead(u8),
}

impl Cpu {
    /// The value of a register: register 0 reads 0.
    #[inline(always)]
    pub fn get(&self, r: u8) -> u64
        requires { r < 32 }
        ensures { result ≡ reg self.now r }
    {
        if r == 0 { 0 } else { self.x[r as usize] }
    }
}

// The end of a step that kills by a signal. It is a function of its own also when compiled, so that a step that goes on
// prepares nothing for it.
#[cold]
#[inline(never)]
pub fn killed(signal: u8) -> StepEnd
    ensures { result ≡ Dead signal }
{
    StepEnd::Dead(signal)
}

// The end of a step whose memory access failed.
#[inline(always)]
pub fn stopped(stop: MemStop) -> Result<StepEnd, Halt>
    ensures { result ≡ stopped stop }
{
    match stop {
        MemStop::Segv => Ok(killed(11)),
        MemStop::Halt(halt) => Err(halt),
    }
}

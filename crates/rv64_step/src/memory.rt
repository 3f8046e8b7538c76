//! What a step asks of a memory.
ghost use Rattle.std.specs.Prelude.{ℕ, Bool, IsTrue, Result};
ghost use Rattle.lego_base.specs.declared.stops.MemStop.{MemStop};
ghost use Rattle.lego_base.specs.Space.{Space};
ghost use Rattle.rv64_step.specs.Access.{bytes_in, Fetched, Loaded, Stored};

use crate::width::Width;
use lego_base::{MemStop, Pid};

/// The memory of guest processes, as an instruction uses it.
///
/// Addresses are virtual, numbers are little endian. An access is permitted where each of its bytes is;
/// it need not be aligned. Where it isn't permitted the answer is `Segv` and no byte has changed. A
/// `Halt` comes from the machine below; nothing is said of the memory after it. All calls take `&mut self`, so that
/// a memory may keep what helps it find the next bytes.
pub trait GuestMem {
    /// The processes that may be named in a call.
    ghost serves: { Self → ℕ → Bool };

    /// The space of each of them.
    ghost space: { Self → ℕ → Space };

    /// Which memory may follow which, by a call and its answer.
    ghost fetches: { Self → ℕ → ℕ → Result ℕ MemStop → Self → Type 0 };

    ghost loads: { Self → ℕ → ℕ → ℕ → Result ℕ MemStop → Self → Type 0 };

    ghost stores: { Self → ℕ → ℕ → ℕ → ℕ → Result (Unit {0}) MemStop → Self → Type 0 };

    /// The number in the bytes at an address.
    fn load(&mut self, pid: Pid, addr: u64, width: Width) -> Result<u64, MemStop>
        requires { IsTrue (serves self.old pid.0) }
        ensures { Loaded serves space loads pid.0 self.old addr (bytes_in width) result self.new };

    /// Writes the lowest bytes of a value at an address.
    fn store(&mut self, pid: Pid, addr: u64, width: Width, value: u64) -> Result<(), MemStop>
        requires { IsTrue (serves self.old pid.0) }
        ensures { Stored serves space stores pid.0 self.old addr (bytes_in width) value result self.new };

    /// The 32 bits of the instruction at an address.
    fn fetch(&mut self, pid: Pid, addr: u64) -> Result<u32, MemStop>
        requires { IsTrue (serves self.old pid.0) }
        ensures { Fetched serves space fetches pid.0 self.old addr result self.new };
}

//! Where owners are kept, where a memory's log is, and where a process runs.

ghost use Rattle.std.specs.Prelude.{◌≡◌, ◌<◌, ◌≤◌};
ghost use Rattle.lego_msg.specs.Places.{guarded_by, home_of, secondary_of};
ghost use Rattle.placement.specs.Processors.{processor_with};

use lego_base::{CpuId, MemId, Pid};

/// The memory that keeps the owners of a process's regions, where there are `memories` memory components.
pub fn home(pid: Pid, memories: u32) -> MemId
    requires { 0 < memories }
    ensures { result ≡ record { 0 = home_of memories pid.0 } }
{
    MemId(pid.0 % memories)
}

/// The memory that keeps the log and the spare of another one, where there are `memories` memory components.
pub fn secondary(memory: MemId, memories: u32) -> MemId
    requires { 0 < memories }
    ensures { result ≡ record { 0 = secondary_of memories memory.0 } }
{
    let next = memory.0 as u64 + 1;
    MemId((next % memories as u64) as u32)
}

/// The memory whose log and spare a memory keeps, where there are `memories` memory components.
pub fn guarded(memory: MemId, memories: u32) -> MemId
    requires { 0 < memories }
    ensures { result ≡ record { 0 = guarded_by memories memory.0 } }
{
    let before = memory.0 as u64 + memories as u64 - 1;
    MemId((before % memories as u64) as u32)
}

/// The processor component that runs a process, where there are `processors` of them.
pub fn processor_of(pid: Pid, processors: u32) -> CpuId
    requires pid { 1 ≤ pid.0 }
    requires some { 0 < processors }
    ensures { result ≡ record { 0 = processor_with processors pid.0 } }
{
    CpuId((pid.0 - 1) % processors)
}

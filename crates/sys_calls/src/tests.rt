//! A process on a small machine, which stops at every call.
ghost use Rattle.std.specs.Prelude.{◌≡◌, IfOk};
ghost use Rattle.linux_model.specs.Effects.{Effect};
ghost use Rattle.linux_model.specs.Held.{Held};
ghost use Rattle.call_machine.specs.Lawful.{Lawful, Led, holding};
ghost use Rattle.sys_calls.specs.Tried.{calling_with, idle};

use crate::calls::do_call;
use area_list::Areas;
use call_machine::Machine;
use call_machine::errno::ENOSYS;
use kernel_objects::{Brk, Stream};
use lego_base::{Bytes, FileNo, Halt, Pid, Vpn};
use manager::Manager;
use rv64_step::Cpu;
use std::alloc::Global;
use std::test::Fail;

const ONE: Pid = Pid(1);

// The space of process 1, a page, and an empty file.
#[derive(Drop)]
struct Idle;

impl Machine for Idle {
    ghost held = { λ m. idle };

    ghost does = { λ a b es. Led idle idle es };

    ghost stops = { λ a b es. Unit {0} };

    fn check_span(&mut self, _pid: Pid, _at: u64, _len: u64, _need: u8) -> Result<bool, Halt> {
        Err(Halt::NoMemory)
    }

    fn areas(&mut self, _alloc: Global, _pid: Pid) -> Result<Areas, Halt> {
        Err(Halt::NoMemory)
    }

    fn copy_in(
        &mut self,
        _alloc: Global,
        _pid: Pid,
        _at: u64,
        _len: u64,
    ) -> Result<Option<Bytes>, Halt> {
        Err(Halt::NoMemory)
    }

    fn copy_out(&mut self, _pid: Pid, _at: u64, _bytes: &[u8]) -> Result<(), Halt> {
        Err(Halt::NoMemory)
    }

    fn map(&mut self, _pid: Pid, _areas: Areas) -> Result<(), Halt> {
        Err(Halt::NoMemory)
    }

    fn protect(&mut self, _pid: Pid, _first: Vpn, _pages: u64, _areas: Areas) -> Result<(), Halt> {
        Err(Halt::NoMemory)
    }

    fn unmap(&mut self, _pid: Pid, _first: Vpn, _pages: u64) -> Result<(), Halt> {
        Err(Halt::NoMemory)
    }

    fn fill(&mut self, _pid: Pid, _at: u64, _bytes: &[u8]) -> Result<(), Halt> {
        Err(Halt::NoMemory)
    }

    fn copy_space(&mut self, _parent: Pid, _child: Pid) -> Result<(), Halt> {
        Err(Halt::NoMemory)
    }

    fn drop_space(&mut self, _pid: Pid) -> Result<(), Halt> {
        Err(Halt::NoMemory)
    }

    fn find(&mut self, _name: &[u8]) -> Result<Option<FileNo>, Halt> {
        Err(Halt::NoMemory)
    }

    fn make(&mut self, _name: &[u8]) -> Result<Option<FileNo>, Halt> {
        Err(Halt::NoMemory)
    }

    fn unlink(&mut self, _name: &[u8]) -> Result<(), Halt> {
        Err(Halt::NoMemory)
    }

    fn free(&mut self, _file: FileNo) -> Result<(), Halt> {
        Err(Halt::NoMemory)
    }

    fn size(&mut self, _file: FileNo) -> Result<u64, Halt> {
        Err(Halt::NoMemory)
    }

    fn read(&mut self, _alloc: Global, _file: FileNo, _off: u64, _len: u64) -> Result<Bytes, Halt> {
        Err(Halt::NoMemory)
    }

    fn write(&mut self, _file: FileNo, _off: u64, _bytes: &[u8]) -> Result<(), Halt> {
        Err(Halt::NoMemory)
    }

    fn cut(&mut self, _file: FileNo, _size: u64) -> Result<(), Halt> {
        Err(Halt::NoMemory)
    }

    fn put_out(&mut self, _stream: Stream, _bytes: &[u8]) {}

    ghost lawful = { holding (λ m. idle) };
}

// Process 1 with the standard streams, at a call of this number.
fn started(alloc: Global, number: u64) -> Result<Manager, Fail>
    ensures { IfOk result (λ m. m ≡ calling_with number) }
{
    let mut manager = Manager::new(alloc, Bytes::from_slice(alloc, b"")?)?;
    let mut cpu = Cpu { pc: 0, x: [0; 32] };
    cpu.x[17] = number;
    let brk = Brk {
        base: 4096,
        now: 4096,
    };
    manager.start(alloc, cpu, brk)?;
    Ok(manager)
}

#[test]
fn a_call_of_no_number_is_not_implemented(rt: HostRuntime) -> Result<(), Fail> {
    let mut manager = started(rt.alloc(), 0)?;
    do_call(&mut Idle, &mut manager, rt.alloc(), ONE)?;
    let Some(process) = manager.get(ONE) else {
        return Err(Fail::from("gone"));
    };
    assert_eq!(rt; process.cpu.x[10], ENOSYS);
    assert_eq!(rt; process.cpu.pc, 4);
    Ok(())
}

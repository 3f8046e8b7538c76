//! A family on a small machine.
ghost use Rattle.std.specs.Prelude.{◌≡◌, IfOk};
ghost use Rattle.linux_model.specs.Effects.{Effect};
ghost use Rattle.linux_model.specs.Held.{Held};
ghost use Rattle.call_machine.specs.Lawful.{Lawful, Led, holding};
ghost use Rattle.sys_process.specs.Tried.{booted, family};

use crate::clone::sys_clone;
use crate::death::die;
use crate::exec::sys_execve;
use crate::wait::sys_wait4;
use area_list::Areas;
use call_machine::errno::EFAULT;
use call_machine::{CallEnd, Machine};
use kernel_objects::{Brk, Stream, Waiting};
use lego_base::{Bytes, Exit, FileNo, Halt, Pid, Vpn};
use manager::Manager;
use rv64_step::Cpu;
use std::alloc::Global;
use std::test::Fail;

const ONE: Pid = Pid(1);

const TWO: Pid = Pid(2);

/// The word for any child.
const ANY: u64 = u64::MAX;

// The space of process 1, a page, and that of a child.
#[derive(Drop)]
struct Family {
    has_child: bool,
    is_gone: bool, // the space of process 1
}

impl Machine for Family {
    ghost held = { λ m. family m.has_child m.is_gone };

    ghost does = { λ a b es. Led (family a.has_child a.is_gone) (family b.has_child b.is_gone) es };

    ghost stops = { λ a b es. Unit {0} };

    fn check_span(&mut self, _pid: Pid, _at: u64, _len: u64, _need: u8) -> Result<bool, Halt> {
        Err(Halt::NoMemory)
    }

    fn areas(&mut self, _alloc: Global, _pid: Pid) -> Result<Areas, Halt> {
        Err(Halt::NoMemory)
    }

    fn copy_in(
        &mut self,
        _alloc: Global,
        pid: Pid,
        at: u64,
        len: u64,
    ) -> Result<Option<Bytes>, Halt> {
        if self.has_child || self.is_gone || pid != ONE || len != 1 || at < 4096 {
            return Err(Halt::NoMemory);
        }
        Ok(None)
    }

    fn copy_out(&mut self, _pid: Pid, _at: u64, _bytes: &[u8]) -> Result<(), Halt> {
        Err(Halt::NoMemory)
    }

    fn map(&mut self, _pid: Pid, _areas: Areas) -> Result<(), Halt> {
        Err(Halt::NoMemory)
    }

    fn protect(&mut self, _pid: Pid, _first: Vpn, _pages: u64, _areas: Areas) -> Result<(), Halt> {
        Err(Halt::NoMemory)
    }

    fn unmap(&mut self, _pid: Pid, _first: Vpn, _pages: u64) -> Result<(), Halt> {
        Err(Halt::NoMemory)
    }

    fn fill(&mut self, _pid: Pid, _at: u64, _bytes: &[u8]) -> Result<(), Halt> {
        Err(Halt::NoMemory)
    }

    fn copy_space(&mut self, parent: Pid, child: Pid) -> Result<(), Halt> {
        if self.has_child || self.is_gone || parent != ONE || child != TWO {
            return Err(Halt::NoMemory);
        }
        self.has_child = true;
        Ok(())
    }

    fn drop_space(&mut self, pid: Pid) -> Result<(), Halt> {
        if self.has_child || self.is_gone || pid != ONE {
            return Err(Halt::NoMemory);
        }
        self.is_gone = true;
        Ok(())
    }

    fn find(&mut self, _name: &[u8]) -> Result<Option<FileNo>, Halt> {
        Err(Halt::NoMemory)
    }

    fn make(&mut self, _name: &[u8]) -> Result<Option<FileNo>, Halt> {
        Err(Halt::NoMemory)
    }

    fn unlink(&mut self, _name: &[u8]) -> Result<(), Halt> {
        Err(Halt::NoMemory)
    }

    fn free(&mut self, _file: FileNo) -> Result<(), Halt> {
        Err(Halt::NoMemory)
    }

    fn size(&mut self, _file: FileNo) -> Result<u64, Halt> {
        Err(Halt::NoMemory)
    }

    fn read(&mut self, _alloc: Global, _file: FileNo, _off: u64, _len: u64) -> Result<Bytes, Halt> {
        Err(Halt::NoMemory)
    }

    fn write(&mut self, _file: FileNo, _off: u64, _bytes: &[u8]) -> Result<(), Halt> {
        Err(Halt::NoMemory)
    }

    fn cut(&mut self, _file: FileNo, _size: u64) -> Result<(), Halt> {
        Err(Halt::NoMemory)
    }

    fn put_out(&mut self, _stream: Stream, _bytes: &[u8]) {}

    ghost lawful = { holding (λ m. family m.has_child m.is_gone) };
}

// Process 1 with the standard streams.
fn started(alloc: Global) -> Result<Manager, Fail>
    ensures { IfOk result (λ m. m ≡ booted) }
{
    let mut manager = Manager::new(alloc, Bytes::from_slice(alloc, b"")?)?;
    let cpu = Cpu { pc: 0, x: [0; 32] };
    let brk = Brk {
        base: 4096,
        now: 4096,
    };
    manager.start(alloc, cpu, brk)?;
    Ok(manager)
}

#[test]
fn a_parent_waits_for_its_child(rt: HostRuntime) -> Result<(), Fail> {
    let mut machine = Family {
        has_child: false,
        is_gone: false,
    };
    let mut manager = started(rt.alloc())?;
    let child = sys_clone(&mut machine, &mut manager, rt.alloc(), ONE, 17, 0)?;
    assert_eq!(rt; child, CallEnd::Value(2));
    let waits = sys_wait4(&mut machine, &mut manager, ONE, ANY, 0, 0, 0)?;
    assert_eq!(rt; waits, CallEnd::Waits(Waiting { moved: 0, len: 0 }));
    Ok(())
}

#[test]
fn a_death_is_recorded_and_the_space_goes(rt: HostRuntime) -> Result<(), Fail> {
    let mut machine = Family {
        has_child: false,
        is_gone: false,
    };
    let mut manager = started(rt.alloc())?;
    die(&mut machine, &mut manager, ONE, 512)?;
    let exit = Exit {
        pid: ONE,
        status: 512,
    };
    assert_eq!(rt; manager.exits(), [exit].as_slice());
    assert!(rt; machine.is_gone);
    Ok(())
}

#[test]
fn a_path_outside_the_space_is_a_bad_address(rt: HostRuntime) -> Result<(), Fail> {
    let mut machine = Family {
        has_child: false,
        is_gone: false,
    };
    let mut manager = started(rt.alloc())?;
    let end = sys_execve(&mut machine, &mut manager, rt.alloc(), ONE, 4096, 0, 0)?;
    assert_eq!(rt; end, CallEnd::Value(EFAULT));
    Ok(())
}

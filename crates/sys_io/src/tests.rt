//! Two letters and a file on a small machine, which does one thing.
ghost use Rattle.std.specs.Prelude.{◌≡◌, IfOk};
ghost use Rattle.linux_model.specs.Effects.{Effect};
ghost use Rattle.linux_model.specs.Held.{Held};
ghost use Rattle.call_machine.specs.Lawful.{Lawful, Led, holding};
ghost use Rattle.sys_io.specs.Tried.{booted, opened_with, tape_after};

use crate::reading::sys_read;
use crate::writing::sys_write;
use area_list::Areas;
use call_machine::{CallEnd, Machine};
use kernel_objects::{Brk, Object, Stream};
use lego_base::{Bytes, FileNo, Halt, Pid, Vpn};
use manager::Manager;
use rv64_step::Cpu;
use std::alloc::Global;
use std::test::Fail;

const ONE: Pid = Pid(1);

/// O_WRONLY and O_APPEND.
const APPEND: u32 = 0x401;

// The letters `hi` in the space of process 1, and a file of four bytes.
#[derive(Drop)]
struct Tape {
    is_filled: bool, // with two bytes at address 8
    is_longer: bool, // the file, by two bytes
}

impl Machine for Tape {
    ghost held = { λ m. tape_after m.is_filled m.is_longer };

    ghost does = { λ a b es. Led (tape_after a.is_filled a.is_longer) (tape_after b.is_filled b.is_longer) es };

    ghost stops = { λ a b es. Unit {0} };

    fn check_span(&mut self, pid: Pid, at: u64, len: u64, need: u8) -> Result<bool, Halt> {
        let is_there = at == 0 && need == 1 || at == 8 && need == 2;
        if self.is_filled || self.is_longer || pid != ONE || !is_there || len != 2 {
            return Err(Halt::NoMemory);
        }
        Ok(true)
    }

    fn areas(&mut self, _alloc: Global, _pid: Pid) -> Result<Areas, Halt> {
        Err(Halt::NoMemory)
    }

    fn copy_in(
        &mut self,
        alloc: Global,
        pid: Pid,
        at: u64,
        len: u64,
    ) -> Result<Option<Bytes>, Halt> {
        if self.is_filled || self.is_longer || pid != ONE || at != 0 || len != 2 {
            return Err(Halt::NoMemory);
        }
        let bytes = Bytes::from_slice(alloc, b"hi")?;
        Ok(Some(bytes))
    }

    fn copy_out(&mut self, pid: Pid, at: u64, bytes: &[u8]) -> Result<(), Halt> {
        if self.is_filled || self.is_longer || pid != ONE || at != 8 || bytes != b"hi".as_slice() {
            return Err(Halt::NoMemory);
        }
        self.is_filled = true;
        Ok(())
    }

    fn map(&mut self, _pid: Pid, _areas: Areas) -> Result<(), Halt> {
        Err(Halt::NoMemory)
    }

    fn protect(&mut self, _pid: Pid, _first: Vpn, _pages: u64, _areas: Areas) -> Result<(), Halt> {
        Err(Halt::NoMemory)
    }

    fn unmap(&mut self, _pid: Pid, _first: Vpn, _pages: u64) -> Result<(), Halt> {
        Err(Halt::NoMemory)
    }

    fn fill(&mut self, _pid: Pid, _at: u64, _bytes: &[u8]) -> Result<(), Halt> {
        Err(Halt::NoMemory)
    }

    fn copy_space(&mut self, _parent: Pid, _child: Pid) -> Result<(), Halt> {
        Err(Halt::NoMemory)
    }

    fn drop_space(&mut self, _pid: Pid) -> Result<(), Halt> {
        Err(Halt::NoMemory)
    }

    fn find(&mut self, _name: &[u8]) -> Result<Option<FileNo>, Halt> {
        Err(Halt::NoMemory)
    }

    fn make(&mut self, _name: &[u8]) -> Result<Option<FileNo>, Halt> {
        Err(Halt::NoMemory)
    }

    fn unlink(&mut self, _name: &[u8]) -> Result<(), Halt> {
        Err(Halt::NoMemory)
    }

    fn free(&mut self, _file: FileNo) -> Result<(), Halt> {
        Err(Halt::NoMemory)
    }

    fn size(&mut self, file: FileNo) -> Result<u64, Halt> {
        if self.is_filled || self.is_longer || file != FileNo(0) {
            return Err(Halt::NoMemory);
        }
        Ok(4)
    }

    fn read(&mut self, alloc: Global, file: FileNo, off: u64, len: u64) -> Result<Bytes, Halt> {
        if self.is_filled || self.is_longer || file != FileNo(0) || off != 0 || len != 2 {
            return Err(Halt::NoMemory);
        }
        let bytes = Bytes::from_slice(alloc, b"hi")?;
        Ok(bytes)
    }

    fn write(&mut self, file: FileNo, off: u64, bytes: &[u8]) -> Result<(), Halt> {
        if self.is_filled
            || self.is_longer
            || file != FileNo(0)
            || off != 4
            || bytes != b"hi".as_slice()
        {
            return Err(Halt::NoMemory);
        }
        self.is_longer = true;
        Ok(())
    }

    fn cut(&mut self, _file: FileNo, _size: u64) -> Result<(), Halt> {
        Err(Halt::NoMemory)
    }

    fn put_out(&mut self, _stream: Stream, _bytes: &[u8]) {}

    ghost lawful = { holding (λ m. tape_after m.is_filled m.is_longer) };
}

// Process 1 with the standard streams.
fn started(alloc: Global) -> Result<Manager, Fail>
    ensures { IfOk result (λ m. m ≡ booted) }
{
    let mut man = Manager::new(alloc, Bytes::from_slice(alloc, b"")?)?;
    let cpu = Cpu { pc: 0, x: [0; 32] };
    let brk = Brk {
        base: 4096,
        now: 4096,
    };
    man.start(alloc, cpu, brk)?;
    Ok(man)
}

// The same with descriptor 3 open on file 0, with some flags.
fn opened(alloc: Global, flags: u32) -> Result<Manager, Fail>
    ensures { IfOk result (λ m. m ≡ opened_with flags) }
{
    let mut man = started(alloc)?;
    man.open(ONE, 3, Object::Regular(FileNo(0)), flags, false);
    Ok(man)
}

#[test]
fn a_read_moves_the_offset(rt: HostRuntime) -> Result<(), Fail> {
    let mut machine = Tape {
        is_filled: false,
        is_longer: false,
    };
    let mut man = opened(rt.alloc(), 0)?;
    let end = sys_read(&mut machine, &mut man, rt.alloc(), ONE, 3, 8, 2)?;
    assert_eq!(rt; end, CallEnd::Value(2));
    assert!(rt; machine.is_filled);
    let Some(open) = man.opened(ONE, 3) else {
        return Err(Fail::from("closed"));
    };
    assert_eq!(rt; open.is.offset, 2);
    Ok(())
}

#[test]
fn what_is_appended_stands_at_the_end(rt: HostRuntime) -> Result<(), Fail> {
    let mut machine = Tape {
        is_filled: false,
        is_longer: false,
    };
    let mut man = opened(rt.alloc(), APPEND)?;
    let end = sys_write(&mut machine, &mut man, rt.alloc(), ONE, 3, 0, 2)?;
    assert_eq!(rt; end, CallEnd::Value(2));
    assert!(rt; machine.is_longer);
    Ok(())
}

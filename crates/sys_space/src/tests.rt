//! The calls on a small machine, in a table.
ghost use Rattle.std.specs.Prelude.{◌≡◌};
ghost use Rattle.linux_model.specs.Effects.{Effect};
ghost use Rattle.linux_model.specs.Held.{Held};
ghost use Rattle.call_machine.specs.Lawful.{Lawful, Led, holding};
ghost use Rattle.sys_space.specs.Tried.{blank};

use crate::dispatch::space_call;
use area_list::Areas;
use call_machine::Machine;
use call_machine::errno::{EINVAL, ENOMEM};
use kernel_objects::{Brk, Stream};
use lego_base::{Bytes, FileNo, Halt, Pid, USER_END, Vpn};
use rv64_step::Cpu;
use std::alloc::Global;
use std::test::Fail;

/// The process that has a space.
const FIRST: Pid = Pid(1);

// The space of process 1, in which no byte was written, and an empty file without a name. There is no other space.
#[derive(Drop)]
struct Blank {
    areas: Areas,
}

impl Machine for Blank {
    ghost held = { λ m. blank m.areas };

    ghost does = { λ a b es. Led (blank a.areas) (blank b.areas) es };

    ghost stops = { λ a b es. Unit {0} };

    fn check_span(&mut self, _pid: Pid, _at: u64, _len: u64, _need: u8) -> Result<bool, Halt> {
        Err(Halt::NoMemory)
    }

    fn areas(&mut self, alloc: Global, pid: Pid) -> Result<Areas, Halt> {
        let mut areas = Areas::new(alloc)?;
        if pid == FIRST {
            areas.copy_from(&self.areas);
        }
        Ok(areas)
    }

    fn copy_in(
        &mut self,
        _alloc: Global,
        _pid: Pid,
        _at: u64,
        _len: u64,
    ) -> Result<Option<Bytes>, Halt> {
        Err(Halt::NoMemory)
    }

    fn copy_out(&mut self, _pid: Pid, _at: u64, _bytes: &[u8]) -> Result<(), Halt> {
        Err(Halt::NoMemory)
    }

    fn map(&mut self, pid: Pid, areas: Areas) -> Result<(), Halt> {
        if pid != FIRST {
            return Err(Halt::NoMemory);
        }
        self.areas = areas;
        Ok(())
    }

    fn protect(&mut self, pid: Pid, _first: Vpn, _pages: u64, areas: Areas) -> Result<(), Halt> {
        if pid != FIRST {
            return Err(Halt::NoMemory);
        }
        self.areas = areas;
        Ok(())
    }

    fn unmap(&mut self, pid: Pid, first: Vpn, pages: u64) -> Result<(), Halt> {
        if pid != FIRST {
            return Err(Halt::NoMemory);
        }
        match self.areas.cut(first, pages) {
            Ok(()) => Ok(()),
            Err(_) => unreachable!(), // the caller knows that there are few
        }
    }

    fn fill(&mut self, _pid: Pid, _at: u64, _bytes: &[u8]) -> Result<(), Halt> {
        Err(Halt::NoMemory)
    }

    fn copy_space(&mut self, _parent: Pid, _child: Pid) -> Result<(), Halt> {
        Err(Halt::NoMemory)
    }

    fn drop_space(&mut self, _pid: Pid) -> Result<(), Halt> {
        Err(Halt::NoMemory)
    }

    fn find(&mut self, _name: &[u8]) -> Result<Option<FileNo>, Halt> {
        Err(Halt::NoMemory)
    }

    fn make(&mut self, _name: &[u8]) -> Result<Option<FileNo>, Halt> {
        Err(Halt::NoMemory)
    }

    fn unlink(&mut self, _name: &[u8]) -> Result<(), Halt> {
        Err(Halt::NoMemory)
    }

    fn free(&mut self, _file: FileNo) -> Result<(), Halt> {
        Err(Halt::NoMemory)
    }

    fn size(&mut self, _file: FileNo) -> Result<u64, Halt> {
        Err(Halt::NoMemory)
    }

    fn read(&mut self, _alloc: Global, _file: FileNo, _off: u64, _len: u64) -> Result<Bytes, Halt> {
        Err(Halt::NoMemory)
    }

    fn write(&mut self, _file: FileNo, _off: u64, _bytes: &[u8]) -> Result<(), Halt> {
        Err(Halt::NoMemory)
    }

    fn cut(&mut self, _file: FileNo, _size: u64) -> Result<(), Halt> {
        Err(Halt::NoMemory)
    }

    fn put_out(&mut self, _stream: Stream, _bytes: &[u8]) {}

    ghost lawful = { holding (λ m. blank m.areas) };
}

// A call with this number and these first arguments.
fn call(
    machine: &mut Blank,
    alloc: Global,
    brk: &mut Brk,
    number: u64,
    arguments: [u64; 4],
) -> Result<Option<u64>, Halt> {
    if brk.now > USER_END {
        return Err(Halt::NoMemory);
    }
    let [a, b, c, d] = arguments;
    let mut x = [0; 32];
    x[10] = a;
    x[11] = b;
    x[12] = c;
    x[13] = d;
    x[17] = number;
    space_call(machine, alloc, FIRST, &Cpu { pc: 0x1_0000, x }, brk)
}

#[test]
fn calls_on_a_space_give_the_answers_of_linux(rt: HostRuntime) -> Result<(), Fail> {
    let mut machine = Blank {
        areas: Areas::new(rt.alloc())?,
    };
    let mut brk = Brk {
        base: 0x2_2000,
        now: 0x2_2000,
    };
    let table = [
        (214, [0, 0, 0, 0], 0x2_2000), // where the break is
        (214, [0x2_4001, 0, 0, 0], 0x2_4001),
        (214, [0x20_0000_0001, 0, 0, 0], 0x2_4001), // past the start of mappings
        (226, [0x2_2000, 0x3000, 1, 0], 0), // the three pages up to the break
        (226, [0x2_2000, 0x4000, 1, 0], ENOMEM),
        (226, [0x2_2000, 0, 8, 0], EINVAL),
        (214, [0x2_2001, 0, 0, 0], 0x2_2001),
        (226, [0x2_2000, 0x2000, 1, 0], ENOMEM), // the second page was unmapped
        (222, [0x7000, 0x2000, 3, 0x22], 0x20_0000_0000), // the address is no hint
        (222, [0, 0x1000, 3, 0x22], 0x20_0000_2000),
        (215, [0x20_0000_0000, 0x1001, 0, 0], 0), // two pages
        (222, [0, 0x3000, 3, 0x22], 0x20_0000_3000),
        (222, [0, 0x2000, 3, 0x22], 0x20_0000_0000),
        (222, [0x20_0000_1000, 0x1000, 5, 0x32], 0x20_0000_1000),
        (222, [0x800, 0x1000, 5, 0x32], EINVAL),
        (222, [0x3F_FFFF_F000, 0x1001, 5, 0x32], ENOMEM),
        (222, [0, 0x1000, 3, 2], EINVAL),
        (222, [0, 0x400_0001, 3, 0x22], ENOMEM),
        (222, [0, 0x400_0000, 3, 0x22], ENOMEM), // more than 16384 pages in all
        (215, [0x3F_FFFF_F000, 0x1001, 0, 0], EINVAL),
        (215, [0x3F_FFFF_F000, 0x1000, 0, 0], 0),
    ];
    for (number, arguments, answer) in table {
        let given = call(&mut machine, rt.alloc(), &mut brk, number, arguments);
        assert_eq!(rt; given, Ok(Some(answer)));
    }
    let write = call(&mut machine, rt.alloc(), &mut brk, 64, [0; 4]);
    assert_eq!(rt; write, Ok(None));
    assert_eq!(rt; brk.now, 0x2_2001);
    Ok(())
}

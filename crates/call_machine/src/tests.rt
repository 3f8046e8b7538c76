//! A machine without memory and files, and a piece of a call over any machine: the trait is tried before calls stand on it.
ghost use Rattle.std.specs.Prelude.{◌≡◌, ◌++◌, ℕ, List, [], ◌∷◌, OnOk, IfOk};
ghost use Rattle.lego_base.specs.Space.{no_space};
ghost use Rattle.linux_model.specs.Effects.{Effect, AsksSpan};
ghost use Rattle.linux_model.specs.Held.{Held};
ghost use Rattle.call_machine.specs.Effects.{copied, copied_in};
ghost use Rattle.call_machine.specs.Lawful.{Lawful, Led, holding};
ghost use Rattle.call_machine.specs.Tried.{held_by};

use crate::machine::Machine;
use area_list::Areas;
use kernel_objects::Stream;
use lego_base::{Bytes, FileNo, Halt, Pid, Vpn};
use std::alloc::Global;
use std::test::Fail;

// Nothing is mapped, there is no file, and there is room for neither. A stuck machine holds a page in each space, and a file,
// and stops at every call.
#[derive(Drop)]
struct Bare {
    stuck: bool,
    shown: usize, // bytes that were put out
}

impl Machine for Bare {
    ghost held = { λ m. held_by m.stuck };

    ghost does = { λ a b es. Led (held_by a.stuck) (held_by b.stuck) es };

    ghost stops = { λ a b es. Unit {0} };

    fn check_span(&mut self, _pid: Pid, _at: u64, len: u64, _need: u8) -> Result<bool, Halt> {
        if self.stuck {
            return Err(Halt::NoMemory);
        }
        Ok(len == 0)
    }

    fn areas(&mut self, alloc: Global, _pid: Pid) -> Result<Areas, Halt> {
        if self.stuck {
            return Err(Halt::NoMemory);
        }
        match Areas::new(alloc) {
            Ok(areas) => Ok(areas),
            Err(_) => Err(Halt::NoMemory),
        }
    }

    fn copy_in(
        &mut self,
        alloc: Global,
        _pid: Pid,
        _at: u64,
        len: u64,
    ) -> Result<Option<Bytes>, Halt> {
        if self.stuck {
            return Err(Halt::NoMemory);
        }
        if len > 0 {
            return Ok(None);
        }
        let none = Bytes::from_slice(alloc, &[])?;
        Ok(Some(none))
    }

    fn copy_out(&mut self, _pid: Pid, _at: u64, _bytes: &[u8]) -> Result<(), Halt> {
        Err(Halt::NoMemory)
    }

    fn map(&mut self, _pid: Pid, _areas: Areas) -> Result<(), Halt> {
        Err(Halt::NoMemory)
    }

    fn protect(&mut self, _pid: Pid, _first: Vpn, _pages: u64, _areas: Areas) -> Result<(), Halt> {
        Err(Halt::NoMemory)
    }

    fn unmap(&mut self, _pid: Pid, _first: Vpn, _pages: u64) -> Result<(), Halt> {
        Err(Halt::NoMemory)
    }

    fn fill(&mut self, _pid: Pid, _at: u64, _bytes: &[u8]) -> Result<(), Halt> {
        Err(Halt::NoMemory)
    }

    fn copy_space(&mut self, _parent: Pid, _child: Pid) -> Result<(), Halt> {
        Err(Halt::NoMemory)
    }

    fn drop_space(&mut self, _pid: Pid) -> Result<(), Halt> {
        Err(Halt::NoMemory)
    }

    fn find(&mut self, _name: &[u8]) -> Result<Option<FileNo>, Halt> {
        if self.stuck {
            return Err(Halt::NoMemory);
        }
        Ok(None)
    }

    fn make(&mut self, _name: &[u8]) -> Result<Option<FileNo>, Halt> {
        Err(Halt::NoMemory)
    }

    fn unlink(&mut self, _name: &[u8]) -> Result<(), Halt> {
        if self.stuck {
            return Err(Halt::NoMemory);
        }
        Ok(())
    }

    fn free(&mut self, _file: FileNo) -> Result<(), Halt> {
        if self.stuck {
            return Err(Halt::NoMemory);
        }
        Ok(())
    }

    fn size(&mut self, _file: FileNo) -> Result<u64, Halt> {
        Err(Halt::NoMemory)
    }

    fn read(&mut self, _alloc: Global, _file: FileNo, _off: u64, _len: u64) -> Result<Bytes, Halt> {
        Err(Halt::NoMemory)
    }

    fn write(&mut self, _file: FileNo, _off: u64, _bytes: &[u8]) -> Result<(), Halt> {
        Err(Halt::NoMemory)
    }

    fn cut(&mut self, _file: FileNo, _size: u64) -> Result<(), Halt> {
        Err(Halt::NoMemory)
    }

    fn put_out(&mut self, _stream: Stream, bytes: &[u8]) {
        self.shown = self.shown.wrapping_add(bytes.len());
    }

    ghost lawful = { holding (λ m. held_by m.stuck) };
}

// A buffer is checked, and then read: the areas that it meets are asked for once.
fn checked_copy<M: Machine>(
    machine: &mut M,
    alloc: Global,
    pid: Pid,
    at: u64,
    len: u64,
) -> Result<Option<Bytes>, Halt>
    ensures does { OnOk result (M.does machine.old machine.new (AsksSpan pid.0 at len ∷ copied_in ((M.held machine.old).space pid.0) pid.0 at len)) }
    ensures answer { IfOk result (λ bytes. bytes ≡ copied ((M.held machine.old).space pid.0) at len) }
    ensures stops { M.stops machine.old machine.new (AsksSpan pid.0 at len ∷ copied_in ((M.held machine.old).space pid.0) pid.0 at len) }
{
    machine.check_span(pid, at, len, 1)?;
    machine.copy_in(alloc, pid, at, len)
}

#[test]
fn a_bare_machine_answers_what_it_holds(rt: HostRuntime) -> Result<(), Fail> {
    let mut bare = Bare {
        stuck: false,
        shown: 0,
    };
    let copied = checked_copy(&mut bare, rt.alloc(), Pid(1), 4096, 1)?;
    assert!(rt; copied.is_none());
    let found = bare.find(b"f")?;
    assert!(rt; found.is_none());
    bare.put_out(Stream::Out, b"hi");
    assert_eq!(rt; bare.shown, 2);
    let mut stuck = Bare {
        stuck: true,
        shown: 0,
    };
    assert!(rt; stuck.size(FileNo(0)).is_err());
    assert!(rt; checked_copy(&mut stuck, rt.alloc(), Pid(1), 4096, 1).is_err());
    Ok(())
}

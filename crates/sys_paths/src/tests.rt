//! A path of three bytes in a small space.
ghost use Rattle.std.specs.Prelude.{◌≡◌};
ghost use Rattle.linux_model.specs.Effects.{Effect};
ghost use Rattle.linux_model.specs.Held.{Held};
ghost use Rattle.call_machine.specs.Lawful.{Lawful, Led, holding};
ghost use Rattle.sys_paths.specs.Tried.{lettered, text_byte};

use crate::text::{Text, read_text};
use crate::walk::{Found, find_path};
use area_list::Areas;
use call_machine::Machine;
use kernel_objects::Stream;
use lego_base::{Bytes, FileNo, Halt, Pid, Vpn};
use manager::Manager;
use std::alloc::Global;
use std::test::Fail;

/// The process that has a space.
const FIRST: Pid = Pid(1);

/// The word for the working directory.
const AT_FDCWD: u64 = u64::MAX - 99;

// The space of process 1 has the path `/f` at address 0, and there is a file `f`. Nothing changes.
#[derive(Drop)]
struct Lettered {
    looked_up: usize, // names
}

impl Machine for Lettered {
    ghost held = { λ m. lettered };

    ghost does = { λ a b es. Led lettered lettered es };

    ghost stops = { λ a b es. Unit {0} };

    fn check_span(&mut self, _pid: Pid, _at: u64, _len: u64, _need: u8) -> Result<bool, Halt> {
        Err(Halt::NoMemory)
    }

    fn areas(&mut self, _alloc: Global, _pid: Pid) -> Result<Areas, Halt> {
        Err(Halt::NoMemory)
    }

    fn copy_in(
        &mut self,
        alloc: Global,
        pid: Pid,
        at: u64,
        len: u64,
    ) -> Result<Option<Bytes>, Halt> {
        if pid != FIRST || len != 1 || at > 2 {
            return Err(Halt::NoMemory);
        }
        let byte = text_byte(at);
        let bytes = Bytes::from_slice(alloc, &[byte])?;
        Ok(Some(bytes))
    }

    fn copy_out(&mut self, _pid: Pid, _at: u64, _bytes: &[u8]) -> Result<(), Halt> {
        Err(Halt::NoMemory)
    }

    fn map(&mut self, _pid: Pid, _areas: Areas) -> Result<(), Halt> {
        Err(Halt::NoMemory)
    }

    fn protect(&mut self, _pid: Pid, _first: Vpn, _pages: u64, _areas: Areas) -> Result<(), Halt> {
        Err(Halt::NoMemory)
    }

    fn unmap(&mut self, _pid: Pid, _first: Vpn, _pages: u64) -> Result<(), Halt> {
        Err(Halt::NoMemory)
    }

    fn fill(&mut self, _pid: Pid, _at: u64, _bytes: &[u8]) -> Result<(), Halt> {
        Err(Halt::NoMemory)
    }

    fn copy_space(&mut self, _parent: Pid, _child: Pid) -> Result<(), Halt> {
        Err(Halt::NoMemory)
    }

    fn drop_space(&mut self, _pid: Pid) -> Result<(), Halt> {
        Err(Halt::NoMemory)
    }

    fn find(&mut self, name: &[u8]) -> Result<Option<FileNo>, Halt> {
        self.looked_up = self.looked_up.wrapping_add(1);
        if b"f".as_slice() == name {
            Ok(Some(FileNo(0)))
        } else {
            Ok(None)
        }
    }

    fn make(&mut self, _name: &[u8]) -> Result<Option<FileNo>, Halt> {
        Err(Halt::NoMemory)
    }

    fn unlink(&mut self, _name: &[u8]) -> Result<(), Halt> {
        Err(Halt::NoMemory)
    }

    fn free(&mut self, _file: FileNo) -> Result<(), Halt> {
        Err(Halt::NoMemory)
    }

    fn size(&mut self, _file: FileNo) -> Result<u64, Halt> {
        Err(Halt::NoMemory)
    }

    fn read(&mut self, _alloc: Global, _file: FileNo, _off: u64, _len: u64) -> Result<Bytes, Halt> {
        Err(Halt::NoMemory)
    }

    fn write(&mut self, _file: FileNo, _off: u64, _bytes: &[u8]) -> Result<(), Halt> {
        Err(Halt::NoMemory)
    }

    fn cut(&mut self, _file: FileNo, _size: u64) -> Result<(), Halt> {
        Err(Halt::NoMemory)
    }

    fn put_out(&mut self, _stream: Stream, _bytes: &[u8]) {}

    ghost lawful = { holding (λ m. lettered) };
}

// The byte at an address.
fn text_byte(at: u64) -> u8
    ensures { result ≡ text_byte at }
{
    match at {
        0 => b'/',
        1 => b'f',
        _ => 0,
    }
}

#[test]
fn a_path_is_read_and_its_name_is_found(rt: HostRuntime) -> Result<(), Fail> {
    let mut machine = Lettered { looked_up: 0 };
    let text = read_text(&mut machine, rt.alloc(), FIRST, 0, 16)?;
    assert!(rt; matches!(text, Text::Whole(_)));
    let short = read_text(&mut machine, rt.alloc(), FIRST, 0, 2)?;
    assert!(rt; matches!(short, Text::Long));
    let manager = Manager::new(rt.alloc(), Bytes::from_slice(rt.alloc(), b"")?)?;
    let found = find_path(&mut machine, &manager, rt.alloc(), FIRST, AT_FDCWD, 0)?;
    assert!(rt; matches!(found, Ok(Found::Named(_, Some(FileNo(0))))));
    assert_eq!(rt; machine.looked_up, 1);
    Ok(())
}

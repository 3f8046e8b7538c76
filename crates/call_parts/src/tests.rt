//! Two letters and a file on a small machine.
ghost use Rattle.std.specs.Prelude.{◌≡◌, IfOk};
ghost use Rattle.linux_model.specs.Effects.{Effect};
ghost use Rattle.linux_model.specs.Held.{Held};
ghost use Rattle.call_machine.specs.Lawful.{Lawful, Led, holding};
ghost use Rattle.call_parts.specs.Tried.{letter, opened_with, shelf};

use crate::buffers::{TO_READ, check_pieces, part, read_pieces};
use crate::closing::close_open;
use area_list::Areas;
use call_machine::Machine;
use kernel_objects::{Brk, Object, Piece, Stream};
use lego_base::{Bytes, FileNo, Halt, Pid, Vpn};
use manager::Manager;
use rv64_step::Cpu;
use std::alloc::Global;
use std::test::Fail;

const ONE: Pid = Pid(1);

// The letters `hi` in the space of process 1, and a file without a name.
#[derive(Drop)]
struct Shelf {
    is_gone: bool, // the file
}

impl Machine for Shelf {
    ghost held = { λ m. shelf m.is_gone };

    ghost does = { λ a b es. Led (shelf a.is_gone) (shelf b.is_gone) es };

    ghost stops = { λ a b es. Unit {0} };

    fn check_span(&mut self, pid: Pid, at: u64, len: u64, need: u8) -> Result<bool, Halt> {
        if pid != ONE || at != 0 || len != 1 || need != TO_READ {
            return Err(Halt::NoMemory);
        }
        Ok(true)
    }

    fn areas(&mut self, _alloc: Global, _pid: Pid) -> Result<Areas, Halt> {
        Err(Halt::NoMemory)
    }

    fn copy_in(
        &mut self,
        alloc: Global,
        pid: Pid,
        at: u64,
        len: u64,
    ) -> Result<Option<Bytes>, Halt> {
        if pid != ONE || at > 1 || len != 1 {
            return Err(Halt::NoMemory);
        }
        let bytes = Bytes::from_slice(alloc, &[letter(at)])?;
        Ok(Some(bytes))
    }

    fn copy_out(&mut self, _pid: Pid, _at: u64, _bytes: &[u8]) -> Result<(), Halt> {
        Err(Halt::NoMemory)
    }

    fn map(&mut self, _pid: Pid, _areas: Areas) -> Result<(), Halt> {
        Err(Halt::NoMemory)
    }

    fn protect(&mut self, _pid: Pid, _first: Vpn, _pages: u64, _areas: Areas) -> Result<(), Halt> {
        Err(Halt::NoMemory)
    }

    fn unmap(&mut self, _pid: Pid, _first: Vpn, _pages: u64) -> Result<(), Halt> {
        Err(Halt::NoMemory)
    }

    fn fill(&mut self, _pid: Pid, _at: u64, _bytes: &[u8]) -> Result<(), Halt> {
        Err(Halt::NoMemory)
    }

    fn copy_space(&mut self, _parent: Pid, _child: Pid) -> Result<(), Halt> {
        Err(Halt::NoMemory)
    }

    fn drop_space(&mut self, _pid: Pid) -> Result<(), Halt> {
        Err(Halt::NoMemory)
    }

    fn find(&mut self, _name: &[u8]) -> Result<Option<FileNo>, Halt> {
        Err(Halt::NoMemory)
    }

    fn make(&mut self, _name: &[u8]) -> Result<Option<FileNo>, Halt> {
        Err(Halt::NoMemory)
    }

    fn unlink(&mut self, _name: &[u8]) -> Result<(), Halt> {
        Err(Halt::NoMemory)
    }

    fn free(&mut self, file: FileNo) -> Result<(), Halt> {
        if self.is_gone || file != FileNo(0) {
            return Err(Halt::NoMemory);
        }
        self.is_gone = true;
        Ok(())
    }

    fn size(&mut self, _file: FileNo) -> Result<u64, Halt> {
        Err(Halt::NoMemory)
    }

    fn read(&mut self, _alloc: Global, _file: FileNo, _off: u64, _len: u64) -> Result<Bytes, Halt> {
        Err(Halt::NoMemory)
    }

    fn write(&mut self, _file: FileNo, _off: u64, _bytes: &[u8]) -> Result<(), Halt> {
        Err(Halt::NoMemory)
    }

    fn cut(&mut self, _file: FileNo, _size: u64) -> Result<(), Halt> {
        Err(Halt::NoMemory)
    }

    fn put_out(&mut self, _stream: Stream, _bytes: &[u8]) {}

    ghost lawful = { holding (λ m. shelf m.is_gone) };
}

// The letter at an address.
fn letter(at: u64) -> u8
    ensures { result ≡ letter at }
{
    match at {
        0 => b'h',
        1 => b'i',
        _ => 0,
    }
}

// Process 1 with the standard streams, and descriptor 3 open on file 0 with some flags.
fn opened(alloc: Global, flags: u32) -> Result<Manager, Fail>
    ensures { IfOk result (λ m. m ≡ opened_with flags) }
{
    let mut man = Manager::new(alloc, Bytes::from_slice(alloc, b"")?)?;
    let cpu = Cpu { pc: 0, x: [0; 32] };
    let brk = Brk {
        base: 4096,
        now: 4096,
    };
    man.start(alloc, cpu, brk)?;
    man.open(ONE, 3, Object::Regular(FileNo(0)), flags, false);
    Ok(man)
}

#[test]
fn two_pieces_are_one_text(rt: HostRuntime) -> Result<(), Fail> {
    let mut machine = Shelf { is_gone: false };
    let pieces = [Piece { at: 0, size: 1 }, Piece { at: 1, size: 1 }];
    let text = read_pieces(&mut machine, rt.alloc(), ONE, &pieces)?;
    assert_eq!(rt; text.as_slice(), b"hi".as_slice());
    let second = part(rt.alloc(), &pieces, 1, 1)?;
    let parts = [Piece { at: 1, size: 0 }, Piece { at: 1, size: 1 }];
    assert_eq!(rt; second.as_slice(), parts.as_slice());
    assert!(rt; check_pieces(&mut machine, ONE, &[Piece { at: 0, size: 1 }], TO_READ)?);
    Ok(())
}

#[test]
fn a_file_goes_with_its_last_descriptor(rt: HostRuntime) -> Result<(), Fail> {
    let mut machine = Shelf { is_gone: false };
    let mut man = opened(rt.alloc(), 0)?;
    close_open(&mut machine, &mut man, ONE, 3)?;
    assert!(rt; machine.is_gone);
    Ok(())
}

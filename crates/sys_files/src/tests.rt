//! A path and a file on a small machine, which does one thing.
ghost use Rattle.std.specs.Prelude.{◌≡◌, ◌||◌, false, IfOk};
ghost use Rattle.linux_model.specs.Effects.{Effect};
ghost use Rattle.linux_model.specs.Held.{Held};
ghost use Rattle.call_machine.specs.Lawful.{Lawful, Led, holding};
ghost use Rattle.sys_files.specs.Tried.{booted, cabinet_after, letter, opened_with};

use crate::descriptors::{sys_dup3, sys_pipe2};
use crate::names::sys_openat;
use crate::offsets::{sys_ftruncate, sys_lseek};
use area_list::Areas;
use call_machine::Machine;
use kernel_objects::{Brk, Object, Stream};
use lego_base::{Bytes, FileNo, Halt, Pid, Vpn};
use manager::Manager;
use rv64_step::Cpu;
use std::alloc::Global;
use std::test::Fail;

const ONE: Pid = Pid(1);

/// The word for the working directory.
const AT_FDCWD: u64 = u64::MAX - 99;

/// O_CREAT and O_EXCL.
const NEW_FILE: u64 = 0xc0;

// The path `f` in the space of process 1, and a file of three bytes.
#[derive(Drop)]
struct Cabinet {
    is_cut: bool, // the file has 5 bytes
    is_gone: bool, // the file
    has_new: bool, // a file `f`
    is_told: bool, // 3 and 4 were written
}

impl Cabinet {
    fn new() -> Cabinet
        ensures cut { result.is_cut ≡ false }
        ensures gone { result.is_gone ≡ false }
        ensures new { result.has_new ≡ false }
        ensures told { result.is_told ≡ false }
    {
        Cabinet {
            is_cut: false,
            is_gone: false,
            has_new: false,
            is_told: false,
        }
    }

    // Whether it has done something.
    fn has_changed(&self) -> bool
        ensures { result ≡ (self.now.is_cut || self.now.is_gone || self.now.has_new || self.now.is_told) }
    {
        self.is_cut || self.is_gone || self.has_new || self.is_told
    }
}

impl Machine for Cabinet {
    ghost held = { λ m. cabinet_after m.is_cut m.is_gone m.has_new m.is_told };

    ghost does = { λ a b es. Led (cabinet_after a.is_cut a.is_gone a.has_new a.is_told) (cabinet_after b.is_cut b.is_gone b.has_new b.is_told) es };

    ghost stops = { λ a b es. Unit {0} };

    fn check_span(&mut self, pid: Pid, at: u64, len: u64, need: u8) -> Result<bool, Halt> {
        if self.has_changed() || pid != ONE || at != 8 || len != 8 || need != 2 {
            return Err(Halt::NoMemory);
        }
        Ok(true)
    }

    fn areas(&mut self, _alloc: Global, _pid: Pid) -> Result<Areas, Halt> {
        Err(Halt::NoMemory)
    }

    fn copy_in(
        &mut self,
        alloc: Global,
        pid: Pid,
        at: u64,
        len: u64,
    ) -> Result<Option<Bytes>, Halt> {
        if self.has_changed() || pid != ONE || at > 1 || len != 1 {
            return Err(Halt::NoMemory);
        }
        let bytes = Bytes::from_slice(alloc, &[letter(at)])?;
        Ok(Some(bytes))
    }

    fn copy_out(&mut self, pid: Pid, at: u64, bytes: &[u8]) -> Result<(), Halt> {
        if self.has_changed()
            || pid != ONE
            || at != 8
            || bytes != [3, 0, 0, 0, 4, 0, 0, 0].as_slice()
        {
            return Err(Halt::NoMemory);
        }
        self.is_told = true;
        Ok(())
    }

    fn map(&mut self, _pid: Pid, _areas: Areas) -> Result<(), Halt> {
        Err(Halt::NoMemory)
    }

    fn protect(&mut self, _pid: Pid, _first: Vpn, _pages: u64, _areas: Areas) -> Result<(), Halt> {
        Err(Halt::NoMemory)
    }

    fn unmap(&mut self, _pid: Pid, _first: Vpn, _pages: u64) -> Result<(), Halt> {
        Err(Halt::NoMemory)
    }

    fn fill(&mut self, _pid: Pid, _at: u64, _bytes: &[u8]) -> Result<(), Halt> {
        Err(Halt::NoMemory)
    }

    fn copy_space(&mut self, _parent: Pid, _child: Pid) -> Result<(), Halt> {
        Err(Halt::NoMemory)
    }

    fn drop_space(&mut self, _pid: Pid) -> Result<(), Halt> {
        Err(Halt::NoMemory)
    }

    fn find(&mut self, _name: &[u8]) -> Result<Option<FileNo>, Halt> {
        if self.has_changed() {
            return Err(Halt::NoMemory);
        }
        Ok(None)
    }

    fn make(&mut self, name: &[u8]) -> Result<Option<FileNo>, Halt> {
        if self.has_changed() || name != b"f".as_slice() {
            return Err(Halt::NoMemory);
        }
        self.has_new = true;
        Ok(Some(FileNo(1)))
    }

    fn unlink(&mut self, _name: &[u8]) -> Result<(), Halt> {
        Err(Halt::NoMemory)
    }

    fn free(&mut self, file: FileNo) -> Result<(), Halt> {
        if self.has_changed() || file != FileNo(0) {
            return Err(Halt::NoMemory);
        }
        self.is_gone = true;
        Ok(())
    }

    fn size(&mut self, file: FileNo) -> Result<u64, Halt> {
        if self.has_changed() || file != FileNo(0) {
            return Err(Halt::NoMemory);
        }
        Ok(3)
    }

    fn read(&mut self, _alloc: Global, _file: FileNo, _off: u64, _len: u64) -> Result<Bytes, Halt> {
        Err(Halt::NoMemory)
    }

    fn write(&mut self, _file: FileNo, _off: u64, _bytes: &[u8]) -> Result<(), Halt> {
        Err(Halt::NoMemory)
    }

    fn cut(&mut self, file: FileNo, size: u64) -> Result<(), Halt> {
        if self.has_changed() || file != FileNo(0) || size != 5 {
            return Err(Halt::NoMemory);
        }
        self.is_cut = true;
        Ok(())
    }

    fn put_out(&mut self, _stream: Stream, _bytes: &[u8]) {}

    ghost lawful = { holding (λ m. cabinet_after m.is_cut m.is_gone m.has_new m.is_told) };
}

// The letter at an address.
fn letter(at: u64) -> u8
    ensures { result ≡ letter at }
{
    match at {
        0 => b'f',
        _ => 0,
    }
}

// Process 1 with the standard streams.
fn started(alloc: Global) -> Result<Manager, Fail>
    ensures { IfOk result (λ m. m ≡ booted) }
{
    let mut man = Manager::new(alloc, Bytes::from_slice(alloc, b"")?)?;
    let cpu = Cpu { pc: 0, x: [0; 32] };
    let brk = Brk {
        base: 4096,
        now: 4096,
    };
    man.start(alloc, cpu, brk)?;
    Ok(man)
}

// The same with descriptor 3 open on file 0, with some flags.
fn opened(alloc: Global, flags: u32) -> Result<Manager, Fail>
    ensures { IfOk result (λ m. m ≡ opened_with flags) }
{
    let mut man = started(alloc)?;
    man.open(ONE, 3, Object::Regular(FileNo(0)), flags, false);
    Ok(man)
}

#[test]
fn a_file_is_made_and_opened(rt: HostRuntime) -> Result<(), Fail> {
    let mut machine = Cabinet::new();
    let mut man = opened(rt.alloc(), 0)?;
    let fd = sys_openat(
        &mut machine,
        &mut man,
        rt.alloc(),
        ONE,
        AT_FDCWD,
        0,
        NEW_FILE,
    )?;
    assert_eq!(rt; fd, 4);
    assert!(rt; machine.has_new);
    Ok(())
}

#[test]
fn dup3_closes_and_the_file_goes(rt: HostRuntime) -> Result<(), Fail> {
    let mut machine = Cabinet::new();
    let mut man = opened(rt.alloc(), 0)?;
    assert_eq!(rt; sys_dup3(&mut machine, &mut man, ONE, 1, 3, 0)?, 3);
    assert!(rt; machine.is_gone);
    Ok(())
}

#[test]
fn a_pipe_has_the_lowest_descriptors(rt: HostRuntime) -> Result<(), Fail> {
    let mut machine = Cabinet::new();
    let mut man = started(rt.alloc())?;
    assert_eq!(rt;
        sys_pipe2(&mut machine, &mut man, rt.alloc(), ONE, 8, 0)?,
        0
    );
    assert!(rt; machine.is_told);
    Ok(())
}

#[test]
fn a_file_grows_and_its_end_is_found(rt: HostRuntime) -> Result<(), Fail> {
    let mut machine = Cabinet::new();
    let mut man = opened(rt.alloc(), 1)?;
    assert_eq!(rt; sys_lseek(&mut machine, &mut man, ONE, 3, 1, 2)?, 4);
    let mut other = Cabinet::new();
    let man = opened(rt.alloc(), 1)?;
    assert_eq!(rt; sys_ftruncate(&mut other, &man, ONE, 3, 5)?, 0);
    assert!(rt; other.is_cut);
    Ok(())
}

//! A program is loaded into a flat memory.
ghost use Rattle.std.specs.Prelude.{◌≡◌, false};
ghost use Rattle.lego_base.specs.Space.{no_space};
ghost use Rattle.flat_memory.specs.Spaces.{spaces_of};
ghost use Rattle.call_machine.specs.Lawful.{Led, holding};
ghost use Rattle.space_loading.specs.Tried.{with_one_file};

use crate::load::load_program;
use area_list::Areas;
use call_machine::Machine;
use elf_image::read_image;
use flat_memory::FlatMemory;
use kernel_objects::Stream;
use lego_base::{Bytes, FileNo, Halt, Pid, USER_END, Vpn};
use std::alloc::Global;
use std::test::Fail;

// A memory in which the areas of one process are set, once.
#[derive(Drop)]
struct Fresh {
    memory: FlatMemory,
    mapped: bool,
    ghost bare: { mapped ≡ false → spaces_of memory ≡ (λ pid. no_space) },
}

impl Machine for Fresh {
    ghost use Rattle.linux_model.specs.Effects.{Effect};
    ghost use Rattle.linux_model.specs.Held.{Held};
    ghost use Rattle.flat_memory.specs.Spaces.{spaces_of};
    ghost use Rattle.call_machine.specs.Lawful.{Lawful, Led, holding};
    ghost use Rattle.space_loading.specs.Tried.{with_one_file};

    ghost held = { λ m. with_one_file (spaces_of m.memory) };

    ghost does = { λ a b es. Led (with_one_file (spaces_of a.memory)) (with_one_file (spaces_of b.memory)) es };

    ghost stops = { λ a b es. Unit {0} };

    fn check_span(&mut self, _pid: Pid, _at: u64, _len: u64, _need: u8) -> Result<bool, Halt> {
        Err(Halt::NoMemory)
    }

    fn areas(&mut self, _alloc: Global, _pid: Pid) -> Result<Areas, Halt> {
        Err(Halt::NoMemory)
    }

    fn copy_in(
        &mut self,
        _alloc: Global,
        _pid: Pid,
        _at: u64,
        _len: u64,
    ) -> Result<Option<Bytes>, Halt> {
        Err(Halt::NoMemory)
    }

    fn copy_out(&mut self, _pid: Pid, _at: u64, _bytes: &[u8]) -> Result<(), Halt> {
        Err(Halt::NoMemory)
    }

    fn map(&mut self, pid: Pid, areas: Areas) -> Result<(), Halt> {
        if self.mapped {
            return Err(Halt::NoMemory);
        }
        self.mapped = true;
        match self.memory.create(pid, areas) {
            Ok(()) => Ok(()),
            Err(_) => Err(Halt::NoMemory),
        }
    }

    fn protect(&mut self, _pid: Pid, _first: Vpn, _pages: u64, _areas: Areas) -> Result<(), Halt> {
        Err(Halt::NoMemory)
    }

    fn unmap(&mut self, _pid: Pid, _first: Vpn, _pages: u64) -> Result<(), Halt> {
        Err(Halt::NoMemory)
    }

    fn fill(&mut self, pid: Pid, at: u64, bytes: &[u8]) -> Result<(), Halt> {
        if !self.mapped || at > USER_END || bytes.len() as u64 > USER_END - at {
            return Err(Halt::NoMemory);
        }
        match self.memory.fill(pid, at, bytes) {
            Ok(()) => Ok(()),
            Err(_) => Err(Halt::NoMemory),
        }
    }

    fn copy_space(&mut self, _parent: Pid, _child: Pid) -> Result<(), Halt> {
        Err(Halt::NoMemory)
    }

    fn drop_space(&mut self, _pid: Pid) -> Result<(), Halt> {
        Err(Halt::NoMemory)
    }

    fn find(&mut self, _name: &[u8]) -> Result<Option<FileNo>, Halt> {
        Err(Halt::NoMemory)
    }

    fn make(&mut self, _name: &[u8]) -> Result<Option<FileNo>, Halt> {
        Err(Halt::NoMemory)
    }

    fn unlink(&mut self, _name: &[u8]) -> Result<(), Halt> {
        Err(Halt::NoMemory)
    }

    fn free(&mut self, _file: FileNo) -> Result<(), Halt> {
        Err(Halt::NoMemory)
    }

    fn size(&mut self, _file: FileNo) -> Result<u64, Halt> {
        Err(Halt::NoMemory)
    }

    fn read(&mut self, _alloc: Global, _file: FileNo, _off: u64, _len: u64) -> Result<Bytes, Halt> {
        Err(Halt::NoMemory)
    }

    fn write(&mut self, _file: FileNo, _off: u64, _bytes: &[u8]) -> Result<(), Halt> {
        Err(Halt::NoMemory)
    }

    fn cut(&mut self, _file: FileNo, _size: u64) -> Result<(), Halt> {
        Err(Halt::NoMemory)
    }

    fn put_out(&mut self, _stream: Stream, _bytes: &[u8]) {}

    ghost lawful = { holding (λ m. with_one_file (spaces_of m.memory)) };
}

// The header of an ELF64 file for RISC-V with the entry 0x100b0 and two program headers of 56 bytes.
const HEADER: [u8; 64] = [
    0x7f, 0x45, 0x4c, 0x46, 2, 1, 1, 0, 0, 0, 0, 0, 0, 0, 0, 0, //
    2, 0, 243, 0, 1, 0, 0, 0, 0xb0, 0, 1, 0, 0, 0, 0, 0, //
    64, 0, 0, 0, 0, 0, 0, 0, 0, 0, 0, 0, 0, 0, 0, 0, //
    0, 0, 0, 0, 64, 0, 56, 0, 2, 0, 0, 0, 0, 0, 0, 0,
];

// The program header of a load with these flags, at this offset and address, with these bytes in the file and in memory.
fn push_load(
    bytes: &mut Vec<u8>,
    flags: u8,
    offset: u64,
    vaddr: u64,
    filesz: u64,
    memsz: u64,
) -> Result<(), Fail> {
    bytes.extend_from_slice(&[1, 0, 0, 0, flags, 0, 0, 0])?;
    for word in [offset, vaddr, vaddr, filesz, memsz, 4096] {
        bytes.extend_from_slice(word.to_le_bytes().as_slice())?;
    }
    Ok(())
}

#[test]
fn two_loads_share_a_page_of_the_space(rt: HostRuntime) -> Result<(), Fail> {
    let alloc = rt.alloc();
    let mut file = Vec::from_slice(alloc, &HEADER)?;
    push_load(&mut file, 5, 0, 0x1_0000, 0xb4, 0xb4)?;
    push_load(&mut file, 6, 0xb4, 0x1_0ffe, 4, 0x1000)?;
    file.extend_from_slice(&[0x73, 0, 0, 0, 1, 2, 3, 4])?;
    let image = read_image(alloc, file.as_slice())?;
    let memory = FlatMemory::new(alloc)?;
    let mut machine = Fresh {
        memory,
        mapped: false,
    };
    let args = Vec::from_array(alloc, [Bytes::from_slice(alloc, b"f")?])?;
    let sp = load_program(&mut machine, alloc, Pid(1), &image, args.as_slice(), &[])?;
    assert_eq!(rt; sp % 16, 0);
    let table: [(u64, [u8; 4]); 5] = [
        (0x1_0000, [0x7f, 0x45, 0x4c, 0x46]),
        (0x1_00b0, [0x73, 0, 0, 0]),
        (0x1_0ffd, [0, 1, 2, 3]), // the last byte before the second load, and its first three
        (0x1_1001, [4, 0, 0, 0]),
        (sp, [1, 0, 0, 0]), // the arguments, counted
    ];
    for (address, bytes) in table {
        let found = machine.memory.copy_in(alloc, Pid(1), address, 4)?;
        assert!(rt; found.as_slice() == bytes.as_slice());
    }
    Ok(())
}

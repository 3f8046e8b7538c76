//! Numbers and program headers in a file.

ghost use Rattle.std.specs.Prelude.{◌≡◌, ◌+◌, ◌*◌, ◌≤◌, length, IfOk};
ghost use Rattle.elf_image.specs.File.{field, header_at, headers, loads_of, table_offset, header_count};

use crate::HEADER_BYTES;
use byteorder::{ByteOrder, LittleEndian};
use lego_base::NoMemory;
use std::alloc::Global;

// The offsets of the fields of the file header, by their names in elf(5).
pub const E_TYPE: usize = 16;

pub const E_MACHINE: usize = 18;

pub const E_ENTRY: usize = 24;

pub const E_PHOFF: usize = 32;

pub const E_FLAGS: usize = 48;

pub const E_PHENTSIZE: usize = 54;

pub const E_PHNUM: usize = 56;

// What they and the fields of program headers hold, by the names in elf(5).
pub const ET_EXEC: u16 = 2;

pub const EM_RISCV: u16 = 243;

pub const PT_LOAD: u32 = 1;

pub const PT_INTERP: u32 = 3;

pub const PF_X: u32 = 1;

// The bits of e_flags for what the machine lacks: compressed instructions (1), float ABIs (6), RVE (8).
pub const OTHER_ABIS: u32 = 15;

/// A program header. The fields are those of elf(5) without `p_`; `kind` is `p_type`.
#[derive(Clone, Copy, Debug, PartialEq, Eq)]
pub struct Header {
    pub kind: u32, // 1 loads bytes, 3 names an interpreter
    pub flags: u32, // a set of 1 (execute), 2 (write) and 4 (read)
    pub offset: u64, // where its bytes begin in the file
    pub vaddr: u64, // the address of its first byte
    pub filesz: u64, // its bytes in the file
    pub memsz: u64, // its bytes in memory
}

// The number of two bytes that start at an offset, the lowest first.
#[tactic(auto, unfolding(crate::specs::File::field))]
pub fn read_u16(bytes: &[u8], offset: usize) -> u16
    requires { offset + 2 ≤ length bytes.now }
    ensures { result ≡ field bytes.now offset 2 }
{
    let (_, rest) = bytes.split_at(offset);
    LittleEndian::read_u16(rest)
}

// The number of four bytes that start at an offset, the lowest first.
#[tactic(auto, unfolding(crate::specs::File::field))]
pub fn read_u32(bytes: &[u8], offset: usize) -> u32
    requires { offset + 4 ≤ length bytes.now }
    ensures { result ≡ field bytes.now offset 4 }
{
    let (_, rest) = bytes.split_at(offset);
    LittleEndian::read_u32(rest)
}

// The number of eight bytes that start at an offset, the lowest first.
#[tactic(auto, unfolding(crate::specs::File::field))]
pub fn read_u64(bytes: &[u8], offset: usize) -> u64
    requires { offset + 8 ≤ length bytes.now }
    ensures { result ≡ field bytes.now offset 8 }
{
    let (_, rest) = bytes.split_at(offset);
    LittleEndian::read_u64(rest)
}

// The program header at an offset.
#[tactic(auto, unfolding(crate::specs::File::header_at))]
fn read_header(bytes: &[u8], at: usize) -> Header
    requires { at + 56 ≤ length bytes.now }
    ensures { result ≡ header_at bytes.now at }
{
    Header {
        kind: read_u32(bytes, at),
        flags: read_u32(bytes, at + 4),
        offset: read_u64(bytes, at + 8),
        vaddr: read_u64(bytes, at + 16),
        filesz: read_u64(bytes, at + 32),
        memsz: read_u64(bytes, at + 40),
    }
}

// The table of program headers, which lies within the file.
pub fn read_headers(alloc: Global, bytes: &[u8]) -> Result<Vec<Header>, NoMemory>
    requires header { 64 ≤ length bytes.now }
    requires table { table_offset bytes.now + 56 * header_count bytes.now ≤ length bytes.now }
    ensures { IfOk result (λ table. table.items ≡ headers bytes.now) }
{
    let mut at = read_u64(bytes, E_PHOFF) as usize;
    let count = read_u16(bytes, E_PHNUM);
    let mut table = Vec::with_capacity(alloc, count as usize)?;
    for _ in 0..count {
        table.push(read_header(bytes, at))?;
        at += HEADER_BYTES;
    }
    Ok(table)
}

// The loads among the headers, in their order.
#[tactic(auto, unfolding(crate::specs::File::loads_of))]
pub fn select_loads(alloc: Global, table: &[Header]) -> Result<Vec<Header>, NoMemory>
    ensures { IfOk result (λ loads. loads.items ≡ loads_of table.now) }
{
    let loads = table
        .iter()
        .copied()
        .filter(|header| header.kind == PT_LOAD && header.memsz > 0)
        .collect(alloc)?;
    Ok(loads)
}

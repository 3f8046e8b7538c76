//! The whole file.

ghost use Rattle.std.specs.Prelude.{◌≡◌, ◌⊎◌, ◌+◌, ◌≤◌, false, length, map, Some, None, IfOk, IfErr};
ghost use Rattle.elf_image.specs.declared.fault.ImageFault.TheVariants.{NoMemory as NoMemoryFault};
ghost use Rattle.elf_image.specs.Image.{first_fault, program_of, perms_of_flags, segment_of, some_outside, highest_end, page_from};

use crate::checks::{file_fault, load_fault};
use crate::header::{E_ENTRY, read_headers, read_u64, select_loads};
use crate::{Header, Image, ImageFault, Segment};
use bitflags::Flags;
use lego_base::{Bytes, NoMemory, PAGE_BYTES, Perms};
use std::alloc::Global;

/// The program that an ELF64 file holds, or the first fault of the file. Running out of memory may replace
/// either.
pub fn read_image(alloc: Global, bytes: &[u8]) -> Result<Image, ImageFault>
    ensures fault { IfErr result (λ fault. (fault ≡ NoMemoryFault) ⊎ (first_fault bytes.now ≡ Some fault)) }
    ensures image { IfOk result (λ image. (first_fault bytes.now ≡ None) × (image ≡ program_of bytes.now)) }
{
    if let Some(fault) = file_fault(bytes) {
        return Err(fault);
    }
    let entry = read_u64(bytes, E_ENTRY);
    let table = read_headers(alloc, bytes)?;
    let loads = select_loads(alloc, table.as_slice())?;
    if let Some(fault) = load_fault(
        bytes.len() as u64,
        entry,
        table.as_slice(),
        loads.as_slice(),
    ) {
        return Err(fault);
    }
    let segments = read_segments(alloc, bytes, loads.as_slice())?;
    let brk = break_of(loads.as_slice());
    Ok(Image::new(entry, segments, brk))
}

// The permissions that a load's flags give.
fn perms_of_flags(flags: u32) -> Perms
    ensures { result ≡ perms_of_flags flags }
{
    let read = flags >> 2 & 1;
    let write = flags >> 1 & 1;
    let execute = flags & 1;
    Perms::from_bits_retain((read + write * 2 + execute * 4) as u8)
}

// What a load whose bytes lie within the file puts into memory.
fn read_segment(alloc: Global, bytes: &[u8], load: &Header) -> Result<Segment, NoMemory>
    requires { load.now.offset + load.now.filesz ≤ length bytes.now }
    ensures { IfOk result (λ segment. segment ≡ segment_of bytes.now load.now) }
{
    let (_, rest) = bytes.split_at(load.offset as usize);
    let (first, _) = rest.split_at(load.filesz as usize);
    Ok(Segment {
        vaddr: load.vaddr,
        memsz: load.memsz,
        perms: perms_of_flags(load.flags),
        bytes: Bytes::from_slice(alloc, first)?,
    })
}

// What loads whose bytes lie within the file put into memory.
#[tactic(auto, using(crate::proofs::Lists::inside_at))]
fn read_segments(alloc: Global, bytes: &[u8], loads: &[Header]) -> Result<Vec<Segment>, NoMemory>
    requires { some_outside (length bytes.now) loads.now ≡ false }
    ensures { IfOk result (λ segments. segments.items ≡ map (segment_of bytes.now) loads.now) }
{
    let mut segments = Vec::with_capacity(alloc, loads.len())?;
    for load in loads {
        segments.push(read_segment(alloc, bytes, load)?)?;
    }
    Ok(segments)
}

// The lowest page address that isn't below the end of a load.
fn break_of(loads: &[Header]) -> u64
    requires { highest_end loads.now ≤ 0x2000000000 }
    ensures { result ≡ page_from (highest_end loads.now) }
{
    let mut highest = 0;
    for load in loads {
        highest = highest.max(load.vaddr + load.memsz);
    }
    (highest + PAGE_BYTES - 1) / PAGE_BYTES * PAGE_BYTES
}

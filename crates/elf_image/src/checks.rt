//! The conditions for which a file is refused, one function each.

ghost use Rattle.std.specs.Prelude.{◌≡◌, ◌+◌, ◌≤◌, nat_lt, length, sum_by};
ghost use Rattle.std.specs.List.{list_any};
ghost use Rattle.elf_image.specs.declared.header.Header.{Header};
ghost use Rattle.elf_image.specs.Image.{has_other_magic, has_other_class, has_other_kind, has_other_machine, has_other_abi, is_table_outside, has_many_headers, has_interpreter, is_outside, some_outside, is_overfull, has_other_size, is_misplaced, some_misplaced, share, some_share, has_no_load, executes, is_entry_outside, file_faults, load_faults, first_of};

use crate::header::{
    E_FLAGS, E_MACHINE, E_PHENTSIZE, E_PHNUM, E_PHOFF, E_TYPE, EM_RISCV, ET_EXEC, OTHER_ABIS, PF_X,
    PT_INTERP, read_u16, read_u32, read_u64,
};
use crate::{
    FILE_HEADER_BYTES, HEADER_BYTES, Header, ImageFault, LOADS_END, LOADS_START, MOST_BYTES,
    MOST_HEADERS,
};

// The first fault that the file's header shows.
pub fn file_fault(bytes: &[u8]) -> Option<ImageFault>
    ensures { result ≡ first_of (file_faults bytes.now) }
{
    if bytes.len() < FILE_HEADER_BYTES {
        return Some(ImageFault::Short);
    }
    if has_other_magic(bytes) {
        return Some(ImageFault::Magic);
    }
    if has_other_class(bytes) {
        return Some(ImageFault::Class);
    }
    if has_other_kind(bytes) {
        return Some(ImageFault::Kind);
    }
    if has_other_machine(bytes) {
        return Some(ImageFault::Machine);
    }
    if has_other_abi(bytes) {
        return Some(ImageFault::Abi);
    }
    if is_table_outside(bytes) {
        return Some(ImageFault::TableOutside);
    }
    if has_many_headers(bytes) {
        return Some(ImageFault::TooManyHeaders);
    }
    None
}

// The first fault that the program headers show.
#[tactic(auto, unfolding(crate::specs::Image::has_no_load))]
pub fn load_fault(size: u64, entry: u64, table: &[Header], loads: &[Header]) -> Option<ImageFault>
    ensures { result ≡ first_of (load_faults size entry table.now loads.now) }
{
    if has_interpreter(table) {
        return Some(ImageFault::Interp);
    }
    if some_outside(size, loads) {
        return Some(ImageFault::SegmentOutside);
    }
    if has_other_size(loads) {
        return Some(ImageFault::SegmentSize);
    }
    if some_misplaced(loads) {
        return Some(ImageFault::SegmentAddress);
    }
    if some_share(loads) {
        return Some(ImageFault::Overlap);
    }
    if loads.is_empty() {
        return Some(ImageFault::NoSegment);
    }
    if is_entry_outside(entry, loads) {
        return Some(ImageFault::EntryOutside);
    }
    None
}

#[tactic(auto, unfolding(crate::specs::Image::has_other_magic))]
fn has_other_magic(bytes: &[u8]) -> bool
    ensures { result ≡ has_other_magic bytes.now }
{
    !bytes.starts_with(b"\x7fELF")
}

#[tactic(auto, unfolding(crate::specs::Image::has_other_class))]
fn has_other_class(bytes: &[u8]) -> bool
    requires { 64 ≤ length bytes.now }
    ensures { result ≡ has_other_class bytes.now }
{
    bytes[4] != 2 || bytes[5] != 1
}

#[tactic(auto, unfolding(crate::specs::Image::has_other_kind))]
fn has_other_kind(bytes: &[u8]) -> bool
    requires { 64 ≤ length bytes.now }
    ensures { result ≡ has_other_kind bytes.now }
{
    read_u16(bytes, E_TYPE) != ET_EXEC
}

#[tactic(auto, unfolding(crate::specs::Image::has_other_machine))]
fn has_other_machine(bytes: &[u8]) -> bool
    requires { 64 ≤ length bytes.now }
    ensures { result ≡ has_other_machine bytes.now }
{
    read_u16(bytes, E_MACHINE) != EM_RISCV
}

#[tactic(auto, unfolding(crate::specs::Image::has_other_abi))]
fn has_other_abi(bytes: &[u8]) -> bool
    requires { 64 ≤ length bytes.now }
    ensures { result ≡ has_other_abi bytes.now }
{
    read_u32(bytes, E_FLAGS) & OTHER_ABIS != 0
}

#[tactic(auto, unfolding(crate::specs::Image::is_table_outside))]
fn is_table_outside(bytes: &[u8]) -> bool
    requires { 64 ≤ length bytes.now }
    ensures { result ≡ is_table_outside bytes.now }
{
    let offset = read_u64(bytes, E_PHOFF);
    let size = read_u16(bytes, E_PHENTSIZE);
    let count = read_u16(bytes, E_PHNUM);
    count > 0 && size as usize != HEADER_BYTES
        || ends_past(
            offset,
            count as u64 * HEADER_BYTES as u64,
            bytes.len() as u64,
        )
}

#[tactic(auto, unfolding(crate::specs::Image::has_many_headers))]
fn has_many_headers(bytes: &[u8]) -> bool
    requires { 64 ≤ length bytes.now }
    ensures { result ≡ has_many_headers bytes.now }
{
    read_u16(bytes, E_PHNUM) > MOST_HEADERS
}

// Whether `start + size > limit`, also where the sum overflows.
fn ends_past(start: u64, size: u64, limit: u64) -> bool
    ensures { result ≡ nat_lt limit (start + size) }
{
    start > limit || size > limit - start
}

#[tactic(auto, unfolding(crate::specs::Image::has_interpreter))]
fn has_interpreter(table: &[Header]) -> bool
    ensures { result ≡ has_interpreter table.now }
{
    table.iter().any(|header| header.kind == PT_INTERP)
}

fn is_outside(size: u64, load: &Header) -> bool
    ensures { result ≡ is_outside size load.now }
{
    ends_past(load.offset, load.filesz, size)
}

#[tactic(auto, unfolding(crate::specs::Image::some_outside))]
fn some_outside(size: u64, loads: &[Header]) -> bool
    ensures { result ≡ some_outside size loads.now }
{
    loads.iter().any(|load| is_outside(size, load))
}

fn some_overfull(loads: &[Header]) -> bool
    ensures { result ≡ list_any is_overfull loads.now }
{
    loads.iter().any(|load| load.memsz < load.filesz)
}

#[tactic(auto, unfolding(crate::specs::Image::has_other_size))]
fn has_other_size(loads: &[Header]) -> bool
    ensures { result ≡ has_other_size loads.now }
{
    some_overfull(loads) || is_total_above(MOST_BYTES, loads)
}

// Whether the loads have more than `most` bytes in memory, also where their sum overflows.
fn is_total_above(most: u64, loads: &[Header]) -> bool
    ensures { result ≡ nat_lt most (sum_by (λ (load : Header). load.memsz) loads.now) }
{
    let mut left = most;
    for load in loads {
        if load.memsz > left {
            return true;
        }
        left -= load.memsz;
    }
    false
}

fn is_misplaced(load: &Header) -> bool
    ensures { result ≡ is_misplaced load.now }
{
    load.vaddr < LOADS_START || ends_past(load.vaddr, load.memsz, LOADS_END)
}

#[tactic(auto, unfolding(crate::specs::Image::some_misplaced))]
fn some_misplaced(loads: &[Header]) -> bool
    ensures { result ≡ some_misplaced loads.now }
{
    loads.iter().any(|load| is_misplaced(load))
}

// Whether two loads have an address in common: then both contain the later start.
fn share(load: &Header, other: &Header) -> bool
    ensures { result ≡ share load.now other.now }
{
    let start = load.vaddr.max(other.vaddr);
    ends_past(load.vaddr, load.memsz, start) && ends_past(other.vaddr, other.memsz, start)
}

fn shares_with(load: &Header, others: &[Header]) -> bool
    ensures { result ≡ list_any (share load.now) others.now }
{
    others.iter().any(|other| share(load, other))
}

fn some_share(loads: &[Header]) -> bool
    ensures { result ≡ some_share loads.now }
{
    for (i, load) in loads.iter().enumerate() {
        if shares_with(load, &loads[i + 1..]) {
            return true;
        }
    }
    false
}

fn executes(entry: u64, load: &Header) -> bool
    ensures { result ≡ executes entry load.now }
{
    load.flags & PF_X == PF_X && load.vaddr <= entry && ends_past(load.vaddr, load.memsz, entry)
}

fn some_executes(entry: u64, loads: &[Header]) -> bool
    ensures { result ≡ list_any (executes entry) loads.now }
{
    loads.iter().any(|load| executes(entry, load))
}

#[tactic(auto, unfolding(crate::specs::Image::is_entry_outside))]
fn is_entry_outside(entry: u64, loads: &[Header]) -> bool
    ensures { result ≡ is_entry_outside entry loads.now }
{
    entry % 4 != 0 || !some_executes(entry, loads)
}

//! The ELF file around a program, as elf(5) has it: two loads and no sections.

ghost use Rattle.std.specs.Prelude.{◌≡◌, ◌++◌, IfOk, OnOk};
ghost use Rattle.guest_gen.specs.Image.{data_of, fields_bytes, file_header, image_of, names, program_header};
ghost use Rattle.lego_base.specs.Space.{bytes_of};

use lego_base::NoMemory;
use std::alloc::Global;

const HEADERS: u64 = 176; // bytes of the file header and of two program headers

/// The file of a program whose instructions have these bytes, with this pattern, of 2048 bytes, among its data.
pub(crate) fn image(alloc: Global, code: &[u8], pattern: &[u8]) -> Result<Vec<u8>, NoMemory>
    ensures { IfOk result (λ v. v.items ≡ image_of code.now pattern.now) }
{
    let mut file = Vec::new(alloc);
    let size = HEADERS + code.len() as u64;
    put_file_header(&mut file)?;
    put_program_header(&mut file, 5, 0, 0x10000, size)?;
    put_program_header(&mut file, 6, size, 0x40000, 4096)?;
    file.extend_from_slice(code)?;
    put_data(&mut file, pattern)?;
    Ok(file)
}

// Adds the file header.
fn put_file_header(file: &mut Vec<u8>) -> Result<(), NoMemory>
    ensures { OnOk result (file.new.items ≡ file.old.items ++ file_header) }
{
    file.extend_from_slice(b"\x7fELF\x02\x01\x01\0\0\0\0\0\0\0\0\0")?;
    let fields = [
        (2, 2), // ET_EXEC
        (2, 243), // EM_RISCV
        (4, 1), // EV_CURRENT
        (8, 0x100B0), // the entry
        (8, 64), // where the program headers are
        (8, 0),
        (4, 0),
        (2, 64),
        (2, 56),
        (2, 2), // two program headers
        (2, 0),
        (2, 0),
        (2, 0),
    ];
    put_fields(file, &fields)
}

// Adds the header of a load.
fn put_program_header(
    file: &mut Vec<u8>,
    flags: u64,
    offset: u64,
    address: u64,
    size: u64,
) -> Result<(), NoMemory>
    ensures { OnOk result (file.new.items ≡ file.old.items ++ program_header flags offset address size) }
{
    let fields = [
        (4, 1), // PT_LOAD
        (4, flags),
        (8, offset),
        (8, address),
        (8, address),
        (8, size),
        (8, size),
        (8, 4096),
    ];
    put_fields(file, &fields)
}

// Adds fields, each a width in bytes and a number.
fn put_fields(file: &mut Vec<u8>, fields: &[(u32, u64)]) -> Result<(), NoMemory>
    ensures { OnOk result (file.new.items ≡ file.old.items ++ fields_bytes fields.now) }
{
    for field in fields {
        put_number(file, field.0, field.1)?;
    }
    Ok(())
}

// Adds the lowest bytes of a number, the lowest first.
fn put_number(file: &mut Vec<u8>, width: u32, number: u64) -> Result<(), NoMemory>
    ensures { OnOk result (file.new.items ≡ file.old.items ++ bytes_of width number) }
{
    let mut rest = number;
    let mut left = width;
    while left > 0 {
        file.push((rest % 256) as u8)?;
        rest /= 256;
        left -= 1;
    }
    Ok(())
}

// Adds the page of data.
fn put_data(file: &mut Vec<u8>, pattern: &[u8]) -> Result<(), NoMemory>
    ensures { OnOk result (file.new.items ≡ file.old.items ++ data_of pattern.now) }
{
    put_names(file)?;
    file.extend_from_slice(&[0; 226])?;
    file.extend_from_slice(pattern)?;
    file.extend_from_slice(b"gen\n")?;
    file.extend_from_slice(&[0; 1788])?;
    Ok(())
}

// Adds the names of the files, with a zero after each.
fn put_names(file: &mut Vec<u8>) -> Result<(), NoMemory>
    ensures { OnOk result (file.new.items ≡ file.old.items ++ names) }
{
    file.extend_from_slice(b"f0\0f1\0f2\0f3\0f4\0f5\0f6\0f7\0f8\0f9\0")?;
    Ok(())
}

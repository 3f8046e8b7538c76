//! The archive.

ghost use Rattle.std.specs.Prelude.{◌≡◌, ℕ, ◌+◌, ◌≤◌, ◌<◌, ◌^◌, ◌++◌, [], length, map, flat_map, All, IfOk, OnOk};
ghost use Rattle.lego_base.specs.Space.{bytes_of};
ghost use Rattle.report_text.specs.Archive.{by_name, file_record, archive_of, NamesDiffer};

use lego_base::{Bytes, FileOut, NoMemory};
use std::alloc::Global;

/// The bytes with which an archive begins.
const MARK: &[u8; 8] = b"LEGOARC1";

/// The archive of files whose names differ, by name, in whatever order they are given.
pub fn archive(alloc: Global, files: &[FileOut]) -> Result<Bytes, NoMemory>
    requires apart { NamesDiffer files.now }
    requires names { All (λ file. length file.name ≤ 65535) files.now }
    requires few { length files.now < 2 ^ 32 }
    ensures { IfOk result (λ bytes. bytes ≡ archive_of files.now) }
{
    let sorted = by_name(alloc, files)?;
    let mut bytes = Vec::new(alloc);
    push(&mut bytes, MARK.as_slice())?;
    push(&mut bytes, (files.len() as u32).to_le_bytes().as_slice())?;
    push_files(&mut bytes, sorted.as_slice())?;
    let archive = Bytes::from_vec(bytes)?;
    Ok(archive)
}

// The files by name.
fn by_name(alloc: Global, files: &[FileOut]) -> Result<Vec<&FileOut>, NoMemory>
    requires { NamesDiffer files.now }
    ensures { IfOk result (λ sorted. map (λ file. file.now) sorted.items ≡ by_name files.now) }
{
    let mut sorted = Vec::with_capacity(alloc, files.len())?;
    for file in files {
        sorted.push(file)?;
    }
    sorted.sort_unstable_by(|file, other| file.name.as_slice().cmp(other.name.as_slice()));
    Ok(sorted)
}

// The files one after the other.
fn push_files(bytes: &mut Vec<u8>, files: &[&FileOut]) -> Result<(), NoMemory>
    requires { All (λ file. length file.now.name ≤ 65535) files.now }
    ensures { OnOk result (bytes.new.items ≡ bytes.old.items ++ flat_map file_record (map (λ file. file.now) files.now)) }
{
    for file in files {
        push_file(bytes, file)?;
    }
    Ok(())
}

// The length of a file's name and the name, then the number of its bytes and the bytes.
fn push_file(bytes: &mut Vec<u8>, file: &FileOut) -> Result<(), NoMemory>
    requires { length file.now.name ≤ 65535 }
    ensures { OnOk result (bytes.new.items ≡ bytes.old.items ++ file_record file.now) }
{
    push(bytes, (file.name.len() as u16).to_le_bytes().as_slice())?;
    push(bytes, file.name.as_slice())?;
    push(bytes, (file.bytes.len() as u64).to_le_bytes().as_slice())?;
    push(bytes, file.bytes.as_slice())?;
    Ok(())
}

fn push(bytes: &mut Vec<u8>, more: &[u8]) -> Result<(), NoMemory>
    ensures { OnOk result (bytes.new.items ≡ bytes.old.items ++ more.now) }
{
    bytes.extend_from_slice(more)?;
    Ok(())
}

//! The bytes of one file: what is written, cut and read in blocks.

ghost use Rattle.std.specs.Prelude.{◌≡◌, ◌+◌, ◌^◌, ◌<◌, ◌≤◌, length, IfOk, OnOk, OnErr};
ghost use Rattle.lego_base.specs.Pieces.{laid_over, of_size, written_at};
ghost use Rattle.lego_msg.specs.Files.{block_of};
ghost use Rattle.file_table.specs.Numbers.{blocks_for};

use lego_base::{Bytes, NoMemory};
use std::alloc::Global;

// Bytes of a block.
const BLOCK: usize = 4096;

/// How many blocks a file of `size` bytes needs.
pub fn blocks_for(size: usize) -> u64
    ensures { result ≡ blocks_for size }
{
    size.div_ceil(BLOCK) as u64
}

/// The bytes of a block, with zeros past the file's end.
pub fn block_of(alloc: Global, bytes: &[u8], block: u64) -> Result<Bytes, NoMemory>
    ensures { IfOk result (λ b. b ≡ block_of bytes.now block) }
{
    let start = (block.saturating_mul(BLOCK as u64) as usize).min(bytes.len());
    let end = bytes.len().min(start + BLOCK);
    let mut copy = Vec::with_capacity(alloc, BLOCK)?;
    copy.extend_from_slice(&bytes[start..end])?;
    copy.resize(BLOCK, 0)?;
    Bytes::from_vec(copy)
}

/// Sets the size, with zeros where the file grows. Where memory runs out, nothing changes.
pub fn set_size(bytes: &mut Vec<u8>, size: usize) -> Result<(), NoMemory>
    ensures ok { OnOk result (bytes.new.items ≡ of_size size bytes.old.items) }
    ensures err { OnErr result (bytes.new.items ≡ bytes.old.items) }
{
    bytes.resize(size, 0)?;
    Ok(())
}

/// Writes a piece at an offset, with zeros before it where it begins past the end. Where memory runs out, nothing
/// changes.
pub fn write_at(bytes: &mut Vec<u8>, off: usize, piece: &[u8]) -> Result<(), NoMemory>
    requires { off + length piece.now < 2 ^ 63 }
    ensures ok { OnOk result (bytes.new.items ≡ written_at bytes.old.items off piece.now) }
    ensures err { OnErr result (bytes.new.items ≡ bytes.old.items) }
{
    if piece.is_empty() {
        return Ok(());
    }
    let size = bytes.len().max(off + piece.len());
    bytes.resize(size, 0)?;
    put(bytes, off, piece);
    Ok(())
}

// Puts a piece that ends within the bytes in place of others.
fn put(bytes: &mut [u8], off: usize, piece: &[u8])
    requires { off + length piece.now ≤ length bytes.old }
    ensures { bytes.new ≡ laid_over bytes.old off piece.now }
{
    bytes[off..off + piece.len()].copy_from_slice(piece);
}

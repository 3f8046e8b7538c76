//! A line as a cache keeps it, and numbers in its bytes.

ghost use Rattle.std.specs.Prelude.{◌≡◌, ◌+◌, ◌≤◌, length};
ghost use Rattle.lego_base.specs.Pieces.{laid_over, piece};
ghost use Rattle.lego_base.specs.Space.{bytes_of, number_of};
ghost use Rattle.rv64_step.specs.Access.{bytes_in};

use bitflags::Flags;
use lego_base::{MemId, Perms};
use rv64_step::Width;

/// What a cache keeps of a line.
#[derive(Clone, Copy, Debug)]
pub struct Line {
    pub bytes: [u8; 64],
    pub owner: MemId, // the memory that owns its region
    pub perms: Perms, // those of its page
}

impl Line {
    ghost use Rattle.line_cache.specs.Cached.{no_line};

    /// What is kept in a slot in which no line has been.
    pub(crate) fn none() -> Line
        ensures { result ≡ no_line }
    {
        Line {
            bytes: [0; 64],
            owner: MemId(0),
            perms: Perms::from_bits_retain(0),
        }
    }
}

/// Lays bytes over others, starting at a place.
#[inline(always)]
pub(crate) fn lay(bytes: &mut [u8], at: usize, piece: &[u8])
    requires { at + length piece.now ≤ length bytes.old }
    ensures { bytes.new ≡ laid_over bytes.old at piece.now }
{
    bytes[at..at + piece.len()].copy_from_slice(piece);
}

/// The number in the bytes at a place, the lowest byte first. Each width is read as one array, so that the compiler reads it at once.
#[inline(always)]
pub(crate) fn number(bytes: &[u8], at: usize, width: Width) -> u64
    requires { at + bytes_in width ≤ length bytes.now }
    ensures { result ≡ number_of (piece bytes.now at (bytes_in width)) }
{
    match width {
        Width::Byte => bytes[at] as u64,
        Width::Half => {
            let mut two = [0; 2];
            two.copy_from_slice(&bytes[at..at + 2]);
            u16::from_le_bytes(two) as u64
        }
        Width::Word => word(bytes, at) as u64,
        Width::Double => {
            let mut eight = [0; 8];
            eight.copy_from_slice(&bytes[at..at + 8]);
            u64::from_le_bytes(eight)
        }
    }
}

/// The number in the four bytes at a place.
#[inline(always)]
pub(crate) fn word(bytes: &[u8], at: usize) -> u32
    requires { at + 4 ≤ length bytes.now }
    ensures { result ≡ number_of (piece bytes.now at 4) }
{
    let mut four = [0; 4];
    four.copy_from_slice(&bytes[at..at + 4]);
    u32::from_le_bytes(four)
}

/// Writes the lowest bytes of a value at a place, the lowest byte first.
#[inline(always)]
pub(crate) fn put(bytes: &mut [u8], at: usize, width: Width, value: u64)
    requires { at + bytes_in width ≤ length bytes.old }
    ensures { bytes.new ≡ laid_over bytes.old at (bytes_of (bytes_in width) value) }
{
    let number = value.to_le_bytes();
    match width {
        Width::Byte => lay(bytes, at, &number[..1]),
        Width::Half => lay(bytes, at, &number[..2]),
        Width::Word => lay(bytes, at, &number[..4]),
        Width::Double => lay(bytes, at, &number),
    }
}

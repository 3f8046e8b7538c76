//! Numbers in bytes, the lowest byte first.
ghost use Rattle.std.specs.Prelude.{◌≡◌, ◌+◌, ◌^◌, ◌<◌, ◌≤◌, length};
ghost use Rattle.lego_base.specs.Space.{number_of, bytes_of};
ghost use Rattle.rv64_step.specs.Access.{bytes_in};
ghost use Rattle.flat_memory.specs.Pieces.{window, Written};

use rv64_step::Width;

// The number in the bytes at a place.
#[inline(always)]
pub fn number(bytes: &[u8], at: usize, width: Width) -> u64
    requires { at + bytes_in width ≤ length bytes.now }
    ensures number { result ≡ number_of (window bytes.now at (bytes_in width)) }
    ensures fits { result < 256 ^ bytes_in width }
{
    match width {
        Width::Byte => bytes[at] as u64,
        Width::Half => {
            let mut two = [0; 2];
            two.copy_from_slice(&bytes[at..at + 2]);
            u16::from_le_bytes(two) as u64
        }
        Width::Word => word(bytes, at) as u64,
        Width::Double => {
            let mut eight = [0; 8];
            eight.copy_from_slice(&bytes[at..at + 8]);
            u64::from_le_bytes(eight)
        }
    }
}

// The number in the four bytes at a place. They are read as one array, so that the compiler reads them at once.
#[inline(always)]
pub fn word(bytes: &[u8], at: usize) -> u32
    requires { at + 4 ≤ length bytes.now }
    ensures { result ≡ number_of (window bytes.now at 4) }
{
    let mut four = [0; 4];
    four.copy_from_slice(&bytes[at..at + 4]);
    u32::from_le_bytes(four)
}

// Writes the lowest bytes of a value at a place.
#[inline(always)]
pub fn put(bytes: &mut [u8], at: usize, width: Width, value: u64)
    requires { at + bytes_in width ≤ length bytes.old }
    ensures { Written bytes.old at (bytes_of (bytes_in width) value) bytes.new }
{
    let number = value.to_le_bytes();
    match width {
        Width::Byte => bytes[at] = number[0],
        Width::Half => bytes[at..at + 2].copy_from_slice(&number[..2]),
        Width::Word => bytes[at..at + 4].copy_from_slice(&number[..4]),
        Width::Double => bytes[at..at + 8].copy_from_slice(&number),
    }
}

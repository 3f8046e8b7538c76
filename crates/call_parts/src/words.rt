//! Numbers in bytes.

ghost use Rattle.std.specs.Prelude.{◌≡◌, length};
ghost use Rattle.lego_base.specs.Space.{number_of};

/// The number that 8 bytes are, the lowest byte first.
pub fn word_of(bytes: &[u8]) -> u64
    requires { length bytes.now ≡ 8 }
    ensures { result ≡ number_of bytes.now }
{
    let mut eight = [0; 8];
    eight.copy_from_slice(bytes);
    u64::from_le_bytes(eight)
}

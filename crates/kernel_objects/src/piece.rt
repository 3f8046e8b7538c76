//! Buffers in a space.

/// Bytes of a space, starting at an address.
#[derive(Clone, Copy, Debug, PartialEq, Eq)]
pub struct Piece {
    pub at: u64,
    /// Bytes.
    pub size: u64,
}

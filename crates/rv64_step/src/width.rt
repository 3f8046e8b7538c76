//! How many bytes a load or a store moves.
ghost use Rattle.std.specs.Prelude.{◌≡◌};

/// The number of bytes that a load or a store moves.
#[derive(Clone, Copy, Debug, PartialEq, Eq)]
pub enum Width {
    /// One byte.
    Byte,
    /// Two bytes.
    Half,
    /// Four bytes.
    Word,
    /// Eight bytes.
    Double,
}

impl Width {
    ghost use Rattle.rv64_step.specs.Access.{bytes_in};

    /// The number of bytes.
    #[inline(always)]
    pub fn bytes(self) -> u64
        ensures { result ≡ bytes_in self }
    {
        match self {
            Width::Byte => 1,
            Width::Half => 2,
            Width::Word => 4,
            Width::Double => 8,
        }
    }
}

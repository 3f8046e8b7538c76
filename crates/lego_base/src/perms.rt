//! Permissions of a page.

ghost use Rattle.std.specs.Prelude.{⊤, [], ◌∷◌, codes};

use bitflags::{Flag, Flags, bitflag_items};

/// What may be done with a page: a set of READ (1), WRITE (2) and EXEC (4), as `PROT_READ`,
/// `PROT_WRITE` and `PROT_EXEC` of `mmap(2)`. Each is by itself: WRITE alone permits no load.
#[derive(Clone, Copy, Debug, PartialEq, Eq)]
pub struct Perms(u8);

bitflag_items! {
    impl Perms: u8 {
        const READ = 1;
        const WRITE = 2;
        const EXEC = 4;
    }
}

impl Flags for Perms {
    type Bits = u8;

    ghost exact = { ⊤ };

    ghost table = { (codes "READ", 1) ∷ (codes "WRITE", 2) ∷ (codes "EXEC", 4) ∷ [] };

    ghost set_of = { λ p. p.0 };

    fn flags<'a>() -> &'a [Flag<Perms>] {
        Perms::FLAGS
    }

    fn bits(&self) -> u8 {
        self.0
    }

    fn from_bits_retain(bits: u8) -> Perms {
        Perms(bits)
    }
}

//! What an accepted file holds.

ghost use Rattle.std.specs.Prelude.{◌≡◌};
ghost use Rattle.elf_image.specs.Image.{IsBounded};

use lego_base::{Bytes, Perms};
use std::marker::Model;

/// A range of addresses that a program begins with.
#[derive(Debug, Drop)]
pub struct Segment {
    pub vaddr: u64, // the address of the first byte
    pub memsz: u64, // its bytes in memory
    pub perms: Perms, // what may be done with each page that it meets
    pub bytes: Bytes, // its first bytes; all others are 0
}

/// A program that can be loaded. Contracts see it as its `Program`, which is within the bounds of
/// `IsBounded`.
#[derive(Debug, Drop)]
pub struct Image {
    entry: u64,
    segments: Vec<Segment>,
    brk: u64,
}

impl Model for Image {
    ghost use Rattle.elf_image.specs.Image.{Program, IsBounded};

    ghost Value = { Program };

    ghost view = { λ i. record { entry = i.entry; segments = i.segments.items; brk = i.brk } };

    ghost invariant = { λ i. IsBounded (record { entry = i.entry; segments = i.segments.items; brk = i.brk }) };
}

impl Image {
    // The program of these parts.
    pub(crate) fn new(entry: u64, segments: Vec<Segment>, brk: u64) -> Image
        requires { IsBounded (record { entry = entry; segments = segments.items; brk = brk }) }
        ensures { result ≡ record { entry = entry; segments = segments.items; brk = brk } }
    {
        Image {
            entry,
            segments,
            brk,
        }
    }

    /// The address of the first instruction.
    pub fn entry(&self) -> u64
        ensures value { result ≡ self.now.entry }
        ensures bounded { IsBounded self.now }
    {
        self.entry
    }

    /// What is loaded, in the order of the file's headers.
    pub fn segments(&self) -> &[Segment]
        ensures value { result.now ≡ self.now.segments }
        ensures bounded { IsBounded self.now }
    {
        self.segments.as_slice()
    }

    /// Where the break starts: the lowest page address that isn't below the end of any segment.
    pub fn brk(&self) -> u64
        ensures value { result ≡ self.now.brk }
        ensures bounded { IsBounded self.now }
    {
        self.brk
    }
}

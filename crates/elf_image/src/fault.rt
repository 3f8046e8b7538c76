//! Why a file is refused.

ghost use Rattle.std.specs.Prelude.{◌≡◌};
ghost use Rattle.elf_image.specs.Image.{name_of};

use lego_base::NoMemory;

/// Why a file is refused, in the order in which the conditions are tried.
#[derive(Clone, Copy, Debug, PartialEq, Eq)]
pub enum ImageFault {
    /// Fewer bytes than a file header.
    Short,
    /// It doesn't begin with 7F 45 4C 46.
    Magic,
    /// Not of 64 bits with the lowest byte first.
    Class,
    /// Not an executable file with fixed addresses.
    Kind,
    /// Not for RISC-V.
    Machine,
    /// For compressed instructions, a float ABI, or RVE.
    Abi,
    /// The table of program headers ends past the end of the file, or its entries aren't of 56 bytes.
    TableOutside,
    /// More than 64 program headers.
    TooManyHeaders,
    /// A program that needs an interpreter.
    Interp,
    /// A load's bytes end past the end of the file.
    SegmentOutside,
    /// A load is smaller in memory than in the file, or all loads are larger than 32 MiB together.
    SegmentSize,
    /// A load begins below 4096 or ends above 0x2000000000.
    SegmentAddress,
    /// Two loads share an address.
    Overlap,
    /// No load.
    NoSegment,
    /// The entry isn't a multiple of 4 in a load that may be executed.
    EntryOutside,
    /// Memory of the host ran out.
    NoMemory,
}

impl ImageFault {
    /// The fault's name.
    pub fn name(&self) -> &'static str
        ensures { result.now ≡ name_of self.now }
    {
        match self {
            ImageFault::Short => "Short",
            ImageFault::Magic => "Magic",
            ImageFault::Class => "Class",
            ImageFault::Kind => "Kind",
            ImageFault::Machine => "Machine",
            ImageFault::Abi => "Abi",
            ImageFault::TableOutside => "TableOutside",
            ImageFault::TooManyHeaders => "TooManyHeaders",
            ImageFault::Interp => "Interp",
            ImageFault::SegmentOutside => "SegmentOutside",
            ImageFault::SegmentSize => "SegmentSize",
            ImageFault::SegmentAddress => "SegmentAddress",
            ImageFault::Overlap => "Overlap",
            ImageFault::NoSegment => "NoSegment",
            ImageFault::EntryOutside => "EntryOutside",
            ImageFault::NoMemory => "NoMemory",
        }
    }
}

impl From<NoMemory> for ImageFault {
    ghost use Rattle.elf_image.specs.declared.fault.ImageFault.TheVariants.{NoMemory as NoMemoryFault};

    ghost from_gives = { λ _ fault. fault ≡ NoMemoryFault };

    fn from(_error: NoMemory) -> ImageFault {
        ImageFault::NoMemory
    }
}

//! Program images: ELF64 files of static RISC-V programs, as elf(5) and the ELF specification describe them.
//!
//! The model of a file is the list of its bytes; that of an [`Image`] is a `Program` of `specs/Image`: entry,
//! segments and break. The promise, stated at [`read_image`], is exact in both directions: a file that meets
//! one of fifteen conditions is refused with the first of them, every other one gives exactly its program.
//! `specs/Image` has the conditions, over the whole file and all its loads at once; `specs/File` has the numbers,
//! headers and loads that they speak of. What they mean is promised in `laws`.
#![tactic(auto)]

mod checks;
mod fault;
mod header;
mod image;
mod laws;
mod read;

pub use fault::ImageFault;
pub use header::Header;
pub use image::{Image, Segment};
pub use laws::{
    accepted_is_bounded, apart_is_each_pair, no_file_is_no_memory, page_is_lowest,
    share_is_common_address, short_is_refused,
};
pub use read::read_image;

/// Bytes of an ELF64 file header.
pub const FILE_HEADER_BYTES: usize = 64;

/// Bytes of an ELF64 program header.
pub const HEADER_BYTES: usize = 56;

/// The most program headers of a file.
pub const MOST_HEADERS: u16 = 64;

/// The most bytes in memory of all loads of a file together.
pub const MOST_BYTES: u64 = 33_554_432;

/// The lowest address of a load.
pub const LOADS_START: u64 = 4096;

/// The highest address at which a load can end. The addresses above are for mappings and the stack.
pub const LOADS_END: u64 = 0x20_0000_0000;

//! The rules by which a process gets its address space: which pages it begins with, what its stack holds at the
//! entry, and where a mapping goes whose caller names no address.
//!
//! The pages are `image_areas_of` of `specs/Mapped`, the stack is `sp_of` and `stack_bytes` of `specs/Start`
//! (the System V ABI's process initialization), the place is `place_of` of `specs/Place`. [`image_areas`],
//! [`stack_image`] and [`place`] give exactly these. That the definitions say what their names say, page by
//! page and address by address, is promised in `laws`. `specs/Pages` says which bytes the loads have in which pages; it is for
//! those who load an image a page at a time.
#![tactic(auto)]

mod image;
mod laws;
mod placing;
mod stack;

pub use image::image_areas;
pub use laws::{
    boot_maps_the_loads, image_has_few_runs, image_maps_loads_and_stack, place_is_lowest,
    stack_is_within, stack_tells_all,
};
pub use placing::place;
pub use stack::{StackFault, StackImage, stack_image};

/// The lowest address of the stack, which doesn't grow.
pub const STACK_START: u64 = 0x3F_FFEF_0000;

/// The address after the stack.
pub const STACK_END: u64 = 0x3F_FFFF_0000;

/// The lowest address of a mapping whose caller names none. The loads of an image end here or below.
pub const MAPPINGS_START: u64 = 0x20_0000_0000;

/// The most arguments and strings of the environment together with which a process can start.
pub const MOST_STRINGS: usize = 512;

/// The most bytes of these strings together, a closing 0 counted for each.
pub const MOST_STRING_BYTES: usize = 65_536;

/// The kind of the auxiliary vector's end, as in getauxval(3) and `elf.h`.
pub const AT_NULL: u64 = 0;

/// The kind of the size of a page in the auxiliary vector.
pub const AT_PAGESZ: u64 = 6;

/// The kind of the entry's address in the auxiliary vector.
pub const AT_ENTRY: u64 = 9;

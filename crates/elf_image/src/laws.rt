//! What the conditions mean.

ghost use Rattle.elf_image.specs.Laws.{ShortIsRefused, NoFileIsNoMemory, AcceptedIsBounded, ShareIsCommonAddress, ApartIsEachPair, PageIsLowest};

/// A file of fewer bytes than a file header is `Short`.
pub fn short_is_refused()
    ensures { ShortIsRefused }
{}

/// No file is refused for want of memory by what it holds.
pub fn no_file_is_no_memory()
    ensures { NoFileIsNoMemory }
{}

/// The program of a file without fault is within the bounds of an image.
pub fn accepted_is_bounded()
    ensures { AcceptedIsBounded }
{}

/// Two loads overlap exactly where both have some address.
pub fn share_is_common_address()
    ensures { ShareIsCommonAddress }
{}

/// No two loads overlap exactly where none overlaps a later one.
pub fn apart_is_each_pair()
    ensures { ApartIsEachPair }
{}

/// The break starts at a page address that isn't below the highest end, and at the lowest such.
pub fn page_is_lowest()
    ensures { PageIsLowest }
{}

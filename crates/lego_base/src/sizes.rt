//! Sizes and limits, each named once.

/// Bytes of a cache line. The line of an address is the address divided by this.
pub const LINE_BYTES: u64 = 64;

/// Bytes of a page. The page of an address is the address divided by this.
pub const PAGE_BYTES: u64 = 4096;

/// Bytes of a region, the unit that one memory component owns. The region of an address is the
/// address divided by this.
pub const REGION_BYTES: u64 = 2_097_152;

/// The end of the addresses that a program can use.
pub const USER_END: u64 = 1 << 38;

/// The end of the pages that a program can use.
pub const PAGES_END: u64 = USER_END / PAGE_BYTES;

/// The most bytes of a file, of standard input, and of one `read` or `write`. A limit of our own: it
/// bounds the host's memory that one of them takes.
pub const LONGEST_FILE: usize = 16_777_216;

/// Bytes for which every [`Bytes`](crate::Bytes) has room at least: one line, so that the bytes of an
/// access can be set again and again in memory that was taken once.
pub const LEAST_ROOM: usize = 64;

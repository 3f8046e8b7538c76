//! What is kept for a process beside its registers and descriptors.

/// The break of a process, as in brk(2): the pages from `base` to `now`, rounded up, are its data segment's end.
#[derive(Clone, Copy, Debug, PartialEq, Eq)]
pub struct Brk {
    /// The lowest break, a page address.
    pub base: u64,
    /// The address of the first byte after it.
    pub now: u64,
}

/// What is kept of a call that waits. Which call it is, the registers say.
#[derive(Clone, Copy, Debug, PartialEq, Eq)]
pub struct Waiting {
    /// Bytes that a write of more than 4096 bytes to a pipe has moved.
    pub moved: u64,
    /// Bytes that a write is to move in all; 0 for other calls.
    pub len: u64,
}

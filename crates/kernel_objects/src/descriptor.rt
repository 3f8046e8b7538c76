//! Descriptors, open file descriptions, and what they are open on.

use lego_base::FileNo;

/// Standard output or standard error.
#[derive(Clone, Copy, Debug, PartialEq, Eq)]
pub enum Stream {
    Out,
    Err,
}

/// What an open file description is open on.
#[derive(Clone, Copy, Debug, PartialEq, Eq)]
pub enum Object {
    /// Standard input, to be read.
    Input,
    /// Standard output or standard error, to be written.
    Output(Stream),
    /// A regular file.
    Regular(FileNo),
    /// The end of a pipe that is read; the pipe's slot, below 1024.
    PipeRead(u16),
    /// The end of a pipe that is written.
    PipeWrite(u16),
}

/// An open file description, as in open(2): descriptors that dup(2) or fork(2) made of one another share it.
#[derive(Clone, Copy, Debug, PartialEq, Eq)]
pub struct Description {
    pub object: Object,
    /// Bytes from the start of the file; 0 for what isn't a regular file.
    pub offset: u64,
    /// The flags of open(2), access mode included.
    pub flags: u32,
}

/// An entry of a process's table of descriptors.
#[derive(Clone, Copy, Debug, PartialEq, Eq)]
pub struct FdEntry {
    /// The description's slot, below 1024.
    pub desc: u16,
    /// Whether execve(2) closes the descriptor.
    pub cloexec: bool,
}

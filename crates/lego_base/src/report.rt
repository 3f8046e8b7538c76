//! What a run leaves: how it ended, how its processes ended, and its files.

use crate::bytes::Bytes;
use crate::ids::Pid;

/// How a run ended.
#[derive(Clone, Copy, Debug, PartialEq, Eq)]
pub struct Ended {
    pub word: EndWord,
    pub turns: u64, // turns that were run, booting not counted
}

/// The kinds of end.
#[derive(Clone, Copy, Debug, PartialEq, Eq)]
pub enum EndWord {
    /// No process lives.
    Done,
    /// Processes live, and none of them is ready.
    Stuck,
    /// All turns of the description were run.
    Spent,
}

/// The end of a process.
#[derive(Clone, Copy, Debug, PartialEq, Eq)]
pub struct Exit {
    pub pid: Pid,
    pub status: u32, // as wait(2) gives it: 256 times the exit code, or the signal
}

/// What one processor's cache counted.
#[derive(Clone, Copy, Debug, PartialEq, Eq)]
pub struct Counts {
    pub hits: u64,
    pub misses: u64,
    pub evictions: u64,
    pub writebacks: u64,
}

/// A file as the archive has it.
#[derive(Clone, Debug, Drop)]
pub struct FileOut {
    pub name: Bytes,
    pub bytes: Bytes,
}

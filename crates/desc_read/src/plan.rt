//! What a description asks for.

use lego_base::{Bytes, Seq, Shape, Text};

/// What a description asks for: the machine, its order of turns, and what it runs.
#[derive(Debug, Drop)]
pub struct Plan {
    pub shape: Shape,
    pub turns: Seq<u32>, // which of the ready processes runs, turn by turn: 1 to 65536 numbers
    pub quantum: u32, // the most instructions of a turn: 1 to 100000
    pub max_turns: u64, // the most turns of the run: 1 to 10000000
    pub init: Text, // the depot's name for the first program
    pub args: Seq<Bytes>, // its arguments: 1 to 512
    pub env: Seq<Bytes>, // its environment: at most 512 with the arguments
    pub files: Seq<FileFrom>, // files that exist at the start: at most 1024
    pub report: Text, // the depot's name for the report
    pub archive: Text, // the depot's name for the archive
}

/// A file that exists at the start.
#[derive(Debug, Drop)]
pub struct FileFrom {
    pub path: Bytes, // its name in the root directory: 1 to 255 bytes, not that of another file
    pub from: Text, // the depot's name for its bytes
}

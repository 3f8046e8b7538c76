//! The clock of turns, deliveries and crashes.

/// How far turns, deliveries and the crash list are.
#[derive(Clone, Copy, Debug, PartialEq, Eq)]
pub struct Clock {
    pub begun: bool, // whether a turn was begun
    pub turn: u64, // the number of the last one
    pub since: u64, // deliveries since it began
    pub passed: u64, // entries of the crash list that are passed
}

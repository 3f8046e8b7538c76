//! The program `lego`: makes the real objects, calls `lego_main` and ends with its status.
#![tactic(auto)]

use host_io::{FileDepot, StdSink, StdSource};
use lego_top::lego_main;
use std::io::ErrorKind;
use std::process::ExitCode;
use std::{env, io};

/// The status if memory for the command line ran out.
const NO_MEMORY: u8 = 15;

/// The status if the system doesn't give the command line for another reason.
const NO_WORDS: u8 = 1;

fn main(rt: HostRuntime) -> ExitCode {
    let words = match words(&rt) {
        Ok(words) => words,
        Err(error) => return ExitCode::from(status_of(&error)),
    };
    let mut input = StdSource::new(rt.reader());
    let mut out = StdSink::new(rt.stdout());
    let mut err = StdSink::new(rt.stderr());
    let mut depot = FileDepot::new(&rt);
    let ending = lego_main(
        rt.alloc(),
        words.as_slice(),
        &mut input,
        &mut out,
        &mut err,
        &mut depot,
    );
    ExitCode::from(ending.status())
}

// The words of the command line, after the program's own name.
fn words(rt: &HostRuntime) -> io::Result<Vec<String>> {
    let mut words = Vec::new(rt.alloc());
    for word in env::args(rt)?.skip(1) {
        words.push(word)?;
    }
    Ok(words)
}

// The status if there is no command line.
fn status_of(error: &io::Error) -> u8 {
    match error.kind() {
        ErrorKind::OutOfMemory => NO_MEMORY,
        _ => NO_WORDS,
    }
}

//! The line of an ending on standard error.

ghost use Rattle.std.specs.Prelude.{◌≡◌, OnOk, OnErr, map};
ghost use Rattle.lego_base.specs.Counts.{HasCause};
ghost use Rattle.host_io.specs.Sinks.{TookAll, TookFront};
ghost use Rattle.lego_top.specs.Line.{line, line_of, place_line};

use crate::ending::Ending;
use host_io::{Failed, Sink, write_all};

/// Writes the line of an ending. Takes no memory.
pub fn say<E: Sink>(err: &mut E, ending: &Ending) -> Result<(), Failed>
    ensures cause { HasCause (E.state err.old).faults (E.state err.new).faults result }
    ensures all { OnOk result (TookAll (E.state err.old).held (E.state err.new).held (line_of ending.now)) }
    ensures front { OnErr result (TookFront (E.state err.old).held (E.state err.new).held (line_of ending.now)) }
{
    match ending {
        Ending::Done | Ending::Spent | Ending::Stuck | Ending::ErrFault => Ok(()),
        Ending::Usage => write_line(
            err,
            &[b"lego: usage: run DESC | plain DESC | trace DESC NAME | gen NUMBER PREFIX"],
        ),
        Ending::Missing { name } => write_line(err, &[b"lego: missing ", name.as_str().as_bytes()]),
        Ending::FileLong { name } => write_line(
            err,
            &[
                b"lego: file ",
                name.as_str().as_bytes(),
                b" is longer than 16777216 bytes",
            ],
        ),
        Ending::BadDesc { kind, place } => say_place(err, kind.word(), place.as_slice()),
        Ending::BadImage { kind } => write_line(err, &[b"lego: image: ", kind.name().as_bytes()]),
        Ending::InputFault => write_line(err, &[b"lego: input failed"]),
        Ending::InputLong => write_line(err, &[b"lego: input is longer than 16777216 bytes"]),
        Ending::DepotFault => write_line(err, &[b"lego: depot failed"]),
        Ending::OutFault => write_line(err, &[b"lego: output failed"]),
        Ending::NoMemory => write_line(err, &[b"lego: out of memory"]),
    }
}

// Writes the line of a description that is invalid at this place. The two texts have one lifetime, as the pieces of a
// line must.
fn say_place<'a, E: Sink>(err: &mut E, kind: &'a str, place: &'a [u8]) -> Result<(), Failed>
    ensures cause { HasCause (E.state err.old).faults (E.state err.new).faults result }
    ensures all { OnOk result (TookAll (E.state err.old).held (E.state err.new).held (place_line kind.now place.now)) }
    ensures front { OnErr result (TookFront (E.state err.old).held (E.state err.new).held (place_line kind.now place.now)) }
{
    write_line(
        err,
        &[b"lego: description: ", kind.as_bytes(), b" at ", place],
    )
}

// Writes the pieces, then a newline.
fn write_line<E: Sink>(err: &mut E, pieces: &[&[u8]]) -> Result<(), Failed>
    ensures cause { HasCause (E.state err.old).faults (E.state err.new).faults result }
    ensures all { OnOk result (TookAll (E.state err.old).held (E.state err.new).held (line (map (λ piece. piece.now) pieces.now))) }
    ensures front { OnErr result (TookFront (E.state err.old).held (E.state err.new).held (line (map (λ piece. piece.now) pieces.now))) }
{
    for piece in pieces {
        write_all(err, piece)?;
    }
    write_all(err, b"\n")
}

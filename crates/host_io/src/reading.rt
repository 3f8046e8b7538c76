//! Reading a source to its end.

ghost use Rattle.std.specs.Prelude.{◌≡◌, ◌≤◌, length, IfOk, IfErr};
ghost use Rattle.host_io.specs.Sources.{GaveSome, ReadWhole, ReadFront};
ghost use Rattle.host_io.specs.Inputs.{Stops, ReadPiece};

use crate::failed::Failed;
use crate::source::Source;
use lego_base::{Bytes, NoMemory};
use std::alloc::{AllocError, Global};

/// Why a source wasn't read to its end.
#[derive(Clone, Copy, Debug, PartialEq, Eq)]
pub enum InputStop {
    /// The source failed.
    Failed,
    /// It has more bytes than were asked for.
    Long,
    /// Memory ran out.
    NoMemory,
}

impl From<Failed> for InputStop {
    ghost use Rattle.host_io.specs.declared.reading.InputStop.TheVariants.{Failed as SourceFailed};

    ghost from_gives = { λ _ stop. stop ≡ SourceFailed };

    fn from(_error: Failed) -> InputStop {
        InputStop::Failed
    }
}

impl From<NoMemory> for InputStop {
    ghost use Rattle.host_io.specs.declared.reading.InputStop.TheVariants.{NoMemory as OutOfMemory};

    ghost from_gives = { λ _ stop. stop ≡ OutOfMemory };

    fn from(_error: NoMemory) -> InputStop {
        InputStop::NoMemory
    }
}

impl From<AllocError> for InputStop {
    ghost use Rattle.host_io.specs.declared.reading.InputStop.TheVariants.{NoMemory as OutOfMemory};

    ghost from_gives = { λ _ stop. stop ≡ OutOfMemory };

    fn from(_error: AllocError) -> InputStop {
        InputStop::NoMemory
    }
}

// Bytes that are read at once.
const PIECE: usize = 4096;

/// Takes all bytes that are left, if there are at most `most`. Reads at most one byte more than `most`, in
/// time linear in what it reads.
pub fn read_all<S: Source>(alloc: Global, source: &mut S, most: usize) -> Result<Bytes, InputStop>
    ensures later { (S.state source.old).faults ≤ (S.state source.new).faults }
    ensures whole { IfOk result (λ bytes. ReadWhole most (S.state source.old).left (S.state source.new).left bytes) }
    ensures stops { IfErr result (Stops most (S.state source.old) (S.state source.new)) }
    ensures taken { GaveSome (S.state source.old).left (S.state source.new).left }
{
    let taken = read_front(alloc, source, most)?;
    if taken.len() > most {
        return Err(InputStop::Long);
    }
    Ok(Bytes::from_vec(taken)?)
}

// Takes the bytes that are left, but at most `most + 1`.
pub(crate) fn read_front<S: Source>(
    alloc: Global,
    source: &mut S,
    most: usize,
) -> Result<Vec<u8>, InputStop>
    ensures later { (S.state source.old).faults ≤ (S.state source.new).faults }
    ensures front { IfOk result (λ taken. ReadFront most (S.state source.old).left (S.state source.new).left taken.items) }
    ensures stops { IfErr result (Stops most (S.state source.old) (S.state source.new)) }
    ensures taken { GaveSome (S.state source.old).left (S.state source.new).left }
{
    let mut piece = [0u8; PIECE];
    let mut taken = Vec::new(alloc);
    while taken.len() <= most {
        let room = (most - taken.len()).min(PIECE - 1) + 1;
        if take_piece(source, &mut piece[..room], &mut taken)? == 0 {
            return Ok(taken);
        }
    }
    Ok(taken)
}

// Reads once into the piece, appends what came to `taken`, and returns its length.
fn take_piece<S: Source>(
    source: &mut S,
    piece: &mut [u8],
    taken: &mut Vec<u8>,
) -> Result<usize, InputStop>
    ensures read { ReadPiece (S.state source.old) (S.state source.new) (length piece.old) taken.old.items taken.new.items result }
{
    let count = source.read(piece)?;
    let (front, _) = piece.split_at(count);
    taken.extend_from_slice(front)?;
    Ok(count)
}

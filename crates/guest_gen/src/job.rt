//! What a generated program does, job by job.

ghost use Rattle.std.specs.Prelude.{◌≡◌, IfOk};
ghost use Rattle.guest_gen.specs.Jobs.{after_job, after_jobs, drawn_job, drawn_jobs};

use crate::draws::Draws;
use lego_base::NoMemory;
use std::alloc::Global;

/// A job of a generated program.
#[derive(Clone, Copy, Debug, PartialEq, Eq)]
pub enum Job {
    /// Maps this many pages, and writes this byte to the first byte of each.
    Touch { pages: u8, value: u8 },
    /// Writes this many bytes of the pattern to the file of this number, which is made or emptied first.
    Save { file: u8, len: u16 },
    /// Forks a child that exits with this status, and waits for it.
    Fork { status: u8 },
    /// Forks a child that writes this many bytes of the pattern to a pipe, and writes what one read of up to 1024 bytes gives
    /// to standard output.
    Pipe { len: u16 },
}

/// The next job.
pub(crate) fn draw_job(draws: &mut Draws) -> Job
    ensures job { result ≡ drawn_job draws.old.state }
    ensures state { draws.new.state ≡ after_job draws.old.state }
{
    match draws.below(4) {
        0 => Job::Touch {
            pages: 1 + draws.below(8) as u8,
            value: draws.below(256) as u8,
        },
        1 => Job::Save {
            file: draws.below(10) as u8,
            len: 1 + draws.below(2048) as u16,
        },
        2 => Job::Fork {
            status: draws.below(256) as u8,
        },
        _ => Job::Pipe {
            len: 1 + draws.below(2048) as u16,
        },
    }
}

/// The next `n` jobs.
pub(crate) fn draw_jobs(draws: &mut Draws, alloc: Global, n: u32) -> Result<Vec<Job>, NoMemory>
    ensures jobs { IfOk result (λ v. v.items ≡ drawn_jobs n draws.old.state) }
    ensures state { IfOk result (λ v. draws.new.state ≡ after_jobs n draws.old.state) }
{
    let mut jobs = Vec::with_capacity(alloc, n as usize)?;
    let mut left = n;
    while left > 0 {
        jobs.push(draw_job(draws))?;
        left -= 1;
    }
    Ok(jobs)
}

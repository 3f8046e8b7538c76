//! The instructions and system calls of jobs.

ghost use Rattle.std.specs.Prelude.{◌≡◌, ◌<◌, ◌++◌, IfOk, OnOk};
ghost use Rattle.guest_gen.specs.Jobs.{program, steps_of, touches};
ghost use Rattle.guest_gen.specs.declared.job.Job.TheVariants.{Touch, Save, Fork, Pipe};

use crate::assembly::Register::{A0, A1, A2, A3, A4, A5, S0, S1, T0, T1};
use crate::assembly::Step::{
    self, Add, Call, Li, LoadWord, Minus, Move, SkipUnlessZero, StoreByte,
};
use crate::job::Job;
use lego_base::NoMemory;
use std::alloc::Global;

const NAMES_AT: u32 = 0x40000; // of three bytes each

const PIPE_AT: u32 = 0x40040; // two descriptors

const PATTERN_AT: u32 = 0x40100;

const GREETING_AT: u32 = 0x40900;

const BUFFER_AT: u32 = 0x40A00;

/// The steps of a program that does these jobs, greets, and exits with 0.
pub(crate) fn program(alloc: Global, jobs: &[Job]) -> Result<Vec<Step>, NoMemory>
    ensures { IfOk result (λ v. v.items ≡ program jobs.now) }
{
    let mut steps = Vec::new(alloc);
    for job in jobs {
        put_job(&mut steps, *job)?;
    }
    steps.extend_from_slice(&[
        Li(A0, 1),
        Li(A1, GREETING_AT),
        Li(A2, 4),
        Call(64), // write
        Li(A0, 0),
        Call(93), // exit
    ])?;
    Ok(steps)
}

// Adds the steps of a job.
fn put_job(steps: &mut Vec<Step>, job: Job) -> Result<(), NoMemory>
    ensures { OnOk result (steps.new.items ≡ steps.old.items ++ steps_of job) }
{
    match job {
        Job::Touch { pages, value } => put_touch(steps, pages as u32, value as u32),
        Job::Save { file, len } => put_save(steps, file as u32, len as u32),
        Job::Fork { status } => put_fork(steps, status as u32),
        Job::Pipe { len } => put_pipe(steps, len as u32),
    }
}

// Pages are mapped and touched.
fn put_touch(steps: &mut Vec<Step>, pages: u32, value: u32) -> Result<(), NoMemory>
    requires { pages < 256 }
    ensures { OnOk result (steps.new.items ≡ steps.old.items ++ steps_of (Touch pages value)) }
{
    steps.extend_from_slice(&[
        Li(A0, 0),
        Li(A1, 4096 * pages),
        Li(A2, 3), // PROT_READ | PROT_WRITE
        Li(A3, 34), // MAP_PRIVATE | MAP_ANONYMOUS
        Li(A4, 0),
        Li(A5, 0),
        Call(222), // mmap
    ])?;
    put_stores(steps, pages, value)
}

// A byte is stored to the first address of each page, starting at the one in a0.
fn put_stores(steps: &mut Vec<Step>, pages: u32, value: u32) -> Result<(), NoMemory>
    requires { pages < 256 }
    ensures { OnOk result (steps.new.items ≡ steps.old.items ++ touches 0 pages value) }
{
    let mut page = 0;
    let mut left = pages;
    while left > 0 {
        steps.extend_from_slice(&[
            Li(T0, 4096 * page),
            Add(T0, T0, A0),
            Li(T1, value),
            StoreByte(T1, T0),
        ])?;
        page += 1;
        left -= 1;
    }
    Ok(())
}

// A file is made or emptied, written, and closed.
fn put_save(steps: &mut Vec<Step>, file: u32, len: u32) -> Result<(), NoMemory>
    requires { file < 256 }
    ensures { OnOk result (steps.new.items ≡ steps.old.items ++ steps_of (Save file len)) }
{
    steps.extend_from_slice(&[
        Minus(A0, 100), // AT_FDCWD
        Li(A1, NAMES_AT + 3 * file),
        Li(A2, 577), // O_WRONLY | O_CREAT | O_TRUNC
        Li(A3, 0),
        Call(56), // openat
        Move(S0, A0),
        Li(A1, PATTERN_AT),
        Li(A2, len),
        Call(64), // write
        Move(A0, S0),
        Call(57), // close
    ])?;
    Ok(())
}

// A child exits with a status, and its parent waits for it.
fn put_fork(steps: &mut Vec<Step>, status: u32) -> Result<(), NoMemory>
    ensures { OnOk result (steps.new.items ≡ steps.old.items ++ steps_of (Fork status)) }
{
    steps.extend_from_slice(&[
        Li(A0, 17), // SIGCHLD
        Li(A1, 0),
        Call(220), // clone
        SkipUnlessZero(A0, 20), // past the child's steps
        Li(A0, status),
        Call(93), // exit
        Minus(A0, 1),
        Li(A1, 0),
        Li(A2, 0),
        Li(A3, 0),
        Call(260), // wait4
    ])?;
    Ok(())
}

// A child writes to a pipe, and its parent reads from it once.
fn put_pipe(steps: &mut Vec<Step>, len: u32) -> Result<(), NoMemory>
    ensures { OnOk result (steps.new.items ≡ steps.old.items ++ steps_of (Pipe len)) }
{
    steps.extend_from_slice(&[
        Li(A0, PIPE_AT),
        Li(A1, 0),
        Call(59), // pipe2
        Li(A0, 17), // SIGCHLD
        Li(A1, 0),
        Call(220), // clone
        SkipUnlessZero(A0, 56), // past the child's steps
        Li(S1, PIPE_AT),
        LoadWord(A0, S1, 4),
        Li(A1, PATTERN_AT),
        Li(A2, len),
        Call(64), // write
        Li(A0, 0),
        Call(93), // exit
        Li(S1, PIPE_AT),
        LoadWord(A0, S1, 0),
        Li(A1, BUFFER_AT),
        Li(A2, 1024),
        Call(63), // read
        Move(A2, A0),
        Li(A0, 1),
        Li(A1, BUFFER_AT),
        Call(64), // write
        Minus(A0, 1),
        Li(A1, 0),
        Li(A2, 0),
        Li(A3, 0),
        Call(260), // wait4
        LoadWord(A0, S1, 0),
        Call(57), // close
        LoadWord(A0, S1, 4),
        Call(57), // close
    ])?;
    Ok(())
}

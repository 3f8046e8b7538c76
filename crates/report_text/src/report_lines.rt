//! The report.

ghost use Rattle.std.specs.Prelude.{◌≡◌, ℕ, ◌+◌, ◌<◌, ◌^◌, ◌++◌, [], length, flat_map, decimal, string_bytes, IfOk, OnOk};
ghost use Rattle.report_text.specs.Report.{word_of, ending_line, turns_line, exit_line, cpu_line, cpu_lines, report_of};

use lego_base::{Bytes, Counts, EndWord, Ended, Exit, NoMemory};
use std::alloc::Global;
use std::fmt::Write;

/// The report of a run: its ending, the number of its turns, each exit in order, and a line for each
/// processor that has counts, numbered from 0.
pub fn report(
    alloc: Global,
    ending: &Ended,
    exits: &[Exit],
    counts: &[Counts],
) -> Result<Bytes, NoMemory>
    ensures { IfOk result (λ bytes. bytes ≡ report_of ending.now exits.now counts.now) }
{
    let mut text = String::new(alloc);
    push_ending(&mut text, ending)?;
    push_exits(&mut text, exits)?;
    push_counts(&mut text, counts)?;
    let report = Bytes::from_slice(alloc, text.as_bytes())?;
    Ok(report)
}

// How the run ended, and after how many turns.
fn push_ending(text: &mut String, ending: &Ended) -> Result<(), NoMemory>
    ensures { OnOk result (string_bytes text.new ≡ string_bytes text.old ++ ending_line ending.now.word ++ turns_line ending.now.turns) }
{
    let word = word_of(ending.word);
    let turns = ending.turns;
    write!(text, "ending {word}\nturns {turns}\n")?;
    Ok(())
}

fn word_of(word: EndWord) -> &'static str
    ensures { result.now ≡ word_of word }
{
    match word {
        EndWord::Done => "done",
        EndWord::Stuck => "stuck",
        EndWord::Spent => "spent",
    }
}

// A line for each exit, in order.
fn push_exits(text: &mut String, exits: &[Exit]) -> Result<(), NoMemory>
    ensures { OnOk result (string_bytes text.new ≡ string_bytes text.old ++ flat_map exit_line exits.now) }
{
    for exit in exits {
        push_exit(text, exit)?;
    }
    Ok(())
}

fn push_exit(text: &mut String, exit: &Exit) -> Result<(), NoMemory>
    ensures { OnOk result (string_bytes text.new ≡ string_bytes text.old ++ exit_line exit.now) }
{
    let pid = exit.pid.0;
    let status = exit.status;
    write!(text, "exit {pid} {status}\n")?;
    Ok(())
}

// A line for each processor, numbered from 0.
fn push_counts(text: &mut String, counts: &[Counts]) -> Result<(), NoMemory>
    ensures { OnOk result (string_bytes text.new ≡ string_bytes text.old ++ cpu_lines 0 counts.now) }
{
    for (number, count) in counts.iter().enumerate() {
        push_count(text, number, count)?;
    }
    Ok(())
}

fn push_count(text: &mut String, number: usize, counts: &Counts) -> Result<(), NoMemory>
    ensures { OnOk result (string_bytes text.new ≡ string_bytes text.old ++ cpu_line number counts.now) }
{
    push_number(text, "cpu ", number as u64)?;
    push_number(text, " hits ", counts.hits)?;
    push_number(text, " misses ", counts.misses)?;
    push_number(text, " evictions ", counts.evictions)?;
    push_number(text, " writebacks ", counts.writebacks)?;
    text.push_str("\n")?;
    Ok(())
}

// A word and then a number.
fn push_number(text: &mut String, word: &str, number: u64) -> Result<(), NoMemory>
    ensures { OnOk result (string_bytes text.new ≡ string_bytes text.old ++ (word.now ++ decimal number)) }
{
    write!(text, "{word}{number}")?;
    Ok(())
}

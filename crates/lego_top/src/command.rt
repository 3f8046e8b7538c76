//! The call: the steps of a command, and the line of its ending.

ghost use Rattle.std.specs.Prelude.{◌≡◌, map, string_bytes};
ghost use Rattle.lego_top.specs.Causes.{Caused};
ghost use Rattle.lego_top.specs.CommandLine.{named};
ghost use Rattle.lego_top.specs.Endings.{ending_from};
ghost use Rattle.lego_top.specs.Outside.{outside};
ghost use Rattle.lego_top.specs.Theorem.{Answered};

use crate::command_line::named_description;
use crate::depot_file::{fetch, fetch_files};
use crate::description::described;
use crate::ending::Ending;
use crate::message::say;
use crate::program_run::run_program;
use host_io::{Depot, Sink, Source, read_all};
use lego_base::{EndWord, LONGEST_FILE};
use std::alloc::Global;

/// Runs the command in the words of a command line. `plain DESC` runs the program of the description that the depot has
/// under DESC on the plain kernel, with all of the input, and puts its report and its archive. Says on standard error
/// why it ended otherwise than the program wanted.
pub fn lego_main<S: Source, O: Sink, E: Sink, D: Depot>(
    alloc: Global,
    words: &[String],
    input: &mut S,
    out: &mut O,
    err: &mut E,
    depot: &mut D,
) -> Ending
    ensures answered { let before = outside (S.state input.old) (O.state out.old) (E.state err.old) (D.state depot.old) in
        let after = outside (S.state input.new) (O.state out.new) (E.state err.new) (D.state depot.new) in
        Answered (named (map string_bytes words.now)) before after result }
{
    let ending = command(alloc, words, input, out, err, depot);
    let _ = say(err, &ending);
    ending
}

// The command, but for the line of its ending.
fn command<S: Source, O: Sink, E: Sink, D: Depot>(
    alloc: Global,
    words: &[String],
    input: &mut S,
    out: &mut O,
    err: &mut E,
    depot: &mut D,
) -> Ending
    ensures caused { let before = outside (S.state input.old) (O.state out.old) (E.state err.old) (D.state depot.old) in
        let after = outside (S.state input.new) (O.state out.new) (E.state err.new) (D.state depot.new) in
        Caused (named (map string_bytes words.now)) before after result }
{
    match plain(alloc, words, input, out, err, depot) {
        Ok(word) => Ending::of(word),
        Err(ending) => ending,
    }
}

// The steps of `plain DESC`.
fn plain<S: Source, O: Sink, E: Sink, D: Depot>(
    alloc: Global,
    words: &[String],
    input: &mut S,
    out: &mut O,
    err: &mut E,
    depot: &mut D,
) -> Result<EndWord, Ending>
    ensures caused { let before = outside (S.state input.old) (O.state out.old) (E.state err.old) (D.state depot.old) in
        let after = outside (S.state input.new) (O.state out.new) (E.state err.new) (D.state depot.new) in
        Caused (named (map string_bytes words.now)) before after (ending_from result) }
{
    let Some(name) = named_description(words) else {
        return Err(Ending::Usage);
    };
    let plan = described(alloc, depot, name)?;
    let program = fetch(alloc, depot, plan.init.as_str())?;
    let files = fetch_files(alloc, depot, plan.files.as_slice())?;
    let bytes = read_all(alloc, input, LONGEST_FILE)?;
    let word = run_program(
        alloc,
        &plan,
        program.as_slice(),
        files.as_slice(),
        bytes,
        out,
        err,
        depot,
    )?;
    Ok(word)
}

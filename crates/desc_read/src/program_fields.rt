//! The fields of the program: what is run, on which files, and where its results go.

ghost use Rattle.std.specs.Prelude.{◌≡◌};
ghost use Rattle.serde_json.specs.View.{view};
ghost use Rattle.desc_read.specs.Faults.{Gives};
ghost use Rattle.desc_read.specs.Plans.{program_of, files_of, file_of, has_path};

use crate::fault::DescFault;
use crate::numbers::Span;
use crate::object_reader::ObjectReader;
use crate::place::{Entry, EntryList};
use crate::plan::FileFrom;
use crate::texts::{TextRule, fit};
use lego_base::{Bytes, Seq, Text};

// The most strings of the arguments and the environment together.
const STRINGS: usize = 512;

/// What is run, on which files, and where its results go.
#[derive(Drop)]
pub(crate) struct ProgramFields {
    pub(crate) init: Text,
    pub(crate) args: Seq<Bytes>,
    pub(crate) env: Seq<Bytes>,
    pub(crate) files: Seq<FileFrom>,
    pub(crate) report: Text,
    pub(crate) archive: Text,
}

// The fields from init to archive.
pub(crate) fn read_program(object: &ObjectReader<'_>) -> Result<ProgramFields, DescFault>
    ensures { Gives result (program_of object.now.entry (view object.now.value.now)) }
{
    let init = object.text("init", TextRule::DepotName)?;
    let args = object.texts("args", Span(1, 512), Some(init.as_str()))?;
    object.in_range("args", fit(args.as_slice(), &[]))?;
    let most = STRINGS.saturating_sub(args.len()) as u32;
    let env = object.texts("env", Span(0, most), None)?;
    object.in_range("env", fit(args.as_slice(), env.as_slice()))?;
    let files = read_files(object)?;
    let report = object.text("report", TextRule::DepotName)?;
    let archive = object.text("archive", TextRule::DepotName)?;
    object.in_range("archive", archive.as_str() != report.as_str())?;
    Ok(ProgramFields {
        init,
        args,
        env,
        files,
        report,
        archive,
    })
}

// The files, each with a path of its own.
fn read_files(object: &ObjectReader<'_>) -> Result<Seq<FileFrom>, DescFault>
    ensures { Gives result (files_of object.now.entry (view object.now.value.now)) }
{
    let values = object.entries(EntryList::Files, 1024)?;
    let mut files = Vec::with_capacity(object.alloc, values.len())?;
    for (index, value) in values.iter().enumerate() {
        let entry = ObjectReader {
            alloc: object.alloc,
            value,
            entry: Some(Entry {
                list: EntryList::Files,
                index,
            }),
        };
        let file = read_file(&entry, files.as_slice())?;
        files.push(file)?;
    }
    Ok(Seq::from_vec(files))
}

// One file, after these.
fn read_file(object: &ObjectReader<'_>, before: &[FileFrom]) -> Result<FileFrom, DescFault>
    ensures { Gives result (file_of object.now.entry (view object.now.value.now) before.now) }
{
    object.only(&["path", "from"])?;
    let path = object.bytes("path", TextRule::FileName)?;
    object.in_range("path", !is_taken(before, path.as_slice()))?;
    let from = object.text("from", TextRule::DepotName)?;
    Ok(FileFrom { path, from })
}

// Whether one of these files has the path.
fn is_taken(files: &[FileFrom], path: &[u8]) -> bool
    ensures { result ≡ has_path files.now path.now }
{
    for file in files {
        if file.path.as_slice() == path {
            return true;
        }
    }
    false
}

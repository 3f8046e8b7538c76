//! What a run leaves.

ghost use Rattle.std.specs.Prelude.{◌≡◌, IfOk};
ghost use Rattle.linux_model.specs.Fits.{NamesFit};
ghost use Rattle.linux_model.specs.Named.{files_named};
ghost use Rattle.plain_kernel.specs.Left.{Leaves};

use crate::kernel::PlainKernel;
use lego_base::{Ended, Exit, FileOut, NoMemory, Seq};
use plain_files::PlainFiles;
use std::alloc::Global;

/// What a run leaves that came to its end.
#[derive(Debug, Drop)]
pub struct PlainEnd {
    pub ended: Ended,
    pub exits: Seq<Exit>, // in the order of the deaths
    pub files: Seq<FileOut>, // those that have a name, in the order of the names
}

impl PlainKernel {
    /// Copies of the exits and of all files that have a name, once the run has ended so.
    pub fn end(&self, alloc: Global, ended: Ended) -> Result<PlainEnd, NoMemory>
        requires { NamesFit self.now.machine.files.files self.now.machine.files.names }
        ensures { IfOk result (Leaves self.now ended) }
    {
        let exits = Vec::from_clones(alloc, self.manager.exits())?;
        let files = named_files(alloc, self.machine.files())?;
        Ok(PlainEnd {
            ended,
            exits: Seq::from_vec(exits),
            files: Seq::from_vec(files),
        })
    }
}

// A copy of all files that have a name, in the order of the names.
fn named_files(alloc: Global, files: &PlainFiles) -> Result<Vec<FileOut>, NoMemory>
    requires { NamesFit files.now.files files.now.names }
    ensures { IfOk result (λ named. named.items ≡ files_named files.now.files files.now.names) }
{
    let names = files.names(alloc)?;
    let mut named = Vec::with_capacity(alloc, names.len())?;
    for entry in names {
        let bytes = files.read(alloc, entry.file, 0, files.size(entry.file))?;
        named.push(FileOut {
            name: entry.name,
            bytes,
        })?;
    }
    Ok(named)
}

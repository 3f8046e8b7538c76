//! Files of the depot that aren't too long.

ghost use Rattle.std.specs.Prelude.{◌≡◌, ◌≤◌, ◌++◌, ◌∷◌, [], OnOk};
ghost use Rattle.lego_top.specs.Stages.{Fetched, FetchedAll};

use desc_read::FileFrom;
use host_io::{Depot, Got};
use lego_base::{Bytes, FileOut, LONGEST_FILE, NoMemory, Seq, Text};
use std::alloc::Global;

/// Why a name gives no file.
#[derive(Debug, Drop)]
pub enum FetchFault {
    /// There is no file of this name.
    Missing { name: Text },
    /// The file of this name is longer than `LONGEST_FILE` bytes.
    Long { name: Text },
    /// The depot failed.
    Depot,
    /// Memory ran out.
    NoMemory,
}

impl From<NoMemory> for FetchFault {
    ghost use Rattle.lego_top.specs.declared.depot_file.FetchFault.TheVariants.{NoMemory as OutOfMemory};

    ghost from_gives = { λ _ fault. fault ≡ OutOfMemory };

    fn from(_error: NoMemory) -> FetchFault {
        FetchFault::NoMemory
    }
}

/// What the depot has under a name.
pub fn fetch<D: Depot>(alloc: Global, depot: &mut D, name: &str) -> Result<Bytes, FetchFault>
    ensures later { (D.state depot.old).faults ≤ (D.state depot.new).faults }
    ensures same { (D.state depot.new).files ≡ (D.state depot.old).files }
    ensures fetched { Fetched (D.state depot.old) (D.state depot.new) name.now result }
{
    let bytes = match depot.get(alloc, name) {
        Got::Found(bytes) => bytes,
        Got::Missing => {
            let name = Text::from_str(alloc, name)?;
            return Err(FetchFault::Missing { name });
        }
        Got::Failed => return Err(FetchFault::Depot),
        Got::NoMemory => return Err(FetchFault::NoMemory),
    };
    if bytes.len() > LONGEST_FILE {
        let name = Text::from_str(alloc, name)?;
        return Err(FetchFault::Long { name });
    }
    Ok(bytes)
}

/// The files of a plan, in their order, each with the bytes that the depot has under the name that it comes from.
pub fn fetch_files<D: Depot>(
    alloc: Global,
    depot: &mut D,
    sources: &[FileFrom],
) -> Result<Seq<FileOut>, FetchFault>
    ensures later { (D.state depot.old).faults ≤ (D.state depot.new).faults }
    ensures same { (D.state depot.new).files ≡ (D.state depot.old).files }
    ensures fetched { FetchedAll (D.state depot.old) (D.state depot.new) sources.now result }
{
    let mut files = Seq::new(alloc);
    for source in sources {
        let bytes = fetch(alloc, depot, source.from.as_str())?;
        add(&mut files, &source.path, bytes)?;
    }
    Ok(files)
}

// Adds a file of this name.
fn add(files: &mut Seq<FileOut>, name: &Bytes, bytes: Bytes) -> Result<(), NoMemory>
    ensures { OnOk result (files.new ≡ files.old ++ record { name = name.now; bytes = bytes } ∷ []) }
{
    let name = name.clone()?;
    files.push(FileOut { name, bytes })?;
    Ok(())
}

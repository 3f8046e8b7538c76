//! How a call of `lego_main` ends.

ghost use Rattle.std.specs.Prelude.{◌≡◌};
ghost use Rattle.lego_top.specs.Endings.{of_fetch, of_description, of_input, of_run};

use crate::depot_file::FetchFault;
use crate::program_run::RunFault;
use desc_read::{DescFault, DescKind};
use elf_image::ImageFault;
use host_io::InputStop;
use lego_base::{Bytes, EndWord, Text};

/// How a call of `lego_main` ended.
#[derive(Debug, Drop)]
pub enum Ending {
    /// The program ran, and no process lives any more.
    Done,
    /// All turns were run, and a process still lives.
    Spent,
    /// Processes live, and none of them is ready.
    Stuck,
    /// The command line names no description.
    Usage,
    /// There is no file of this name.
    Missing { name: Text },
    /// The file of this name is longer than `LONGEST_FILE` bytes.
    FileLong { name: Text },
    /// The description has this fault at this place.
    BadDesc { kind: DescKind, place: Bytes },
    /// The program's file isn't an image.
    BadImage { kind: ImageFault },
    /// Standard input failed.
    InputFault,
    /// Standard input is longer than `LONGEST_FILE` bytes.
    InputLong,
    /// The depot failed.
    DepotFault,
    /// Standard output failed.
    OutFault,
    /// Standard error failed.
    ErrFault,
    /// Memory ran out.
    NoMemory,
}

impl Ending {
    ghost use Rattle.lego_top.specs.Endings.{status_of, ending_of};

    /// The exit status of the program: 0 for `Done`, and another for each kind of ending.
    pub fn status(&self) -> u8
        ensures { result ≡ status_of self.now }
    {
        match self {
            Ending::Done => 0,
            Ending::Usage => 2,
            Ending::Missing { name: _ } => 3,
            Ending::BadDesc { kind: _, place: _ } => 4,
            Ending::BadImage { kind: _ } => 5,
            Ending::Spent => 6,
            Ending::Stuck => 7,
            Ending::InputFault => 9,
            Ending::InputLong => 10,
            Ending::DepotFault => 11,
            Ending::OutFault => 12,
            Ending::ErrFault => 13,
            Ending::NoMemory => 15,
            Ending::FileLong { name: _ } => 16,
        }
    }

    /// The ending of a run that came to its end.
    pub fn of(word: EndWord) -> Ending
        ensures { result ≡ ending_of word }
    {
        match word {
            EndWord::Done => Ending::Done,
            EndWord::Stuck => Ending::Stuck,
            EndWord::Spent => Ending::Spent,
        }
    }
}

impl From<FetchFault> for Ending {
    ghost from_gives = { λ fault ending. ending ≡ of_fetch fault };

    fn from(fault: FetchFault) -> Ending {
        match fault {
            FetchFault::Missing { name } => Ending::Missing { name },
            FetchFault::Long { name } => Ending::FileLong { name },
            FetchFault::Depot => Ending::DepotFault,
            FetchFault::NoMemory => Ending::NoMemory,
        }
    }
}

impl From<DescFault> for Ending {
    ghost from_gives = { λ fault ending. ending ≡ of_description fault };

    fn from(fault: DescFault) -> Ending {
        match fault {
            DescFault::Bad { kind, place } => Ending::BadDesc { kind, place },
            DescFault::NoMemory => Ending::NoMemory,
        }
    }
}

impl From<InputStop> for Ending {
    ghost from_gives = { λ stop ending. ending ≡ of_input stop };

    fn from(stop: InputStop) -> Ending {
        match stop {
            InputStop::Failed => Ending::InputFault,
            InputStop::Long => Ending::InputLong,
            InputStop::NoMemory => Ending::NoMemory,
        }
    }
}

impl From<RunFault> for Ending {
    ghost from_gives = { λ fault ending. ending ≡ of_run fault };

    fn from(fault: RunFault) -> Ending {
        match fault {
            RunFault::Image(kind) => Ending::BadImage { kind },
            RunFault::Out => Ending::OutFault,
            RunFault::Err => Ending::ErrFault,
            RunFault::Depot => Ending::DepotFault,
            RunFault::NoMemory => Ending::NoMemory,
        }
    }
}

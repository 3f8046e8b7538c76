//! Laws of the plain kernel's runs that more than one machine rests on. They are stated in `specs/Laws`: what holds of
//! the kernel after every turn of every run, what holds of it within a turn, where the instructions of a process are
//! over and its call comes, and what holds of the files that a run leaves. Each function below has one of them as its
//! contract.
#![tactic(auto)]

ghost use Rattle.kernel_laws.specs.Laws.{BreaksStayInUserSpace, CallsMayComeWithinTurns, GoodImagesBreakInUserSpace, InstructionsChangeRegistersAndSpaceAlone, NamedFilesCanBeArchived, PidsAreFew, UnbornHaveNoSpace};

/// After every turn of every run, no process that is yet to be born has a space.
pub fn the_unborn_have_no_space()
    ensures { UnbornHaveNoSpace }
{}

/// After n turns at most n + 1 pids were given: each turn forks at most one child.
pub fn pids_are_few()
    ensures { PidsAreFew }
{}

/// After every turn each process's break is in user space, where the program's own break is.
pub fn breaks_stay_in_user_space()
    ensures { BreaksStayInUserSpace }
{}

/// The break of the program of an image without fault is in user space.
pub fn good_images_break_in_user_space()
    ensures { GoodImagesBreakInUserSpace }
{}

/// Instructions of a process change its registers and its space, and nothing else of the kernel.
pub fn instructions_change_registers_and_space_alone()
    ensures { InstructionsChangeRegistersAndSpaceAlone }
{}

/// What holds after each turn holds also where a turn's instructions are over and its call comes.
pub fn calls_may_come_within_turns()
    ensures { CallsMayComeWithinTurns }
{}

/// After every turn an archive can hold the files with a name, if those of the start have short names: no two have
/// the same name, each name has at most 255 bytes, and there are at most 1024.
pub fn named_files_can_be_archived()
    ensures { NamedFilesCanBeArchived }
{}

//! The one plain kernel as a reader of the Linux man pages knows it, as definitions: processes, descriptors, pipes,
//! files and spaces, all 28 system calls, turns, and the flat run, which is the kernel after each turn. There is no
//! line, owner or message in it.
//!
//! What an instruction or a call does is a list of effects (`specs/Effects`), and a call is a row: its errors in their
//! order, its effects, its answer (`specs/Descriptors`, `FileCalls`, `SpaceCalls`, `ProcessCalls`; `specs/Calls` has
//! the table of numbers and says when a call waits). `specs/Turns` has the turns and the flat run, `specs/Boot`
//! turn 0. The functions below have laws as their contracts that a reader may ask for.
#![tactic(auto)]

ghost use Rattle.linux_model.specs.Laws.{AllowedKeepsWhatFits, ApartStays, BootingStartsTheFirst, EveryKernelFits, HeldGoesAlone, LoadingBuildsTheSpace, LookingIsStill, ManagedGoesAlone, OutputOnlyGrows, RunIsItsEffects, TheEndIsTheEnd};

/// The run is what its list of effects makes of the kernel that was booted.
pub fn run_is_its_effects()
    ensures { RunIsItsEffects }
{}

/// Later turns only add to standard output, standard error and the exits.
pub fn output_only_grows()
    ensures { OutputOnlyGrows }
{}

/// Once no process lives, nothing changes any more.
pub fn the_end_is_the_end()
    ensures { TheEndIsTheEnd }
{}

/// Loading, which writes page by page, comes to a space with the bytes of each load at their addresses, the start
/// stack over them, and 0 at all other addresses: for process 1 and for each process that calls execve(2).
pub fn loading_builds_the_space()
    ensures { LoadingBuildsTheSpace }
{}

/// The check of a buffer, a copy from one, and the reading of a path or of strings change nothing.
pub fn looking_changes_nothing()
    ensures { LookingIsStill }
{}

/// Turn 0 makes the description's files and starts process 1, in the program's space, with the three standard streams
/// open and nothing written.
pub fn booting_starts_the_first()
    ensures { BootingStartsTheFirst }
{}

/// What effects make of spaces and files, which the machine under the kernel holds, depends on these alone.
pub fn what_is_held_goes_alone()
    ensures { HeldGoesAlone }
{}

/// Effects on processes, descriptors, pipes and input change nothing of them.
pub fn what_is_apart_stays()
    ensures { ApartStays }
{}

/// What effects make of processes, descriptions, pipes, input and exits, which the manager holds, depends on these alone, and
/// other effects change nothing of them.
pub fn what_is_managed_goes_alone()
    ensures { ManagedGoesAlone }
{}

/// Effects that ask for no more than what is there keep what fits.
pub fn allowed_effects_keep_what_fits()
    ensures { AllowedKeepsWhatFits }
{}

/// Pids rise, what descriptors and descriptions refer to is there, and zombies have nothing open: after every turn.
pub fn every_kernel_fits()
    ensures { EveryKernelFits }
{}

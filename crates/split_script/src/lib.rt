//! The script of the split run, as definitions: what the effects of the plain kernel call for and show, given the owners
//! of regions and the lines that the processors' caches hold.
//!
//! `specs/Script` has one clause an effect, `specs/Touches` the accesses line by line, `specs/Regions` the changes of
//! spaces region by region, and `specs/Seen` what the plain kernel's run shows. The functions below have laws as their
//! contracts.
#![tactic(auto)]

ghost use Rattle.split_script.specs.Laws.{AskedAreasAreAll, BlocksGiveTheRead, BlocksMakeTheFile, MappedIsOwned, OwnersGoByTurns, PartsMakeTheWhole, ScriptGoesWithTheKernel, ScriptShowsTheFlatRun, ScriptsJoin};

/// The script of effects and then of others is the one and then the other.
pub fn scripts_join()
    ensures { ScriptsJoin }
{}

/// What the script takes spaces and files to be is what they are in the plain kernel.
pub fn the_script_goes_with_the_kernel()
    ensures { ScriptGoesWithTheKernel }
{}

/// Drops of lines aside, the script shows the turns, accesses, fills and output of the plain kernel's run, for every
/// cache, every owner and every placement.
pub fn the_script_shows_the_flat_run()
    ensures { ScriptShowsTheFlatRun }
{}

/// The parts of a read have the bytes of its pieces, and the parts of an access, one after the other, make of spaces what
/// the access makes of them.
pub fn parts_make_the_whole()
    ensures { PartsMakeTheWhole }
{}

/// The blocks of a write, one after the other, make of a file what the write makes.
pub fn blocks_make_the_file()
    ensures { BlocksMakeTheFile }
{}

/// The blocks of a read that lies within its file give what the read gives.
pub fn blocks_give_the_read()
    ensures { BlocksGiveTheRead }
{}

/// Owners are those of the rule of placement, by the count of assignments over the whole run.
pub fn owners_go_by_turns()
    ensures { OwnersGoByTurns }
{}

/// Where all regions with a mapped page are asked, their answers make the areas of the process.
pub fn asked_areas_are_all()
    ensures { AskedAreasAreAll }
{}

/// The region of each mapped page has an owner, at every moment of every run.
pub fn what_is_mapped_is_owned()
    ensures { MappedIsOwned }
{}

//! Who must answer an operation.

ghost use Rattle.std.specs.Prelude.{◌≡◌, ◌<◌, ◌++◌, ◌∷◌, [], IfOk};
ghost use Rattle.lego_msg.specs.Operations.{each_from, receivers, targets_of};
ghost use Rattle.lego_msg.specs.Places.{memory, secondary_of};
ghost use Rattle.lego_msg.specs.declared.body.Body.{Body as Said};
ghost use Rattle.lego_msg.specs.declared.place.Place.TheVariants as place;

use crate::file_rows::cache;
use lego_base::{MemId, NoMemory, Seq};
use lego_msg::{Operation, Place};
use placement::{home, secondary};
use std::alloc::Global;

/// Who must answer an operation, where there are `memories` memory components.
pub fn targets(alloc: Global, memories: u32, operation: &Operation) -> Result<Seq<Place>, NoMemory>
    requires { 0 < memories }
    ensures { IfOk result (λ targets. targets ≡ targets_of memories operation.now) }
{
    match operation {
        Operation::Finds { pid, .. } => one(alloc, Place::Memory(home(*pid, memories))),
        Operation::SetsHome { pid, .. } => both(alloc, memories, home(*pid, memories)),
        Operation::Reads { owner, .. } | Operation::AsksAreas { owner, .. } => {
            one(alloc, Place::Memory(*owner))
        }
        Operation::Writes { owner, .. } | Operation::SetsAreas { owner, .. } => {
            both(alloc, memories, *owner)
        }
        Operation::Unmaps { owner, .. } | Operation::Copies { owner, .. } => {
            both_and_storage(alloc, memories, *owner)
        }
        Operation::Drains { memory } => one(alloc, Place::Memory(*memory)),
        Operation::Drops { .. } => everyone(alloc, memories),
        Operation::ReadsFile { file, .. } => one(alloc, Place::Memory(cache(*file, memories))),
        Operation::Heals { to, .. } => one(alloc, *to),
        Operation::WritesFile { .. }
        | Operation::CutsFile { .. }
        | Operation::AsksSize { .. }
        | Operation::GetsName { .. }
        | Operation::MakesName { .. }
        | Operation::CutsName { .. }
        | Operation::ListsNames
        | Operation::FreesFile { .. } => one(alloc, Place::Storage),
    }
}

fn one(alloc: Global, place: Place) -> Result<Seq<Place>, NoMemory>
    ensures { IfOk result (λ places. places ≡ place ∷ []) }
{
    Ok(Seq::from_vec(vec![in alloc; place]?))
}

// The secondary of a memory, and the memory.
fn both(alloc: Global, memories: u32, owner: MemId) -> Result<Seq<Place>, NoMemory>
    requires { 0 < memories }
    ensures { IfOk result (λ places. places ≡ memory (secondary_of memories owner.0) ∷ memory owner.0 ∷ []) }
{
    let spare = Place::Memory(secondary(owner, memories));
    Ok(Seq::from_vec(vec![in alloc; spare, Place::Memory(owner)]?))
}

fn both_and_storage(alloc: Global, memories: u32, owner: MemId) -> Result<Seq<Place>, NoMemory>
    requires { 0 < memories }
    ensures { IfOk result (λ places. places ≡ memory (secondary_of memories owner.0) ∷ memory owner.0 ∷ place.Storage ∷ []) }
{
    let spare = Place::Memory(secondary(owner, memories));
    let main = Place::Memory(owner);
    Ok(Seq::from_vec(vec![in alloc; spare, main, Place::Storage]?))
}

// All memories, and storage: those that get messages with any two bodies.
fn everyone(alloc: Global, memories: u32) -> Result<Seq<Place>, NoMemory>
    ensures { IfOk result (λ places. (each last : Said) → places ≡ receivers (each_from memories 0 each last)) }
{
    let mut places = Seq::from_vec(Vec::with_capacity(alloc, memories as usize + 1)?);
    for number in 0..memories {
        places.push(Place::Memory(MemId(number)))?;
    }
    places.push(Place::Storage)?;
    Ok(places)
}

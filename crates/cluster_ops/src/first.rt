//! The first messages of an operation.

ghost use Rattle.std.specs.Prelude.{◌≡◌, ◌<◌, IfOk};
ghost use Rattle.lego_msg.specs.Operations.{asks_of, messages_of};

use crate::issuer::Issuer;
use lego_base::{NoMemory, OpNo, Seq};
use lego_msg::{Message, Operation, Place};
use std::alloc::Global;

/// The first messages of an operation with a number, in order, where there are `memories` memory components. Bytes,
/// lists and names are copied, since the operation may have to be sent again.
pub fn first_messages(
    alloc: Global,
    memories: u32,
    by: Place,
    number: OpNo,
    operation: &Operation,
) -> Result<Seq<Message>, NoMemory>
    requires { 0 < memories }
    ensures { IfOk result (λ messages. messages ≡ messages_of by number (asks_of memories operation.now)) }
{
    let issuer = Issuer {
        alloc,
        by,
        number,
        memories,
    };
    match operation {
        Operation::Finds { pid, region } => issuer.finds(*pid, *region),
        Operation::Reads { pid, line, owner } => issuer.reads(*pid, *line, *owner),
        Operation::Writes {
            origin,
            patch,
            owner,
        } => issuer.writes(*origin, patch, *owner),
        Operation::SetsHome { pid, region, owner } => issuer.sets_home(*pid, *region, *owner),
        Operation::SetsAreas {
            pid,
            region,
            areas,
            owner,
        } => issuer.sets_areas(*pid, *region, areas, *owner),
        Operation::AsksAreas { pid, region, owner } => issuer.asks_areas(*pid, *region, *owner),
        Operation::Drains { memory } => issuer.drains(*memory),
        Operation::Unmaps {
            pid,
            region,
            first,
            pages,
            areas,
            owner,
        } => issuer.unmaps(*pid, *region, *first, *pages, areas, *owner),
        Operation::Copies {
            parent,
            child,
            regions,
            owner,
        } => issuer.copies(*parent, *child, regions, *owner),
        Operation::Drops { pid } => issuer.drops(*pid),
        Operation::ReadsFile {
            file,
            block,
            off,
            len,
        } => issuer.reads_file(*file, *block, *off, *len),
        Operation::WritesFile {
            file,
            block,
            off,
            bytes,
        } => issuer.writes_file(*file, *block, *off, bytes),
        Operation::CutsFile { file, size } => issuer.cuts_file(*file, *size),
        Operation::AsksSize { file } => issuer.asks_size(*file),
        Operation::GetsName { name } => issuer.gets_name(name),
        Operation::MakesName { name } => issuer.makes_name(name),
        Operation::CutsName { name } => issuer.cuts_name(name),
        Operation::ListsNames => issuer.lists_names(),
        Operation::FreesFile { file } => issuer.frees_file(*file),
        Operation::Heals { to, body } => issuer.heals(*to, body),
    }
}

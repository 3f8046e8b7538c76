//! Operations by hand: what is sent, who must answer, and what comes of it.

use crate::{end_owners, first_messages, healing, reaction, targets};
use heal_steps::HealMove;
use lego_base::{Bytes, FileNo, MemId, OpNo, Patch, Pid, RegionNo, Vpn};
use lego_msg::{Body, Operation, Origin, Place};
use placement::Table;
use std::alloc::Global;
use std::test::Fail;

// What an operation sends first in a machine with two memories, and who must answer.
fn sent(alloc: Global, operation: &Operation) -> Result<String, Fail> {
    let mut text = String::new(alloc);
    let messages = first_messages(alloc, 2, Place::Manager, OpNo(7), operation)?;
    for message in messages.as_slice() {
        let line = format!(in alloc; "{:?} {:?}\n", message.to, message.body)?;
        text.push_str(line.as_str())?;
    }
    for place in targets(alloc, 2, operation)?.as_slice() {
        text.push_str(format!(in alloc; "{place:?} ")?.as_str())?;
    }
    Ok(text)
}

// Two bytes of a page.
fn write_of_two_bytes(alloc: Global) -> Result<Operation, Fail> {
    let patch = Patch {
        pid: Pid(1),
        vpn: Vpn(3),
        off: 5,
        bytes: Bytes::from_slice(alloc, b"hi")?,
    };
    Ok(Operation::Writes {
        origin: Origin::Run,
        patch,
        owner: MemId(1),
    })
}

#[test]
fn a_write_goes_to_the_log_and_to_the_page(rt: HostRuntime) -> Result<(), Fail> {
    let alloc = rt.alloc();
    let text = sent(alloc, &write_of_two_bytes(alloc)?)?;
    let patch =
        "{ patch: Patch { pid: Pid(1), vpn: Vpn(3), off: 5, bytes: Bytes { items: [104, 105] } } }";
    let wanted = format!(in alloc;
        "Memory(MemId(0)) LogWrite {patch}\nMemory(MemId(1)) Write {patch}\nMemory(MemId(0)) Memory(MemId(1)) "
    )?;
    assert_eq!(rt; text.as_str(), wanted.as_str());
    Ok(())
}

#[test]
fn a_space_is_dropped_everywhere(rt: HostRuntime) -> Result<(), Fail> {
    let text = sent(rt.alloc(), &Operation::Drops { pid: Pid(4) })?;
    let wanted =
        "Memory(MemId(0)) DropSpace { pid: Pid(4) }\nMemory(MemId(1)) DropSpace { pid: Pid(4) }\nStorage ImageFree { pid: Pid(4) }\nMemory(MemId(0)) Memory(MemId(1)) Storage ";
    assert_eq!(rt; text.as_str(), wanted);
    Ok(())
}

#[test]
fn storage_answers_for_the_cache_that_a_cut_passes(rt: HostRuntime) -> Result<(), Fail> {
    let cut = Operation::CutsFile {
        file: FileNo(3),
        size: 9,
    };
    let text = sent(rt.alloc(), &cut)?;
    let wanted = "Memory(MemId(1)) FileCut { file: FileNo(3), size: 9 }\nStorage ";
    assert_eq!(rt; text.as_str(), wanted);
    Ok(())
}

#[test]
fn a_drained_log_gets_the_patch_again(rt: HostRuntime) -> Result<(), Fail> {
    let write = write_of_two_bytes(rt.alloc())?;
    assert!(rt; matches!(reaction(&write, &Body::LogFull)?, Some(Body::Drain)));
    assert!(rt;
        matches!(
            reaction(&write, &Body::Drained)?,
            Some(Body::LogWrite { .. })
        )
    );
    assert!(rt; reaction(&write, &Body::Wrote)?.is_none());
    Ok(())
}

#[test]
fn regions_have_owners_until_their_space_is_dropped(rt: HostRuntime) -> Result<(), Fail> {
    let alloc = rt.alloc();
    let mut table = Table::new(alloc, 2, &[MemId(1), MemId(0)])?;
    let new = table.assign_unowned(Pid(1), &[RegionNo(5), RegionNo(6)])?;
    assert_eq!(rt; new.len(), 2);
    assert_eq!(rt; table.owner(Pid(1), RegionNo(6)), Some(MemId(0)));
    end_owners(&mut table, &Operation::Drops { pid: Pid(1) });
    assert!(rt; table.owner(Pid(1), RegionNo(5)).is_none());
    Ok(())
}

#[test]
fn a_healing_starts_at_the_secondary(rt: HostRuntime) -> Result<(), Fail> {
    let alloc = rt.alloc();
    let table = Table::new(alloc, 2, &[MemId(0)])?;
    let mut heal = healing(alloc, MemId(0), &table)?;
    let first = heal.next(None);
    assert!(rt; matches!(first, HealMove::Send(Place::Memory(MemId(1)), Body::Drain)));
    Ok(())
}

//! The message table of storage by hand: each row once, with its answer.

ghost use Rattle.lego_msg.specs.Form.{HasFile, InForm};

use crate::Store;
use lego_base::{Bytes, FileNo, MemId, OpNo, Patch, Pid, RegionNo, Seq, Vpn};
use lego_msg::{Body, Message, Outbox, Place};
use std::alloc::Global;
use std::process::Abort;
use std::test::Fail;

const MEMORY: Place = Place::Memory(MemId(1));

// Has storage handle a message of a memory. To whom it answers, and what, begins with these words.
fn expect(
    rt: &impl Abort,
    store: &mut Store,
    alloc: Global,
    body: Body,
    words: &str,
) -> Result<(), Fail>
    requires form { InForm body }
    requires there { HasFile store.old body }
{
    let mut out = Outbox::new(alloc);
    let message = Message {
        from: MEMORY,
        to: Place::Storage,
        op: OpNo(7),
        body,
    };
    store.handle(alloc, message, &mut out)?;
    let mut text = String::new(alloc);
    for answer in out.as_slice() {
        let to = if answer.to == MEMORY { "M1" } else { "G" };
        text.push_str(format!(in alloc; "{to} {:?}", answer.body)?.as_str())?;
    }
    assert_eq!(rt; text.is_empty(), words.is_empty());
    assert!(rt; text.as_str().starts_with(words));
    Ok(())
}

#[test]
fn names_are_made_found_and_removed(rt: HostRuntime) -> Result<(), Fail> {
    let alloc = rt.alloc();
    let mut store = Store::new(alloc, 1)?;
    let name = Bytes::from_slice(alloc, b"b")?;
    expect(
        &rt,
        &mut store,
        alloc,
        Body::NameMake { name },
        "M1 NameIs { file: Some(FileNo(0)) }",
    )?;
    let name = Bytes::from_slice(alloc, b"a")?;
    expect(
        &rt,
        &mut store,
        alloc,
        Body::NameMake { name },
        "M1 NameIs { file: Some(FileNo(1)) }",
    )?;
    let name = Bytes::from_slice(alloc, b"b")?;
    expect(
        &rt,
        &mut store,
        alloc,
        Body::NameGet { name },
        "M1 NameIs { file: Some(FileNo(0)) }",
    )?;
    let name = Bytes::from_slice(alloc, b"b")?;
    expect(&rt, &mut store, alloc, Body::NameCut { name }, "M1 Done")?;
    expect(
        &rt,
        &mut store,
        alloc,
        Body::FileFree { file: FileNo(0) },
        "M1 Done",
    )?;
    let all =
        "M1 Names { list: Seq { items: [NameEntry { name: Bytes { items: [97] }, file: FileNo(1) }] } }";
    expect(&rt, &mut store, alloc, Body::NameAll, all)?;
    Ok(())
}

#[test]
fn bytes_are_put_cut_and_given(rt: HostRuntime) -> Result<(), Fail> {
    let alloc = rt.alloc();
    let file = FileNo(0);
    let mut store = Store::new(alloc, 1)?;
    let name = Bytes::from_slice(alloc, b"name")?;
    expect(&rt, &mut store, alloc, Body::NameMake { name }, "M1 NameIs")?;
    let asker = Place::Manager;
    let bytes = Bytes::from_slice(alloc, b"hi")?;
    assert!(rt; store.has_file(file));
    expect(
        &rt,
        &mut store,
        alloc,
        Body::BlockPut {
            file,
            block: 0,
            off: 3,
            bytes,
            asker,
        },
        "G Wrote",
    )?;
    assert!(rt; store.has_file(file));
    expect(
        &rt,
        &mut store,
        alloc,
        Body::BlockCut {
            file,
            size: 4097,
            asker,
        },
        "G Refused(StoreFull)",
    )?;
    assert!(rt; store.has_file(file));
    expect(
        &rt,
        &mut store,
        alloc,
        Body::FileSize { file },
        "M1 SizeIs { size: 5 }",
    )?;
    assert!(rt; store.has_file(file));
    let block =
        "M1 BlockIs { file: FileNo(0), block: 0, off: 3, len: 2, asker: Manager, bytes: Bytes { items: [0, 0, 0, 104, 105, 0, 0";
    expect(
        &rt,
        &mut store,
        alloc,
        Body::BlockGet {
            file,
            block: 0,
            off: 3,
            len: 2,
            asker,
        },
        block,
    )?;
    Ok(())
}

#[test]
fn images_follow_their_messages(rt: HostRuntime) -> Result<(), Fail> {
    let alloc = rt.alloc();
    let mut store = Store::new(alloc, 0)?;
    let mut patches = Seq::new(alloc);
    patches.push(Patch {
        pid: Pid(1),
        vpn: Vpn(513),
        off: 1,
        bytes: Bytes::from_slice(alloc, b"x")?,
    })?;
    expect(
        &rt,
        &mut store,
        alloc,
        Body::Backup { patches },
        "M1 BackedUp",
    )?;
    let mut regions = Seq::new(alloc);
    regions.push(RegionNo(1))?;
    let (parent, child, region) = (Pid(1), Pid(2), RegionNo(1));
    expect(
        &rt,
        &mut store,
        alloc,
        Body::ImageCopy {
            parent,
            child,
            regions,
        },
        "M1 Done",
    )?;
    expect(
        &rt,
        &mut store,
        alloc,
        Body::ImageFree { pid: parent },
        "M1 Done",
    )?;
    expect(
        &rt,
        &mut store,
        alloc,
        Body::PullImages {
            pid: parent,
            region,
        },
        "M1 Images { pages: Seq { items: [] } }",
    )?;
    let image =
        "M1 Images { pages: Seq { items: [PageImage { pid: Pid(2), vpn: Vpn(513), bytes: Bytes { items: [0, 120, 0";
    expect(
        &rt,
        &mut store,
        alloc,
        Body::PullImages { pid: child, region },
        image,
    )?;
    Ok(())
}

#[test]
fn images_are_dropped_and_set(rt: HostRuntime) -> Result<(), Fail> {
    let alloc = rt.alloc();
    let mut store = Store::new(alloc, 0)?;
    let (pid, region, pages) = (Pid(1), RegionNo(0), Seq::new(alloc));
    expect(
        &rt,
        &mut store,
        alloc,
        Body::ResetImages { pid, region, pages },
        "M1 Done",
    )?;
    let first = Vpn(0);
    expect(
        &rt,
        &mut store,
        alloc,
        Body::ImageDrop {
            pid,
            first,
            pages: 512,
        },
        "M1 Done",
    )?;
    expect(&rt, &mut store, alloc, Body::Drain, "")?;
    Ok(())
}

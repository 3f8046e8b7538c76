//! Messages to a memory, one after the other, and how what it sends begins: to the asker P or to storage S. The memory has
//! two frames, and room for two patches and for one block.

ghost use Rattle.std.specs.Prelude.{◌≡◌, ◌<◌, ◌≤◌, [], ◌∷◌, IfOk};
ghost use Rattle.lego_msg.specs.Form.{InForm, IsRegionList, IsWithinPage};

use crate::Memory;
use lego_base::{
    Area, AreaRuns, Bytes, CpuId, FileNo, LineNo, MemId, NoMemory, OpNo, Patch, Perms, Pid,
    RegionNo, Seq, Vpn,
};
use lego_msg::{Body, Message, Outbox, Place, Role};
use std::alloc::Global;
use std::test::Fail;

const TABLE: &str = "\
home find|P OwnerIs { owner: None }
home set|P Done
home find|P OwnerIs { owner: Some(MemId(1)) }
page read 16|P Refused(NoArea)
space set|P Done
space areas|P AreasAre { areas: Seq { items: [Area { first: Vpn(16), pages: 4, perms: Perms(1) }] } }
page read 16|P Line { perms: Perms(1), bytes: Bytes { items: [0, 0,
page write 16|P Wrote
page read 16|P Line { perms: Perms(1), bytes: Bytes { items: [7, 0,
page read 20|P Refused(NoArea)
page write 17|P Wrote
page write 18|P Refused(Full)
copy main|P Refused(Full)
space unmap|P Done
page read 17|P Refused(NoArea)
copy main|P Done
copy pull|P Images { pages: Seq { items: [PageImage { pid: Pid(2), vpn: Vpn(16), bytes: Bytes { items: [7, 0,
copy push|P Done
copy pull|P Images { pages: Seq { items: [] } }
copy spare|P Done
home pull|P Meta { homes: Seq { items: [HomeEntry { pid: Pid(1), region: RegionNo(0), owner: MemId(1) }] }, areas:
home push|P Done
home find|P OwnerIs { owner: None }
space drop|P Done
log write 16|S Backup { patches: Seq { items: [Patch { pid: Pid(1), vpn: Vpn(16), off: 0, bytes: Bytes { items: [7] } }] } } P Wrote
log write 17|P Wrote
log write 18|P LogFull
log drain|
log backed|S Backup { patches: Seq { items: [Patch { pid: Pid(1), vpn: Vpn(17),
log backed|P Drained
log drain|P Drained
log backed|
file read 0|S BlockGet { file: FileNo(3), block: 0, off: 1, len: 2, asker: Processor(CpuId(0)) }
file is 0|P FileBytes { bytes: Bytes { items: [9, 9] } }
file read 0|P FileBytes { bytes: Bytes { items: [9, 9] } }
file is 1|P FileBytes
file read 0|S BlockGet
file read 1|P FileBytes
file write 1|S BlockPut { file: FileNo(3), block: 1, off: 1, bytes: Bytes { items: [9] }, asker: Processor(CpuId(0)) }
file read 1|S BlockGet
file is 1|P FileBytes
file cut|S BlockCut { file: FileNo(3), size: 0, asker: Processor(CpuId(0)) }
file read 1|S BlockGet
name all|
";

const ASKER: Place = Place::Processor(CpuId(0));

const ONE: Pid = Pid(1);

const REGION: RegionNo = RegionNo(0);

const FILE: FileNo = FileNo(3);

// A list of one item.
fn one<T: Drop>(alloc: Global, item: T) -> Result<Seq<T>, NoMemory>
    ensures { IfOk result (λ list. list ≡ item ∷ []) }
{
    let mut list = Seq::new(alloc);
    list.push(item)?;
    Ok(list)
}

// The byte 7 at the start of a page.
fn patch(alloc: Global, page: u8) -> Result<Patch, NoMemory>
    ensures { IfOk result (λ p. IsWithinPage p) }
{
    let bytes = Bytes::from_slice(alloc, [7].as_slice())?;
    Ok(Patch {
        pid: ONE,
        vpn: Vpn(page as u64),
        off: 0,
        bytes,
    })
}

fn of_homes(alloc: Global, name: &str) -> Body
    ensures { InForm result }
{
    match name {
        "find" => Body::Find {
            pid: ONE,
            region: REGION,
        },
        "set" => Body::SetHome {
            pid: ONE,
            region: REGION,
            owner: MemId(1),
            role: Role::Main,
        },
        "pull" => Body::PullMeta {
            of: MemId(1),
            role: Role::Main,
        },
        "push" => Body::PushMeta {
            role: Role::Main,
            homes: Seq::new(alloc),
            areas: Seq::new(alloc),
        },
        _ => Body::NameAll,
    }
}

fn of_pages(alloc: Global, name: &str, page: u8) -> Result<Body, NoMemory>
    ensures { IfOk result (λ b. InForm b) }
{
    match name {
        "read" => {
            let line = LineNo(page as u64 * 64);
            Ok(Body::Read { pid: ONE, line })
        }
        _ => {
            let patch = patch(alloc, page)?;
            Ok(Body::Write { patch })
        }
    }
}

fn of_spaces(alloc: Global, name: &str) -> Result<Body, NoMemory>
    ensures { IfOk result (λ b. InForm b) }
{
    match name {
        "set" => Ok(Body::SetAreas {
            pid: ONE,
            region: REGION,
            areas: areas(alloc, 4)?,
            role: Role::Main,
        }),
        "areas" => Ok(Body::GetAreas {
            pid: ONE,
            region: REGION,
        }),
        "unmap" => Ok(Body::Unmap {
            pid: ONE,
            region: REGION,
            first: Vpn(17),
            pages: 3,
            areas: areas(alloc, 1)?,
            role: Role::Main,
        }),
        _ => Ok(Body::DropSpace { pid: ONE }),
    }
}

fn of_copies(alloc: Global, name: &str) -> Result<Body, NoMemory>
    ensures { IfOk result (λ b. InForm b) }
{
    let child = Pid(2);
    match name {
        "pull" => Ok(Body::PullPages {
            pid: child,
            region: REGION,
        }),
        "push" => Ok(Body::PushImages {
            pid: child,
            region: REGION,
            pages: Seq::new(alloc),
        }),
        _ => Ok(Body::CopySpace {
            parent: ONE,
            child,
            regions: one(alloc, REGION)?,
            role: if name == "main" {
                Role::Main
            } else {
                Role::Spare
            },
        }),
    }
}

fn of_logs(alloc: Global, name: &str, page: u8) -> Result<Body, NoMemory>
    ensures { IfOk result (λ b. InForm b) }
{
    match name {
        "drain" => Ok(Body::Drain),
        "backed" => Ok(Body::BackedUp),
        _ => {
            let patch = patch(alloc, page)?;
            Ok(Body::LogWrite { patch })
        }
    }
}

fn of_files(alloc: Global, name: &str, block: u8) -> Result<Body, NoMemory>
    ensures { IfOk result (λ b. InForm b) }
{
    let block = block as u64;
    match name {
        "read" => Ok(Body::FileRead {
            file: FILE,
            block,
            off: 1,
            len: 2,
        }),
        "is" => Ok(Body::BlockIs {
            file: FILE,
            block,
            off: 1,
            len: 2,
            asker: ASKER,
            bytes: Bytes::from_vec(vec![in alloc; 9; 4096]?)?,
        }),
        "write" => Ok(Body::FileWrite {
            file: FILE,
            block,
            off: 1,
            bytes: Bytes::from_slice(alloc, [9].as_slice())?,
        }),
        _ => Ok(Body::FileCut {
            file: FILE,
            size: 0,
        }),
    }
}

// The areas of the region: this many pages.
fn areas(alloc: Global, pages: u64) -> Result<AreaRuns, NoMemory>
    requires within { pages ≤ 4 }
    requires some { 0 < pages }
    ensures { IfOk result (λ areas. IsRegionList 0 areas) }
{
    let area = Area {
        first: Vpn(16),
        pages,
        perms: Perms::READ,
    };
    one(alloc, area)
}

// A message by its name.
fn named(alloc: Global, text: &str) -> Result<Body, NoMemory>
    ensures { IfOk result (λ b. InForm b) }
{
    let (group, rest) = text.split_once(" ").unwrap_or((text, ""));
    let (name, last) = rest.split_once(" ").unwrap_or((rest, "0"));
    let number = last.parse::<u8>().unwrap_or(0);
    match group {
        "home" => Ok(of_homes(alloc, name)),
        "page" => of_pages(alloc, name, number),
        "space" => of_spaces(alloc, name),
        "copy" => of_copies(alloc, name),
        "log" => of_logs(alloc, name, number),
        "file" => of_files(alloc, name, number),
        _ => Ok(Body::NameAll),
    }
}

// What a memory sends for a message.
fn sent(memory: &mut Memory, alloc: Global, body: Body) -> Result<String, Fail>
    requires { InForm body }
{
    let mut out = Outbox::new(alloc);
    let m = Message {
        from: ASKER,
        to: Place::Memory(MemId(1)),
        op: OpNo(5),
        body,
    };
    memory.handle(alloc, m, &mut out)?;
    let mut text = String::new(alloc);
    for message in out.as_slice() {
        let to = if message.to == ASKER { "P" } else { "S" };
        let piece = format!(in alloc; "{to} {:?} ", message.body)?;
        text.push_str(piece.as_str())?;
    }
    Ok(text)
}

#[test]
fn each_message_is_answered_by_its_row(rt: HostRuntime) -> Result<(), Fail> {
    let alloc = rt.alloc();
    let mut memory = Memory::new(alloc, MemId(1), 2, 2, 1)?;
    for line in TABLE.lines() {
        if let Some((given, answer)) = line.split_once("|") {
            let text = sent(&mut memory, alloc, named(alloc, given)?)?;
            assert!(rt; text.starts_with(answer), "{line}");
            assert!(rt; text.is_empty() == answer.is_empty(), "{line}");
        }
    }
    if memory.inc() == 0 {
        memory.reset();
    }
    assert_eq!(rt; memory.inc(), 1);
    Ok(())
}

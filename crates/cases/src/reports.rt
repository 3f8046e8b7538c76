//! Reports and archives.

ghost use Rattle.std.specs.Prelude.{◌≡◌, IfOk};

use lego_base::{Bytes, Counts, EndWord, Ended, Exit, FileOut, NoMemory, Pid};
use report_text::{archive, report};
use std::alloc::Global;
use std::test::Fail;

/// `b`, `ab` and `a`, in this order, come by name.
const THREE: [u8; 49] = [
    0x4c, 0x45, 0x47, 0x4f, 0x41, 0x52, 0x43, 0x31, // LEGOARC1
    0x03, 0x00, 0x00, 0x00, // three files
    0x01, 0x00, 0x61, // a
    0x02, 0x00, 0x00, 0x00, 0x00, 0x00, 0x00, 0x00, 0x08, 0x09, // two bytes
    0x02, 0x00, 0x61, 0x62, // ab
    0x01, 0x00, 0x00, 0x00, 0x00, 0x00, 0x00, 0x00, 0x07, // one byte
    0x01, 0x00, 0x62, // b
    0x00, 0x00, 0x00, 0x00, 0x00, 0x00, 0x00, 0x00, // none
];

fn counts(hits: u64, misses: u64, evictions: u64, writebacks: u64) -> Counts {
    Counts {
        hits,
        misses,
        evictions,
        writebacks,
    }
}

fn exit(pid: u32, status: u32) -> Exit {
    Exit {
        pid: Pid(pid),
        status,
    }
}

fn file(alloc: Global, name: &[u8], bytes: &[u8]) -> Result<FileOut, NoMemory>
    ensures { IfOk result (λ file. file.name ≡ name.now) }
{
    Ok(FileOut {
        name: Bytes::from_slice(alloc, name)?,
        bytes: Bytes::from_slice(alloc, bytes)?,
    })
}

#[test]
fn a_report_has_a_line_for_each_thing(rt: HostRuntime) -> Result<(), Fail> {
    let alloc = rt.alloc();
    let done = Ended {
        word: EndWord::Done,
        turns: 2,
    };
    let cpus = [counts(8, 2, 0, 0), counts(0, 0, 0, 0)];
    let text = report(alloc, &done, [exit(1, 0)].as_slice(), cpus.as_slice())?;
    let lines =
        b"ending done\nturns 2\nexit 1 0\ncpu 0 hits 8 misses 2 evictions 0 writebacks 0\ncpu 1 hits 0 misses 0 evictions 0 writebacks 0\n";
    assert_eq!(rt; text.as_slice(), lines.as_slice());

    let text = report(alloc, &done, [exit(1, 0)].as_slice(), [].as_slice())?;
    assert_eq!(rt;
        text.as_slice(),
        b"ending done\nturns 2\nexit 1 0\n".as_slice()
    );
    Ok(())
}

#[test]
fn exits_keep_their_order(rt: HostRuntime) -> Result<(), Fail> {
    let stuck = Ended {
        word: EndWord::Stuck,
        turns: 10_000_000,
    };
    let exits = [exit(12, 1792), exit(3, 11)];
    let cpus = [counts(2, 7, 6, 2)];
    let text = report(rt.alloc(), &stuck, exits.as_slice(), cpus.as_slice())?;
    let lines =
        b"ending stuck\nturns 10000000\nexit 12 1792\nexit 3 11\ncpu 0 hits 2 misses 7 evictions 6 writebacks 2\n";
    assert_eq!(rt; text.as_slice(), lines.as_slice());
    Ok(())
}

#[test]
fn an_archive_has_its_files_by_name(rt: HostRuntime) -> Result<(), Fail> {
    let alloc = rt.alloc();
    let mut files = Vec::new(alloc);
    let bytes = archive(alloc, files.as_slice())?;
    assert_eq!(rt; bytes.as_slice(), b"LEGOARC1\0\0\0\0".as_slice());

    files.push(file(alloc, b"out".as_slice(), b"hi".as_slice())?)?;
    let bytes = archive(alloc, files.as_slice())?;
    let one = b"LEGOARC1\x01\0\0\0\x03\0out\x02\0\0\0\0\0\0\0hi";
    assert_eq!(rt; bytes.as_slice(), one.as_slice());
    Ok(())
}

#[test]
fn files_in_another_order_come_by_name(rt: HostRuntime) -> Result<(), Fail> {
    let alloc = rt.alloc();
    let mut files = Vec::new(alloc);
    files.push(file(alloc, b"b".as_slice(), b"".as_slice())?)?;
    files.push(file(alloc, b"ab".as_slice(), b"\x07".as_slice())?)?;
    files.push(file(alloc, b"a".as_slice(), b"\x08\x09".as_slice())?)?;
    let bytes = archive(alloc, files.as_slice())?;
    assert_eq!(rt; bytes.as_slice(), THREE.as_slice());
    Ok(())
}

//! Whole runs of programs with several processes, pipes and files: what they write, their reports and their archives.

use crate::programs::{entry, image, is_text};
use host_io::{Depot, MemDepot, MemSink, MemSource};
use lego_top::lego_main;
use std::alloc::Global;
use std::test::Fail;

const PLAIN: &str = r#"{"version":1,"init":"p.elf","report":"r","archive":"a"}"#;

// With a file `x`, the first 63 bytes of the program, and a file `p`, the program itself.
const WITH_FILES: &str =
    r#"{"version":1,"init":"p.elf","files":[{"path":"x","from":"x"},{"path":"p","from":"p.elf"}],"report":"r","archive":"a"}"#;

// An archive of no file.
const NO_FILE: &str = "LEGOARC1\0\0\0\0";

// A program's flags and words, the description, what the output holds, the report with a semicolon for a newline, and the
// archive of its files.
struct Run {
    program: &'static str,
    desc: &'static str,
    out: &'static str,
    report: &'static str,
    archive: &'static str,
}

const RUNS: [Run; 10] = [
    // stores 5 at sp - 64, forks: the child finds it, stores 6 over it and exits with 5 - 4; the parent waits and finds its 5
    Run {
        program: "5 00500293 fc510023 01100513 0dc00893 00000073 00051e63 fc014503 00600293 fc510023 ffc50513 05d00893 00000073 fff00513 00000593 10400893 00000073 fc014503 ffb50513 05d00893 00000073",
        desc: PLAIN,
        out: "",
        report: "ending done;turns 5;exit 2 256;exit 1 0;",
        archive: NO_FILE,
    },
    // a pipe, fork: the parent closes its reading end and writes 70000 bytes; the child reads 10 three times, closes its
    // reading end, and exits 0
    Run {
        program: "5 ff010513 03b00893 00000073 01100513 0dc00893 00000073 02050463 00300513 03900893 00000073 00400513 00011637 1706061b 40c105b3 04000893 00000073 00300513 fc010593 00a00613 03f00893 00000073 00300513 00000073 00300513 00000073 00300513 03900893 00000073 00000513 05d00893 00000073",
        desc: PLAIN,
        out: "",
        report: "ending done;turns 13;exit 1 13;exit 2 0;",
        archive: NO_FILE,
    },
    // two pipes, fork: each process reads from the one that only the other would write
    Run {
        program: "5 ff010513 03b00893 00000073 ff810513 00000073 01100513 0dc00893 00000073 00a03533 00151513 00350513 fc010593 00100613 03f00893 00000073",
        desc: PLAIN,
        out: "",
        report: "ending stuck;turns 5;",
        archive: NO_FILE,
    },
    // writes `hi` to a new file /out, and exits with what write answers less 2
    Run {
        program: "5 f9c00513 00000597 03458593 04100613 03800893 00000073 00000597 02558593 00200613 04000893 00000073 ffe50513 05d00893 00000073 74756f2f 00696800",
        desc: PLAIN,
        out: "",
        report: "ending done;turns 3;exit 1 0;",
        archive: "LEGOARC1\u{1}\0\0\0\u{3}\0out\u{2}\0\0\0\0\0\0\0hi",
    },
    // writes `abc` to a new file `t`, unlinks it while it is open, reads it back from its start, writes that, closes it
    Run {
        program: "5 f9c00513 00000597 09058593 04200613 03800893 00000073 00050413 00000597 07a58593 00300613 04000893 00000073 f9c00513 00000597 06058593 00000613 02300893 00000073 00040513 00000593 00000613 03e00893 00000073 00040513 fc010593 00800613 03f00893 00000073 00050613 00100513 04000893 00000073 00040513 03900893 00000073 05d00893 00000073 62610074 00010063",
        desc: PLAIN,
        out: "abc",
        report: "ending done;turns 8;exit 1 0;",
        archive: NO_FILE,
    },
    // execve of 63 bytes of an image: ENOEXEC, and the caller goes on
    Run {
        program: "5 00000517 02850513 fe013c23 ff810593 ff810613 0dd00893 00000073 00850513 05d00893 00000073 0000782f",
        desc: WITH_FILES,
        out: "",
        report: "ending done;turns 2;exit 1 0;",
        archive: "",
    },
    // execve with 513 strings: E2BIG, and the caller goes on
    Run {
        program: "5 00000517 03c50513 20100293 ff810593 0005b023 00058613 ff858593 00a5b023 fff28293 fe029ae3 0dd00893 00000073 00750513 05d00893 00000073 0000702f",
        desc: WITH_FILES,
        out: "",
        report: "ending done;turns 4;exit 1 0;",
        archive: "",
    },
    // waits with WNOHANG until its child is dead, which takes three turns, and exits with how often there was none
    Run {
        program: "5 01100513 00000593 0dc00893 00000073 02050a63 00000413 fff00513 ff010593 00100613 10400893 00000073 00051663 00140413 fe5ff06f 00040513 05d00893 00000073 07c00893 00000073 00000073 00000513 05d00893 00000073",
        desc: r#"{"version":1,"init":"p.elf","turns":[0,1],"report":"r","archive":"a"}"#,
        out: "",
        report: "ending done;turns 8;exit 2 0;exit 1 512;",
        archive: NO_FILE,
    },
    // the calls on a file `a`: openat, writev of `ab` and `cd`, pwrite64 of `X` at 1, pread64, ftruncate to 3, dup, dup3, close,
    // lseek, readv, an openat to append `z`, and an unlinkat of what isn't there; exits with the sum of their answers less 38
    Run {
        program: "5 f9c00513 00000597 1a858593 04200613 03800893 00000073 00050413 00050913 f0010493 00000297 18c28293 0054b023 00200313 0064b423 00228293 0054b823 0064bc23 00048593 00200613 04200893 00000073 00a90933 00040513 00000597 15458593 00458593 00100613 00100693 04400893 00000073 00a90933 00040513 e0010593 00800613 00000693 04300893 00000073 00a90933 00050613 00100513 04000893 00000073 00a90933 00040513 00300593 02e00893 00000073 00a90933 00040513 01700893 00000073 00a90933 00900593 00000613 01800893 00000073 00a90933 00040513 03900893 00000073 00a90933 00900513 00000593 00000613 03e00893 00000073 00a90933 e0010293 0054b023 04028293 0054b823 00900513 00048593 00200613 04100893 00000073 00a90933 00100513 00048593 00200613 04200893 00000073 00a90933 f9c00513 00000597 05c58593 40100613 03800893 00000073 00a90933 00000597 04858593 00558593 00100613 04000893 00000073 00a90933 f9c00513 00000597 02658593 00000613 02300893 00000073 00a90933 fda90513 05d00893 00000073 00620061 64636261 00017a58",
        desc: PLAIN,
        out: "aXcdaXc\0",
        report: "ending done;turns 16;exit 1 0;",
        archive: "LEGOARC1\u{1}\0\0\0\u{1}\0a\u{4}\0\0\0\0\0\0\0aXcz",
    },
    // the calls on a space: brk, twice, mmap of two pages, mprotect of the second, munmap of the first; then a store into the
    // second, which may only be read
    Run {
        program: "5 00000513 0d600893 00000073 00050413 000022b7 00540533 00000073 408504b3 00700313 fe653c23 ff853383 00000513 000025b7 00300613 02200693 fff00713 00000793 0de00893 00000073 00050913 00793023 000012b7 00590533 00028593 00100613 0e200893 00000073 00050993 00093e03 005902b3 0002be83 00090513 000015b7 0d700893 00000073 00a989b3 01c989b3 01d989b3 02998993 fd310023 00100513 fc010593 00100613 04000893 00000073 01c2b023",
        desc: PLAIN,
        out: "0",
        report: "ending done;turns 7;exit 1 11;",
        archive: NO_FILE,
    },
];

// What a run leaves.
#[derive(Drop)]
struct Outcome {
    status: u8,
    out: MemSink,
    depot: MemDepot,
}

// Runs a program by a description, with the image of another program under `f.elf` and its first 63 bytes under `x`.
fn outcome_of(
    alloc: Global,
    desc: &str,
    program: &[u8],
    other: &[u8],
    input: &[u8],
) -> Result<Outcome, Fail> {
    let mut depot = MemDepot::new(alloc, &[0])?;
    let _ = depot.put("d.json", desc.as_bytes());
    let _ = depot.put("p.elf", program);
    let _ = depot.put("f.elf", other);
    let _ = depot.put("x", other.get(..63).unwrap_or(b""));
    let mut input = MemSource::new(alloc, input, &[0])?;
    let mut out = MemSink::new(alloc, 128, &[0])?;
    let mut err = MemSink::new(alloc, 128, &[0])?;
    let words = [
        String::from_str(alloc, "plain")?,
        String::from_str(alloc, "d.json")?,
    ];
    let ending = lego_main(alloc, &words, &mut input, &mut out, &mut err, &mut depot);
    Ok(Outcome {
        status: ending.status(),
        out,
        depot,
    })
}

// Whether a run ends as it says; an archive that isn't given may be any.
fn is_so(alloc: Global, case: &Run) -> Result<bool, Fail> {
    let program = image(alloc, case.program, b"")?;
    let mut outcome = outcome_of(
        alloc,
        case.desc,
        program.as_slice(),
        program.as_slice(),
        b"",
    )?;
    let report = entry(alloc, &mut outcome.depot, "r")?;
    let archive = entry(alloc, &mut outcome.depot, "a")?;
    let archived = case.archive.is_empty() || archive.as_slice() == case.archive.as_bytes();
    Ok(
        is_text(report.as_slice(), case.report)
            && is_text(outcome.out.bytes(), case.out)
            && archived,
    )
}

#[test]
fn runs_end_as_they_say(rt: HostRuntime) -> Result<(), Fail> {
    for case in &RUNS {
        assert!(rt; is_so(rt.alloc(), case)?, "{}", case.report);
    }
    Ok(())
}

// 63 children that end at once and aren't waited for: they are zombies and count, so the next clone answers EAGAIN.
#[test]
fn zombies_count_as_processes(rt: HostRuntime) -> Result<(), Fail> {
    let alloc = rt.alloc();
    let program = image(
        alloc,
        "5 00000413 01100513 00000593 0dc00893 00000073 00050e63 00054663 00140413 fe5ff06f 00b50513 fc140413 00856533 05d00893 00000073",
        b"",
    )?;
    let mut wanted = String::from_str(alloc, "ending done;turns 128;")?;
    for pid in 2u32..65 {
        wanted.push_str(format!(in alloc; "exit {pid} 0;")?.as_str())?;
    }
    wanted.push_str("exit 1 0;")?;
    let desc = r#"{"version":1,"init":"p.elf","turns":[0,1],"report":"r","archive":"a"}"#;
    let mut outcome = outcome_of(alloc, desc, program.as_slice(), b"", b"")?;
    let report = entry(alloc, &mut outcome.depot, "r")?;
    assert!(rt; is_text(report.as_slice(), wanted.as_str()));
    assert_eq!(rt; outcome.status, 0u8);
    Ok(())
}

// Reads its input to the end and hands it to /filter on a pipe and to a temporary file, which was unlinked while it was open;
// reads that back, writes the sum of its bytes, waits for the filter and exits with its status.
const RELAY: &str =
    "5 000022b7 40510133 00010413 f9c00513 00000597 1a058593 04200613 03800893 00000073 00050493 f9c00513 00000597 18458593 00000613 02300893 00000073 ff840513 00000593 03b00893 00000073 ff842983 ffc42a03 01100513 00000593 0dc00893 00000073 0c050c63 00098513 03900893 00000073 00000513 00040593 00001637 03f00893 00000073 02a05263 00050a93 00048513 000a8613 04000893 00000073 000a0513 00000073 fcdff06f 000a0513 03900893 00000073 00048513 00000593 00000613 03e00893 00000073 00000913 00048513 00040593 00001637 03f00893 00000073 02a05063 00a402b3 00040313 00034383 00790933 00130313 fe531ae3 fd1ff06f 01243023 00100513 00040593 00800613 04000893 00000073 fff00513 00040593 00000613 10400893 00000073 00042503 05d00893 00000073 f9c00513 00000597 07758593 04100613 03800893 00000073 00100593 00000613 01800893 00000073 00098513 00000593 00000073 00098513 03900893 00000073 000a0513 00000073 00000517 03850513 fe043823 ff040593 ff040613 0dd00893 00000073 00100513 05d00893 00000073 6d65742f 61726f70 2f007972 0074756f 6c69662f 00726574";

// Writes each eighth byte of its input.
const FILTER: &str =
    "5 000022b7 40510133 00010413 00000513 00040593 00001637 03f00893 00000073 02a05e63 00a402b3 00040313 00040393 00034e03 01c38023 00830313 00138393 fe5368e3 40838633 00100513 00040593 04000893 00000073 fb5ff06f 05d00893 00000073";

const RELAYED: &str =
    r#"{"version":1,"init":"p.elf","turns":[0,1],"files":[{"path":"filter","from":"f.elf"}],"report":"r","archive":"a"}"#;

// How many bytes are relayed.
const RELAYED_BYTES: u64 = 200_000;

#[test]
fn a_pipe_a_child_and_an_unlinked_file(rt: HostRuntime) -> Result<(), Fail> {
    let alloc = rt.alloc();
    let relay = image(alloc, RELAY, b"")?;
    let filter = image(alloc, FILTER, b"")?;
    let mut input = Vec::new(alloc);
    let mut eighths = Vec::new(alloc);
    let mut sum = 0u64;
    for at in 0..RELAYED_BYTES {
        let byte = at % 251;
        input.push(byte as u8)?;
        sum = sum.wrapping_add(byte);
        if at % 8 == 0 {
            eighths.push(byte as u8)?;
        }
    }
    let mut archive = Vec::from_slice(alloc, b"LEGOARC1\x02\0\0\0\x06\0filter")?;
    archive.extend_from_slice((filter.len() as u64).to_le_bytes().as_slice())?;
    archive.extend_from_slice(filter.as_slice())?;
    archive.extend_from_slice(b"\x03\0out")?;
    archive.extend_from_slice((eighths.len() as u64).to_le_bytes().as_slice())?;
    archive.extend_from_slice(eighths.as_slice())?;
    let mut outcome = outcome_of(
        alloc,
        RELAYED,
        relay.as_slice(),
        filter.as_slice(),
        input.as_slice(),
    )?;
    let report = entry(alloc, &mut outcome.depot, "r")?;
    let archived = entry(alloc, &mut outcome.depot, "a")?;
    assert!(rt;
        is_text(
            report.as_slice(),
            "ending done;turns 1193;exit 2 0;exit 1 0;"
        )
    );
    assert_eq!(rt; outcome.out.bytes(), sum.to_le_bytes().as_slice());
    assert_eq!(rt; archived.as_slice(), archive.as_slice());
    Ok(())
}

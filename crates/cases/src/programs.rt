//! Whole calls: programs of a few words, descriptions, and failures of each object in turn.

use host_io::{Depot, Got, MemDepot, MemSink, MemSource};
use lego_base::{Bytes, LONGEST_FILE};
use lego_top::lego_main;
use std::alloc::Global;
use std::test::Fail;

// The file header and the program header of an image with one load at 0x10000, from the file's start.
// `e_flags` and `p_flags` stand at 48 and 68, the two sizes at 96 and 104.
const HEADERS: [u8; 120] = [
    0x7f, 0x45, 0x4c, 0x46, 2, 1, 1, 0, 0, 0, 0, 0, 0, 0, 0, 0, 2, 0, 0xf3, 0, 1, 0, 0, 0, 0x78, 0,
    1, 0, 0, 0, 0, 0, 64, 0, 0, 0, 0, 0, 0, 0, 0, 0, 0, 0, 0, 0, 0, 0, 0, 0, 0, 0, 64, 0, 56, 0, 1,
    0, 0, 0, 0, 0, 0, 0, 1, 0, 0, 0, 5, 0, 0, 0, 0, 0, 0, 0, 0, 0, 0, 0, 0, 0, 1, 0, 0, 0, 0, 0, 0,
    0, 1, 0, 0, 0, 0, 0, 0, 0, 0, 0, 0, 0, 0, 0, 0, 0, 0, 0, 0, 0, 0, 0, 0, 0x10, 0, 0, 0, 0, 0, 0,
];

// write(1, text, 2), where the text follows the nine words, then exit(0), in an executable load.
const HI: &str =
    "5 00100513 00000597 02058593 00200613 04000893 00000073 00000513 05d00893 00000073";

const PLAIN: &str = r#"{"version":1,"init":"p.elf","report":"r","archive":"a"}"#;

// The file `f` has the bytes of the description itself.
const WITH_FILE: &str =
    r#"{"version":1,"init":"p.elf","files":[{"path":"f","from":"d.json"}],"report":"r","archive":"a"}"#;

// The cases, a line each: the program's flags and its words in hexadecimal | the description, `PLAIN` where there is
// none | the input | which call of the depot, the input, the output and the error fails, 0 for none | the status | what
// the output holds | what the error holds | the report, nothing where there is none. A semicolon is a newline.
const CASES: &str =
    r#"# deaths: a jump to a misaligned address, a breakpoint, an illegal word, a load of address 0
7 00000517 002500e7|||0 0 0 0|0|||ending done;turns 1;exit 1 7;
7 00100073|||0 0 0 0|0|||ending done;turns 1;exit 1 5;
7 00000000|||0 0 0 0|0|||ending done;turns 1;exit 1 4;
7 00003503|||0 0 0 0|0|||ending done;turns 1;exit 1 11;
# exit(20 + write(1, 0, 1)): EFAULT
7 00100513 00000593 00100613 04000893 00000073 01450513 05d00893 00000073|||0 0 0 0|0|||ending done;turns 2;exit 1 1536;
# exit(20 + write(1, sp - 64, 2^64 - 1)): EFAULT
7 00100513 fc010593 fff00613 04000893 00000073 01450513 05d00893 00000073|||0 0 0 0|0|||ending done;turns 2;exit 1 1536;
# exit(20 + write(1, the stack's last byte, 8)): EFAULT
7 400005b7 f0058593 00859593 fff58593 00100513 00800613 04000893 00000073 01450513 05d00893 00000073|||0 0 0 0|0|||ending done;turns 2;exit 1 1536;
# exit(20 + read(2^63, sp - 64, 8)): EBADF
7 00100513 03f51513 fc010593 00800613 03f00893 00000073 01450513 05d00893 00000073|||0 0 0 0|0|||ending done;turns 2;exit 1 2816;
# exit(20 + read(2^64 - 1, 2^64 - 1, 2^64 - 1)): EBADF
7 fff00513 fff00593 fff00613 03f00893 00000073 01450513 05d00893 00000073|||0 0 0 0|0|||ending done;turns 2;exit 1 2816;
# exit(5 + read(0, sp - 64, 8)): none at the end of the input
7 00000513 fc010593 00800613 03f00893 00000073 00550513 05d00893 00000073|||0 0 0 0|0|||ending done;turns 2;exit 1 1280;
# exit_group(getpid() + 2 * getppid() + 4 * gettid() + 8 * set_tid_address() + 16 * sched_yield())
7 00000413 0ac00893 00000073 00051513 00a40433 0ad00893 00000073 00151513 00a40433 0b200893 00000073 00251513 00a40433 06000893 00000073 00351513 00a40433 07c00893 00000073 00451513 00a40433 00040513 05e00893 00000073|||0 0 0 0|0|||ending done;turns 6;exit 1 3328;
# stores `addi a0, x0, 7` over its fifth word, which sets a0 to 1, then exit(a0)
7 00000297 00700337 51330313 0062a823 00100513 05d00893 00000073|||0 0 0 0|0|||ending done;turns 1;exit 1 1792;
# copies standard input to standard output in pieces of 3 bytes
7 00000513 fc010593 00300613 03f00893 00000073 00050c63 00050613 00100513 04000893 00000073 fd9ff06f 00000513 05d00893 00000073||12345678|0 0 0 0|0|12345678||ending done;turns 8;exit 1 0;
# write(1, argv[1], 2), write(2, envp[0], 3), exit(argc); a failure of standard error has no line
5 01013583 00100513 00200613 04000893 00000073 02013583 00200513 00300613 00000073 00013503 05d00893 00000073|{"version":1,"init":"p.elf","args":["p","xy"],"env":["a=1"],"turns":[7,6,5,4,3,2,1],"report":"r","archive":"a"}||0 0 0 0|0|xy|a=1|ending done;turns 3;exit 1 512;
5 01013583 00100513 00200613 04000893 00000073 02013583 00200513 00300613 00000073 00013503 05d00893 00000073|{"version":1,"init":"p.elf","args":["p","xy"],"env":["a=1"],"turns":[7,6,5,4,3,2,1],"report":"r","archive":"a"}||0 0 0 1|13|xy||
# a jump to itself
5 0000006f|{"version":1,"init":"p.elf","max_turns":3,"report":"r","archive":"a"}||0 0 0 0|6|||ending spent;turns 3;
# exit(40 + the call of number 29): ENOSYS
5 01d00893 00000073 02850513 05d00893 00000073|||0 0 0 0|0|||ending done;turns 2;exit 1 512;
# a load that isn't executable
6 00100513 00000597 02058593 00200613 04000893 00000073 00000513 05d00893 00000073|||0 0 0 0|5||lego: image: EntryOutside;|
# write(1, buffer, read(openat(AT_FDCWD, "f", O_RDONLY), buffer, 6)), exit(0), where the file has the description's bytes
5 00000597 04858593 f9c00513 00000613 00000693 03800893 00000073 fc010593 00600613 03f00893 00000073 00050613 00100513 04000893 00000073 00000513 05d00893 00000073 00000066|{"version":1,"init":"p.elf","files":[{"path":"f","from":"d.json"}],"report":"r","archive":"a"}||0 0 0 0|0|{"vers||ending done;turns 4;exit 1 0;
# descriptions: two crashes in one turn, no turns, a program that the depot lacks, a file that it lacks, and both
5|{"version":1,"crashes":[{"turn":5,"after":0,"memory":0},{"turn":5,"after":1,"memory":0}],"init":"p.elf","report":"r","archive":"a"}||0 0 0 0|4||lego: description: range at crashes[1].turn;|
5|{"version":1,"turns":[],"init":"p.elf","report":"r","archive":"a"}||0 0 0 0|4||lego: description: range at turns;|
5|{"version":1,"init":"q.elf","report":"r","archive":"a"}||0 0 0 0|3||lego: missing q.elf;|
5|{"version":1,"init":"p.elf","files":[{"path":"f","from":"p.elf"},{"path":"g","from":"g.txt"}],"report":"r","archive":"a"}||0 0 0 0|3||lego: missing g.txt;|
5|{"version":1,"init":"q.elf","files":[{"path":"g","from":"g.txt"}],"report":"r","archive":"a"}||0 0 0 0|3||lego: missing q.elf;|
# write(1, "ab", 2), write(1, "cd", 2), exit(0), where an object fails; the depot's calls 1, 2 and 7 are the test's own
5 00000597 03058593 00100513 00200613 04000893 00000073 00258593 00100513 00000073 00000513 05d00893 00000073 64636261||x|3 0 0 0|11||lego: depot failed;|
5 00000597 03058593 00100513 00200613 04000893 00000073 00258593 00100513 00000073 00000513 05d00893 00000073 64636261||x|4 0 0 0|11||lego: depot failed;|
5 00000597 03058593 00100513 00200613 04000893 00000073 00258593 00100513 00000073 00000513 05d00893 00000073 64636261||x|5 0 0 0|11|abcd|lego: depot failed;|
5 00000597 03058593 00100513 00200613 04000893 00000073 00258593 00100513 00000073 00000513 05d00893 00000073 64636261||x|6 0 0 0|11|abcd|lego: depot failed;|ending done;turns 3;exit 1 0;
5 00000597 03058593 00100513 00200613 04000893 00000073 00258593 00100513 00000073 00000513 05d00893 00000073 64636261||x|7 0 0 0|0|abcd||
5 00000597 03058593 00100513 00200613 04000893 00000073 00258593 00100513 00000073 00000513 05d00893 00000073 64636261||x|0 1 0 0|9||lego: input failed;|
5 00000597 03058593 00100513 00200613 04000893 00000073 00258593 00100513 00000073 00000513 05d00893 00000073 64636261||x|0 2 0 0|9||lego: input failed;|
5 00000597 03058593 00100513 00200613 04000893 00000073 00258593 00100513 00000073 00000513 05d00893 00000073 64636261||x|0 3 0 0|0|abcd||ending done;turns 3;exit 1 0;
5 00000597 03058593 00100513 00200613 04000893 00000073 00258593 00100513 00000073 00000513 05d00893 00000073 64636261||x|0 0 1 0|12||lego: output failed;|
5 00000597 03058593 00100513 00200613 04000893 00000073 00258593 00100513 00000073 00000513 05d00893 00000073 64636261||x|0 0 2 0|12|ab|lego: output failed;|
5 00000597 03058593 00100513 00200613 04000893 00000073 00258593 00100513 00000073 00000513 05d00893 00000073 64636261||x|0 0 3 0|0|abcd||ending done;turns 3;exit 1 0;
5 00000597 03058593 00100513 00200613 04000893 00000073 00258593 00100513 00000073 00000513 05d00893 00000073 64636261||x|0 0 1 1|12|||
5 00000597 03058593 00100513 00200613 04000893 00000073 00258593 00100513 00000073 00000513 05d00893 00000073 64636261||x|0 0 0 1|0|abcd||ending done;turns 3;exit 1 0;
"#;

// The calls of each object that fail.
#[derive(Clone, Copy)]
struct Fails {
    depot: u64,
    input: u64,
    out: u64,
    err: u64,
}

const NONE: Fails = Fails {
    depot: 0,
    input: 0,
    out: 0,
    err: 0,
};

// What a call leaves.
#[derive(Drop)]
struct Outcome {
    status: u8,
    out: MemSink,
    err: MemSink,
    depot: MemDepot,
}

// An image with these flags and these words in hexadecimal, then these bytes.
pub fn image(alloc: Global, program: &str, text: &[u8]) -> Result<Vec<u8>, Fail> {
    let mut words = program.split_whitespace();
    let flags = words.next().unwrap_or("").parse::<u8>()?;
    let mut code = Vec::new(alloc);
    for word in words {
        code.extend_from_slice(u32::from_str_radix(word, 16)?.to_le_bytes().as_slice())?;
    }
    code.extend_from_slice(text)?;
    let size = (code.len() as u64).saturating_add(120).to_le_bytes();
    let mut bytes = Vec::from_slice(alloc, &HEADERS[..68])?;
    bytes.push(flags)?;
    bytes.extend_from_slice(&HEADERS[69..96])?;
    bytes.extend_from_slice(size.as_slice())?;
    bytes.extend_from_slice(size.as_slice())?;
    bytes.extend_from_slice(&HEADERS[112..])?;
    bytes.extend_from_slice(code.as_slice())?;
    Ok(bytes)
}

fn words_of(alloc: Global, line: &str) -> Result<Vec<String>, Fail> {
    let mut words = Vec::new(alloc);
    for word in line.split_whitespace() {
        words.push(String::from_str(alloc, word)?)?;
    }
    Ok(words)
}

fn depot_with(alloc: Global, desc: &str, program: &[u8], fails: u64) -> Result<MemDepot, Fail> {
    let mut depot = MemDepot::new(alloc, &[fails])?;
    let _ = depot.put("d.json", desc.as_bytes());
    let _ = depot.put("p.elf", program);
    Ok(depot)
}

// A call with this command line, this description, this program and this input.
fn call(
    alloc: Global,
    line: &str,
    desc: &str,
    program: &[u8],
    input: &[u8],
    fails: Fails,
) -> Result<Outcome, Fail> {
    let mut depot = depot_with(alloc, desc, program, fails.depot)?;
    let mut input = MemSource::new(alloc, input, &[fails.input])?;
    let mut out = MemSink::new(alloc, 128, &[fails.out])?;
    let mut err = MemSink::new(alloc, 128, &[fails.err])?;
    let words = words_of(alloc, line)?;
    let ending = lego_main(
        alloc,
        words.as_slice(),
        &mut input,
        &mut out,
        &mut err,
        &mut depot,
    );
    Ok(Outcome {
        status: ending.status(),
        out,
        err,
        depot,
    })
}

// What the depot has under a name, empty where it has nothing.
pub fn entry(alloc: Global, depot: &mut MemDepot, name: &str) -> Result<Bytes, Fail> {
    match depot.get(alloc, name) {
        Got::Found(bytes) => Ok(bytes),
        _ => Ok(Bytes::with_room(alloc, 0)?),
    }
}

// Whether the bytes are this text, with a newline for each semicolon.
pub fn is_text(bytes: &[u8], text: &str) -> bool {
    if bytes.len() != text.len() {
        return false;
    }
    for (found, wanted) in bytes.iter().zip(text.as_bytes()) {
        let same = found == wanted || *found == b'\n' && *wanted == b';';
        if !same {
            return false;
        }
    }
    true
}

// Whether a call left this.
fn left(
    alloc: Global,
    outcome: Outcome,
    status: &str,
    out: &str,
    err: &str,
    report: &str,
) -> Result<bool, Fail> {
    let mut outcome = outcome;
    let found = entry(alloc, &mut outcome.depot, "r")?;
    Ok(
        outcome.status == status.parse::<u8>()?
            && is_text(outcome.out.bytes(), out)
            && is_text(outcome.err.bytes(), err)
            && is_text(found.as_slice(), report),
    )
}

// A column, and the ones after it.
fn cut(columns: &str) -> Result<(&str, &str), Fail> {
    match columns.split_once('|') {
        Some(parts) => Ok(parts),
        None => Err(Fail::from("a case has seven bars")),
    }
}

fn number(word: Option<&str>) -> Result<u64, Fail> {
    Ok(word.unwrap_or("").parse::<u64>()?)
}

fn fails_of(column: &str) -> Result<Fails, Fail> {
    let mut numbers = column.split_whitespace();
    Ok(Fails {
        depot: number(numbers.next())?,
        input: number(numbers.next())?,
        out: number(numbers.next())?,
        err: number(numbers.next())?,
    })
}

// Whether a case is as it says.
fn holds(alloc: Global, case: &str) -> Result<bool, Fail> {
    let (program, rest) = cut(case)?;
    let (desc, rest) = cut(rest)?;
    let (input, rest) = cut(rest)?;
    let (fails, rest) = cut(rest)?;
    let (status, rest) = cut(rest)?;
    let (out, rest) = cut(rest)?;
    let (err, report) = cut(rest)?;
    let desc = if desc.is_empty() { PLAIN } else { desc };
    let program = image(alloc, program, b"")?;
    let outcome = call(
        alloc,
        "plain d.json",
        desc,
        program.as_slice(),
        input.as_bytes(),
        fails_of(fails)?,
    )?;
    left(alloc, outcome, status, out, err, report)
}

#[test]
fn calls_end_as_the_cases_say(rt: HostRuntime) -> Result<(), Fail> {
    for case in CASES.lines() {
        if !case.starts_with('#') {
            assert!(rt; holds(rt.alloc(), case)?, "{case}");
        }
    }
    Ok(())
}

#[test]
fn hi_leaves_report_and_archive(rt: HostRuntime) -> Result<(), Fail> {
    let alloc = rt.alloc();
    let hi = image(alloc, HI, b"hi")?;
    assert_eq!(rt; hi.len(), 158);
    let mut outcome = call(alloc, "plain d.json", PLAIN, hi.as_slice(), b"", NONE)?;
    let archive = entry(alloc, &mut outcome.depot, "a")?;
    assert_eq!(rt; archive.as_slice(), b"LEGOARC1\0\0\0\0".as_slice());
    assert!(rt;
        left(
            alloc,
            outcome,
            "0",
            "hi",
            "",
            "ending done;turns 2;exit 1 0;"
        )?
    );
    Ok(())
}

// A file that is there at the start is in the archive.
#[test]
fn archive_has_the_file_of_the_description(rt: HostRuntime) -> Result<(), Fail> {
    let alloc = rt.alloc();
    let hi = image(alloc, HI, b"hi")?;
    let mut outcome = call(alloc, "plain d.json", WITH_FILE, hi.as_slice(), b"", NONE)?;
    let archive = entry(alloc, &mut outcome.depot, "a")?;
    let mut wanted = Vec::from_slice(alloc, b"LEGOARC1\x01\0\0\0\x01\0f")?;
    wanted.extend_from_slice((WITH_FILE.len() as u64).to_le_bytes().as_slice())?;
    wanted.extend_from_slice(WITH_FILE.as_bytes())?;
    assert_eq!(rt; archive.as_slice(), wanted.as_slice());
    Ok(())
}

// A file that is too short and one that is too long, and an input that is too long.
#[test]
fn lengths_have_limits(rt: HostRuntime) -> Result<(), Fail> {
    let alloc = rt.alloc();
    let hi = image(alloc, HI, b"hi")?;
    let long = vec![in alloc; 0u8; LONGEST_FILE + 1]?;
    let short = &HEADERS[..63];
    let line = "plain d.json";
    let outcome = call(alloc, line, PLAIN, short, b"", NONE)?;
    assert!(rt; left(alloc, outcome, "5", "", "lego: image: Short;", "")?);
    let outcome = call(alloc, line, PLAIN, long.as_slice(), b"", NONE)?;
    assert!(rt;
        left(
            alloc,
            outcome,
            "16",
            "",
            "lego: file p.elf is longer than 16777216 bytes;",
            ""
        )?
    );
    let outcome = call(alloc, line, PLAIN, hi.as_slice(), long.as_slice(), NONE)?;
    assert!(rt;
        left(
            alloc,
            outcome,
            "10",
            "",
            "lego: input is longer than 16777216 bytes;",
            ""
        )?
    );
    Ok(())
}

// Command lines that name no description, and one that the depot lacks.
#[test]
fn command_line_names_a_description(rt: HostRuntime) -> Result<(), Fail> {
    let alloc = rt.alloc();
    for (line, status) in [("", 2u8), ("run d.json", 2), ("plain e.json", 3)] {
        let outcome = call(alloc, line, PLAIN, b"", b"", NONE)?;
        assert_eq!(rt; outcome.status, status);
    }
    Ok(())
}

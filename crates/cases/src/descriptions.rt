//! Descriptions and the answers to them. A line of a table is a case: what is given, the kind of the first fault or
//! `ok`, and the fault's place.

use desc_read::{DescFault, read_plan};
use std::alloc::Global;
use std::process::Abort;
use std::test::Fail;

const REQUIRED: &str = r#""version":1,"init":"i","report":"r","archive":"a""#;

// Fields after the required ones. Of a field that comes twice the last one counts.
const FIELDS: &str = r#"
"version":0|range|version
"version":2|range|version
"version":"1"|kind|version
"version":1.0|kind|version
"frames":[16]|range|frames
"frames":[16,16384]|ok|
"frames":[15,16]|range|frames
"frames":[16,16385]|range|frames
"frames":[16,16,16,16,16,16,16,16]|ok|
"frames":[16,16,16,16,16,16,16,16,16]|range|frames
"frames":[16,16,16,16,16,16,16,16,null]|kind|frames
"frames":[1,true]|kind|frames
"frames":16|kind|frames
"log":0|range|log
"log":1024|ok|
"log":1025|range|log
"log":-1|range|log
"log":-0|kind|log
"log":1e2|kind|log
"log":18446744073709551615|range|log
"log":18446744073709551616|kind|log
"log":-9223372036854775808|range|log
"log":-9223372036854775809|kind|log
"log":{}|kind|log
"blocks":0|range|blocks
"blocks":131072|ok|
"blocks":131073|range|blocks
"blocks":[]|kind|blocks
"cache_blocks":0|range|cache_blocks
"cache_blocks":1024|ok|
"cache_blocks":1025|range|cache_blocks
"cache_blocks":true|kind|cache_blocks
"processors":0|range|processors
"processors":8|ok|
"processors":9|range|processors
"processors":null|kind|processors
"sets":0|range|sets
"sets":1|ok|
"sets":48|range|sets
"sets":1024|ok|
"sets":2048|range|sets
"sets":"64"|kind|sets
"ways":0|range|ways
"ways":16|ok|
"ways":17|range|ways
"ways":[4]|kind|ways
"placement":[]|range|placement
"placement":[2,0]|ok|
"placement":[3]|range|placement
"placement":{}|kind|placement
"turns":[]|range|turns
"turns":[4294967295]|ok|
"turns":[4294967296]|range|turns
"turns":0|kind|turns
"quantum":0|range|quantum
"quantum":100000|ok|
"quantum":100001|range|quantum
"quantum":1.5|kind|quantum
"max_turns":0|range|max_turns
"max_turns":10000000|ok|
"max_turns":10000001|range|max_turns
"max_turns":""|kind|max_turns
"deliveries":[]|range|deliveries
"deliveries":[0,4294967295]|ok|
"deliveries":[4294967296]|range|deliveries
"deliveries":null|kind|deliveries
"init":""|range|init
"init":"a\u0000"|range|init
"init":1|kind|init
"args":[]|range|args
"args":["","/x"]|ok|
"args":["\u0000"]|range|args
"args":["\u0000",1]|kind|args
"args":"x"|kind|args
"env":[]|ok|
"env":["A=1"]|ok|
"env":[null]|kind|env
"env":{}|kind|env
"files":[]|ok|
"files":{}|kind|files
"files":[1]|object|files[0]
"files":[{}]|absent|files[0].path
"files":[{"path":"p","from":"f"},{"path":"q","from":"f"}]|ok|
"files":[{"path":"p","from":"f"},{"path":"p"}]|range|files[1].path
"files":[{"path":"p"}]|absent|files[0].from
"files":[{"path":"p","from":""}]|range|files[0].from
"files":[{"path":"p","from":[]}]|kind|files[0].from
"files":[{"path":"","from":"f"}]|range|files[0].path
"files":[{"path":"/","from":"f"}]|range|files[0].path
"files":[{"path":"a/b","from":"f"}]|range|files[0].path
"files":[{"path":".","from":"f"}]|range|files[0].path
"files":[{"path":"..","from":"f"}]|range|files[0].path
"files":[{"path":"a\u0000","from":"f"}]|range|files[0].path
"files":[{"path":"...","from":"f"}]|ok|
"files":[{"path":1,"to":1}]|unknown|files[0].to
"report":""|range|report
"report":false|kind|report
"archive":"r"|range|archive
"archive":2|kind|archive
"crashes":[]|ok|
"crashes":0|kind|crashes
"crashes":[[]]|object|crashes[0]
"crashes":[{"turn":5,"after":0,"memory":0},{"turn":5,"after":1,"memory":1}]|range|crashes[1].turn
"crashes":[{"turn":5,"after":0,"memory":0},{"turn":6,"after":1,"memory":1}]|ok|
"crashes":[{"turn":0,"after":4294967295,"memory":2}]|ok|
"crashes":[{"turn":1000000,"after":0,"memory":0}]|ok|
"crashes":[{"turn":1000001,"after":0,"memory":0}]|range|crashes[0].turn
"crashes":[{"turn":1,"after":4294967296,"memory":0}]|range|crashes[0].after
"crashes":[{"turn":1,"after":0,"memory":3}]|range|crashes[0].memory
"crashes":[{"turn":null,"after":0,"memory":3}]|kind|crashes[0].turn
"crashes":[{"turn":1,"after":0}]|absent|crashes[0].memory
"crashes":[{"turn":1,"b":0,"a":0}]|unknown|crashes[0].a
"crashes":[{}],"init":1|absent|crashes[0].turn
"log":5,"log":1|ok|
"log":1,"log":0|range|log
"zz":1,"zy":1,"version":9|unknown|zy
"":1|unknown|
"log":[[[{"a":[1,{}]}]]]|kind|log
"#;

const DESCRIPTIONS: &str = r#"
|syntax|.
{|syntax|.
{}{}|syntax|.
[1]|object|.
null|object|.
{}|absent|version
{"version":1}|absent|init
{"version":1,"init":"i"}|absent|report
{"version":1,"init":"i","report":"r"}|absent|archive
{"a":"\ud800"}|syntax|.
{"version":1e400}|syntax|.
"#;

// Whether a description's answer is this kind, or `ok`, and this place.
fn is_answer(alloc: Global, description: &[u8], kind: &str, place: &str) -> bool {
    match read_plan(alloc, description) {
        Ok(_) => kind == "ok",
        Err(DescFault::NoMemory) => false,
        Err(
            DescFault::Bad {
                kind: found,
                place: at,
            },
        ) => found.word() == kind && at.as_slice() == place.as_bytes(),
    }
}

// Compares the answers to the cases of a table, each with this text before and after what it gives.
fn expect_answers(
    rt: &impl Abort,
    alloc: Global,
    table: &str,
    before: &str,
    after: &str,
) -> Result<(), Fail> {
    for case in table.split_whitespace() {
        let Some((given, answer)) = case.split_once('|') else {
            return Err(Fail::from("a case has two bars"));
        };
        let Some((kind, place)) = answer.split_once('|') else {
            return Err(Fail::from("a case has two bars"));
        };
        let description = format!(in alloc; "{before}{given}{after}")?;
        assert!(rt;
            is_answer(alloc, description.as_bytes(), kind, place),
            "{case}"
        );
    }
    Ok(())
}

#[test]
fn fields_have_their_kinds_and_ranges(rt: HostRuntime) -> Result<(), Fail> {
    let before = format!(in rt.alloc(); "{{{REQUIRED},")?;
    expect_answers(&rt, rt.alloc(), FIELDS, before.as_str(), "}")
}

#[test]
fn descriptions_are_objects_with_the_required_fields(rt: HostRuntime) -> Result<(), Fail> {
    expect_answers(&rt, rt.alloc(), DESCRIPTIONS, "", "")?;
    assert!(rt; is_answer(rt.alloc(), b"\xff".as_slice(), "syntax", "."));
    assert!(rt; is_answer(rt.alloc(), b"{\"\xff\":1}".as_slice(), "syntax", "."));
    Ok(())
}

// A list of `count` items.
fn list_of(alloc: Global, item: &str, count: usize) -> Result<String, Fail> {
    let mut list = String::from_str(alloc, "[")?;
    for k in 0..count {
        if k > 0 {
            list.push_str(",")?;
        }
        list.push_str(item)?;
    }
    list.push_str("]")?;
    Ok(list)
}

#[test]
fn lists_have_their_greatest_lengths(rt: HostRuntime) -> Result<(), Fail> {
    let alloc = rt.alloc();
    for (field, item, count, kind) in [
        ("turns", "9", 65536, "ok"),
        ("turns", "9", 65537, "range"),
        ("deliveries", "9", 65536, "ok"),
        ("deliveries", "9", 65537, "range"),
        ("placement", "1", 1024, "ok"),
        ("placement", "1", 1025, "range"),
        ("args", "\"\"", 512, "ok"),
        ("args", "\"\"", 513, "range"),
        ("env", "\"\"", 511, "ok"),
        ("env", "\"\"", 512, "range"),
        ("crashes", "[]", 65537, "range"),
        ("files", "[]", 1025, "range"),
    ] {
        let list = list_of(alloc, item, count)?;
        let description = format!(in alloc; "{{{REQUIRED},\"{field}\":{list}}}")?;
        assert!(rt;
            is_answer(alloc, description.as_bytes(), kind, field),
            "{field} {count}"
        );
    }
    Ok(())
}

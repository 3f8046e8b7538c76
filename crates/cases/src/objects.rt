//! Each object of the outside world once, on its happy path and at each failure.

use host_io::{
    CalmSource, Depot, Failed, FileDepot, Got, InputStop, MemDepot, MemSink, MemSource, Sink,
    Source, StdSink, StdSource, read_all, write_all,
};
use std::fs;
use std::io::Cursor;
use std::test::Fail;

#[test]
fn a_source_in_memory_fails_by_its_list(rt: HostRuntime) -> Result<(), Fail> {
    let mut source = MemSource::new(rt.alloc(), b"hello", &[2, 4]).map_err(|_| "memory")?;
    let mut buf = [0u8; 3];
    for (count, bytes, faults) in [
        (Some(3), b"hel", 0),
        (None, b"hel", 1),
        (Some(2), b"lol", 1),
        (None, b"lol", 2),
        (Some(0), b"lol", 2),
    ] {
        assert_eq!(rt; source.read(&mut buf).ok(), count);
        assert_eq!(rt; buf.as_slice(), bytes.as_slice());
        assert_eq!(rt; source.faults(), faults);
    }
    Ok(())
}

#[test]
fn a_source_is_read_to_its_end(rt: HostRuntime) -> Result<(), Fail> {
    let many = vec![in rt.alloc(); 7u8; 9000]?;
    let mut source = CalmSource::new(rt.alloc(), many.as_slice()).map_err(|_| "memory")?;
    let all = read_all(rt.alloc(), &mut source, 9000).map_err(|_| "short")?;
    assert_eq!(rt; all.as_slice(), many.as_slice());
    Ok(())
}

#[test]
fn reading_stops_for_its_reason(rt: HostRuntime) -> Result<(), Fail> {
    for (most, fail, want) in [
        (5, 9, Ok(5)),
        (4, 9, Err(InputStop::Long)),
        (5, 1, Err(InputStop::Failed)),
        (5, 2, Err(InputStop::Failed)),
    ] {
        let fails = [fail];
        let made = MemSource::new(rt.alloc(), b"hello", fails.as_slice());
        let mut source = made.map_err(|_| "memory")?;
        let read = read_all(rt.alloc(), &mut source, most);
        assert_eq!(rt; read.map(|bytes| bytes.len()), want);
    }
    Ok(())
}

#[test]
fn a_reader_is_read_to_its_end(rt: HostRuntime) -> Result<(), Fail> {
    let mut reader = StdSource::new(b"hello".as_slice());
    let read = read_all(rt.alloc(), &mut reader, 5).map_err(|_| "short")?;
    assert_eq!(rt; read.as_slice(), b"hello".as_slice());
    assert_eq!(rt; reader.faults(), 0);
    Ok(())
}

#[test]
fn a_sink_in_memory_fails_by_its_list(rt: HostRuntime) -> Result<(), Fail> {
    let mut sink = MemSink::new(rt.alloc(), 2, &[2]).map_err(|_| "memory")?;
    for (piece, taken, held, faults) in [
        (b"ab", Ok(()), b"ab".as_slice(), 0),
        (b"cd", Err(Failed), b"ab".as_slice(), 1),
        (b"ef", Ok(()), b"abef".as_slice(), 1),
    ] {
        assert_eq!(rt; write_all(&mut sink, piece), taken);
        assert_eq!(rt; sink.bytes(), held);
        assert_eq!(rt; sink.faults(), faults);
    }
    Ok(())
}

#[test]
fn a_full_writer_fails(rt: HostRuntime) {
    let mut sink = StdSink::new(Cursor::new([0u8; 4]));
    for (piece, taken, faults) in [
        (b"ab".as_slice(), Ok(2), 0),
        (b"cde".as_slice(), Ok(2), 0),
        (b"".as_slice(), Ok(0), 0),
        (b"e".as_slice(), Err(Failed), 1),
    ] {
        assert_eq!(rt; sink.write(piece), taken);
        assert_eq!(rt; sink.faults(), faults);
    }
}

// The bytes that were found, or a word for another answer.
fn shown(got: &Got) -> &[u8] {
    match got {
        Got::Found(bytes) => bytes.as_slice(),
        Got::Missing => b"missing",
        Got::Failed => b"failed",
        Got::NoMemory => b"no memory",
    }
}

#[test]
fn a_depot_in_memory_fails_by_its_list(rt: HostRuntime) -> Result<(), Fail> {
    let mut depot = MemDepot::new(rt.alloc(), &[4, 7]).map_err(|_| "memory")?;
    assert_eq!(rt; shown(&depot.get(rt.alloc(), "a")), b"missing".as_slice());
    assert_eq!(rt; depot.put("a", b"one"), Ok(()));
    assert_eq!(rt; depot.put("b", b"two"), Ok(()));
    assert_eq!(rt; depot.put("a", b"three"), Err(Failed));
    assert_eq!(rt; shown(&depot.get(rt.alloc(), "a")), b"one".as_slice());
    assert_eq!(rt; depot.put("a", b"three"), Ok(()));
    assert_eq!(rt; shown(&depot.get(rt.alloc(), "a")), b"failed".as_slice());
    assert_eq!(rt; shown(&depot.get(rt.alloc(), "a")), b"three".as_slice());
    assert_eq!(rt; shown(&depot.get(rt.alloc(), "b")), b"two".as_slice());
    assert_eq!(rt; depot.faults(), 2);
    Ok(())
}

#[test]
fn files_are_put_and_found(rt: HostRuntime) -> Result<(), Fail> {
    let mut depot = FileDepot::new(&rt);
    let name = "host_io_test.tmp";
    assert_eq!(rt; shown(&depot.get(rt.alloc(), name)), b"missing".as_slice());
    assert_eq!(rt; depot.put(name, b"one"), Ok(()));
    assert_eq!(rt; depot.put(name, b"two"), Ok(()));
    assert_eq!(rt; shown(&depot.get(rt.alloc(), name)), b"two".as_slice());
    assert_eq!(rt; depot.faults(), 0);
    assert_eq!(rt; shown(&depot.get(rt.alloc(), ".")), b"failed".as_slice());
    assert_eq!(rt; depot.put(".", b"one"), Err(Failed));
    assert_eq!(rt; depot.faults(), 2);
    fs::remove_file(&rt, name)?;
    Ok(())
}

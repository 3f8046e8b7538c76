//! Files in a store of few blocks.

use file_table::{FileFault, Files};
use lego_base::FileNo;
use std::alloc::Global;
use std::test::Fail;

// A store of three blocks with the files `b` and `a`.
fn two_files(alloc: Global) -> Result<Files, Fail> {
    let mut files = Files::new(alloc, 3)?;
    files.make(b"b")?;
    files.make(b"a")?;
    Ok(files)
}

#[test]
fn a_file_without_a_name_stays_until_it_is_freed(rt: HostRuntime) -> Result<(), Fail> {
    let mut files = two_files(rt.alloc())?;
    assert_eq!(rt; files.make(b"b")?, FileNo(0));
    files.unlink(b"b");
    assert_eq!(rt; files.find(b"b"), None);
    files.free(FileNo(0));
    files.free(FileNo(1));
    assert_eq!(rt; files.make(b"c")?, FileNo(2));
    assert_eq!(rt; files.names(rt.alloc())?.len(), 2);
    Ok(())
}

#[test]
fn room_ends_at_1024_files(rt: HostRuntime) -> Result<(), Fail> {
    let mut files = Files::new(rt.alloc(), 0)?;
    for number in 0..1024u32 {
        files.make(number.to_be_bytes().as_slice())?;
    }
    assert_eq!(rt; files.make(b"one more"), Err(FileFault::NoRoom));
    assert_eq!(rt; files.make([0, 0, 3, 255].as_slice()), Ok(FileNo(1023)));
    Ok(())
}

#[test]
fn a_block_has_what_was_written(rt: HostRuntime) -> Result<(), Fail> {
    let mut files = two_files(rt.alloc())?;
    let file = FileNo(1);
    assert!(rt; files.has(file));
    files.write_at(file, 4097, b"x")?;
    assert!(rt; files.has(file));
    files.truncate(file, 12288)?;
    assert!(rt; files.has(file));
    let block = files.read_block(rt.alloc(), file, 1)?;
    assert!(rt; block.as_slice().starts_with(b"\0x\0"));
    Ok(())
}

#[test]
fn the_store_is_full_past_its_blocks(rt: HostRuntime) -> Result<(), Fail> {
    let mut files = two_files(rt.alloc())?;
    assert!(rt; files.has(FileNo(0)));
    files.write_at(FileNo(0), 4096, b"x")?;
    for (size, answer) in [
        (4096, Ok(())),
        (4097, Err(FileFault::StoreFull)),
        (0, Ok(())),
    ] {
        assert!(rt; files.has(FileNo(1)));
        assert_eq!(rt; files.truncate(FileNo(1), size), answer);
    }
    Ok(())
}

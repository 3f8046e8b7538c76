//! A file is made, written, read, cut, unlinked and freed.

use crate::files::PlainFiles;
use lego_base::FileNo;
use std::test::Fail;

#[test]
fn a_file_without_a_name_stays_until_it_is_freed(rt: HostRuntime) -> Result<(), Fail> {
    let alloc = rt.alloc();
    let mut files = PlainFiles::new(alloc);
    let file = files.make(b"f")?.unwrap_or(FileNo(7));
    files.write(file, 2, b"hi")?;
    files.cut(file, 5)?;
    files.unlink(b"f");
    assert!(rt; files.find(b"f").is_none());
    assert_eq!(rt; files.size(file), 5);
    let bytes = files.read(alloc, file, 1, 4)?;
    assert!(rt; bytes.as_slice() == b"\0hi\0".as_slice());
    files.free(file);
    Ok(())
}

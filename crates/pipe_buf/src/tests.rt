//! A pipe from empty to full and past its ring's end.

use crate::{PIPE_BYTES, Pipe};
use std::test::Fail;

#[test]
fn bytes_come_out_in_order(rt: HostRuntime) -> Result<(), Fail> {
    let mut pipe = Pipe::new(rt.alloc())?;
    let many = vec![in rt.alloc(); 7u8; PIPE_BYTES]?;
    assert_eq!(rt; pipe.put(b"abc"), 3);
    assert_eq!(rt; pipe.put(many.as_slice()), 65533);
    assert_eq!(rt; pipe.put(b"d"), 0);
    let mut buf = [0u8; 4];
    assert_eq!(rt; pipe.peek(&mut buf), 4);
    assert_eq!(rt; buf.as_slice(), b"abc\x07".as_slice());
    assert_eq!(rt; pipe.take(&mut buf[..2]), 2);
    assert_eq!(rt; pipe.room(), 2);
    assert_eq!(rt; pipe.put(b"xyz"), 2);
    let mut rest = vec![in rt.alloc(); 0u8; PIPE_BYTES]?;
    assert_eq!(rt; pipe.take(rest.as_mut_slice()), PIPE_BYTES);
    assert!(rt; rest.as_slice().starts_with(b"c\x07") && rest.as_slice().ends_with(b"\x07xy"));
    assert!(rt; pipe.is_empty());
    assert_eq!(rt; pipe.take(&mut buf), 0);
    Ok(())
}

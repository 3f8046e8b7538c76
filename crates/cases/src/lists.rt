//! Lists of bytes, texts and items, once each.

use lego_base::{Bytes, Seq, Text};
use std::test::Fail;

#[test]
fn lists_hold_what_they_were_given(rt: HostRuntime) -> Result<(), Fail> {
    let alloc = rt.alloc();
    let mut bytes = Bytes::from_slice(alloc, b"ab".as_slice())?;
    assert_eq!(rt; bytes.clone()?.as_slice(), b"ab".as_slice());
    bytes.set(b"c".as_slice());
    assert_eq!(rt; bytes.as_slice(), b"c".as_slice());
    assert_eq!(rt; bytes.len(), 1);
    assert!(rt; Bytes::with_room(alloc, 100)?.is_empty());
    let all = Bytes::from_vec(bytes.into_vec())?;
    assert_eq!(rt; all.into_vec().as_slice(), b"c".as_slice());

    let mut numbers = Seq::new(alloc);
    assert!(rt; numbers.is_empty());
    numbers.push(7u32)?;
    numbers.push(8)?;
    assert_eq!(rt; numbers.len(), 2);
    assert_eq!(rt;
        Seq::from_vec(numbers.clone()?.into_vec()).as_slice(),
        [7, 8].as_slice()
    );

    let text = Text::from_str(alloc, "name")?;
    assert_eq!(rt; text.clone()?.as_str(), "name");
    Ok(())
}

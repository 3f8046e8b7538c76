//! Two sets of one line.

use crate::{Tags, Touch};
use lego_base::{LineNo, Pid};
use std::test::Fail;

#[test]
fn the_oldest_line_leaves(rt: HostRuntime) -> Result<(), Fail> {
    let mut tags = Tags::new(rt.alloc(), 2, 1)?;
    let first = matches!(tags.touch(Pid(1), LineNo(4)), Touch::Miss { slot: 0, .. });
    tags.mark(0, true);
    let hit = matches!(tags.touch(Pid(1), LineNo(4)), Touch::Hit(0));
    let left = matches!(
        tags.touch(Pid(2), LineNo(6)),
        Touch::Miss {
            slot: 0,
            victim: Some(_)
        }
    );
    let clean = !tags.dirty(0);
    let least = tags.next_line(Pid(2), LineNo(0), LineNo(7)).is_some();
    tags.remove(Pid(2), LineNo(6));
    let gone = tags.peek(Pid(2), LineNo(6)).is_none();
    assert!(rt; first && hit && left && clean && least && gone);
    Ok(())
}

//! Two sets of one line.

use crate::{Line, LineCache};
use bitflags::Flags;
use cache_tags::Touch;
use lego_base::{LineNo, MemId, Perms, Pid};
use rv64_step::Width;
use std::test::Fail;

#[test]
fn a_line_comes_in_is_written_and_leaves(rt: HostRuntime) -> Result<(), Fail> {
    let mut cache = LineCache::new(rt.alloc(), 2, 1)?;
    let line = Line {
        bytes: [7; 64],
        owner: MemId(3),
        perms: Perms::from_bits_retain(7),
    };
    let absent = cache.look_up(Pid(1), LineNo(4)).is_none();
    let first = cache.come_in(Pid(1), LineNo(4), &line);
    let owned = cache.owner(first).0 == 3 && cache.perms(first).bits() == 7;
    cache.put(first, 8, Width::Word, 0x0403_0201);
    assert!(rt; absent && owned);
    if let Some(slot) = cache.look_up(Pid(1), LineNo(4)) {
        let number = cache.number(slot, 7, Width::Double);
        let byte = cache.bytes(slot)[11];
        assert!(rt; number == 0x0707_0704_0302_0107 && byte == 4 && cache.is_dirty(slot));
        cache.clean(slot);
        cache.write(slot, 0, &[1, 2, 3]);
    }
    let far = cache.fetch_at_hand(Pid(1), 260).is_none();
    cache.keep_at_hand(Pid(1), 300);
    let word = cache.fetch_at_hand(Pid(1), 260);
    let other = cache.fetch_at_hand(Pid(2), 260).is_none();
    let across = cache.fetch_at_hand(Pid(1), 317).is_none();
    assert!(rt; far && word == Some(0x0707_0707) && other && across);
    let leaves = matches!(
        cache.preview(Pid(2), LineNo(6)),
        Touch::Miss {
            slot: 0,
            victim: Some(_)
        }
    );
    let _second = cache.come_in(Pid(2), LineNo(6), &line);
    let laid_down = cache.fetch_at_hand(Pid(1), 260).is_none();
    let gone = cache.peek(Pid(1), LineNo(4)).is_none();
    let least = cache.next_line(Pid(2), LineNo(0), LineNo(7)).is_some();
    cache.remove(Pid(2), LineNo(6));
    let removed = cache.peek(Pid(2), LineNo(6)).is_none();
    assert!(rt; leaves && laid_down && gone && least && removed);
    let counts = cache.counts();
    assert!(rt;
        counts.hits == 2 && counts.misses == 2 && counts.evictions == 1 && counts.writebacks == 2
    );
    Ok(())
}

//! A healing of a memory with no region.

use heal_steps::{Heal, HealMove};
use lego_base::{MemId, Seq};
use lego_msg::Body;
use std::test::Fail;

fn is_sent(step: HealMove) -> bool {
    matches!(step, HealMove::Send(_, _))
}

#[test]
fn the_drain_is_awaited(rt: HostRuntime) -> Result<(), Fail> {
    let alloc = rt.alloc();
    let mut heal = Heal::begin(alloc, MemId(1), 2, Seq::new(alloc), Seq::new(alloc))?;
    let drain = is_sent(heal.next(None));
    let early = is_sent(heal.next(None));
    let homes = is_sent(heal.next(Some(Body::Drained)));
    let goes_on = drain && !early && homes && !heal.is_last();
    assert!(rt; goes_on);
    Ok(())
}

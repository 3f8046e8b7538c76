//! An operation of two targets.

use lego_base::{MemId, OpNo};
use lego_msg::Place;
use op_track::Op;
use std::test::Fail;

#[test]
fn a_crash_forgets_the_answer(rt: HostRuntime) -> Result<(), Fail> {
    let memory = Place::Memory(MemId(1));
    let targets = [memory, Place::Storage];
    let mut op = Op::new(rt.alloc(), OpNo(7), &targets)?;
    assert_eq!(rt; op.number().0, 7);
    op.answered(memory);
    op.crashed(memory);
    op.answered(Place::Storage);
    assert!(rt; !op.complete());
    op.answered(memory);
    assert!(rt; op.complete());
    Ok(())
}

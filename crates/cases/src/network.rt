//! The network on its happy path.

use lego_base::{MemId, OpNo};
use lego_msg::{Body, Message, Place};
use net_fabric::Net;
use std::test::Fail;

fn drain_of(to: Place, number: u64) -> Message {
    Message {
        from: Place::Manager,
        to,
        op: OpNo(number),
        body: Body::Drain,
    }
}

#[test]
fn choices_count_from_the_oldest_message(rt: HostRuntime) -> Result<(), Fail> {
    let mut net = Net::new(rt.alloc())?;
    let memory = Place::Memory(MemId(1));
    net.send(drain_of(memory, 1))?;
    net.send(drain_of(Place::Storage, 2))?;
    net.send(drain_of(Place::Storage, 3))?;
    let picked = net.take(4).op.0 == 2;
    net.lose(memory);
    let left = net.pending() == 1 && net.pending_of(OpNo(3)) == 1;
    let last = net.pick(5).is_some() && net.pick(0).is_none();
    assert!(rt; picked && left && last);
    Ok(())
}

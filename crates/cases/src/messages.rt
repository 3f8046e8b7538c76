//! Events that watches hold, and what judges say of lists of events.

use lego_base::{
    Area, HomeEntry, MemId, NoMemory, OpNo, Perms, Pid, RegionNo, Seq, SpaceAreas, Vpn,
};
use lego_msg::{Body, Event, Message, Place, Role, Watch, Why};
use lego_watch::{ListWatch, has_answered, is_complete, picked};
use std::alloc::Global;
use std::test::Fail;

const M1: Place = Place::Memory(MemId(1));

fn one<T: Drop>(alloc: Global, item: T) -> Result<Seq<T>, NoMemory> {
    let mut list = Seq::new(alloc);
    list.push(item)?;
    Ok(list)
}

fn meta(alloc: Global) -> Result<Body, NoMemory> {
    let home = HomeEntry {
        pid: Pid(1),
        region: RegionNo(0),
        owner: MemId(1),
    };
    let area = Area {
        first: Vpn(16),
        pages: 2,
        perms: Perms::READ,
    };
    let space = SpaceAreas {
        pid: Pid(1),
        region: RegionNo(0),
        areas: one(alloc, area)?,
    };
    Ok(Body::PushMeta {
        role: Role::Spare,
        homes: one(alloc, home)?,
        areas: one(alloc, space)?,
    })
}

fn from_m1(body: Body) -> Message {
    Message {
        from: M1,
        to: Place::Manager,
        op: OpNo(3),
        body,
    }
}

// An event, as it is written.
fn written(alloc: Global, event: &Event) -> Result<String, Fail> {
    Ok(format!(in alloc; "{event:?}")?)
}

// Whether a watch that was shown an event holds one that is written alike.
fn is_held_alike(alloc: Global, watch: &ListWatch, event: &Event) -> Result<bool, Fail> {
    let shown = written(alloc, event)?;
    match watch.events().first() {
        Some(held) => Ok(written(alloc, held)?.as_str() == shown.as_str()),
        None => Ok(false),
    }
}

// Shows the event of a message to a new watch, and says whether the watch holds it.
fn is_copied(alloc: Global, body: Body) -> Result<bool, Fail> {
    let event = Event::Send(from_m1(body));
    let mut watch = ListWatch::new(alloc, &[]).map_err(|_| "memory")?;
    watch.see(&event);
    is_held_alike(alloc, &watch, &event)
}

#[test]
fn a_watch_holds_copies(rt: HostRuntime) -> Result<(), Fail> {
    let alloc = rt.alloc();
    match meta(alloc) {
        Ok(body) => assert!(rt; is_copied(alloc, body)?),
        Err(_) => assert!(rt; false),
    }
    Ok(())
}

#[test]
fn kinds_have_their_names(rt: HostRuntime) {
    assert_eq!(rt; Body::BackedUp.kind(), "BackedUp");
    assert_eq!(rt; Body::Refused(Why::NoArea).kind(), "Refused");
}

#[test]
fn a_watch_holds_events_up_to_its_first_fault(rt: HostRuntime) -> Result<(), Fail> {
    let mut watch = ListWatch::new(rt.alloc(), &[2]).map_err(|_| "memory")?;
    for (op, held, faults) in [(1, 1, 0), (2, 1, 1), (3, 1, 2)] {
        watch.see(&Event::Complete(OpNo(op)));
        assert_eq!(rt; watch.events().len(), held);
        assert_eq!(rt; watch.faults(), faults);
    }
    Ok(())
}

#[test]
fn the_delivery_list_picks(rt: HostRuntime) {
    for (number, pending, place) in [
        (0, 3, Some(0)),
        (1, 3, Some(2)),
        (3, 10, Some(9)),
        (2, 0, None),
    ] {
        assert_eq!(rt; picked([0, 2519].as_slice(), number, pending), place);
    }
}

// A memory's answer, its crash, and its answer again.
fn answered_twice() -> [Event; 3] {
    let crash = Event::Crash {
        memory: MemId(1),
        inc: 1,
    };
    [
        Event::Deliver(from_m1(Body::Wrote)),
        crash,
        Event::Deliver(from_m1(Body::Wrote)),
    ]
}

#[test]
fn a_crash_forgets_answers(rt: HostRuntime) {
    let events = answered_twice();
    for (count, answered) in [(0, false), (1, true), (2, false), (3, true)] {
        let (shown, _) = events.as_slice().split_at(count);
        assert_eq!(rt; has_answered(OpNo(3), true, M1, shown), answered);
    }
}

#[test]
fn what_is_pending_keeps_an_operation_open(rt: HostRuntime) {
    let events = answered_twice();
    for (op, complete) in [(3, false), (4, true)] {
        let mut message = from_m1(Body::Done);
        message.op = OpNo(op);
        let pending = [message];
        let done = is_complete(OpNo(3), true, &[M1], events.as_slice(), pending.as_slice());
        assert_eq!(rt; done, complete);
    }
}

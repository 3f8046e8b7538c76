//! A machine of two memories and one processor, on which nothing was made or mapped.

ghost use Rattle.std.specs.Prelude.{◌≡◌, IfOk};
ghost use Rattle.ex_memory.specs.Tried.{small};

use crate::ExMemory;
use lego_base::{MemId, NoMemory, Pid, Seq, Shape};
use lego_msg::{Event, Watch};
use std::alloc::Global;
use std::test::Fail;

// Tells nothing and never fails.
#[derive(Drop)]
struct Unwatched;

impl Watch for Unwatched {
    ghost use Rattle.std.specs.Prelude.{None};

    ghost told = { λ w. None };

    ghost faults = { λ w. 0 };

    fn see(&mut self, event: &Event) {
        let _event = event;
    }

    fn is_quiet(&self) -> bool {
        true
    }

    fn faults(&self) -> u64 {
        0
    }
}

fn two_memories(alloc: Global) -> Result<Shape, NoMemory>
    ensures { IfOk result (λ shape. shape ≡ small) }
{
    let mut frames = Seq::new(alloc);
    frames.push(16)?;
    frames.push(16)?;
    let mut placement = Seq::new(alloc);
    placement.push(MemId(0))?;
    placement.push(MemId(1))?;
    let mut deliveries = Seq::new(alloc);
    deliveries.push(0)?;
    Ok(Shape {
        frames,
        log: 1,
        blocks: 8,
        cache_blocks: 1,
        processors: 1,
        sets: 1,
        ways: 1,
        placement,
        deliveries,
        crashes: Seq::new(alloc),
    })
}

#[test]
fn a_turn_has_no_file_and_no_areas(rt: HostRuntime) -> Result<(), Fail> {
    let alloc = rt.alloc();
    let shape = two_memories(alloc)?;
    let mut memory = ExMemory::boot(alloc, &shape)?;
    let mut watch = Unwatched;
    assert!(rt; memory.begin_turn(0, Pid(0), &mut watch).is_ok());
    let file = memory
        .find(b"a", &mut watch)
        .expect(&rt, "the file with a name");
    assert!(rt; file.is_none());
    let areas = memory
        .areas(Pid(1), &mut watch)
        .expect(&rt, "the areas of a process");
    assert!(rt; areas.runs().is_empty());
    assert!(rt; memory.end_turn(&mut watch).is_ok());
    let counts = memory
        .counts(memory.processor(Pid(1)))
        .expect(&rt, "the counts of its processor");
    assert!(rt; counts.hits == 0 && counts.misses == 0);
    Ok(())
}

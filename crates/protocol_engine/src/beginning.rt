//! A cluster before its first event, as its parts.

ghost use Rattle.std.specs.Prelude.{◌≡◌, ◌<◌, ◌≤◌, ◌^◌, ◌+◌, ◌++◌, ◌∷◌, [], IfOk, OnOk, length};
ghost use Rattle.lego_msg.specs.State.{empty_mem};
ghost use Rattle.lego_msg.specs.Track.{empty_mems, memory_count};
ghost use Rattle.protocol_engine.specs.Booting.{IsBooted};

use crate::engine::Engine;
use lego_base::{MemId, NoMemory, Seq, Shape};
use lego_msg::Clock;
use mem_monitor::Memory;
use net_fabric::Net;
use placement::Table;
use std::alloc::Global;
use storage_monitor::Store;

/// The engine of a machine of this shape, before its first event.
pub fn boot(alloc: Global, shape: &Shape) -> Result<Engine, NoMemory>
    requires few { memory_count shape.now ≤ 8 }
    requires placement { 0 < length shape.now.placement }
    ensures { IfOk result (λ e. IsBooted shape.now e) }
{
    let memories = empty_memories(alloc, shape)?;
    let store = Store::new(alloc, shape.blocks)?;
    let net = Net::new(alloc)?;
    let count = shape.frames.len() as u32;
    let table = Table::new(alloc, count, shape.placement.as_slice())?;
    let shape = shape.clone()?;
    Ok(Engine {
        alloc,
        shape,
        memories,
        store,
        net,
        owed: Seq::new(alloc),
        delivered: 0,
        next: 1,
        current: None,
        healing: None,
        clock: Clock {
            begun: false,
            turn: 0,
            since: 0,
            passed: 0,
        },
        table,
    })
}

// One empty memory for each number of frames.
fn empty_memories(alloc: Global, shape: &Shape) -> Result<Vec<Memory>, NoMemory>
    requires { memory_count shape.now ≤ 8 }
    ensures { IfOk result (λ memories. memories.items ≡ empty_mems shape.now 0 shape.now.frames) }
{
    let mut memories = Vec::new(alloc);
    let sizes = shape.frames.as_slice();
    for frames in sizes {
        let id = MemId(memories.len() as u32);
        add_memory(&mut memories, alloc, id, *frames, shape)?;
    }
    Ok(memories)
}

// Adds an empty memory.
fn add_memory(
    memories: &mut Vec<Memory>,
    alloc: Global,
    id: MemId,
    frames: u32,
    shape: &Shape,
) -> Result<(), NoMemory>
    ensures { OnOk result (memories.new.items ≡ memories.old.items ++ empty_mem id.0 frames shape.now.log shape.now.cache_blocks 0 ∷ []) }
{
    let memory = Memory::new(alloc, id, frames, shape.log, shape.cache_blocks)?;
    memories.push(memory)?;
    Ok(())
}

//! The moves of a healing.

ghost use Rattle.std.specs.Prelude.{◌≡◌, ◌<◌, ◌++◌, IfOk, OnOk};
ghost use Rattle.lego_msg.specs.Healing.{images_back, images_anew};
ghost use Rattle.heal_steps.specs.Steps.{entries_of, moves_for, meta_moved, drained_first};

use lego_base::{MemId, NoMemory, Pid, RegionNo};
use lego_msg::{Body, Move, Place, Role};
use placement::{guarded, secondary};
use std::alloc::Global;
use std::collections::VecDeque;

/// All moves of the healing of `crashed`, in order.
pub(crate) fn moves_of(
    alloc: Global,
    crashed: MemId,
    memories: u32,
    of_crashed: &[(Pid, RegionNo)],
    of_guarded: &[(Pid, RegionNo)],
) -> Result<VecDeque<Move>, NoMemory>
    requires { 0 < memories }
    ensures { IfOk result (λ moves. moves.items ≡ moves_for memories crashed.0 of_crashed.now of_guarded.now) }
{
    let secondary = secondary(crashed, memories);
    let guarded = guarded(crashed, memories);
    let mut moves = VecDeque::new(alloc);
    add_drain(&mut moves, secondary)?;
    add_meta(
        &mut moves,
        secondary,
        crashed,
        Role::Spare,
        crashed,
        Role::Main,
    )?;
    add_images(&mut moves, crashed, of_crashed)?;
    add_meta(
        &mut moves,
        guarded,
        guarded,
        Role::Main,
        crashed,
        Role::Spare,
    )?;
    add_pages(&mut moves, guarded, of_guarded)?;
    Ok(moves)
}

// The drain of a memory's log.
fn add_drain(moves: &mut VecDeque<Move>, memory: MemId) -> Result<(), NoMemory>
    ensures { OnOk result (moves.new.items ≡ moves.old.items ++ drained_first memory.0) }
{
    moves.push_back(Move::Asks {
        to: Place::Memory(memory),
        body: Body::Drain,
    })?;
    Ok(())
}

// The homes and areas of memory `of` go from one memory to another.
fn add_meta(
    moves: &mut VecDeque<Move>,
    from: MemId,
    of: MemId,
    kept_as: Role,
    to: MemId,
    role: Role,
) -> Result<(), NoMemory>
    ensures { OnOk result (moves.new.items ≡ moves.old.items ++ meta_moved from.0 of kept_as to.0 role) }
{
    moves.push_back(Move::Asks {
        to: Place::Memory(from),
        body: Body::PullMeta { of, role: kept_as },
    })?;
    moves.push_back(Move::HandsMeta {
        to: Place::Memory(to),
        role,
    })?;
    Ok(())
}

// The images of each region go from storage to a memory.
fn add_images(
    moves: &mut VecDeque<Move>,
    memory: MemId,
    regions: &[(Pid, RegionNo)],
) -> Result<(), NoMemory>
    ensures { OnOk result (moves.new.items ≡ moves.old.items ++ images_back memory.0 (entries_of memory regions.now)) }
{
    for (pid, region) in regions {
        let (pid, region) = (*pid, *region);
        moves.push_back(Move::Asks {
            to: Place::Storage,
            body: Body::PullImages { pid, region },
        })?;
        moves.push_back(Move::HandsImages {
            to: Place::Memory(memory),
            pid,
            region,
        })?;
    }
    Ok(())
}

// The pages of each region go from a memory to storage, in place of the images there.
fn add_pages(
    moves: &mut VecDeque<Move>,
    memory: MemId,
    regions: &[(Pid, RegionNo)],
) -> Result<(), NoMemory>
    ensures { OnOk result (moves.new.items ≡ moves.old.items ++ images_anew memory.0 (entries_of memory regions.now)) }
{
    for (pid, region) in regions {
        let (pid, region) = (*pid, *region);
        moves.push_back(Move::Asks {
            to: Place::Memory(memory),
            body: Body::PullPages { pid, region },
        })?;
        moves.push_back(Move::HandsPages { pid, region })?;
    }
    Ok(())
}

//! A program and its description, drawn from a seed.

ghost use Rattle.std.specs.Prelude.{◌≡◌, ◌++◌, IfOk, map};
ghost use Rattle.desc_read.specs.Plans.{memory};
ghost use Rattle.guest_gen.specs.Guests.{guest, plan_drawn, plan_with, shape_for};

use crate::assembly::assembled;
use crate::draws::Draws;
use crate::file::image;
use crate::job::draw_jobs;
use crate::steps::program;
use desc_read::Plan;
use lego_base::{Bytes, MemId, NoMemory, Seq, Shape, Text};
use std::alloc::Global;

/// A generated program.
#[derive(Debug, Drop)]
pub struct Generated {
    /// Its ELF file.
    pub image: Bytes,
    /// Its description.
    pub plan: Plan,
}

/// The program of a seed. The prefix begins the names of its file, its report and its archive.
pub fn make(alloc: Global, seed: u32, prefix: &str) -> Result<Generated, NoMemory>
    ensures { IfOk result (λ g. g ≡ guest seed prefix.now) }
{
    let mut draws = Draws { state: seed };
    let pattern = draws.bytes(alloc, 2048)?;
    let count = 64 + draws.below(64);
    let jobs = draw_jobs(&mut draws, alloc, count)?;
    let steps = program(alloc, jobs.as_slice())?;
    let code = assembled(alloc, steps.as_slice())?;
    let file = image(alloc, code.as_slice(), pattern.as_slice())?;
    let image = Bytes::from_vec(file)?;
    let plan = draw_plan(&mut draws, alloc, prefix)?;
    Ok(Generated { image, plan })
}

// The plan that is drawn after the jobs.
fn draw_plan(draws: &mut Draws, alloc: Global, prefix: &str) -> Result<Plan, NoMemory>
    ensures { IfOk result (λ p. p ≡ plan_drawn prefix.now draws.old.state) }
{
    let places = draws.numbers(alloc, 8, 3)?;
    let turns = draws.numbers(alloc, 16, 64)?;
    let deliveries = draws.numbers(alloc, 16, 64)?;
    let shape = shape_for(alloc, places.as_slice(), deliveries)?;
    plan_with(alloc, prefix, shape, turns)
}

fn shape_for(alloc: Global, places: &[u32], deliveries: Vec<u32>) -> Result<Shape, NoMemory>
    ensures { IfOk result (λ s. s ≡ shape_for places.now deliveries.items) }
{
    Ok(Shape {
        frames: Seq::from_vec(vec![in alloc; 4096; 3]?),
        log: 256,
        blocks: 16384,
        cache_blocks: 64,
        processors: 2,
        sets: 64,
        ways: 4,
        placement: memories(alloc, places)?,
        deliveries: Seq::from_vec(deliveries),
        crashes: Seq::new(alloc),
    })
}

fn memories(alloc: Global, places: &[u32]) -> Result<Seq<MemId>, NoMemory>
    ensures { IfOk result (λ s. s ≡ map memory places.now) }
{
    let mut memories = Vec::with_capacity(alloc, places.len())?;
    for place in places {
        memories.push(MemId(*place))?;
    }
    Ok(Seq::from_vec(memories))
}

fn plan_with(alloc: Global, prefix: &str, shape: Shape, turns: Vec<u32>) -> Result<Plan, NoMemory>
    ensures { IfOk result (λ p. p ≡ plan_with prefix.now shape turns.items) }
{
    let init = named(alloc, prefix, ".elf")?;
    let mut args = Seq::new(alloc);
    args.push(Bytes::from_slice(alloc, init.as_str().as_bytes())?)?;
    Ok(Plan {
        shape,
        turns: Seq::from_vec(turns),
        quantum: 1000,
        max_turns: 1000000,
        init,
        args,
        env: Seq::new(alloc),
        files: Seq::new(alloc),
        report: named(alloc, prefix, ".report")?,
        archive: named(alloc, prefix, ".archive")?,
    })
}

// A name that begins with the prefix.
fn named(alloc: Global, prefix: &str, ending: &str) -> Result<Text, NoMemory>
    ensures { IfOk result (λ t. t ≡ prefix.now ++ ending.now) }
{
    let mut name = String::from_str(alloc, prefix)?;
    name.push_str(ending)?;
    Ok(Text::from_str(alloc, name.as_str())?)
}

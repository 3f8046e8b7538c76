//! The fields of the schedule: turns, deliveries and crashes.

ghost use Rattle.std.specs.Prelude.{◌≡◌, ◌<◌, ◌^◌, IfOk};
ghost use Rattle.serde_json.specs.View.{view};
ghost use Rattle.desc_read.specs.Faults.{Gives};
ghost use Rattle.desc_read.specs.Plans.{schedule_of, crashes_of, crash_of};

use crate::fault::DescFault;
use crate::numbers::Span;
use crate::object_reader::ObjectReader;
use crate::place::{Entry, EntryList};
use lego_base::{CrashAt, MemId, Seq};

/// The order of turns, deliveries and crashes.
#[derive(Drop)]
pub(crate) struct ScheduleFields {
    pub(crate) turns: Seq<u32>,
    pub(crate) quantum: u32,
    pub(crate) max_turns: u64,
    pub(crate) deliveries: Seq<u32>,
    pub(crate) crashes: Seq<CrashAt>,
}

// The fields from turns to crashes.
pub(crate) fn read_schedule(
    object: &ObjectReader<'_>,
    last_memory: u32,
) -> Result<ScheduleFields, DescFault>
    ensures { Gives result (schedule_of object.now.entry (view object.now.value.now) last_memory) }
{
    let turns = object.numbers("turns", Span(1, 65536), Span(0, u32::MAX), &[0])?;
    let quantum = object.number("quantum", Span(1, 100_000), Some(1000))?;
    let max_turns = object.number("max_turns", Span(1, 10_000_000), Some(1_000_000))?;
    let deliveries = object.numbers("deliveries", Span(1, 65536), Span(0, u32::MAX), &[0])?;
    let crashes = read_crashes(object, max_turns, last_memory)?;
    Ok(ScheduleFields {
        turns,
        quantum,
        max_turns: u64::from(max_turns),
        deliveries,
        crashes,
    })
}

// The crashes, each at a later turn than the one before it.
fn read_crashes(
    object: &ObjectReader<'_>,
    max_turns: u32,
    last_memory: u32,
) -> Result<Seq<CrashAt>, DescFault>
    ensures { Gives result (crashes_of object.now.entry (view object.now.value.now) max_turns last_memory) }
{
    let values = object.entries(EntryList::Crashes, 65536)?;
    let mut crashes = Vec::with_capacity(object.alloc, values.len())?;
    let mut least_turn = 0u64;
    for (index, value) in values.iter().enumerate() {
        let entry = ObjectReader {
            alloc: object.alloc,
            value,
            entry: Some(Entry {
                list: EntryList::Crashes,
                index,
            }),
        };
        let crash = read_crash(&entry, least_turn, max_turns, last_memory)?;
        least_turn = crash.turn + 1;
        crashes.push(crash)?;
    }
    Ok(Seq::from_vec(crashes))
}

// One crash, at this turn or later.
fn read_crash(
    object: &ObjectReader<'_>,
    least_turn: u64,
    max_turns: u32,
    last_memory: u32,
) -> Result<CrashAt, DescFault>
    ensures gives { Gives result (crash_of object.now.entry (view object.now.value.now) least_turn max_turns last_memory) }
    ensures small { IfOk result (λ crash. crash.turn < 2 ^ 32) }
{
    object.only(&["turn", "after", "memory"])?;
    let turn = object.number("turn", Span(least_turn, max_turns), None)?;
    let after = object.number("after", Span(0, u32::MAX), None)?;
    let memory = object.number("memory", Span(0, last_memory), None)?;
    Ok(CrashAt {
        turn: u64::from(turn),
        after,
        memory: MemId(memory),
    })
}

//! The whole description.

ghost use Rattle.std.specs.Prelude.{◌≡◌, codes};
ghost use Rattle.serde_json.specs.View.{view};
ghost use Rattle.desc_read.specs.Faults.{Gives, IsFault};
ghost use Rattle.desc_read.specs.Plans.{plan_of, plan_from, described};

use crate::fault::{DescFault, DescKind};
use crate::machine_fields::{MachineFields, read_machine};
use crate::object_reader::ObjectReader;
use crate::plan::Plan;
use crate::program_fields::{ProgramFields, read_program};
use crate::schedule_fields::{ScheduleFields, read_schedule};
use lego_base::Bytes;
use serde_json::{Category, Value};
use std::alloc::Global;

const FIELDS: [&str; 20] = [
    "version",
    "frames",
    "log",
    "blocks",
    "cache_blocks",
    "processors",
    "sets",
    "ways",
    "placement",
    "turns",
    "quantum",
    "max_turns",
    "deliveries",
    "crashes",
    "init",
    "args",
    "env",
    "files",
    "report",
    "archive",
];

/// The plan of a description, a JSON text. `Bad` names its first fault; memory may run out at any string.
pub fn read_plan(alloc: Global, bytes: &[u8]) -> Result<Plan, DescFault>
    ensures { Gives result (described bytes.now) }
{
    match Value::from_slice(alloc, bytes) {
        Ok(value) => plan_of_value(alloc, &value),
        Err(refusal) => match refusal.classify() {
            Category::Memory => Err(DescFault::NoMemory),
            _ => Err(no_text(alloc)),
        },
    }
}

// The fault of bytes that aren't a JSON text.
fn no_text(alloc: Global) -> DescFault
    ensures { IsFault DescKind.Syntax (codes ".") result }
{
    DescFault::at(DescKind::Syntax, Bytes::from_slice(alloc, b"."))
}

// The plan of a description's value.
fn plan_of_value(alloc: Global, value: &Value) -> Result<Plan, DescFault>
    ensures { Gives result (plan_of (view value.now)) }
{
    let object = ObjectReader {
        alloc,
        value,
        entry: None,
    };
    object.only(&FIELDS)?;
    let machine = read_machine(&object)?;
    let last_memory = (machine.frames.len() as u32).saturating_sub(1);
    let schedule = read_schedule(&object, last_memory)?;
    let program = read_program(&object)?;
    Ok(join(machine, schedule, program))
}

// The plan of the three groups of fields.
fn join(machine: MachineFields, schedule: ScheduleFields, program: ProgramFields) -> Plan
    ensures { result ≡ plan_from machine schedule program }
{
    let ScheduleFields {
        turns,
        quantum,
        max_turns,
        deliveries,
        crashes,
    } = schedule;
    let ProgramFields {
        init,
        args,
        env,
        files,
        report,
        archive,
    } = program;
    Plan {
        shape: machine.into_shape(deliveries, crashes),
        turns,
        quantum,
        max_turns,
        init,
        args,
        env,
        files,
        report,
        archive,
    }
}

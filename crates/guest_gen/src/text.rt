//! The text of a generated program's description.

ghost use Rattle.std.specs.Prelude.{◌≡◌, ℕ, Some, IfOk, map};
ghost use Rattle.serde_json.specs.Read.{read};
ghost use Rattle.serde_json.specs.View.{view};
ghost use Rattle.guest_gen.specs.Text.{data_of, numbers, text_of};

use desc_read::Plan;
use lego_base::{Bytes, MemId, NoMemory};
use serde_json::{Value, json};
use std::alloc::{AllocError, Global};

/// The text of a description that says what a generated plan has beside the defaults: compact JSON, with its fields by name.
pub fn plan_text(alloc: Global, plan: &Plan) -> Result<Bytes, NoMemory>
    ensures text { IfOk result (λ b. b ≡ text_of plan.now) }
    ensures read { IfOk result (λ b. read b ≡ Some (data_of plan.now)) }
{
    Ok(Bytes::from_vec(plan_bytes(alloc, plan)?)?)
}

fn plan_bytes(alloc: Global, plan: &Plan) -> Result<Vec<u8>, AllocError>
    ensures text { IfOk result (λ b. b.items ≡ text_of plan.now) }
    ensures read { IfOk result (λ b. read b.items ≡ Some (data_of plan.now)) }
{
    let value = plan_value(alloc, plan)?;
    value.to_vec(alloc)
}

// The description as a value of JSON.
fn plan_value(alloc: Global, plan: &Plan) -> Result<Value, AllocError>
    ensures { IfOk result (λ v. view v ≡ data_of plan.now) }
{
    let deliveries = numbers(alloc, plan.shape.deliveries.as_slice())?;
    let frames = numbers(alloc, plan.shape.frames.as_slice())?;
    let placement = memories(alloc, plan.shape.placement.as_slice())?;
    let turns = numbers(alloc, plan.turns.as_slice())?;
    json!(in alloc; {
        "archive": plan.archive.as_str(),
        "deliveries": deliveries,
        "frames": frames,
        "init": plan.init.as_str(),
        "placement": placement,
        "report": plan.report.as_str(),
        "turns": turns,
        "version": 1u32,
    })
}

// A list of numbers.
fn numbers(alloc: Global, list: &[u32]) -> Result<Value, AllocError>
    ensures { IfOk result (λ v. view v ≡ numbers list.now) }
{
    let mut values = Vec::with_capacity(alloc, list.len())?;
    for number in list {
        values.push(Value::from(*number))?;
    }
    Ok(Value::Array(values))
}

// A list of memories' numbers.
fn memories(alloc: Global, list: &[MemId]) -> Result<Value, AllocError>
    ensures { IfOk result (λ v. view v ≡ numbers (map (λ memory. memory.0) list.now)) }
{
    let mut values = Vec::with_capacity(alloc, list.len())?;
    for memory in list {
        values.push(Value::from(memory.0))?;
    }
    Ok(Value::Array(values))
}

//! The healing of a memory that crashed.

ghost use Rattle.std.specs.Prelude.{◌≡◌, ◌<◌, IfOk, false};
ghost use Rattle.lego_msg.specs.Healing.{moves_of};

use heal_steps::{Heal, all_moves_are_those_of_healing};
use lego_base::{MemId, NoMemory};
use placement::{Table, guarded};
use std::alloc::Global;

/// The healing of a memory, with the owners that regions have now.
pub fn healing(alloc: Global, crashed: MemId, table: &Table) -> Result<Heal, NoMemory>
    requires { 0 < table.now.memories }
    ensures { IfOk result (λ heal. heal ≡ record { waits = false; moves = moves_of table.now.memories crashed.0 table.now.owners }) }
{
    let memories = table.memories();
    let of_crashed = table.owned_by(alloc, crashed)?;
    let of_guarded = table.owned_by(alloc, guarded(crashed, memories))?;
    all_moves_are_those_of_healing();
    Heal::begin(alloc, crashed, memories, of_crashed, of_guarded)
}

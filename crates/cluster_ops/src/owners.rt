//! Owners once an operation is complete.

ghost use Rattle.std.specs.Prelude.{◌≡◌};
ghost use Rattle.lego_msg.specs.Completions.{owners_after};

use lego_msg::Operation;
use placement::Table;

/// Ends the owners that end with an operation: those of a space that was dropped.
pub fn end_owners(table: &mut Table, operation: &Operation)
    ensures { table.new ≡ record table.old { owners = owners_after operation.now table.old.owners } }
{
    match operation {
        Operation::Drops { pid } => table.drop_process(*pid),
        _ => {}
    }
}

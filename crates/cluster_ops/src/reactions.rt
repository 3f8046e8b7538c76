//! What an operation does on a message that is no answer.

ghost use Rattle.std.specs.Prelude.{◌≡◌, IfOk};
ghost use Rattle.lego_msg.specs.Deliveries.{reaction as reaction_to, reaction_of};
ghost use Rattle.lego_msg.specs.Operations.{patch_of};

use lego_base::{NoMemory, Patch};
use lego_msg::{Body, Operation};

/// What the operation's issuer sends back on a message of the operation: a drain where the log was full, and the patch
/// again, a copy of it, once the log is drained. `None` where the message is an answer.
pub fn reaction(operation: &Operation, body: &Body) -> Result<Option<Body>, NoMemory>
    ensures { IfOk result (λ sent. sent ≡ reaction_of (patch_of operation.now) body.now) }
{
    match operation {
        Operation::Writes { patch, .. } => reaction_to(patch, body),
        _ => Ok(None),
    }
}

fn reaction_to(patch: &Patch, body: &Body) -> Result<Option<Body>, NoMemory>
    ensures { IfOk result (λ sent. sent ≡ reaction_to patch.now body.now) }
{
    match body {
        Body::LogFull => Ok(Some(Body::Drain)),
        Body::Drained => {
            let patch = patch.clone()?;
            Ok(Some(Body::LogWrite { patch }))
        }
        _ => Ok(None),
    }
}

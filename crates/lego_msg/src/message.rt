//! Messages between components.

ghost use Rattle.std.specs.Prelude.{◌≡◌};

use crate::body::Body;
use crate::place::Place;
use lego_base::OpNo;
use std::alloc::AllocError;

/// A message between components.
#[derive(Debug, Drop)]
pub struct Message {
    pub from: Place,
    pub to: Place,
    pub op: OpNo, // the operation that it belongs to; 0 for what memories send on their own account
    pub body: Body,
}

impl Clone for Message {
    ghost is_clone = { λ message copy. copy ≡ message };

    fn clone(&self) -> Result<Message, AllocError> {
        let body = self.body.clone()?;
        Ok(Message {
            from: self.from,
            to: self.to,
            op: self.op,
            body,
        })
    }
}

//! Who asked.

use lego_base::OpNo;
use lego_msg::Place;

/// Who sent a message, and the operation that it belongs to: where its answer goes.
#[derive(Clone, Copy, Debug)]
pub struct Asker {
    pub place: Place,
    pub op: OpNo,
}

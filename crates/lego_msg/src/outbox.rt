//! What a component sends.

use crate::message::Message;
use lego_base::Seq;

/// What a component sends, in order.
pub type Outbox = Seq<Message>;

//! What storage answers.

ghost use Rattle.std.specs.Prelude.{◌≡◌, Ok, Some};

use lego_base::NoMemory;
use lego_msg::{Body, Message, Place};

/// An answer, and whom it goes to.
#[derive(Debug, Drop)]
pub(crate) struct Reply {
    pub to: Place,
    pub body: Body,
}

/// An answer to who sent the message.
pub(crate) fn says(m: &Message, body: Body) -> Result<Option<Reply>, NoMemory>
    ensures { result ≡ Ok (Some (record { to = m.now.from; body = body })) }
{
    tells(m.from, body)
}

/// An answer to a place.
pub(crate) fn tells(to: Place, body: Body) -> Result<Option<Reply>, NoMemory>
    ensures { result ≡ Ok (Some (record { to = to; body = body })) }
{
    Ok(Some(Reply { to, body }))
}

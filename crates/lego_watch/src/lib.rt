//! Watches of a run's events, and judges of lists of events.
//!
//! [`ListWatch`] holds the events that it is shown and can be told to fail, [`CountWatch`] keeps nothing. [`picked`],
//! [`has_answered`], [`is_pending`] and [`is_complete`] decide from a list of events alone, in plain slow code, what
//! the delivery list picks and when an operation is complete: each has the definition of lego_msg as its contract.
#![tactic(auto)]

mod count_watch;
mod judge;
mod list_watch;

pub use count_watch::CountWatch;
pub use judge::{has_answered, is_complete, is_pending, picked};
pub use list_watch::ListWatch;

//! The network between the components: the list of pending messages, in order of sending.
//!
//! Contracts see a [`Net`] as that list. What is sent comes last; a delivery takes the message at its choice modulo how
//! many are pending, as `picked` and `taken_out` of lego_msg say of a delivery list of that one choice; and the crash of
//! a place loses what is on its way to it or from it, `lose` of lego_msg. The laws in `laws` tie the choice to the whole
//! delivery list, and the count of an operation's messages to the question whether one is pending.
#![tactic(auto)]

mod laws;
mod net;

pub use laws::{choices_follow_the_list, counts_tell_what_is_pending};
pub use net::Net;

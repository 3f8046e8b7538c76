//! The one error of the outside world.

use thiserror::Error;

/// The host refused a call. The object's count of faults rose.
#[derive(Clone, Copy, Debug, PartialEq, Eq, Error)]
#[error("the host failed")]
pub struct Failed;

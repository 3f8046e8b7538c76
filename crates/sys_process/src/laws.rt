//! What a reader may ask of the calls' clauses.

ghost use Rattle.sys_process.specs.Ends.{EndFollows};

/// The effects of a call's row, and those that [`end_call`](crate::end_call) does after them, are what a turn of linux_model has
/// of the call; and the kernel that they make holds what the manager holds then.
pub fn an_end_follows_its_effects()
    ensures { EndFollows }
{}

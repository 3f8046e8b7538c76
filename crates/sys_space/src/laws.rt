//! What a reader may ask of the calls' clauses.

ghost use Rattle.sys_space.specs.Laws.{LentIsThere};

/// The kernel with what a process and a machine hold in place of its own is the kernel, where they hold its own: what is said of
/// a call is said of every kernel in which a process makes it.
pub fn what_is_lent_is_there()
    ensures { LentIsThere }
{}

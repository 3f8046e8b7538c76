//! What holds of every plan.

ghost use Rattle.desc_read.specs.Laws.{PlansAreBounded, StringsAreFew};

/// The arguments and the environment of a plan have at most 512 strings, of at most 65536 bytes with their
/// closing zeros.
pub fn strings_are_few()
    ensures { StringsAreFew }
{}

/// A plan has at least one number for its turns, turns of at most 100000 instructions, at most 10000000 turns, and
/// at most 1024 files, whose paths differ and have at most 255 bytes.
pub fn plans_are_bounded()
    ensures { PlansAreBounded }
{}

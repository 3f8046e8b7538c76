//! What a reader may ask of healing: each law is the contract of a function.

ghost use Rattle.heal_steps.specs.Laws.{MovesAreThoseOfHealing, MovesGoOutInOrder};

/// With the regions that the crashed memory owns and those of the memory whose secondary it is, the moves are those of
/// its healing.
pub fn all_moves_are_those_of_healing()
    ensures { MovesAreThoseOfHealing }
{}

/// Given one answer after another, the messages that go out are those of the moves in their order, each with the answer
/// of the one before it; then the healing is finished.
pub fn moves_go_out_in_order()
    ensures { MovesGoOutInOrder }
{}

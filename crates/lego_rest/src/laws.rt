//! The first laws of the relations between the components and the plain map: each is the contract of a function.

ghost use Rattle.lego_rest.specs.Laws.{StartRests, RestIsMiddle, MiddleIsRest, RestIsOfComponents};

/// Before the first event all is at rest, where the machine is in form.
pub fn the_beginning_is_at_rest()
    ensures { StartRests }
{}

/// Rest is a case of what holds at every moment.
pub fn rest_is_a_case_of_the_middle()
    ensures { RestIsMiddle }
{}

/// What holds at every moment is rest where nothing is open, nothing heals and nothing was refused.
pub fn the_middle_with_nothing_open_is_rest()
    ensures { MiddleIsRest }
{}

/// Rest is said of the components alone, whatever is still to come and whatever the caches hold.
pub fn rest_is_of_the_components()
    ensures { RestIsOfComponents }
{}

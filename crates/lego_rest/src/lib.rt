//! The relations that tie the components of the split run to the plain map, as definitions with their first laws.
//!
//! `specs/Rest` has both: `AtRest`, where nothing is open, and `Middle`, which holds at every moment, while an operation is
//! open or a memory is being healed. What is compared is a cell (`specs/Parts`): an entry of a home, the areas of a
//! region, a page that is there or not. `specs/Answers` says who has answered, `specs/Pending` what may be pending,
//! `specs/Fits` what each component is by itself, `specs/Heals` how far a healing is. `specs/Laws` has the laws.
#![tactic(auto)]

mod laws;

pub use laws::{
    rest_is_a_case_of_the_middle, rest_is_of_the_components, the_beginning_is_at_rest,
    the_middle_with_nothing_open_is_rest,
};

//! What is known of the functions of modules over what stands of functions outside of them: laws, by which a part of
//! the modules may be solved anew over what stands of the others.
#![tactic(auto)]

mod laws;

pub use laws::{
    known_is_carried, known_of_parts, known_rests_on_calls, one_is_known, order_does_not_matter,
    solved_is_known, some_is_known,
};

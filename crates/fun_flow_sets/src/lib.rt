//! Which functions an application of a value may enter: the least sets of functions, one for each place of
//! a program, under the rules that its text makes. The definitions are in `specs/`; here are their laws:
//! the rules one by one in `rules`, that the sets are the least in `sets`, and two modules worked by hand in
//! `worked`.
#![tactic(auto)]

mod rules;
mod sets;
mod worked;

pub use rules::{
    arguments_flow, bodies_are_results, calls_find, captured_keep_places, clauses_are_joined,
    functions_have_themselves, operators_enter, parameters_may_be_anything, parts_are_joined,
    patterns_bind, unknown_values, values_pass_on,
};
pub use sets::{applications_are_in_order, at_end, constants_stay, sets_are_least};
pub use worked::worked_modules;

//! Why no application of a value enters a function that the least sets don't hold for it. The words of the
//! statements are in `specs/`; here is the law.
#![tactic(auto)]

mod laws;

pub use laws::only_listed_are_entered;

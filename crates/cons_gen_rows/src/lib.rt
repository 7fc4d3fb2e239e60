//! The rows of which the constraint of a text is made: what a walk through the text has made so far, with its
//! steps; patterns, which are walked through whole; and what calls, literals and functions say.
#![tactic(auto)]

mod calls;
mod counts;
mod generator;
mod leaves;
mod members;
mod passes;
mod patterns;
mod types;
mod variables;
mod words;

pub use counts::{call_names, call_results, passed_on, result_count, whatever_asked};
pub use generator::Generator;
pub use members::Members;
pub use passes::{Pass, Surroundings};
pub use patterns::walk_outer;
pub use types::{all_naturals, function_type, literal_type};
pub use variables::Variables;
pub use words::{Elements, inner_cells};

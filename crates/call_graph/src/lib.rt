//! The call graph: which functions of modules that are analysed together call which, and which calls leave them.
#![tactic(auto)]

mod among;
mod expressions;
mod keys;
mod laws;
mod pairs;
mod patterns;
mod table;
mod walk;

pub use among::{AsFunction, CallsAmong, calls_among, discard_calls};
pub use laws::outside_laws;
pub use pairs::{AllCalls, all_calls, graph};
pub use table::{FunctionTable, Resolved, discard_table, function_table};
pub use walk::OutsideCall;

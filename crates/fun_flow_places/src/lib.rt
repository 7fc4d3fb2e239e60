//! Places, items and rules of a flow of functions as values of the code, and what a walk through a program
//! looks up: names with values, and the functions that modules export.
#![tactic(auto)]

mod bindings;
mod places;
mod table;

pub use bindings::Bindings;
pub use places::{FlowPlace, FlowRule, Item};
pub use table::{
    FoundFunction, FunctionLabels, ModuleTable, define_all, define_module, module_table,
};

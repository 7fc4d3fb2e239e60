//! What a table between runs keeps: which entries may stand, by groups of modules that call one another, and the entry
//! that is made of a module that was solved.
#![tactic(auto)]

mod calls;
mod candidates;
mod group_list;
mod grouping;
mod laws;
mod made;
mod members;
mod module_graph;
mod rising;
mod source;
mod unchanged_groups;

pub use calls::{called_functions, called_modules};
pub use group_list::{GroupList, GroupMember};
pub use grouping::groups;
pub use laws::{call_laws, some_groups, spelled_laws};
pub use made::entry_from;
pub use rising::{InOrder, once_each};
pub use source::{Source, discard_source};
pub use unchanged_groups::{entry_may_stand, unchanged};

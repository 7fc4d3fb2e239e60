//! What a component is solved from, and what that gives.
use crate::members::Member;
use cons_tree::{Summaries, Summary};
use core_ast::FunName;
use type_kinds::{Atom, List, Shared};

/// A function that is called: its module, its name, and whether its module exports it.
pub type Listed = (Atom, FunName, bool);

/// What a component is solved from, beside the outputs of the components that it calls.
#[derive(Drop)]
pub struct CompPart {
    /// The functions of the component.
    pub members: List<Member>,
    /// What is known of names that stand in no component.
    pub fixed: Summaries,
    /// For each component that this one calls the list of its functions, in the order of its output. All parts that call
    /// the component may share the list.
    pub callees: List<Shared<List<Listed>>>,
}

/// What a solved component gives: the summaries of its members, in their order.
#[derive(Drop)]
pub struct CompOut {
    pub summaries: List<Summary>,
}

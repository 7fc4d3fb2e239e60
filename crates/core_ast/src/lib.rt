//! The syntax tree of Core Erlang, as its text says it.
//!
//! Contracts of other crates speak of its model, `specs/Model.antt`: one constructor a form, a mark
//! at each node that has one. `specs/Tree.antt` leads from the types here to the model.
#![tactic(auto)]

mod comparing;
mod comparing_trees;
mod drops;
mod expression_makers;
mod notes;
mod part_makers;
mod pattern_makers;
mod readers;
mod syntax;

pub use comparing::{equal_definition, same, same_name};
pub use drops::{
    discard, discard_all, discard_clause, discard_clauses, discard_definition, discard_definitions,
    discard_fun, discard_functions, discard_module, discard_pair, discard_pairs, discard_pattern,
    discard_pattern_pair, discard_pattern_pairs, discard_pattern_segment, discard_pattern_segments,
    discard_patterns, discard_segment, discard_segments, discard_step, discard_steps, discard_try,
};
pub use syntax::{
    Clause, Expr, Form, Fun, FunDef, FunDefOf, FunName, FunOf, Literal, MapPair, Mark, Module,
    Note, PatForm, PatPair, PatSegment, Pattern, Segment, Step, StepOf, TryOf, TryParts, VarName,
};

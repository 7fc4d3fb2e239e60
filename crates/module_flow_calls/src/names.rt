//! The functions that stand in a text, and those whose names stand as values in it.
ghost use Rattle.std.specs.Prelude.{◌≡◌, ◌≤◌, ◌∷◌, [], length, OnOk, IfOk};
ghost use Rattle.core_ast.specs.Tree.{all_clauses, all_defs, all_pairs, all_pat_pairs, all_pat_segments};
ghost use Rattle.core_ast.specs.Tree.{all_patterns, all_segments, all_steps, all_trees, pattern_tree, tree};
ghost use Rattle.core_scope.specs.Functions.{functions_of_defs};
ghost use Rattle.module_flow_calls.specs.Escapes.{escaping, label_listed};
ghost use Rattle.module_flow_calls.specs.Functions.{label_named};
ghost use Rattle.module_flow_calls.specs.NamedFunctions.{named_function, named_functions};
ghost use Rattle.module_flow_calls.specs.steps.Gathering.{defined_around, defining, in_all, in_clauses, in_defs, in_pairs, in_pat_pairs};
ghost use Rattle.module_flow_calls.specs.steps.Gathering.{in_pat_segments, in_pattern, in_patterns, in_segments, in_steps, in_tree};
ghost use Rattle.module_flow_calls.specs.steps.Gathering.{in_try, leaving, noting, step_expression, with_function, with_labels};

use crate::functions::Functions;
use core_ast::{
    Clause, Expr, Form, FunDef, FunName, MapPair, PatForm, PatPair, PatSegment, Pattern, Segment,
    Step, StepOf, TryParts,
};
use std::alloc::Global;
use type_kinds::{List, Memory, Shared};

/// A function that is defined under a name, at the top of a module or in a `letrec`.
#[derive(Drop)]
pub struct DefinedFunction {
    pub label: u32,
    pub name: FunName,
    /// How many parameters it has.
    pub count: usize,
}

/// A walk for functions and their names: those that are defined where it stands, the labels of those whose names stood as
/// values so far, and all that were defined so far.
#[derive(Drop)]
pub struct NameWalk {
    pub alloc: Global,
    pub defined: Functions,
    pub labels: List<u32>,
    pub functions: List<DefinedFunction>,
}

/// What a walk through a module notes: all functions that are defined in it, in the order of the text, and the labels
/// of the functions whose names stand as values anywhere in it.
pub fn names_of_module(alloc: Global, defs: &[Shared<FunDef>]) -> Result<NameWalk, Memory>
    ensures functions { IfOk result (λ walk. walk.functions ≡ named_functions (functions_of_defs (all_defs defs.now))) }
    ensures labels { IfOk result (λ walk. walk.labels ≡ escaping (all_defs defs.now)) }
{
    let mut walk = NameWalk {
        alloc,
        defined: Functions::of_module(alloc, defs)?,
        labels: List::new(alloc),
        functions: List::new(alloc),
    };
    note_module(&mut walk, defs)?;
    Ok(walk)
}

/// What a walk through one function of a module notes: the functions that are defined in it, itself first.
pub fn names_of_function(alloc: Global, def: &FunDef) -> Result<NameWalk, Memory>
    ensures { IfOk result (λ walk. walk.functions ≡ named_functions (functions_of_defs (all_defs (def.now ∷ [])))) }
{
    let mut walk = NameWalk {
        alloc,
        defined: Functions::new(alloc),
        labels: List::new(alloc),
        functions: List::new(alloc),
    };
    walk.define(def)?;
    note_names(&mut walk, def.fun.body.get())?;
    Ok(walk)
}

// The functions of a module, which the walk has as defined.
fn note_module(walk: &mut NameWalk, defs: &[Shared<FunDef>]) -> Result<(), Memory>
    ensures { OnOk result (walk.new ≡ noting walk.old (in_defs (defined_around walk.old) (all_defs defs.now))) }
{
    for def in defs {
        let def = def.get();
        walk.define(def)?;
        note_names(walk, def.fun.body.get())?;
    }
    Ok(())
}

impl NameWalk {
    // Notes a function that is defined.
    fn define(&mut self, def: &FunDef) -> Result<(), Memory>
        ensures { OnOk result (self.new ≡ with_function self.old (named_function def.now.mark.label def.now.name (length def.now.fun.params))) }
    {
        let name = def.name.copy(self.alloc)?;
        self.functions.add(DefinedFunction {
            label: def.mark.label,
            name,
            count: def.fun.params.len(),
        })
    }

    // Notes a name that stands as a value.
    fn note(&mut self, name: &FunName) -> Result<(), Memory>
        ensures { OnOk result (self.new ≡ with_labels self.old (label_listed (label_named self.old.defined.names self.old.defined.labels name.now))) }
    {
        match self.defined.label_named(name) {
            Some(label) => self.labels.add(label),
            None => Ok(()),
        }
    }

    // Names the functions of a `letrec`, inside all others.
    fn define_all(&mut self, defs: &[FunDef]) -> Result<(), Memory>
        ensures { OnOk result (self.new ≡ defining self.old (all_defs defs.now)) }
    {
        self.defined.add_all(defs)
    }

    // Ends all but the first `names` names and the first `labels` labels of functions.
    fn leave(&mut self, names: usize, labels: usize)
        requires { names ≤ length self.old.defined.names }
        ensures { self.new ≡ leaving self.old names labels }
    {
        self.defined.names.leave(names);
        self.defined.labels.truncate(labels);
    }
}

// The names in an expression.
#[cycle(names)]
#[tactic(auto, using(crate::proofs::GatheredForms::gathered_forms))]
fn note_names(walk: &mut NameWalk, expr: &Expr) -> Result<(), Memory>
    ensures { OnOk result (walk.new ≡ noting walk.old (in_tree (defined_around walk.old) (tree expr.now))) }
{
    match &expr.form {
        Form::Local(name) => walk.note(name),
        Form::Var(_) | Form::External(_, _) | Form::Lit(_) => Ok(()),
        Form::Fun(fun) => note_names(walk, fun.body.get()),
        Form::Listed(items, tail) => {
            note_all(walk, items.as_slice())?;
            note_names(walk, tail.get())
        }
        Form::Tuple(items) => note_all(walk, items.as_slice()),
        Form::Map(pairs, updated) => {
            note_pairs(walk, pairs.as_slice())?;
            match updated {
                Some(map) => note_names(walk, map.get()),
                None => Ok(()),
            }
        }
        Form::Binary(segments) => note_segments(walk, segments.as_slice()),
        Form::Values(items) => note_all(walk, items.as_slice()),
        Form::Chain(steps, last) => {
            note_steps(walk, steps.as_slice())?;
            note_names(walk, last.get())
        }
        Form::Case(argument, clauses) => {
            note_names(walk, argument.get())?;
            note_clauses(walk, clauses.as_slice())
        }
        Form::Letrec(defs, body) => {
            let names = walk.defined.names.len();
            let labels = walk.defined.labels.len();
            walk.define_all(defs.as_slice())?;
            note_definitions(walk, defs.as_slice())?;
            note_names(walk, body.get())?;
            walk.leave(names, labels);
            Ok(())
        }
        Form::Apply(operator, args) => match operator.get().local_name() {
            Some(_) => note_all(walk, args.as_slice()),
            None => {
                note_names(walk, operator.get())?;
                note_all(walk, args.as_slice())
            }
        },
        Form::Call(home, name, args) => {
            note_names(walk, home.get())?;
            note_names(walk, name.get())?;
            note_all(walk, args.as_slice())
        }
        Form::Primop(_, args) => note_all(walk, args.as_slice()),
        Form::Try(parts) => note_try(walk, parts),
        Form::Receive(clauses, timeout, action) => {
            note_clauses(walk, clauses.as_slice())?;
            note_names(walk, timeout.get())?;
            note_names(walk, action.get())
        }
        Form::Catch(inside) => note_names(walk, inside.get()),
    }
}

#[cycle(names)]
fn note_all(walk: &mut NameWalk, exprs: &[Expr]) -> Result<(), Memory>
    ensures { OnOk result (walk.new ≡ noting walk.old (in_all (defined_around walk.old) (all_trees exprs.now))) }
{
    for expr in exprs {
        note_names(walk, expr)?;
    }
    Ok(())
}

#[cycle(names)]
fn note_pairs(walk: &mut NameWalk, pairs: &[MapPair]) -> Result<(), Memory>
    ensures { OnOk result (walk.new ≡ noting walk.old (in_pairs (defined_around walk.old) (all_pairs pairs.now))) }
{
    for pair in pairs {
        note_names(walk, &pair.key)?;
        note_names(walk, &pair.value)?;
    }
    Ok(())
}

#[cycle(names)]
fn note_segments(walk: &mut NameWalk, segments: &[Segment]) -> Result<(), Memory>
    ensures { OnOk result (walk.new ≡ noting walk.old (in_segments (defined_around walk.old) (all_segments segments.now))) }
{
    for segment in segments {
        note_names(walk, &segment.value)?;
        note_all(walk, segment.args.as_slice())?;
    }
    Ok(())
}

#[cycle(names)]
fn note_steps(walk: &mut NameWalk, steps: &[Step]) -> Result<(), Memory>
    ensures { OnOk result (walk.new ≡ noting walk.old (in_steps (defined_around walk.old) (all_steps steps.now))) }
{
    for step in steps {
        note_names(walk, step_expression(step))?;
    }
    Ok(())
}

// The expression of a step.
fn step_expression(step: &Step) -> &Expr
    ensures { result.now ≡ step_expression step.now }
{
    match step {
        StepOf::Let(_, _, expr) => expr,
        StepOf::Do(_, expr) => expr,
    }
}

#[cycle(names)]
fn note_clauses(walk: &mut NameWalk, clauses: &[Clause]) -> Result<(), Memory>
    ensures { OnOk result (walk.new ≡ noting walk.old (in_clauses (defined_around walk.old) (all_clauses clauses.now))) }
{
    for clause in clauses {
        note_patterns(walk, clause.patterns.as_slice())?;
        note_names(walk, &clause.guard)?;
        note_names(walk, &clause.body)?;
    }
    Ok(())
}

#[cycle(names)]
fn note_definitions(walk: &mut NameWalk, defs: &[FunDef]) -> Result<(), Memory>
    ensures { OnOk result (walk.new ≡ noting walk.old (in_defs (defined_around walk.old) (all_defs defs.now))) }
{
    for def in defs {
        walk.define(def)?;
        note_names(walk, def.fun.body.get())?;
    }
    Ok(())
}

// The parts of a `try`.
#[cycle(names)]
fn note_try(walk: &mut NameWalk, parts: &TryParts) -> Result<(), Memory>
    ensures { OnOk result (walk.new ≡ noting walk.old (in_try (defined_around walk.old) parts.now)) }
{
    note_names(walk, parts.arg.get())?;
    note_names(walk, parts.body.get())?;
    note_names(walk, parts.handler.get())
}

// The names in a pattern: those in the arguments of segments and the keys of maps.
#[cycle(names)]
#[tactic(auto, using(crate::proofs::GatheredPatterns::gathered_patterns))]
fn note_pattern(walk: &mut NameWalk, pattern: &Pattern) -> Result<(), Memory>
    ensures { OnOk result (walk.new ≡ noting walk.old (in_pattern (defined_around walk.old) (pattern_tree pattern.now))) }
{
    match &pattern.form {
        PatForm::Var(_) | PatForm::Lit(_) => Ok(()),
        PatForm::Listed(items, tail) => {
            note_patterns(walk, items.as_slice())?;
            note_pattern(walk, tail.get())
        }
        PatForm::Tuple(items) => note_patterns(walk, items.as_slice()),
        PatForm::Map(pairs) => note_pattern_pairs(walk, pairs.as_slice()),
        PatForm::Binary(segments) => note_pattern_segments(walk, segments.as_slice()),
        PatForm::Alias(_, inside) => note_pattern(walk, inside.get()),
    }
}

#[cycle(names)]
fn note_patterns(walk: &mut NameWalk, patterns: &[Pattern]) -> Result<(), Memory>
    ensures { OnOk result (walk.new ≡ noting walk.old (in_patterns (defined_around walk.old) (all_patterns patterns.now))) }
{
    for pattern in patterns {
        note_pattern(walk, pattern)?;
    }
    Ok(())
}

#[cycle(names)]
fn note_pattern_pairs(walk: &mut NameWalk, pairs: &[PatPair]) -> Result<(), Memory>
    ensures { OnOk result (walk.new ≡ noting walk.old (in_pat_pairs (defined_around walk.old) (all_pat_pairs pairs.now))) }
{
    for pair in pairs {
        note_names(walk, &pair.key)?;
        note_pattern(walk, &pair.value)?;
    }
    Ok(())
}

#[cycle(names)]
fn note_pattern_segments(walk: &mut NameWalk, segments: &[PatSegment]) -> Result<(), Memory>
    ensures { OnOk result (walk.new ≡ noting walk.old (in_pat_segments (defined_around walk.old) (all_pat_segments segments.now))) }
{
    for segment in segments {
        note_pattern(walk, &segment.value)?;
        note_all(walk, segment.args.as_slice())?;
    }
    Ok(())
}

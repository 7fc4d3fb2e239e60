//! The functions of other modules that a text calls and of which nothing is known.
ghost use Rattle.std.specs.Prelude.{◌≡◌, ◌&&◌, ◌∷◌, [], not, Some, OnOk, IfOk};
ghost use Rattle.core_ast.specs.Tree.{all_clauses, all_defs, all_pairs, all_pat_pairs, all_pat_segments};
ghost use Rattle.core_ast.specs.Tree.{all_patterns, all_segments, all_steps, all_trees, pattern_tree, tree};
ghost use Rattle.core_scope.specs.Asks.{erlang};
ghost use Rattle.core_scope.specs.Names.{same_atom};
ghost use Rattle.cons_gen_rows.specs.Counts.{call_names};
ghost use Rattle.cons_tree.specs.Callees.{found};
ghost use Rattle.warn_list.specs.declared.finding.FindingKind.TheVariants.{UnknownFunction};
ghost use Rattle.module_flow_calls.specs.NodeContext.{at_node};
ghost use Rattle.module_flow_calls.specs.Unknown.{all_namings, clause_namings, def_namings, is_unknown, naming, namings, pair_namings, pat_pair_namings};
ghost use Rattle.module_flow_calls.specs.Unknown.{pat_segment_namings, pattern_namings, patterns_namings, segment_namings, step_namings, unknown_functions};
ghost use Rattle.module_flow_calls.specs.steps.FirstCalls.{Notes, naming_of, none_named, step_expression, try_namings, with_found};

use crate::calls::function_name;
use crate::node_context::{NodeContext, step_note};
use cons_gen_rows::{Members, call_names};
use cons_tree::{Callee, Summaries};
use core_ast::{
    Clause, Expr, Form, FunDef, FunName, MapPair, Mark, PatForm, PatPair, PatSegment, Pattern,
    Segment, Step, StepOf, TryParts,
};
use core_scope::is_text;
use std::alloc::Global;
use type_kinds::{Atom, List, Memory, Shared};
use warn_list::{Finding, FindingKind};

/// A walk for calls by literal names: those that were met so far, and what is found.
#[derive(Drop)]
pub struct NamingWalk {
    pub alloc: Global,
    pub named: Members,
    pub found: List<Finding>,
}

/// What is found of a module's calls: the first of each function of which nothing is known.
pub fn unknown_functions(
    alloc: Global,
    known: &Summaries,
    around: NodeContext,
    defs: &[Shared<FunDef>],
) -> Result<List<Finding>, Memory>
    ensures { IfOk result (λ findings. findings ≡ unknown_functions (found known.now) around (all_defs defs.now)) }
{
    let mut walk = NamingWalk::new(alloc);
    note_module(&mut walk, known, around, defs)?;
    let NamingWalk { found, .. } = walk;
    Ok(found)
}

// The calls in a module.
fn note_module(
    walk: &mut NamingWalk,
    known: &Summaries,
    around: NodeContext,
    defs: &[Shared<FunDef>],
) -> Result<(), Memory>
    ensures { OnOk result (Notes (found known.now) walk.old walk.new (def_namings around (all_defs defs.now))) }
{
    for def in defs {
        let def = def.get();
        note_calls(walk, known, around.under(def.mark.note), def.fun.body.get())?;
    }
    Ok(())
}

impl NamingWalk {
    // Nothing was met.
    fn new(alloc: Global) -> NamingWalk
        ensures named { none_named result.named }
        ensures found { result.found ≡ [] }
    {
        NamingWalk {
            alloc,
            named: Members::new(alloc),
            found: List::new(alloc),
        }
    }

    // A call of this module and name, which may be literal, with `count` arguments.
    fn note_call(
        &mut self,
        known: &Summaries,
        around: NodeContext,
        mark: &Mark,
        home: &Expr,
        name: &Expr,
        count: usize,
    ) -> Result<(), Memory>
        ensures { OnOk result (Notes (found known.now) self.old self.new (naming around mark.now (call_names (tree home.now) (tree name.now)) count)) }
    {
        match call_names(home, name) {
            None => Ok(()),
            Some((home, name)) => self.note(known, around, mark, home, name, count),
        }
    }

    // A call of this literal module and name.
    fn note(
        &mut self,
        known: &Summaries,
        around: NodeContext,
        mark: &Mark,
        home: &Atom,
        name: &Atom,
        count: usize,
    ) -> Result<(), Memory>
        ensures { OnOk result (Notes (found known.now) self.old self.new (naming around mark.now (Some (home.now, name.now)) count)) }
    {
        if around.quiet {
            return Ok(());
        }
        let function = function_name(self.alloc, name, count)?;
        self.note_function(known, around, mark, home, function)
    }

    // A call of this function, which is reported if it is the first one and nothing is known of the function.
    fn note_function(
        &mut self,
        known: &Summaries,
        around: NodeContext,
        mark: &Mark,
        home: &Atom,
        function: FunName,
    ) -> Result<(), Memory>
        ensures { OnOk result (Notes (found known.now) self.old self.new (naming_of around mark.now home.now function ∷ [])) }
    {
        if self.named.has(home, &function) {
            return Ok(());
        }
        self.named.add(home, &function)?;
        if !is_reported(known, home, &function) {
            return Ok(());
        }
        self.report(around, mark, home, function)
    }

    // Reports a function at a node.
    fn report(
        &mut self,
        around: NodeContext,
        mark: &Mark,
        home: &Atom,
        function: FunName,
    ) -> Result<(), Memory>
        ensures { OnOk result (self.new ≡ with_found self.old (at_node around mark.now (UnknownFunction home.now function))) }
    {
        if around.quiet {
            return Ok(());
        }
        let line = match around.line {
            Some(line) => line,
            None => mark.place.line,
        };
        let home = home.copy(self.alloc)?;
        self.found.add(Finding {
            label: mark.label,
            kind: FindingKind::UnknownFunction(home, function),
            line,
        })
    }
}

// Whether nothing is known of a function.
fn is_unknown(callee: &Callee) -> bool
    ensures { result ≡ is_unknown callee.now }
{
    match callee {
        Callee::Unknown => true,
        Callee::Known(_) | Callee::Local(_) | Callee::Undefined => false,
    }
}

// Whether a function is reported where it is called first: nothing is known of it, and it is none of `erlang`.
fn is_reported(known: &Summaries, home: &Atom, function: &FunName) -> bool
    ensures { result ≡ (is_unknown (found known.now home.now function.now) && not (same_atom home.now erlang)) }
{
    is_unknown(known.find(home, function)) && !is_text(home, b"erlang")
}

// The calls in an expression.
#[cycle(callings)]
#[tactic(auto, using(crate::proofs::CalledForms::called_forms))]
fn note_calls(
    walk: &mut NamingWalk,
    known: &Summaries,
    around: NodeContext,
    expr: &Expr,
) -> Result<(), Memory>
    ensures { OnOk result (Notes (found known.now) walk.old walk.new (namings around (tree expr.now))) }
{
    let around = around.under(expr.mark.note);
    match &expr.form {
        Form::Var(_) => Ok(()),
        Form::Local(_) => Ok(()),
        Form::External(_, _) => Ok(()),
        Form::Lit(_) => Ok(()),
        Form::Fun(fun) => note_calls(walk, known, around, fun.body.get()),
        Form::Listed(items, tail) => {
            note_all(walk, known, around, items.as_slice())?;
            note_calls(walk, known, around, tail.get())
        }
        Form::Tuple(items) => note_all(walk, known, around, items.as_slice()),
        Form::Map(pairs, updated) => {
            note_pairs(walk, known, around, pairs.as_slice())?;
            match updated {
                Some(map) => note_calls(walk, known, around, map.get()),
                None => Ok(()),
            }
        }
        Form::Binary(segments) => note_segments(walk, known, around, segments.as_slice()),
        Form::Values(items) => note_all(walk, known, around, items.as_slice()),
        Form::Chain(steps, last) => {
            note_steps(walk, known, around, steps.as_slice())?;
            note_calls(
                walk,
                known,
                around.under_steps(steps.as_slice()),
                last.get(),
            )
        }
        Form::Case(argument, clauses) => {
            note_calls(walk, known, around, argument.get())?;
            note_clauses(walk, known, around, clauses.as_slice())
        }
        Form::Letrec(defs, body) => {
            note_definitions(walk, known, around, defs.as_slice())?;
            note_calls(walk, known, around, body.get())
        }
        Form::Apply(operator, args) => {
            note_calls(walk, known, around, operator.get())?;
            note_all(walk, known, around, args.as_slice())
        }
        Form::Call(home, name, args) => {
            walk.note_call(
                known,
                around,
                &expr.mark,
                home.get(),
                name.get(),
                args.len(),
            )?;
            note_calls(walk, known, around, home.get())?;
            note_calls(walk, known, around, name.get())?;
            note_all(walk, known, around, args.as_slice())
        }
        Form::Primop(_, args) => note_all(walk, known, around, args.as_slice()),
        Form::Try(parts) => note_try(walk, known, around, parts),
        Form::Receive(clauses, timeout, action) => {
            note_clauses(walk, known, around, clauses.as_slice())?;
            note_calls(walk, known, around, timeout.get())?;
            note_calls(walk, known, around, action.get())
        }
        Form::Catch(inside) => note_calls(walk, known, around, inside.get()),
    }
}

#[cycle(callings)]
fn note_all(
    walk: &mut NamingWalk,
    known: &Summaries,
    around: NodeContext,
    exprs: &[Expr],
) -> Result<(), Memory>
    ensures { OnOk result (Notes (found known.now) walk.old walk.new (all_namings around (all_trees exprs.now))) }
{
    for expr in exprs {
        note_calls(walk, known, around, expr)?;
    }
    Ok(())
}

#[cycle(callings)]
fn note_pairs(
    walk: &mut NamingWalk,
    known: &Summaries,
    around: NodeContext,
    pairs: &[MapPair],
) -> Result<(), Memory>
    ensures { OnOk result (Notes (found known.now) walk.old walk.new (pair_namings around (all_pairs pairs.now))) }
{
    for pair in pairs {
        note_calls(walk, known, around, &pair.key)?;
        note_calls(walk, known, around, &pair.value)?;
    }
    Ok(())
}

#[cycle(callings)]
fn note_segments(
    walk: &mut NamingWalk,
    known: &Summaries,
    around: NodeContext,
    segments: &[Segment],
) -> Result<(), Memory>
    ensures { OnOk result (Notes (found known.now) walk.old walk.new (segment_namings around (all_segments segments.now))) }
{
    for segment in segments {
        note_calls(walk, known, around, &segment.value)?;
        note_all(walk, known, around, segment.args.as_slice())?;
    }
    Ok(())
}

// The steps of a chain.
#[cycle(callings)]
fn note_steps(
    walk: &mut NamingWalk,
    known: &Summaries,
    around: NodeContext,
    steps: &[Step],
) -> Result<(), Memory>
    ensures { OnOk result (Notes (found known.now) walk.old walk.new (step_namings around (all_steps steps.now))) }
{
    let mut inner = around;
    for step in steps {
        inner = inner.under(step_note(step));
        note_calls(walk, known, inner, step_expression(step))?;
    }
    Ok(())
}

// The expression of a step.
fn step_expression(step: &Step) -> &Expr
    ensures { result.now ≡ step_expression step.now }
{
    match step {
        StepOf::Let(_, _, expr) => expr,
        StepOf::Do(_, expr) => expr,
    }
}

#[cycle(callings)]
fn note_clauses(
    walk: &mut NamingWalk,
    known: &Summaries,
    around: NodeContext,
    clauses: &[Clause],
) -> Result<(), Memory>
    ensures { OnOk result (Notes (found known.now) walk.old walk.new (clause_namings around (all_clauses clauses.now))) }
{
    for clause in clauses {
        let inner = around.under(clause.mark.note);
        note_patterns(walk, known, inner, clause.patterns.as_slice())?;
        note_calls(walk, known, inner, &clause.guard)?;
        note_calls(walk, known, inner, &clause.body)?;
    }
    Ok(())
}

#[cycle(callings)]
fn note_definitions(
    walk: &mut NamingWalk,
    known: &Summaries,
    around: NodeContext,
    defs: &[FunDef],
) -> Result<(), Memory>
    ensures { OnOk result (Notes (found known.now) walk.old walk.new (def_namings around (all_defs defs.now))) }
{
    for def in defs {
        note_calls(walk, known, around.under(def.mark.note), def.fun.body.get())?;
    }
    Ok(())
}

// The parts of a `try`.
#[cycle(callings)]
fn note_try(
    walk: &mut NamingWalk,
    known: &Summaries,
    around: NodeContext,
    parts: &TryParts,
) -> Result<(), Memory>
    ensures { OnOk result (Notes (found known.now) walk.old walk.new (try_namings around parts.now)) }
{
    note_calls(walk, known, around, parts.arg.get())?;
    note_calls(walk, known, around, parts.body.get())?;
    note_calls(walk, known, around, parts.handler.get())
}

// The calls in a pattern: those in the arguments of segments and the keys of maps.
#[cycle(callings)]
#[tactic(auto, using(crate::proofs::CalledPatterns::called_patterns))]
fn note_pattern(
    walk: &mut NamingWalk,
    known: &Summaries,
    around: NodeContext,
    pattern: &Pattern,
) -> Result<(), Memory>
    ensures { OnOk result (Notes (found known.now) walk.old walk.new (pattern_namings around (pattern_tree pattern.now))) }
{
    let around = around.under(pattern.mark.note);
    match &pattern.form {
        PatForm::Var(_) => Ok(()),
        PatForm::Lit(_) => Ok(()),
        PatForm::Listed(items, tail) => {
            note_patterns(walk, known, around, items.as_slice())?;
            note_pattern(walk, known, around, tail.get())
        }
        PatForm::Tuple(items) => note_patterns(walk, known, around, items.as_slice()),
        PatForm::Map(pairs) => note_pattern_pairs(walk, known, around, pairs.as_slice()),
        PatForm::Binary(segments) => note_pattern_segments(
            walk,
            known,
            around,
            segments.as_slice(),
        ),
        PatForm::Alias(_, inside) => note_pattern(walk, known, around, inside.get()),
    }
}

#[cycle(callings)]
fn note_patterns(
    walk: &mut NamingWalk,
    known: &Summaries,
    around: NodeContext,
    patterns: &[Pattern],
) -> Result<(), Memory>
    ensures { OnOk result (Notes (found known.now) walk.old walk.new (patterns_namings around (all_patterns patterns.now))) }
{
    for pattern in patterns {
        note_pattern(walk, known, around, pattern)?;
    }
    Ok(())
}

#[cycle(callings)]
fn note_pattern_pairs(
    walk: &mut NamingWalk,
    known: &Summaries,
    around: NodeContext,
    pairs: &[PatPair],
) -> Result<(), Memory>
    ensures { OnOk result (Notes (found known.now) walk.old walk.new (pat_pair_namings around (all_pat_pairs pairs.now))) }
{
    for pair in pairs {
        note_calls(walk, known, around, &pair.key)?;
        note_pattern(walk, known, around, &pair.value)?;
    }
    Ok(())
}

#[cycle(callings)]
fn note_pattern_segments(
    walk: &mut NamingWalk,
    known: &Summaries,
    around: NodeContext,
    segments: &[PatSegment],
) -> Result<(), Memory>
    ensures { OnOk result (Notes (found known.now) walk.old walk.new (pat_segment_namings around (all_pat_segments segments.now))) }
{
    for segment in segments {
        note_pattern(walk, known, around, &segment.value)?;
        note_all(walk, known, around, segment.args.as_slice())?;
    }
    Ok(())
}

//! The walk through expressions. Only depth takes stack: lists, chains and clauses are loops.
ghost use Rattle.std.specs.Prelude.{IfOk, OnOk};
ghost use Rattle.core_ast.specs.Model as m;
ghost use Rattle.core_ast.specs.Tree.{all_pairs, all_segments, all_trees, tree};
ghost use Rattle.core_ast.specs.declared.syntax.Mark.{Mark};
ghost use Rattle.type_kinds.specs.declared.atom.Atom.{Atom};
ghost use Rattle.core_scope.specs.Asks.{one_value};
ghost use Rattle.fun_flow_sets.specs.Rules.{places, places_of_all, places_of_pairs, rules, rules_of_all, rules_of_pairs, rules_of_segments};
ghost use Rattle.fun_flow_sets.specs.Scopes.{first};
ghost use Rattle.fun_flow_rules.specs.steps.Walking.{Gives, GivesOne, Makes, Walks, body_rules};

use crate::applications::{walk_apply, walk_call};
use crate::control::{walk_case, walk_chain, walk_letrec, walk_receive, walk_try};
use crate::walk::{RuleWalk, first};
use core_ast::{Expr, Form, Fun, FunName, MapPair, Mark, Segment, VarName};
use core_scope::Ask;
use fun_flow_places::{FlowPlace, Item};
use type_kinds::{Atom, List, Memory};

/// An expression that is asked for some values: makes its rules, and gives the places of its values.
#[cycle(rules)]
#[tactic(auto, using(crate::proofs::ExpressionExits::expression_exits))]
pub fn walk_expression(
    walk: &mut RuleWalk,
    ask: Ask,
    expr: &Expr,
) -> Result<List<FlowPlace>, Memory>
    ensures { Walks walk.old walk.new ask (tree expr.now) result }
{
    let mark = expr.mark;
    match &expr.form {
        Form::Var(name) => walk_variable(walk, name),
        Form::Local(name) => walk_name(walk, mark, name),
        Form::External(home, name) => walk_external(walk, mark, home, name),
        Form::Lit(_) => walk.one(FlowPlace::Nowhere),
        Form::Fun(fun) => walk_fun(walk, mark, fun),
        Form::Listed(items, tail) => walk_listed(walk, mark, items.as_slice(), tail.get()),
        Form::Tuple(items) => walk_tuple(walk, mark, items.as_slice()),
        Form::Map(pairs, updated) => match updated {
            Some(map) => walk_updated_map(walk, mark, pairs.as_slice(), map.get()),
            None => walk_new_map(walk, mark, pairs.as_slice()),
        },
        Form::Binary(segments) => walk_binary(walk, segments.as_slice()),
        Form::Values(items) => walk_all(walk, items.as_slice()),
        Form::Chain(steps, last) => walk_chain(walk, ask, steps.as_slice(), last.get()),
        Form::Case(argument, clauses) => {
            walk_case(walk, mark, ask, argument.get(), clauses.as_slice())
        }
        Form::Letrec(defs, body) => walk_letrec(walk, ask, defs.as_slice(), body.get()),
        Form::Apply(operator, args) => walk_apply(walk, mark, operator.get(), args.as_slice()),
        Form::Call(home, name, args) => {
            walk_call(walk, mark, home.get(), name.get(), args.as_slice())
        }
        Form::Primop(_, args) => walk_primop(walk, args.as_slice()),
        Form::Try(parts) => walk_try(walk, mark, ask, parts),
        Form::Receive(clauses, timeout, action) => walk_receive(
            walk,
            mark,
            ask,
            clauses.as_slice(),
            timeout.get(),
            action.get(),
        ),
        Form::Catch(inside) => walk_catch(walk, inside.get()),
    }
}

/// An expression that is asked for one value, and the place of that.
#[cycle(rules)]
pub fn walk_one(walk: &mut RuleWalk, expr: &Expr) -> Result<FlowPlace, Memory>
    ensures { IfOk result (λ place. Makes walk.old walk.new (λ U home sc. rules U home sc one_value (tree expr.now))
        × GivesOne walk.old place (λ U home sc. first (places U home sc one_value (tree expr.now)))) }
{
    let places = walk_expression(walk, Ask::Exactly(1), expr)?;
    Ok(first(places.as_slice()))
}

/// Expressions that are asked for one value each, and the places of those.
#[cycle(rules)]
pub fn walk_all(walk: &mut RuleWalk, exprs: &[Expr]) -> Result<List<FlowPlace>, Memory>
    ensures { IfOk result (λ places. Makes walk.old walk.new (λ U home sc. rules_of_all U home sc (all_trees exprs.now))
        × Gives walk.old places (λ U home sc. places_of_all U home sc (all_trees exprs.now))) }
{
    let mut places = List::new(walk.alloc);
    for expr in exprs {
        let place = walk_one(walk, expr)?;
        places.add(place)?;
    }
    Ok(places)
}

// A variable.
fn walk_variable(walk: &mut RuleWalk, name: &Atom) -> Result<List<FlowPlace>, Memory>
    ensures { (i : Mark) → Walks walk.old walk.new one_value (m.variable i name.now) result }
{
    walk.one(walk.place_of(name))
}

// A name as a value.
fn walk_name(walk: &mut RuleWalk, mark: Mark, name: &FunName) -> Result<List<FlowPlace>, Memory>
    ensures { Walks walk.old walk.new one_value (m.local mark name.now) result }
{
    let place = walk.part(mark.label);
    let Some(label) = walk.functions.get(name) else {
        return walk.one(place);
    };
    let arity = name.arity as usize;
    walk.hold(place, Item::Closure(walk.home, label, arity))?;
    walk.open_parameters(label, arity)?;
    walk.one(place)
}

// An external function.
fn walk_external(
    walk: &mut RuleWalk,
    mark: Mark,
    home: &Atom,
    name: &FunName,
) -> Result<List<FlowPlace>, Memory>
    ensures { Walks walk.old walk.new one_value (m.external mark home.now name.now) result }
{
    let place = walk.part(mark.label);
    let home = home.copy(walk.alloc)?;
    let name = name.copy(walk.alloc)?;
    walk.hold(place, Item::External(home, name))?;
    walk.one(place)
}

/// A function's body, in which its parameters are seen, and the flow to what the function gives.
#[cycle(rules)]
pub fn walk_body(
    walk: &mut RuleWalk,
    label: u32,
    params: &[VarName],
    body: &Expr,
) -> Result<(), Memory>
    ensures { OnOk result (Makes walk.old walk.new (λ U home sc. body_rules U home sc label params.now (tree body.now))) }
{
    let around = walk.variables.len();
    walk.bind_parameters(label, params)?;
    let place = walk_one(walk, body)?;
    walk.flow(place, FlowPlace::Returned(walk.home, label))?;
    walk.variables.leave(around);
    Ok(())
}

// A fun.
#[cycle(rules)]
fn walk_fun(walk: &mut RuleWalk, mark: Mark, fun: &Fun) -> Result<List<FlowPlace>, Memory>
    ensures { Walks walk.old walk.new one_value (m.function mark fun.now.params (tree fun.now.body)) result }
{
    let place = walk.part(mark.label);
    let params = fun.params.as_slice();
    let arity = params.len();
    walk.hold(place, Item::Closure(walk.home, mark.label, arity))?;
    walk.open_parameters(mark.label, arity)?;
    walk_body(walk, mark.label, params, fun.body.get())?;
    walk.one(place)
}

// A list.
#[cycle(rules)]
fn walk_listed(
    walk: &mut RuleWalk,
    mark: Mark,
    items: &[Expr],
    tail: &Expr,
) -> Result<List<FlowPlace>, Memory>
    ensures { Walks walk.old walk.new one_value (m.listed mark (all_trees items.now) (tree tail.now)) result }
{
    let place = walk.part(mark.label);
    let items = walk_all(walk, items)?;
    let tail = walk_one(walk, tail)?;
    walk.flow(tail, place)?;
    walk.flow_all(items.as_slice(), place)?;
    walk.one(place)
}

// A tuple.
#[cycle(rules)]
fn walk_tuple(walk: &mut RuleWalk, mark: Mark, items: &[Expr]) -> Result<List<FlowPlace>, Memory>
    ensures { Walks walk.old walk.new one_value (m.tuple mark (all_trees items.now)) result }
{
    let place = walk.part(mark.label);
    let items = walk_all(walk, items)?;
    walk.flow_all(items.as_slice(), place)?;
    walk.one(place)
}

// The pairs of a map, and the places of the keys and the values.
#[cycle(rules)]
fn walk_pairs(walk: &mut RuleWalk, pairs: &[MapPair]) -> Result<List<FlowPlace>, Memory>
    ensures { IfOk result (λ places. Makes walk.old walk.new (λ U home sc. rules_of_pairs U home sc (all_pairs pairs.now))
        × Gives walk.old places (λ U home sc. places_of_pairs U home sc (all_pairs pairs.now))) }
{
    let mut places = List::new(walk.alloc);
    for pair in pairs {
        let key = walk_one(walk, &pair.key)?;
        let value = walk_one(walk, &pair.value)?;
        places.add(key)?;
        places.add(value)?;
    }
    Ok(places)
}

// A map of pairs alone.
#[cycle(rules)]
fn walk_new_map(
    walk: &mut RuleWalk,
    mark: Mark,
    pairs: &[MapPair],
) -> Result<List<FlowPlace>, Memory>
    ensures { Walks walk.old walk.new one_value (m.new_map mark (all_pairs pairs.now)) result }
{
    let place = walk.part(mark.label);
    let parts = walk_pairs(walk, pairs)?;
    walk.flow_all(parts.as_slice(), place)?;
    walk.one(place)
}

// A map that pairs update.
#[cycle(rules)]
fn walk_updated_map(
    walk: &mut RuleWalk,
    mark: Mark,
    pairs: &[MapPair],
    map: &Expr,
) -> Result<List<FlowPlace>, Memory>
    ensures { Walks walk.old walk.new one_value (m.updated_map mark (all_pairs pairs.now) (tree map.now)) result }
{
    let place = walk.part(mark.label);
    let parts = walk_pairs(walk, pairs)?;
    let map = walk_one(walk, map)?;
    walk.flow(map, place)?;
    walk.flow_all(parts.as_slice(), place)?;
    walk.one(place)
}

// A binary, which has no functions.
#[cycle(rules)]
fn walk_binary(walk: &mut RuleWalk, segments: &[Segment]) -> Result<List<FlowPlace>, Memory>
    ensures { (i : Mark) → Walks walk.old walk.new one_value (m.binary i (all_segments segments.now)) result }
{
    for segment in segments {
        walk_one(walk, &segment.value)?;
        walk_all(walk, segment.args.as_slice())?;
    }
    walk.one(FlowPlace::Nowhere)
}

// A primop, of whose values nothing is known.
#[cycle(rules)]
fn walk_primop(walk: &mut RuleWalk, args: &[Expr]) -> Result<List<FlowPlace>, Memory>
    ensures { (i : Mark) (x : Atom) → Walks walk.old walk.new one_value (m.primop i x (all_trees args.now)) result }
{
    walk_all(walk, args)?;
    Ok(List::new(walk.alloc))
}

// A `catch`, of whose value nothing is known.
#[cycle(rules)]
fn walk_catch(walk: &mut RuleWalk, inside: &Expr) -> Result<List<FlowPlace>, Memory>
    ensures { (i : Mark) → Walks walk.old walk.new one_value (m.catch i (tree inside.now)) result }
{
    walk_one(walk, inside)?;
    walk.one(FlowPlace::Anywhere)
}

//! The walk through expressions. Only depth takes stack: lists, chains and clauses are loops.
ghost use Rattle.std.specs.Prelude.{◌≡◌, IfOk, OnOk};
ghost use Rattle.core_ast.specs.Tree.{all_trees, tree};
ghost use Rattle.cons_gen_rows.specs.Counts.{results};
ghost use Rattle.cons_gen.specs.Spans.{value_slots};
ghost use Rattle.cons_gen.specs.steps.Generating.{Generates, GeneratesAll};

use crate::control::{
    walk_action, walk_alternatives, walk_argument, walk_last, walk_letrec, walk_messages,
    walk_steps, walk_try,
};
use crate::forms::{
    walk_application, walk_binary, walk_elements, walk_named_call, walk_operands, walk_operator,
    walk_pairs, walk_primop, walk_tail, walk_tuple, walk_updated, walk_values,
};
use cons_gen_rows::{Generator, Surroundings, call_names, call_results, result_count};
use cons_tree::Slot;
use core_ast::{Expr, Form};
use core_scope::{Ask, call_gives, width};
use type_kinds::{List, Memory};
use type_lattice::{Kind, Ty};

/// An expression, in a position that asks for `ask` values.
#[cycle(rows)]
pub fn walk_expression(
    made: &mut Generator,
    context: &Surroundings,
    ask: Ask,
    expr: &Expr,
) -> Result<(), Memory>
    ensures { OnOk result (Generates context.now made.old made.new ask (tree expr.now)) }
{
    match &expr.form {
        Form::Var(name) => made.variable(name),
        Form::Local(name) => made.function(name.arity as usize),
        Form::External(_, name) => made.function(name.arity as usize),
        Form::Lit(literal) => made.literal(literal),
        Form::Fun(fun) => made.function(fun.params.len()),
        Form::Listed(items, tail) => {
            let list = walk_elements(made, context, items.as_slice())?;
            walk_tail(made, context, &list, tail.get())
        }
        Form::Tuple(items) => walk_tuple(made, context, items.as_slice()),
        Form::Map(pairs, updated) => {
            let value = walk_pairs(made, context, pairs.as_slice())?;
            match updated {
                Some(map) => walk_updated(made, context, value, map.get()),
                None => made.bound(value, Ty::kind(Kind::Map)),
            }
        }
        Form::Binary(segments) => walk_binary(made, context, segments.as_slice()),
        Form::Values(items) => walk_values(made, context, ask, items.as_slice()),
        Form::Chain(steps, last) => {
            let around = made.variables.len();
            let results = walk_steps(made, context, ask, steps.as_slice())?;
            walk_last(made, context, ask, &results, around, last.get())
        }
        Form::Case(argument, clauses) => {
            let count = width(clauses.as_slice());
            let case = walk_argument(made, context, ask, count, argument.get())?;
            walk_alternatives(made, context, ask, &case, clauses.as_slice())
        }
        Form::Letrec(defs, body) => walk_letrec(made, context, ask, body.get(), defs.as_slice()),
        Form::Apply(operator, args) => match operator.get().local_name() {
            Some(name) => walk_application(made, context, name, args.as_slice()),
            None => {
                let operator = walk_operator(made, context, operator.get())?;
                walk_operands(made, context, operator, args.as_slice())
            }
        },
        Form::Call(home, name, args) => {
            let given = call_gives(home.get(), name.get(), args.len());
            let count = call_results(ask, given);
            match call_names(home.get(), name.get()) {
                Some((home, name)) => {
                    walk_named_call(made, context, count, home, name, args.as_slice())
                }
                None => {
                    made.take(count)?;
                    walk_expression(made, context, Ask::Exactly(1), home.get())?;
                    walk_expression(made, context, Ask::Exactly(1), name.get())?;
                    walk_all(made, context, args.as_slice())?;
                    Ok(())
                }
            }
        }
        Form::Primop(name, args) => walk_primop(made, context, ask, name, args.as_slice()),
        Form::Try(parts) => walk_try(made, context, ask, parts),
        Form::Receive(clauses, timeout, action) => {
            let receive = walk_messages(made, context, ask, clauses.as_slice())?;
            let (slot, middle) = (made.next, made.count());
            walk_expression(made, context, Ask::Exactly(1), timeout.get())?;
            let start = made.rotate(receive.start, middle);
            walk_action(made, context, ask, &receive.results, slot, action.get())?;
            made.any_since(start)
        }
        Form::Catch(_) => made.free(),
    }
}

/// An expression, with the slots of its results.
#[cycle(rows)]
pub fn walk_results(
    made: &mut Generator,
    context: &Surroundings,
    ask: Ask,
    expr: &Expr,
) -> Result<List<Slot>, Memory>
    ensures slots { IfOk result (λ slots. slots ≡ results ask made.old.next (tree expr.now)) }
    ensures rows { OnOk result (Generates context.now made.old made.new ask (tree expr.now)) }
{
    let first = made.next;
    walk_expression(made, context, ask, expr)?;
    made.run(first, result_count(ask, expr))
}

/// Expressions of each of which one value is asked, with the slots of their values.
#[cycle(rows)]
pub fn walk_all(
    made: &mut Generator,
    context: &Surroundings,
    exprs: &[Expr],
) -> Result<List<Slot>, Memory>
    ensures slots { IfOk result (λ slots. slots ≡ value_slots made.old.next (all_trees exprs.now)) }
    ensures rows { OnOk result (GeneratesAll context.now made.old made.new (all_trees exprs.now)) }
{
    let mut slots = List::new(made.alloc);
    for expr in exprs {
        let slot = made.next;
        walk_expression(made, context, Ask::Exactly(1), expr)?;
        slots.add(slot)?;
    }
    Ok(slots)
}

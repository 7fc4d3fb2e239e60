//! The walk through expressions. Only depth takes stack: lists, chains and clauses are loops.
ghost use Rattle.std.specs.Prelude.{◌≡◌, IfOk, OnOk};
ghost use Rattle.core_ast.specs.Tree.{all_trees, tree};
ghost use Rattle.module_flow_walk.specs.steps.Walked.{after, after_all, walked, walked_all};

use crate::clauses::walk_case;
use crate::control::{walk_chain, walk_fun, walk_letrec, walk_receive, walk_try};
use crate::forms::{
    walk_application, walk_binary, walk_call, walk_listed, walk_map, walk_named_call,
    walk_operator, walk_primop, walk_tuple, walk_updated_map, walk_values,
};
use cons_gen_rows::{call_names, function_type, literal_type};
use core_ast::{Expr, Form};
use core_scope::Ask;
use module_flow_calls::{Given, NodeContext, discard_given, value};
use module_flow_state::{FlowWalk, WalkContext, add_first};
use type_kinds::{List, Memory};
use type_lattice::Ty;

/// An expression, in a position that asks for `ask` values: the types of its values, or `None` where it gives none.
#[cycle(flow)]
pub fn walk_expression(
    walker: &mut FlowWalk,
    context: &WalkContext,
    around: NodeContext,
    ask: Ask,
    expr: &Expr,
) -> Result<Given, Memory>
    ensures given { IfOk result (λ given. given ≡ walked context.now walker.old ask (tree expr.now)) }
    ensures noted { OnOk result (walker.new ≡ after context.now around walker.old ask (tree expr.now)) }
{
    let around = around.under(expr.mark.note);
    let alloc = walker.alloc;
    match &expr.form {
        Form::Var(name) => walker.variable(name),
        Form::Local(name) => value(alloc, function_type(name.arity as usize)),
        Form::External(_, name) => value(alloc, function_type(name.arity as usize)),
        Form::Lit(literal) => value(alloc, literal_type(alloc, literal)?),
        Form::Fun(fun) => {
            walk_fun(walker, context, around, fun)?;
            value(alloc, function_type(fun.params.len()))
        }
        Form::Listed(items, tail) => walk_listed(
            walker,
            context,
            around,
            items.as_slice(),
            tail.get(),
        ),
        Form::Tuple(items) => walk_tuple(walker, context, around, items.as_slice()),
        Form::Map(pairs, updated) => match updated {
            None => walk_map(walker, context, around, pairs.as_slice()),
            Some(map) => { walk_updated_map(walker, context, around, pairs.as_slice(), map.get()) }
        },
        Form::Binary(segments) => walk_binary(walker, context, around, segments.as_slice()),
        Form::Values(items) => walk_values(walker, context, around, ask, items.as_slice()),
        Form::Chain(steps, last) => {
            walk_chain(walker, context, around, ask, steps.as_slice(), last.get())
        }
        Form::Case(argument, clauses) => {
            walk_case(
                walker,
                context,
                around,
                ask,
                argument.get(),
                clauses.as_slice(),
            )
        }
        Form::Letrec(defs, body) => {
            walk_letrec(walker, context, around, ask, defs.as_slice(), body.get())
        }
        Form::Apply(operator, args) => match operator.get().local_name() {
            Some(name) => {
                walk_application(walker, context, around, &expr.mark, name, args.as_slice())
            }
            None => {
                walk_operator(
                    walker,
                    context,
                    around,
                    &expr.mark,
                    operator.get(),
                    args.as_slice(),
                )
            }
        },
        Form::Call(home, name, args) => match call_names(home.get(), name.get()) {
            Some((module, function)) => {
                walk_named_call(
                    walker,
                    context,
                    around,
                    &expr.mark,
                    module,
                    function,
                    args.as_slice(),
                )
            }
            None => walk_call(
                walker,
                context,
                around,
                home.get(),
                name.get(),
                args.as_slice(),
            ),
        },
        Form::Primop(name, args) => walk_primop(
            walker,
            context,
            around,
            ask,
            name,
            args.as_slice(),
        ),
        Form::Try(parts) => walk_try(walker, context, around, ask, parts),
        Form::Receive(clauses, timeout, action) => {
            walk_receive(
                walker,
                context,
                around,
                ask,
                clauses.as_slice(),
                timeout.get(),
                action.get(),
            )
        }
        Form::Catch(inside) => {
            let given = walk_expression(walker, context, around, Ask::Exactly(1), inside.get())?;
            discard_given(given);
            value(alloc, Ty::any())
        }
    }
}

/// Expressions of each of which one value is asked: a type for each, or `None` where one gives none.
#[cycle(flow)]
pub fn walk_all(
    walker: &mut FlowWalk,
    context: &WalkContext,
    around: NodeContext,
    exprs: &[Expr],
) -> Result<Given, Memory>
    ensures given { IfOk result (λ given. given ≡ walked_all context.now walker.old (all_trees exprs.now)) }
    ensures noted { OnOk result (walker.new ≡ after_all context.now around walker.old (all_trees exprs.now)) }
{
    let mut types = List::new(walker.alloc);
    let mut all = true;
    for expr in exprs {
        let given = walk_expression(walker, context, around, Ask::Exactly(1), expr)?;
        let there = add_first(given, &mut types)?;
        all = all & there;
    }
    if !all {
        return Ok(None);
    }
    Ok(Some(types))
}

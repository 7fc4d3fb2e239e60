// Expressions.
ghost use Rattle.std.specs.Prelude.{◌≡◌, ◌∷◌, OnOk, codes, true, Some, None};
ghost use Rattle.core_ast.specs.Tree.{tree, all_trees, all_clauses, all_defs, all_pairs, all_segments, all_steps};
ghost use Rattle.core_print.specs.Words as w;
ghost use Rattle.core_print.specs.Canonical as c;
ghost use Rattle.core_print.specs.steps.Writes.{Writes};
ghost use Rattle.core_print.specs.steps.Parts.{map_end, try_words};

use crate::leaves::{
    append_atom, append_external, append_literal, append_literal_tail, append_name,
    append_variable, append_variables,
};
use crate::lists::{
    append_clauses, append_expressions, append_functions, append_pairs, append_segments,
    append_steps, append_steps_closed,
};
use crate::notes::{append_annotation, append_closed, append_opened};
use core_ast::{Clause, Expr, Form, Fun, FunDef, MapPair, Segment, Step, TryParts};
use type_kinds::{Atom, Boxed, Bytes, List, Memory};

/// Appends an expression.
#[cycle(print)]
pub fn append_expression(expr: &Expr, out: &mut Bytes) -> Result<(), Memory>
    ensures { OnOk result (Writes (c.expression (tree expr.now)) out.old out.new) }
{
    append_opened(&expr.mark.note, out)?;
    append_plain(expr, out)?;
    append_closed(&expr.mark.note, out)
}

// Appends an expression without its note.
#[cycle(print)]
fn append_plain(expr: &Expr, out: &mut Bytes) -> Result<(), Memory>
    ensures { OnOk result (Writes (c.plain (tree expr.now)) out.old out.new) }
{
    match &expr.form {
        Form::Var(name) => append_variable(name, out),
        Form::Local(name) => append_name(name, out),
        Form::External(home, name) => append_external(home, name, out),
        Form::Lit(value) => append_literal(value, out),
        Form::Fun(fun) => append_fun(fun, out),
        Form::Listed(elements, tail) => append_list(elements.as_slice(), tail.get(), out),
        Form::Tuple(elements) => append_tuple(elements.as_slice(), out),
        Form::Map(pairs, updated) => {
            append_map_pairs(pairs.as_slice(), out)?;
            append_updated(updated, out)
        }
        Form::Binary(segments) => append_binary(segments.as_slice(), out),
        Form::Values(elements) => append_values(elements.as_slice(), out),
        Form::Chain(steps, last) => append_chain(steps.as_slice(), last.get(), out),
        Form::Case(arg, clauses) => append_case(arg.get(), clauses.as_slice(), out),
        Form::Letrec(functions, body) => append_letrec(functions.as_slice(), body.get(), out),
        Form::Apply(operator, args) => append_apply(operator.get(), args.as_slice(), out),
        Form::Call(home, name, args) => append_call(home.get(), name.get(), args.as_slice(), out),
        Form::Primop(name, args) => append_primop(name, args.as_slice(), out),
        Form::Try(parts) => append_try(parts, out),
        Form::Receive(clauses, timeout, action) => {
            append_receive(clauses.as_slice(), timeout.get(), action.get(), out)
        }
        Form::Catch(inner) => append_catch(inner.get(), out),
    }
}

// Appends a fun.
#[cycle(print)]
fn append_fun(fun: &Fun, out: &mut Bytes) -> Result<(), Memory>
    ensures { OnOk result (Writes (λ rest. w.reserved (codes "fun") ∷ w.symbol (codes "(")
        ∷ c.variables true fun.now.params (w.symbol (codes ")") ∷ w.symbol (codes "->") ∷ c.expression (tree fun.now.body) rest)) out.old out.new) }
{
    out.append(b" fun (")?;
    append_variables(fun.params.as_slice(), out)?;
    out.append(b" ) ->")?;
    append_expression(fun.body.get(), out)
}

// Appends a list and its tail.
#[cycle(print)]
fn append_list(elements: &[Expr], tail: &Expr, out: &mut Bytes) -> Result<(), Memory>
    ensures { OnOk result (Writes (λ rest. w.symbol (codes "[")
        ∷ c.expressions true (all_trees elements.now) (c.tail (tree tail.now) (c.plain (tree tail.now)) (w.symbol (codes "]") ∷ rest))) out.old out.new) }
{
    out.append(b" [")?;
    append_expressions(elements, out)?;
    append_tail(tail, out)?;
    out.append(b" ]")
}

// Appends the tail of a list: nothing for nil without a note, and annotation brackets around a list.
#[cycle(print)]
fn append_tail(tail: &Expr, out: &mut Bytes) -> Result<(), Memory>
    ensures { OnOk result (Writes (c.tail (tree tail.now) (c.plain (tree tail.now))) out.old out.new) }
{
    match &tail.form {
        Form::Lit(value) => append_literal_tail(value, &tail.mark.note, out),
        Form::Listed(_, _) => append_listed_tail(tail, out),
        _ => {
            out.append(b" |")?;
            append_expression(tail, out)
        }
    }
}

// Appends a tail in annotation brackets.
#[cycle(print)]
fn append_listed_tail(tail: &Expr, out: &mut Bytes) -> Result<(), Memory>
    ensures { OnOk result (Writes (λ rest. w.symbol (codes "|") ∷ w.symbol (codes "(") ∷ c.plain (tree tail.now) (c.annotation tail.now.mark.note rest))
        out.old out.new) }
{
    out.append(b" | (")?;
    append_plain(tail, out)?;
    append_annotation(&tail.mark.note, out)
}

// Appends a tuple.
#[cycle(print)]
fn append_tuple(elements: &[Expr], out: &mut Bytes) -> Result<(), Memory>
    ensures { OnOk result (Writes (λ rest. w.symbol (codes "{") ∷ c.expressions true (all_trees elements.now) (w.symbol (codes "}") ∷ rest)) out.old
        out.new) }
{
    out.append(b" {")?;
    append_expressions(elements, out)?;
    out.append(b" }")
}

// Appends the pairs of a map, and what opens it.
#[cycle(print)]
fn append_map_pairs(pairs: &[MapPair], out: &mut Bytes) -> Result<(), Memory>
    ensures { OnOk result (Writes (λ rest. w.symbol (codes "~{") ∷ c.pairs true (all_pairs pairs.now) rest) out.old out.new) }
{
    out.append(b" ~{")?;
    append_pairs(pairs, out)
}

// Appends the map that a map updates, and what closes it.
#[cycle(print)]
fn append_updated(updated: &Option<Boxed<Expr>>, out: &mut Bytes) -> Result<(), Memory>
    ensures { OnOk result (Writes (map_end updated.now) out.old out.new) }
{
    match updated {
        Some(updated) => append_old_map(updated.get(), out),
        None => out.append(b" }~"),
    }
}

// Appends the expression after a map's bar, and what closes the map.
#[cycle(print)]
fn append_old_map(updated: &Expr, out: &mut Bytes) -> Result<(), Memory>
    ensures { OnOk result (Writes (λ rest. w.symbol (codes "|") ∷ c.expression (tree updated.now) (w.symbol (codes "}~") ∷ rest)) out.old out.new) }
{
    out.append(b" |")?;
    append_expression(updated, out)?;
    out.append(b" }~")
}

// Appends a binary.
#[cycle(print)]
fn append_binary(segments: &[Segment], out: &mut Bytes) -> Result<(), Memory>
    ensures { OnOk result (Writes (λ rest. w.symbol (codes "#{") ∷ c.segments true (all_segments segments.now) (w.symbol (codes "}#") ∷ rest)) out.old
        out.new) }
{
    out.append(b" #{")?;
    append_segments(segments, out)?;
    out.append(b" }#")
}

// Appends a value list.
#[cycle(print)]
fn append_values(elements: &[Expr], out: &mut Bytes) -> Result<(), Memory>
    ensures { OnOk result (Writes (λ rest. w.symbol (codes "<") ∷ c.expressions true (all_trees elements.now) (w.symbol (codes ">") ∷ rest)) out.old
        out.new) }
{
    out.append(b" <")?;
    append_expressions(elements, out)?;
    out.append(b" >")
}

// Appends a chain: its steps, what comes last, and the annotations of the steps, the inner before
// the outer.
#[cycle(print)]
fn append_chain(steps: &[Step], last: &Expr, out: &mut Bytes) -> Result<(), Memory>
    ensures { OnOk result (Writes (λ rest. c.steps (all_steps steps.now) (c.expression (tree last.now)) rest) out.old out.new) }
{
    append_steps(steps, out)?;
    append_expression(last, out)?;
    append_steps_closed(steps, out)
}

// Appends a `case`.
#[cycle(print)]
fn append_case(arg: &Expr, clauses: &[Clause], out: &mut Bytes) -> Result<(), Memory>
    ensures { OnOk result (Writes (λ rest. w.reserved (codes "case")
        ∷ c.expression (tree arg.now) (w.reserved (codes "of") ∷ c.clauses (all_clauses clauses.now) (w.reserved (codes "end") ∷ rest))) out.old
        out.new) }
{
    out.append(b" case")?;
    append_expression(arg, out)?;
    out.append(b" of")?;
    append_clauses(clauses, out)?;
    out.append(b" end")
}

// Appends a `letrec`.
#[cycle(print)]
fn append_letrec(functions: &[FunDef], body: &Expr, out: &mut Bytes) -> Result<(), Memory>
    ensures { OnOk result (Writes (λ rest. w.reserved (codes "letrec")
        ∷ c.definitions (all_defs functions.now) (w.reserved (codes "in") ∷ c.expression (tree body.now) rest)) out.old out.new) }
{
    out.append(b" letrec")?;
    append_functions(functions, out)?;
    out.append(b" in")?;
    append_expression(body, out)
}

// Appends an application.
#[cycle(print)]
fn append_apply(operator: &Expr, args: &[Expr], out: &mut Bytes) -> Result<(), Memory>
    ensures { OnOk result (Writes (λ rest. w.reserved (codes "apply")
        ∷ c.expression (tree operator.now) (w.symbol (codes "(") ∷ c.expressions true (all_trees args.now) (w.symbol (codes ")") ∷ rest))) out.old
        out.new) }
{
    out.append(b" apply")?;
    append_expression(operator, out)?;
    append_args(args, out)
}

// Appends a call.
#[cycle(print)]
fn append_call(home: &Expr, name: &Expr, args: &[Expr], out: &mut Bytes) -> Result<(), Memory>
    ensures { OnOk result (Writes (λ rest. w.reserved (codes "call")
        ∷ c.expression (tree home.now) (w.symbol (codes ":")
        ∷ c.expression (tree name.now) (w.symbol (codes "(") ∷ c.expressions true (all_trees args.now) (w.symbol (codes ")") ∷ rest)))) out.old out.new) }
{
    out.append(b" call")?;
    append_expression(home, out)?;
    out.append(b" :")?;
    append_expression(name, out)?;
    append_args(args, out)
}

// Appends a primitive operation.
#[cycle(print)]
fn append_primop(name: &Atom, args: &[Expr], out: &mut Bytes) -> Result<(), Memory>
    ensures { OnOk result (Writes (λ rest. w.reserved (codes "primop") ∷ w.atom name.now ∷ w.symbol (codes "(")
        ∷ c.expressions true (all_trees args.now) (w.symbol (codes ")") ∷ rest)) out.old out.new) }
{
    out.append(b" primop")?;
    append_atom(name, out)?;
    append_args(args, out)
}

// Appends arguments in brackets.
#[cycle(print)]
fn append_args(args: &[Expr], out: &mut Bytes) -> Result<(), Memory>
    ensures { OnOk result (Writes (λ rest. w.symbol (codes "(") ∷ c.expressions true (all_trees args.now) (w.symbol (codes ")") ∷ rest)) out.old out.new) }
{
    out.append(b" (")?;
    append_expressions(args, out)?;
    out.append(b" )")
}

// Appends a `try`.
#[cycle(print)]
fn append_try(parts: &TryParts, out: &mut Bytes) -> Result<(), Memory>
    ensures { OnOk result (Writes (try_words parts.now) out.old out.new) }
{
    out.append(b" try")?;
    append_expression(parts.arg.get(), out)?;
    out.append(b" of <")?;
    append_variables(parts.vars.as_slice(), out)?;
    out.append(b" > ->")?;
    append_expression(parts.body.get(), out)?;
    out.append(b" catch <")?;
    append_variables(parts.catch_vars.as_slice(), out)?;
    out.append(b" > ->")?;
    append_expression(parts.handler.get(), out)
}

// Appends a `receive`.
#[cycle(print)]
fn append_receive(
    clauses: &[Clause],
    timeout: &Expr,
    action: &Expr,
    out: &mut Bytes,
) -> Result<(), Memory>
    ensures { OnOk result (Writes (λ rest. w.reserved (codes "receive")
        ∷ c.clauses (all_clauses clauses.now) (w.reserved (codes "after")
        ∷ c.expression (tree timeout.now) (w.symbol (codes "->") ∷ c.expression (tree action.now) rest))) out.old out.new) }
{
    out.append(b" receive")?;
    append_clauses(clauses, out)?;
    out.append(b" after")?;
    append_expression(timeout, out)?;
    out.append(b" ->")?;
    append_expression(action, out)
}

// Appends a `catch`.
#[cycle(print)]
fn append_catch(inner: &Expr, out: &mut Bytes) -> Result<(), Memory>
    ensures { OnOk result (Writes (λ rest. w.reserved (codes "catch") ∷ c.expression (tree inner.now) rest) out.old out.new) }
{
    out.append(b" catch")?;
    append_expression(inner, out)
}

//! How many results expressions have, and the names of calls.
ghost use Rattle.std.specs.Prelude.{◌≡◌, None, Some, MatchOption};
ghost use Rattle.core_ast.specs.Tree.{tree};
ghost use Rattle.cons_gen_rows.specs.Counts.{call_names, call_results, passed_on, result_count, whatever_asked};

use core_ast::{Expr, Form};
use core_scope::{Ask, call_gives};
use type_kinds::Atom;

/// How many results a form has that passes on what is asked to its parts: as many as are asked for, and none
/// where any number would do.
pub fn passed_on(ask: Ask) -> usize
    ensures { result ≡ passed_on ask }
{
    match ask {
        Ask::AnyNumber => 0,
        Ask::Exactly(count) => count,
    }
}

/// How many results a form has that gives whatever is asked: as many as are asked for, and one where any
/// number would do.
pub fn whatever_asked(ask: Ask) -> usize
    ensures { result ≡ whatever_asked ask }
{
    match ask {
        Ask::AnyNumber => 1,
        Ask::Exactly(count) => count,
    }
}

/// How many results a call has that gives `given` values, in a position that asks for `ask`.
pub fn call_results(ask: Ask, given: Ask) -> usize
    ensures { result ≡ call_results ask given }
{
    match given {
        Ask::AnyNumber => whatever_asked(ask),
        Ask::Exactly(_) => 1,
    }
}

/// How many results an expression has, in a position that asks for `ask` values.
#[tactic(auto, using(core_ast::proofs::Trees::tree_equations))]
pub fn result_count(ask: Ask, expr: &Expr) -> usize
    ensures { result ≡ result_count ask (tree expr.now) }
{
    match &expr.form {
        Form::Values(_)
        | Form::Chain(_, _)
        | Form::Case(_, _)
        | Form::Letrec(_, _)
        | Form::Try(_)
        | Form::Receive(_, _, _) => passed_on(ask),
        Form::Primop(_, _) => whatever_asked(ask),
        Form::Call(home, name, args) => {
            call_results(ask, call_gives(home.get(), name.get(), args.len()))
        }
        Form::Var(_)
        | Form::Local(_)
        | Form::External(_, _)
        | Form::Lit(_)
        | Form::Fun(_)
        | Form::Listed(_, _)
        | Form::Tuple(_)
        | Form::Map(_, _)
        | Form::Binary(_)
        | Form::Apply(_, _)
        | Form::Catch(_) => 1,
    }
}

/// The module and the name of a call, where both are literal atoms. Takes no memory.
pub fn call_names<'a>(home: &'a Expr, name: &'a Expr) -> Option<(&'a Atom, &'a Atom)>
    ensures { MatchOption result (call_names (tree home.now) (tree name.now) ≡ None)
        (λ names. call_names (tree home.now) (tree name.now) ≡ Some (names.0.now, names.1.now)) }
{
    match (home.atom(), name.atom()) {
        (Some(home), Some(name)) => Some((home, name)),
        _ => None,
    }
}

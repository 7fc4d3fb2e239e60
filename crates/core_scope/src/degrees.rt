// How many values expressions give, and whether that is what is asked.
ghost use Rattle.std.specs.Prelude.{◌≡◌};
ghost use Rattle.core_ast.specs.Tree.{tree};
ghost use Rattle.core_scope.specs.Names.{same_atom};
ghost use Rattle.core_scope.specs.Asks.{never_returns, call_gives, gives, suffices};

use crate::ask::Ask;
use core_ast::{Expr, Form};
use type_kinds::Atom;

/// The greatest number of values that a place may ask for.
pub const MOST_ASKED: usize = 255;

/// Whether an expression that gives `given` values satisfies a place that asks for `ask`.
pub fn suffices(ask: Ask, given: Ask) -> bool
    ensures { result ≡ suffices ask given }
{
    match ask {
        Ask::AnyNumber => true,
        Ask::Exactly(asked) => match given {
            Ask::AnyNumber => asked <= MOST_ASKED,
            Ask::Exactly(given) => asked == given && asked <= MOST_ASKED,
        },
    }
}

/// Whether an atom has these bytes.
pub fn is_text(name: &Atom, bytes: &[u8]) -> bool
    ensures { result ≡ same_atom name.now bytes.now }
{
    name.bytes() == bytes
}

// Whether a call of this module and name, with `arity` arguments, never returns.
fn never_returns(home: &Atom, name: &Atom, arity: usize) -> bool
    ensures { result ≡ never_returns home.now name.now arity }
{
    if !is_text(home, b"erlang") {
        return false;
    }
    if is_text(name, b"error") {
        return arity == 1 || arity == 2;
    }
    if is_text(name, b"halt") {
        return arity == 0 || arity == 1;
    }
    arity == 1 && (is_text(name, b"exit") || is_text(name, b"throw"))
}

/// How many values a call of this module and name gives, with `arity` arguments, where `AnyNumber` is whatever is
/// asked: that of a built-in function that never returns, by literal names.
pub fn call_gives(home: &Expr, name: &Expr, arity: usize) -> Ask
    ensures { result ≡ call_gives (tree home.now) (tree name.now) arity }
{
    let Some(home) = home.atom() else {
        return Ask::Exactly(1);
    };
    match name.atom() {
        Some(name) if never_returns(home, name, arity) => Ask::AnyNumber,
        _ => Ask::Exactly(1),
    }
}

/// How many values an expression gives, where `AnyNumber` is whatever is asked.
#[tactic(auto, using(core_ast::proofs::Trees::tree_equations, crate::proofs::GivesExits::gives_exits))]
pub fn gives(expr: &Expr) -> Ask
    ensures { result ≡ gives (tree expr.now) }
{
    match &expr.form {
        Form::Values(items) => Ask::Exactly(items.len()),
        Form::Call(home, name, args) => call_gives(home.get(), name.get(), args.len()),
        Form::Chain(_, _)
        | Form::Case(_, _)
        | Form::Letrec(_, _)
        | Form::Primop(_, _)
        | Form::Try(_)
        | Form::Receive(_, _, _) => Ask::AnyNumber,
        Form::Var(_)
        | Form::Local(_)
        | Form::External(_, _)
        | Form::Lit(_)
        | Form::Fun(_)
        | Form::Listed(_, _)
        | Form::Tuple(_)
        | Form::Map(_, _)
        | Form::Binary(_)
        | Form::Apply(_, _)
        | Form::Catch(_) => Ask::Exactly(1),
    }
}

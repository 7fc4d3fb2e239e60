// Nodes in boxes, so that what a reader answers is small, however large a node is. A part goes into its
// node in the box that it was read in. Each maker drops its parts if allocation fails.
ghost use Rattle.std.specs.Prelude.{◌≡◌, IfOk};
ghost use Rattle.core_ast.specs.Model as m;
ghost use Rattle.core_ast.specs.Tree.{tree, all_trees, all_pairs, all_segments, all_steps, all_clauses, all_defs};

use crate::boxes::boxed;
use core_ast::{
    Clause, Expr, Form, FunDef, FunName, FunOf, Literal, MapPair, Mark, Segment, Step, TryParts,
    VarName,
};
use std::alloc::Global;
use type_kinds::{Atom, Boxed, List, Memory};

/// A literal.
#[inline(never)]
pub fn literal(alloc: Global, mark: Mark, value: Literal) -> Result<Boxed<Expr>, Memory>
    ensures { IfOk result (λ made. tree made ≡ m.literal mark value) }
{
    boxed(alloc, Expr::literal(mark, value))
}

/// A variable.
#[inline(never)]
pub fn variable(alloc: Global, mark: Mark, name: Atom) -> Result<Boxed<Expr>, Memory>
    ensures { IfOk result (λ made. tree made ≡ m.variable mark name) }
{
    boxed(alloc, Expr::variable(mark, name))
}

/// A function's name.
#[inline(never)]
pub fn local(alloc: Global, mark: Mark, name: FunName) -> Result<Boxed<Expr>, Memory>
    ensures { IfOk result (λ made. tree made ≡ m.local mark name) }
{
    boxed(alloc, Expr::local(mark, name))
}

/// A function of a module, by both names.
#[inline(never)]
pub fn external(alloc: Global, mark: Mark, home: Atom, name: FunName) -> Result<Boxed<Expr>, Memory>
    ensures { IfOk result (λ made. tree made ≡ m.external mark home name) }
{
    boxed(alloc, Expr::external(mark, home, name))
}

/// A tuple.
#[inline(never)]
pub fn tuple(alloc: Global, mark: Mark, elements: List<Expr>) -> Result<Boxed<Expr>, Memory>
    ensures { IfOk result (λ made. tree made ≡ m.tuple mark (all_trees elements)) }
{
    boxed(alloc, Expr::tuple(mark, elements))
}

/// A value list.
#[inline(never)]
pub fn values(alloc: Global, mark: Mark, elements: List<Expr>) -> Result<Boxed<Expr>, Memory>
    ensures { IfOk result (λ made. tree made ≡ m.values mark (all_trees elements)) }
{
    boxed(alloc, Expr::values(mark, elements))
}

/// A binary.
#[inline(never)]
pub fn binary(alloc: Global, mark: Mark, segments: List<Segment>) -> Result<Boxed<Expr>, Memory>
    ensures { IfOk result (λ made. tree made ≡ m.binary mark (all_segments segments)) }
{
    boxed(alloc, Expr::binary(mark, segments))
}

/// A map of these pairs alone.
#[inline(never)]
pub fn new_map(alloc: Global, mark: Mark, pairs: List<MapPair>) -> Result<Boxed<Expr>, Memory>
    ensures { IfOk result (λ made. tree made ≡ m.new_map mark (all_pairs pairs)) }
{
    boxed(alloc, Expr::new_map(mark, pairs))
}

/// A primitive operation.
#[inline(never)]
pub fn primop(
    alloc: Global,
    mark: Mark,
    name: Atom,
    args: List<Expr>,
) -> Result<Boxed<Expr>, Memory>
    ensures { IfOk result (λ made. tree made ≡ m.primop mark name (all_trees args)) }
{
    boxed(alloc, Expr::primop(mark, name, args))
}

/// A fun.
#[tactic(auto, using(core_ast::proofs::Trees::tree_equations))]
#[inline(never)]
pub fn function(
    alloc: Global,
    mark: Mark,
    params: List<VarName>,
    body: Boxed<Expr>,
) -> Result<Boxed<Expr>, Memory>
    ensures { IfOk result (λ made. tree made ≡ m.function mark params (tree body)) }
{
    boxed(
        alloc,
        Expr {
            mark,
            form: Form::Fun(FunOf { params, body }),
        },
    )
}

/// A list: its elements and its tail.
#[tactic(auto, using(core_ast::proofs::Trees::tree_equations))]
#[inline(never)]
pub fn listed(
    alloc: Global,
    mark: Mark,
    elements: List<Expr>,
    tail: Boxed<Expr>,
) -> Result<Boxed<Expr>, Memory>
    ensures { IfOk result (λ made. tree made ≡ m.listed mark (all_trees elements) (tree tail)) }
{
    boxed(
        alloc,
        Expr {
            mark,
            form: Form::Listed(elements, tail),
        },
    )
}

/// A map that is updated by these pairs.
#[tactic(auto, using(core_ast::proofs::Trees::tree_equations))]
#[inline(never)]
pub fn updated_map(
    alloc: Global,
    mark: Mark,
    pairs: List<MapPair>,
    map: Boxed<Expr>,
) -> Result<Boxed<Expr>, Memory>
    ensures { IfOk result (λ made. tree made ≡ m.updated_map mark (all_pairs pairs) (tree map)) }
{
    boxed(
        alloc,
        Expr {
            mark,
            form: Form::Map(pairs, Some(map)),
        },
    )
}

/// A chain: its steps, and the expression that follows them.
#[tactic(auto, using(core_ast::proofs::Trees::tree_equations))]
#[inline(never)]
pub fn chain(
    alloc: Global,
    mark: Mark,
    steps: List<Step>,
    last: Boxed<Expr>,
) -> Result<Boxed<Expr>, Memory>
    ensures { IfOk result (λ made. tree made ≡ m.chain mark (all_steps steps) (tree last)) }
{
    boxed(
        alloc,
        Expr {
            mark,
            form: Form::Chain(steps, last),
        },
    )
}

/// A `case`: its argument and its clauses.
#[tactic(auto, using(core_ast::proofs::Trees::tree_equations))]
#[inline(never)]
pub fn case(
    alloc: Global,
    mark: Mark,
    argument: Boxed<Expr>,
    clauses: List<Clause>,
) -> Result<Boxed<Expr>, Memory>
    ensures { IfOk result (λ made. tree made ≡ m.case mark (tree argument) (all_clauses clauses)) }
{
    boxed(
        alloc,
        Expr {
            mark,
            form: Form::Case(argument, clauses),
        },
    )
}

/// A `letrec`: its functions and its body.
#[tactic(auto, using(core_ast::proofs::Trees::tree_equations))]
#[inline(never)]
pub fn letrec(
    alloc: Global,
    mark: Mark,
    functions: List<FunDef>,
    body: Boxed<Expr>,
) -> Result<Boxed<Expr>, Memory>
    ensures { IfOk result (λ made. tree made ≡ m.letrec mark (all_defs functions) (tree body)) }
{
    boxed(
        alloc,
        Expr {
            mark,
            form: Form::Letrec(functions, body),
        },
    )
}

/// The application of an operator.
#[tactic(auto, using(core_ast::proofs::Trees::tree_equations))]
#[inline(never)]
pub fn apply(
    alloc: Global,
    mark: Mark,
    operator: Boxed<Expr>,
    args: List<Expr>,
) -> Result<Boxed<Expr>, Memory>
    ensures { IfOk result (λ made. tree made ≡ m.apply mark (tree operator) (all_trees args)) }
{
    boxed(
        alloc,
        Expr {
            mark,
            form: Form::Apply(operator, args),
        },
    )
}

/// The call of a function of a module.
#[tactic(auto, using(core_ast::proofs::Trees::tree_equations))]
#[inline(never)]
pub fn call(
    alloc: Global,
    mark: Mark,
    home: Boxed<Expr>,
    name: Boxed<Expr>,
    args: List<Expr>,
) -> Result<Boxed<Expr>, Memory>
    ensures { IfOk result (λ made. tree made ≡ m.call mark (tree home) (tree name) (all_trees args)) }
{
    boxed(
        alloc,
        Expr {
            mark,
            form: Form::Call(home, name, args),
        },
    )
}

/// A `try`.
#[tactic(auto, using(core_ast::proofs::Trees::tree_equations))]
#[inline(never)]
pub fn try_(alloc: Global, mark: Mark, parts: TryParts) -> Result<Boxed<Expr>, Memory>
    ensures { IfOk result (λ made. tree made ≡ m.try mark (tree parts.arg) parts.vars (tree parts.body) parts.catch_vars (tree parts.handler)) }
{
    boxed(
        alloc,
        Expr {
            mark,
            form: Form::Try(parts),
        },
    )
}

/// A `receive`: its clauses, how long it waits, and what it does then.
#[tactic(auto, using(core_ast::proofs::Trees::tree_equations))]
#[inline(never)]
pub fn receive(
    alloc: Global,
    mark: Mark,
    clauses: List<Clause>,
    timeout: Boxed<Expr>,
    action: Boxed<Expr>,
) -> Result<Boxed<Expr>, Memory>
    ensures { IfOk result (λ made. tree made ≡ m.receive mark (all_clauses clauses) (tree timeout) (tree action)) }
{
    boxed(
        alloc,
        Expr {
            mark,
            form: Form::Receive(clauses, timeout, action),
        },
    )
}

/// A `catch`.
#[tactic(auto, using(core_ast::proofs::Trees::tree_equations))]
#[inline(never)]
pub fn catch(alloc: Global, mark: Mark, body: Boxed<Expr>) -> Result<Boxed<Expr>, Memory>
    ensures { IfOk result (λ made. tree made ≡ m.catch mark (tree body)) }
{
    boxed(
        alloc,
        Expr {
            mark,
            form: Form::Catch(body),
        },
    )
}

ghost use Rattle.std.specs.Prelude.{◌≡◌, IfOk, Some, None};
ghost use Rattle.core_ast.specs.Model as m;
ghost use Rattle.core_ast.specs.Tree.{tree, all_trees, all_pairs, all_segments, all_steps, all_clauses, all_defs};

use crate::drops::{
    discard, discard_all, discard_clauses, discard_functions, discard_pairs, discard_steps,
};
use crate::syntax::{
    Clause, Expr, Form, Fun, FunDef, FunName, Literal, MapPair, Mark, Segment, Step, TryParts,
};
use std::alloc::Global;
use type_kinds::{Atom, Boxed, List, Memory};

/// Boxes an expression. If allocation fails it is dropped.
pub fn boxed(alloc: Global, expr: Expr) -> Result<Boxed<Expr>, Memory>
    ensures { IfOk result (λ made. made ≡ expr) }
{
    match Boxed::new(alloc, expr) {
        Ok(made) => Ok(made),
        Err((expr, Memory)) => {
            discard(expr);
            Err(Memory)
        }
    }
}

/// Boxes two expressions. If allocation fails both are dropped.
pub fn boxed_two(
    alloc: Global,
    first: Expr,
    second: Expr,
) -> Result<(Boxed<Expr>, Boxed<Expr>), Memory>
    ensures first { IfOk result (λ made. made.0 ≡ first) }
    ensures second { IfOk result (λ made. made.1 ≡ second) }
{
    let first = match boxed(alloc, first) {
        Ok(first) => first,
        Err(Memory) => {
            discard(second);
            return Err(Memory);
        }
    };
    match boxed(alloc, second) {
        Ok(second) => Ok((first, second)),
        Err(Memory) => {
            discard(first.into_inner());
            Err(Memory)
        }
    }
}

// Each maker drops its parts if allocation fails.
impl Expr {
    /// A variable.
    #[tactic(auto, using(crate::proofs::Trees::tree_equations))]
    pub fn variable(mark: Mark, name: Atom) -> Expr
        ensures { tree result ≡ m.variable mark name }
    {
        Expr {
            mark,
            form: Form::Var(name),
        }
    }

    /// A function's name.
    #[tactic(auto, using(crate::proofs::Trees::tree_equations))]
    pub fn local(mark: Mark, name: FunName) -> Expr
        ensures { tree result ≡ m.local mark name }
    {
        Expr {
            mark,
            form: Form::Local(name),
        }
    }

    /// A function of a module, by both names.
    #[tactic(auto, using(crate::proofs::Trees::tree_equations))]
    pub fn external(mark: Mark, home: Atom, name: FunName) -> Expr
        ensures { tree result ≡ m.external mark home name }
    {
        Expr {
            mark,
            form: Form::External(home, name),
        }
    }

    /// A literal.
    #[tactic(auto, using(crate::proofs::Trees::tree_equations))]
    pub fn literal(mark: Mark, value: Literal) -> Expr
        ensures { tree result ≡ m.literal mark value }
    {
        Expr {
            mark,
            form: Form::Lit(value),
        }
    }

    /// A fun.
    #[tactic(auto, using(crate::proofs::Trees::tree_equations))]
    pub fn function(mark: Mark, fun: Fun) -> Expr
        ensures { tree result ≡ m.function mark fun.params (tree fun.body) }
    {
        Expr {
            mark,
            form: Form::Fun(fun),
        }
    }

    /// A list: its elements and its tail.
    #[tactic(auto, using(crate::proofs::Trees::tree_equations))]
    pub fn listed(
        alloc: Global,
        mark: Mark,
        elements: List<Expr>,
        tail: Expr,
    ) -> Result<Expr, Memory>
        ensures { IfOk result (λ made. tree made ≡ m.listed mark (all_trees elements) (tree tail)) }
    {
        match boxed(alloc, tail) {
            Ok(tail) => Ok(Expr {
                mark,
                form: Form::Listed(elements, tail),
            }),
            Err(Memory) => {
                discard_all(elements);
                Err(Memory)
            }
        }
    }

    /// A tuple.
    #[tactic(auto, using(crate::proofs::Trees::tree_equations))]
    pub fn tuple(mark: Mark, elements: List<Expr>) -> Expr
        ensures { tree result ≡ m.tuple mark (all_trees elements) }
    {
        Expr {
            mark,
            form: Form::Tuple(elements),
        }
    }

    /// A map of these pairs alone.
    #[tactic(auto, using(crate::proofs::Trees::tree_equations))]
    pub fn new_map(mark: Mark, pairs: List<MapPair>) -> Expr
        ensures { tree result ≡ m.new_map mark (all_pairs pairs) }
    {
        Expr {
            mark,
            form: Form::Map(pairs, None),
        }
    }

    /// A map that is updated by these pairs.
    #[tactic(auto, using(crate::proofs::Trees::tree_equations))]
    pub fn updated_map(
        alloc: Global,
        mark: Mark,
        pairs: List<MapPair>,
        map: Expr,
    ) -> Result<Expr, Memory>
        ensures { IfOk result (λ made. tree made ≡ m.updated_map mark (all_pairs pairs) (tree map)) }
    {
        match boxed(alloc, map) {
            Ok(map) => Ok(Expr {
                mark,
                form: Form::Map(pairs, Some(map)),
            }),
            Err(Memory) => {
                discard_pairs(pairs);
                Err(Memory)
            }
        }
    }

    /// A binary.
    #[tactic(auto, using(crate::proofs::Trees::tree_equations))]
    pub fn binary(mark: Mark, segments: List<Segment>) -> Expr
        ensures { tree result ≡ m.binary mark (all_segments segments) }
    {
        Expr {
            mark,
            form: Form::Binary(segments),
        }
    }

    /// A value list.
    #[tactic(auto, using(crate::proofs::Trees::tree_equations))]
    pub fn values(mark: Mark, elements: List<Expr>) -> Expr
        ensures { tree result ≡ m.values mark (all_trees elements) }
    {
        Expr {
            mark,
            form: Form::Values(elements),
        }
    }

    /// A chain: its steps, and the expression that follows them.
    #[tactic(auto, using(crate::proofs::Trees::tree_equations))]
    pub fn chain(alloc: Global, mark: Mark, steps: List<Step>, last: Expr) -> Result<Expr, Memory>
        ensures { IfOk result (λ made. tree made ≡ m.chain mark (all_steps steps) (tree last)) }
    {
        match boxed(alloc, last) {
            Ok(last) => Ok(Expr {
                mark,
                form: Form::Chain(steps, last),
            }),
            Err(Memory) => {
                discard_steps(steps);
                Err(Memory)
            }
        }
    }

    /// A `case`: its argument and its clauses.
    #[tactic(auto, using(crate::proofs::Trees::tree_equations))]
    pub fn case(
        alloc: Global,
        mark: Mark,
        argument: Expr,
        clauses: List<Clause>,
    ) -> Result<Expr, Memory>
        ensures { IfOk result (λ made. tree made ≡ m.case mark (tree argument) (all_clauses clauses)) }
    {
        match boxed(alloc, argument) {
            Ok(argument) => Ok(Expr {
                mark,
                form: Form::Case(argument, clauses),
            }),
            Err(Memory) => {
                discard_clauses(clauses);
                Err(Memory)
            }
        }
    }

    /// A `letrec`: its functions and its body.
    #[tactic(auto, using(crate::proofs::Trees::tree_equations))]
    pub fn letrec(
        alloc: Global,
        mark: Mark,
        functions: List<FunDef>,
        body: Expr,
    ) -> Result<Expr, Memory>
        ensures { IfOk result (λ made. tree made ≡ m.letrec mark (all_defs functions) (tree body)) }
    {
        match boxed(alloc, body) {
            Ok(body) => Ok(Expr {
                mark,
                form: Form::Letrec(functions, body),
            }),
            Err(Memory) => {
                discard_functions(functions);
                Err(Memory)
            }
        }
    }

    /// The application of an operator.
    #[tactic(auto, using(crate::proofs::Trees::tree_equations))]
    pub fn apply(
        alloc: Global,
        mark: Mark,
        operator: Expr,
        args: List<Expr>,
    ) -> Result<Expr, Memory>
        ensures { IfOk result (λ made. tree made ≡ m.apply mark (tree operator) (all_trees args)) }
    {
        match boxed(alloc, operator) {
            Ok(operator) => Ok(Expr {
                mark,
                form: Form::Apply(operator, args),
            }),
            Err(Memory) => {
                discard_all(args);
                Err(Memory)
            }
        }
    }

    /// The call of a function of a module.
    #[tactic(auto, using(crate::proofs::Trees::tree_equations))]
    pub fn call(
        alloc: Global,
        mark: Mark,
        home: Expr,
        name: Expr,
        args: List<Expr>,
    ) -> Result<Expr, Memory>
        ensures { IfOk result (λ made. tree made ≡ m.call mark (tree home) (tree name) (all_trees args)) }
    {
        match boxed_two(alloc, home, name) {
            Ok((home, name)) => Ok(Expr {
                mark,
                form: Form::Call(home, name, args),
            }),
            Err(Memory) => {
                discard_all(args);
                Err(Memory)
            }
        }
    }

    /// A primitive operation.
    #[tactic(auto, using(crate::proofs::Trees::tree_equations))]
    pub fn primop(mark: Mark, name: Atom, args: List<Expr>) -> Expr
        ensures { tree result ≡ m.primop mark name (all_trees args) }
    {
        Expr {
            mark,
            form: Form::Primop(name, args),
        }
    }

    /// A `try`.
    #[tactic(auto, using(crate::proofs::Trees::tree_equations))]
    pub fn try_(mark: Mark, parts: TryParts) -> Expr
        ensures { tree result ≡ m.try mark (tree parts.arg) parts.vars (tree parts.body) parts.catch_vars (tree parts.handler) }
    {
        Expr {
            mark,
            form: Form::Try(parts),
        }
    }

    /// A `receive`: its clauses, how long it waits, and what it does then.
    #[tactic(auto, using(crate::proofs::Trees::tree_equations))]
    pub fn receive(
        alloc: Global,
        mark: Mark,
        clauses: List<Clause>,
        timeout: Expr,
        action: Expr,
    ) -> Result<Expr, Memory>
        ensures { IfOk result (λ made. tree made ≡ m.receive mark (all_clauses clauses) (tree timeout) (tree action)) }
    {
        match boxed_two(alloc, timeout, action) {
            Ok((timeout, action)) => Ok(Expr {
                mark,
                form: Form::Receive(clauses, timeout, action),
            }),
            Err(Memory) => {
                discard_clauses(clauses);
                Err(Memory)
            }
        }
    }

    /// A `catch`.
    #[tactic(auto, using(crate::proofs::Trees::tree_equations))]
    pub fn catch(alloc: Global, mark: Mark, body: Expr) -> Result<Expr, Memory>
        ensures { IfOk result (λ made. tree made ≡ m.catch mark (tree body)) }
    {
        match boxed(alloc, body) {
            Ok(body) => Ok(Expr {
                mark,
                form: Form::Catch(body),
            }),
            Err(Memory) => Err(Memory),
        }
    }
}

ghost use Rattle.std.specs.Prelude.{◌≡◌, IfOk};
ghost use Rattle.core_ast.specs.Tree.{tree, pattern_tree, all_trees, all_patterns, clause_parts, pair_parts};
ghost use Rattle.core_ast.specs.Tree.{pat_pair_parts, segment_parts, pat_segment_parts, def_tree};

use crate::drops::discard;
use crate::expression_makers::{boxed, boxed_two};
use crate::syntax::{
    Clause, Expr, Fun, FunDef, FunDefOf, FunName, FunOf, MapPair, Mark, PatPair, PatSegment,
    Pattern, Segment, TryOf, TryParts, VarName,
};
use std::alloc::Global;
use type_kinds::{List, Memory};

impl FunOf<Expr> {
    /// A fun's parameters and its body. If allocation fails they are dropped.
    pub fn new(alloc: Global, params: List<VarName>, body: Expr) -> Result<Fun, Memory>
        ensures params { IfOk result (λ made. made.params ≡ params) }
        ensures body { IfOk result (λ made. made.body ≡ body) }
    {
        match boxed(alloc, body) {
            Ok(body) => Ok(FunOf { params, body }),
            Err(Memory) => Err(Memory),
        }
    }
}

impl FunDefOf<Expr> {
    /// A definition: a function's name, and the mark, the parameters and the body of its fun. If
    /// allocation fails they are dropped.
    pub fn new(
        alloc: Global,
        name: FunName,
        mark: Mark,
        params: List<VarName>,
        body: Expr,
    ) -> Result<FunDef, Memory>
        ensures { IfOk result (λ made. def_tree made ≡ (record { name = name; mark = mark; fun = record { params = params; body = tree body } })) }
    {
        match boxed(alloc, body) {
            Ok(body) => Ok(FunDefOf {
                name,
                mark,
                fun: FunOf { params, body },
            }),
            Err(Memory) => Err(Memory),
        }
    }
}

impl TryOf<Expr> {
    /// The parts of a `try`. If allocation fails they are dropped.
    pub fn new(
        alloc: Global,
        arg: Expr,
        vars: List<VarName>,
        body: Expr,
        catch_vars: List<VarName>,
        handler: Expr,
    ) -> Result<TryParts, Memory>
        ensures arg { IfOk result (λ made. made.arg ≡ arg) }
        ensures vars { IfOk result (λ made. made.vars ≡ vars) }
        ensures body { IfOk result (λ made. made.body ≡ body) }
        ensures catch_vars { IfOk result (λ made. made.catch_vars ≡ catch_vars) }
        ensures handler { IfOk result (λ made. made.handler ≡ handler) }
    {
        let (arg, body) = match boxed_two(alloc, arg, body) {
            Ok(both) => both,
            Err(Memory) => {
                discard(handler);
                return Err(Memory);
            }
        };
        match boxed(alloc, handler) {
            Ok(handler) => Ok(TryOf {
                arg,
                vars,
                body,
                catch_vars,
                handler,
            }),
            Err(Memory) => {
                discard(arg.into_inner());
                discard(body.into_inner());
                Err(Memory)
            }
        }
    }
}

impl Clause {
    /// A clause: its patterns, its guard and its body.
    #[tactic(auto, using(crate::proofs::Trees::part_equations))]
    pub fn new(mark: Mark, patterns: List<Pattern>, guard: Expr, body: Expr) -> Clause
        ensures { clause_parts result ≡ (record { mark = mark; patterns = all_patterns patterns; guard = tree guard; body = tree body }) }
    {
        Clause {
            mark,
            patterns,
            guard,
            body,
        }
    }
}

impl MapPair {
    /// A pair of a map, written with `:=` where it is exact.
    #[tactic(auto, using(crate::proofs::Trees::part_equations))]
    pub fn new(exact: bool, key: Expr, value: Expr) -> MapPair
        ensures { pair_parts result ≡ (record { exact = exact; key = tree key; value = tree value }) }
    {
        MapPair { exact, key, value }
    }
}

impl PatPair {
    /// A pair of a map pattern.
    #[tactic(auto, using(crate::proofs::Trees::part_equations))]
    pub fn new(key: Expr, value: Pattern) -> PatPair
        ensures { pat_pair_parts result ≡ (record { key = tree key; value = pattern_tree value }) }
    {
        PatPair { key, value }
    }
}

impl Segment {
    /// A segment of a binary.
    #[tactic(auto, using(crate::proofs::Trees::part_equations))]
    pub fn new(value: Expr, args: List<Expr>) -> Segment
        ensures { segment_parts result ≡ (record { value = tree value; args = all_trees args }) }
    {
        Segment { value, args }
    }
}

impl PatSegment {
    /// A segment of a binary pattern.
    #[tactic(auto, using(crate::proofs::Trees::part_equations))]
    pub fn new(value: Pattern, args: List<Expr>) -> PatSegment
        ensures { pat_segment_parts result ≡ (record { value = pattern_tree value; args = all_trees args }) }
    {
        PatSegment { value, args }
    }
}

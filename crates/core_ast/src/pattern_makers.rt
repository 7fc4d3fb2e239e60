ghost use Rattle.std.specs.Prelude.{◌≡◌, IfOk};
ghost use Rattle.core_ast.specs.Model as m;
ghost use Rattle.core_ast.specs.Tree.{pattern_tree, all_patterns, all_pat_pairs, all_pat_segments};

use crate::drops::{discard_pattern, discard_patterns};
use crate::syntax::{Literal, Mark, PatForm, PatPair, PatSegment, Pattern, VarName};
use std::alloc::Global;
use type_kinds::{Atom, Boxed, List, Memory};

// Boxes a pattern. If allocation fails it is dropped.
fn boxed_pattern(alloc: Global, pattern: Pattern) -> Result<Boxed<Pattern>, Memory>
    ensures { IfOk result (λ made. made ≡ pattern) }
{
    match Boxed::new(alloc, pattern) {
        Ok(made) => Ok(made),
        Err((pattern, Memory)) => {
            discard_pattern(pattern);
            Err(Memory)
        }
    }
}

// Each maker drops its parts if allocation fails.
impl Pattern {
    /// A variable.
    #[tactic(auto, using(crate::proofs::Trees::tree_equations))]
    pub fn variable(mark: Mark, name: Atom) -> Pattern
        ensures { pattern_tree result ≡ m.binds mark name }
    {
        Pattern {
            mark,
            form: PatForm::Var(name),
        }
    }

    /// A literal.
    #[tactic(auto, using(crate::proofs::Trees::tree_equations))]
    pub fn literal(mark: Mark, value: Literal) -> Pattern
        ensures { pattern_tree result ≡ m.equals mark value }
    {
        Pattern {
            mark,
            form: PatForm::Lit(value),
        }
    }

    /// A list: the patterns of its elements and of its tail.
    #[tactic(auto, using(crate::proofs::Trees::tree_equations))]
    pub fn listed(
        alloc: Global,
        mark: Mark,
        elements: List<Pattern>,
        tail: Pattern,
    ) -> Result<Pattern, Memory>
        ensures { IfOk result (λ made. pattern_tree made ≡ m.list_of mark (all_patterns elements) (pattern_tree tail)) }
    {
        match boxed_pattern(alloc, tail) {
            Ok(tail) => Ok(Pattern {
                mark,
                form: PatForm::Listed(elements, tail),
            }),
            Err(Memory) => {
                discard_patterns(elements);
                Err(Memory)
            }
        }
    }

    /// A tuple.
    #[tactic(auto, using(crate::proofs::Trees::tree_equations))]
    pub fn tuple(mark: Mark, elements: List<Pattern>) -> Pattern
        ensures { pattern_tree result ≡ m.tuple_of mark (all_patterns elements) }
    {
        Pattern {
            mark,
            form: PatForm::Tuple(elements),
        }
    }

    /// A map that has these pairs at least.
    #[tactic(auto, using(crate::proofs::Trees::tree_equations))]
    pub fn map(mark: Mark, pairs: List<PatPair>) -> Pattern
        ensures { pattern_tree result ≡ m.map_of mark (all_pat_pairs pairs) }
    {
        Pattern {
            mark,
            form: PatForm::Map(pairs),
        }
    }

    /// A binary.
    #[tactic(auto, using(crate::proofs::Trees::tree_equations))]
    pub fn binary(mark: Mark, segments: List<PatSegment>) -> Pattern
        ensures { pattern_tree result ≡ m.binary_of mark (all_pat_segments segments) }
    {
        Pattern {
            mark,
            form: PatForm::Binary(segments),
        }
    }

    /// A pattern that a variable names.
    #[tactic(auto, using(crate::proofs::Trees::tree_equations))]
    pub fn alias(
        alloc: Global,
        mark: Mark,
        name: VarName,
        pattern: Pattern,
    ) -> Result<Pattern, Memory>
        ensures { IfOk result (λ made. pattern_tree made ≡ m.alias mark name (pattern_tree pattern)) }
    {
        match boxed_pattern(alloc, pattern) {
            Ok(pattern) => Ok(Pattern {
                mark,
                form: PatForm::Alias(name, pattern),
            }),
            Err(Memory) => Err(Memory),
        }
    }
}

//! The laws of rounds, as functions that do nothing: who calls one has its clauses.
ghost use Rattle.std.specs.Prelude.{◌≡◌, ◌≤◌, ℕ, List, IsTrue};
ghost use Rattle.comp_rounds.specs.Rounds.{Callees, Function, after_rounds, given, last_round, strict_signatures, summaries};
ghost use Rattle.comp_rounds.specs.Signatures.{all_below};
ghost use Rattle.comp_rounds.specs.Takes.{AllTake};

use cons_solve::solution_laws;
use cons_tree::type_facts;

/// The strict signatures of a component are a post-fixpoint: by them each function gives no more than its signature
/// says. Rounds beyond the last change nothing, nor do those after a round in which no function gives more than its
/// signature says. Each summary has as many arguments as its function.
pub fn rounds_laws()
    ensures settles { (outside : Callees) (gs : List Function)
        → IsTrue (all_below (given outside gs (strict_signatures outside gs)) (strict_signatures outside gs)) }
    ensures ends { (outside : Callees) (gs : List Function) (k : ℕ) → last_round outside gs ≤ k
        → after_rounds outside gs k ≡ strict_signatures outside gs }
    ensures stays { (outside : Callees) (gs : List Function) (k n : ℕ)
        → IsTrue (all_below (given outside gs (after_rounds outside gs k)) (after_rounds outside gs k)) → k ≤ n
        → after_rounds outside gs n ≡ after_rounds outside gs k }
    ensures take { (outside : Callees) (gs : List Function) → AllTake gs (summaries outside gs) }
{
    type_facts();
    solution_laws();
}

//! The law, as a function that does nothing: who calls it has its clause.
ghost use Rattle.std.specs.Prelude.{◌≡◌, ℕ, ◌<◌, List, Some, slice_get};
ghost use Rattle.core_ast.specs.Model as m;
ghost use Rattle.core_scope.specs.Names.{Distinct};
ghost use Rattle.components.specs.Numbering.{Numbering, callees_of};
ghost use Rattle.components.specs.Ready.{IsReadyNumbering};
ghost use Rattle.comp_rounds.specs.declared.parts.CompPart.{CompPart};
ghost use Rattle.comp_rounds.specs.Parts.{written};
ghost use Rattle.comp_rounds.specs.Rounds.{Callees};
ghost use Rattle.sound_laws.specs.Accepted.{AreAccepted};
ghost use Rattle.summary_board.specs.Solved.{solved};
ghost use Rattle.analysis_summaries.specs.Known.{module_names};
ghost use Rattle.analysis_summaries.specs.Whole.{IsCallGraph};
ghost use Rattle.analysis_crew.specs.Parts.{IsPartOf, summaries_of};

use comp_rounds::rounds_laws;

/// Where each component of accepted modules with distinct names is solved from its part and the outputs of those that
/// it calls, and from nothing else, its output has the summaries that it has where one component is solved after the
/// other, each with all that is known then. Around the modules anything may be known.
pub fn outputs_are_summaries()
    ensures { (around : Callees) (xs : List m.Module) (graph : List (List ℕ)) (c : Numbering) (part : ℕ → CompPart) (callees : ℕ → List ℕ)
        → AreAccepted xs → Distinct (module_names xs) → IsCallGraph xs graph → IsReadyNumbering graph c
        → ((n : ℕ) → n < c.count → IsPartOf around xs c n (part n)) → ((n : ℕ) → n < c.count → callees n ≡ callees_of c n) → (n : ℕ)
        → n < c.count → slice_get (solved written part callees c.count) n ≡ Some (record { summaries = summaries_of around xs c n }) }
{
    rounds_laws();
}

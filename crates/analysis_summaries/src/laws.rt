//! What holds of the definitions, as functions that do nothing: who calls one has its clauses.
ghost use Rattle.std.specs.Prelude.{◌≡◌, List};
ghost use Rattle.core_ast.specs.Model as m;
ghost use Rattle.comp_rounds.specs.Rounds.{Callees};
ghost use Rattle.analysis_summaries.specs.Whole.{IsWholeOver};

use components::one_numbering;

/// The modules alone, and what stands of functions outside of them, decide what is known of functions.
pub fn one_known()
    ensures { (outside : Callees) (xs : List m.Module) (known other : Callees) → IsWholeOver outside xs known → IsWholeOver outside xs other
        → known ≡ other }
{
    one_numbering();
}

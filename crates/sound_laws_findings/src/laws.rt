//! The law, as a function that does nothing: who calls it has its clause.
ghost use Rattle.std.specs.Prelude.{Contains, List};
ghost use Rattle.core_ast.specs.Model as m;
ghost use Rattle.core_scope.specs.Names.{Distinct};
ghost use Rattle.module_flow.specs.Flow.{Callees};
ghost use Rattle.sound_laws.specs.Accepted.{AreAccepted};
ghost use Rattle.sound_laws_flow.specs.Claims.{NothingFalse};
ghost use Rattle.analysis_summaries.specs.Known.{module_names};
ghost use Rattle.analysis_summaries.specs.Whole.{IsWholeOf};

use sound_laws_flow::nothing_is_false;
use sound_laws_whole::known_is_whole;

/// Nothing that the flow of one of the modules finds, by what is known in the end of the functions of them all, is
/// false of a run: a function that is found without a local return doesn't return, nor does a call or an
/// application that is found never to return, a clause that is found never to match isn't chosen, and a function
/// that is found never to be called isn't entered, in every run of every stage with any fuel. The modules are
/// accepted, and their names differ.
pub fn findings_hold()
    ensures { (xs : List m.Module) (known : Callees) (x : m.Module) → AreAccepted xs → Distinct (module_names xs) → IsWholeOf xs known → Contains xs x
        → NothingFalse xs known x }
{
    known_is_whole();
    nothing_is_false();
}

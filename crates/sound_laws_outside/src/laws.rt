//! The laws, as functions that do nothing: who calls one has its clauses.
ghost use Rattle.std.specs.Prelude.{List};
ghost use Rattle.core_ast.specs.Model as m;
ghost use Rattle.comp_rounds.specs.Rounds.{Callees};
ghost use Rattle.analysis_summaries.specs.Whole.{IsWholeOver};
ghost use Rattle.sound_laws_outside.specs.Laws.{CarriedLaw, OneLaw, OrderLaw, PartsLaw, RestsLaw, SolvedLaw, SomeLaw};

use comp_rounds::rounds_laws;
use components::a_numbering;

/// What is solved of accepted modules with distinct names, component by component, over what stands outside of them,
/// is known over it: each component by the summaries that its rounds give by all that is known in the end.
pub fn solved_is_known()
    ensures { SolvedLaw }
{}

/// What is known of modules over what stands outside is known of them in another order, and over all else that is the
/// same at each call by which they leave. A function that a module doesn't export is to such a call as one that isn't
/// there.
pub fn known_is_carried()
    ensures { CarriedLaw }
{}

/// What is known of modules is known of a part of them over what is known of all, where functions of the part and of
/// the rest never call one another both ways.
pub fn known_of_parts()
    ensures { PartsLaw }
{}

/// One thing is known of modules over what stands outside.
pub fn one_is_known()
    ensures { OneLaw }
{
    rounds_laws();
}

/// Something is known of modules over what stands outside: their functions have a call graph, which has a numbering in ready
/// order, and what is known component by component is a function of it.
pub fn some_is_known()
    ensures whole { (outside : Callees) (xs : List m.Module) → (known : Callees) × IsWholeOver outside xs known }
    ensures known { SomeLaw }
{
    a_numbering();
    solved_is_known();
}

/// What is known of modules over what stands outside rests on their texts, and on what stands of the functions that they
/// call outside.
pub fn known_rests_on_calls()
    ensures { RestsLaw }
{
    known_is_carried();
    one_is_known();
}

/// The order in which the modules are passed doesn't matter for what is known of their functions.
pub fn order_does_not_matter()
    ensures { OrderLaw }
{
    solved_is_known();
    known_is_carried();
    one_is_known();
}

//! The laws, as functions that do nothing: who calls one has its clauses.
ghost use Rattle.std.specs.Prelude.{◌≡◌, ℕ, Some};
ghost use Rattle.type_kinds.specs.declared.atom.Atom.{Atom};
ghost use Rattle.core_ast.specs.declared.syntax.FunName.{FunName};
ghost use Rattle.type_lattice_model.specs.Values.{Value, Values};
ghost use Rattle.cons_tree.specs.declared.parts.Summary.{Summary};
ghost use Rattle.comp_rounds.specs.Rounds.{Callees};
ghost use Rattle.core_meaning.specs.Meaning.{gave, Trace, Among};
ghost use Rattle.core_meaning.specs.Programs.{Program, top_function};
ghost use Rattle.core_meaning.specs.Runs.{Run};
ghost use Rattle.sound_laws.specs.Accepted.{AreAccepted};
ghost use Rattle.sound_laws.specs.Knowledge.{Within, summary_of};
ghost use Rattle.sound_laws.specs.Summaries.{AreClosed};
ghost use Rattle.sound_laws_rounds.specs.Whole.{IsWhole};

use comp_rounds::rounds_laws;
use cons_solve::solution_laws;
use cons_tree::type_facts;
use sound_laws::success_typings;

/// Where each function of which a summary is known has the summary that the rounds of its component give
/// it, by what is known of all, what is known is closed: the strict summaries since they are a
/// post-fixpoint, the lenient ones since they are what is inferred.
pub fn whole_is_closed()
    ensures { (U : Program) (K : Callees) → IsWhole U K → AreClosed U K }
{
    type_facts();
    solution_laws();
    rounds_laws();
}

/// So the summaries are success typings: in a program of accepted modules, the arguments and the value of
/// each call of a function that a module defines are of the strict and of the lenient signature of its
/// summary, in every run of every stage with any fuel.
pub fn whole_holds()
    ensures strict { (U : Program) (K : Callees) → AreAccepted U → IsWhole U K → (stage : ℕ) (tr : Trace) → Run U stage tr
        → (home : Atom) (f : FunName) (s : Summary) (c : Value) (vs : Values) (v : Value) → summary_of (K home f) ≡ Some s
        → top_function U home f ≡ Some c → Among (gave c vs v) tr → Within s.strict vs v }
    ensures lenient { (U : Program) (K : Callees) → AreAccepted U → IsWhole U K → (stage : ℕ) (tr : Trace) → Run U stage tr
        → (home : Atom) (f : FunName) (s : Summary) (c : Value) (vs : Values) (v : Value) → summary_of (K home f) ≡ Some s
        → top_function U home f ≡ Some c → Among (gave c vs v) tr → Within s.lenient vs v }
{
    whole_is_closed();
    success_typings();
}

//! The laws, as functions that do nothing: who calls one has its clauses.
ghost use Rattle.std.specs.Prelude.{◌≡◌, ℕ, List, Some};
ghost use Rattle.type_kinds.specs.declared.atom.Atom.{Atom};
ghost use Rattle.core_ast.specs.declared.syntax.FunName.{FunName};
ghost use Rattle.core_ast.specs.Model as m;
ghost use Rattle.core_scope.specs.Names.{Distinct};
ghost use Rattle.type_lattice_model.specs.Values.{Value, Values};
ghost use Rattle.cons_tree.specs.declared.parts.Summary.{Summary};
ghost use Rattle.comp_rounds.specs.Rounds.{Callees};
ghost use Rattle.core_meaning.specs.Meaning.{gave, Trace, Among};
ghost use Rattle.core_meaning.specs.Programs.{top_function};
ghost use Rattle.core_meaning.specs.Runs.{Run};
ghost use Rattle.sound_laws.specs.Accepted.{AreAccepted};
ghost use Rattle.sound_laws.specs.Knowledge.{Within, summary_of};
ghost use Rattle.sound_laws_rounds.specs.Whole.{IsWhole};
ghost use Rattle.analysis_summaries.specs.Known.{module_names};
ghost use Rattle.analysis_summaries.specs.Whole.{IsWholeOf};

use sound_laws_rounds::whole_holds;

/// What is known in the end of the functions of accepted modules with distinct names is whole: each function has the
/// summary that the rounds of its component give by all that is known, although each component was solved when those
/// behind it weren't.
pub fn known_is_whole()
    ensures { (xs : List m.Module) (known : Callees) → AreAccepted xs → Distinct (module_names xs) → IsWholeOf xs known → IsWhole xs known }
{}

/// So the summaries are success typings: the arguments and the value of each call of a function of the modules are of
/// the strict and of the lenient signature of its summary, in every run of every stage with any fuel.
pub fn known_holds()
    ensures strict { (xs : List m.Module) (known : Callees) → AreAccepted xs → Distinct (module_names xs) → IsWholeOf xs known
        → (stage : ℕ) (tr : Trace) → Run xs stage tr → (home : Atom) (f : FunName) (s : Summary) (c : Value) (vs : Values) (v : Value)
        → summary_of (known home f) ≡ Some s → top_function xs home f ≡ Some c → Among (gave c vs v) tr → Within s.strict vs v }
    ensures lenient { (xs : List m.Module) (known : Callees) → AreAccepted xs → Distinct (module_names xs) → IsWholeOf xs known
        → (stage : ℕ) (tr : Trace) → Run xs stage tr → (home : Atom) (f : FunName) (s : Summary) (c : Value) (vs : Values) (v : Value)
        → summary_of (known home f) ≡ Some s → top_function xs home f ≡ Some c → Among (gave c vs v) tr → Within s.lenient vs v }
{
    known_is_whole();
    whole_holds();
}

//! The law, as a function that does nothing: who calls it has its clauses.
ghost use Rattle.std.specs.Prelude.{◌≡◌, ◌⊎◌, ℕ, []};
ghost use Rattle.type_kinds.specs.declared.atom.Atom.{Atom};
ghost use Rattle.type_lattice_model.specs.Values.{Env, Values, closure, count, external, foreign};
ghost use Rattle.core_meaning.specs.Meaning.{Among, Outcome, Trace, applied, fails, raised};
ghost use Rattle.core_meaning.specs.Programs.{Program};
ghost use Rattle.core_meaning.specs.Runs.{Run};
ghost use Rattle.fun_flow_sets.specs.Items.{anything, closure_at, external_function};
ghost use Rattle.fun_flow_sets.specs.Sets.{MayEnter};
ghost use Rattle.sound_laws.specs.Accepted.{AreAccepted};
ghost use Rattle.sound_laws_fun_flow.specs.Claims.{ApplyAt};

use bif_types::builtin_laws;
use core_meaning::label_laws;
use core_meaning_values::handed_on;

/// In every run of every stage, with any fuel, over accepted modules: take what is applied, by the trace's
/// event for the module and the label of the application.
///
/// - `closures`: if it is a closure, the set there holds its function, or `anything`;
/// - `externals`: if it is an external function, the set there holds it, or `anything`;
/// - `foreigners`: if it is a function of which nothing is known, the set there holds `anything`;
/// - `arities`, `external_arities`: a closure, or an external function, that is applied to another number of
///   arguments than its arity isn't entered: the application raises, and nothing happens before.
pub fn only_listed_are_entered()
    ensures closures { (U : Program) (stage : ℕ) (tr : Trace) → AreAccepted U → Run U stage tr
        → (home : Atom) (label : ℕ) (x : Atom) (l n : ℕ) (env : Env) → Among (applied home label (closure x l n env)) tr
        → MayEnter U home label anything ⊎ MayEnter U home label (closure_at x l n) }
    ensures externals { (U : Program) (stage : ℕ) (tr : Trace) → AreAccepted U → Run U stage tr → (home : Atom) (label : ℕ) (x name : Atom) (n : ℕ)
        → Among (applied home label (external x name n)) tr → MayEnter U home label anything ⊎ MayEnter U home label (external_function x name n) }
    ensures foreigners { (U : Program) (stage : ℕ) (tr : Trace) → AreAccepted U → Run U stage tr → (home : Atom) (label : ℕ) (x n : ℕ)
        → Among (applied home label (foreign x n)) tr → MayEnter U home label anything }
    ensures arities { (U : Program) (stage fuel : ℕ) (x : Atom) (l n : ℕ) (env : Env) (vs : Values) (o : Outcome) (tr : Trace)
        → ApplyAt U stage fuel (closure x l n env) vs o tr → (n ≡ count vs → ⊥) → (o ≡ fails raised) × (tr ≡ []) }
    ensures external_arities { (U : Program) (stage fuel : ℕ) (x name : Atom) (n : ℕ) (vs : Values) (o : Outcome) (tr : Trace)
        → ApplyAt U stage fuel (external x name n) vs o tr → (n ≡ count vs → ⊥) → (o ≡ fails raised) × (tr ≡ []) }
{
    builtin_laws();
    label_laws();
    handed_on();
}

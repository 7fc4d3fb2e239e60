//! The laws of the meaning, as functions that do nothing: who calls one has its clauses.
ghost use Rattle.std.specs.Prelude.{◌≡◌, ◌≤◌, ℕ, List, true, Some, None};
ghost use Rattle.type_kinds.specs.declared.atom.Atom.{Atom};
ghost use Rattle.core_ast.specs.Model as m;
ghost use Rattle.type_lattice_model.specs.Values.{Value, Values, Env, no_value, count};
ghost use Rattle.bif_types.specs.Results.{one_value};
ghost use Rattle.core_ast.specs.declared.syntax.FunName.{FunName};
ghost use Rattle.core_ast.specs.declared.syntax.Mark.{Mark};
ghost use Rattle.core_ast.specs.declared.syntax.VarName.{VarName};
ghost use Rattle.core_scope.specs.Checked.{tree_of};
ghost use Rattle.core_scope.specs.Names.{Scope};
ghost use Rattle.core_scope.specs.Places.{StandsInModule};
ghost use Rattle.core_scope.specs.Places.Piece.{expression};
ghost use Rattle.core_scope.specs.declared.ask.Ask.{Ask};
ghost use Rattle.core_scope.specs.declared.checked.Checked.{Checked};
ghost use Rattle.core_meaning.specs.Programs.{Program, HasModule, IsAtLabel, AreAtLabels, is_exported, top_function};
ghost use Rattle.core_meaning.specs.Meaning.{Outcome, gives, Trace, Among, AreOutside};
ghost use Rattle.core_meaning.specs.Entered.{WorkedFunctions, WorkedStages};
ghost use Rattle.core_meaning.specs.Forms.{WorkedCalls, WorkedChoices, WorkedParts};
ghost use Rattle.core_meaning.specs.Patterns.{WorkedMatches, WorkedMisses};
ghost use Rattle.core_meaning.specs.Runs.{HasEnded, HasRun, IsOutside, EnterAt, Eval, Run};
ghost use Rattle.core_meaning.specs.Worked.{r8_alone, r8_name, f_name, f_closure, q_value, apply_gave, f_trace};

use bif_types::worked_calls;
use core_scope::{checked_laws, functions_by_label, places_are_sound};
use type_lattice_model::value_laws;

/// With more fuel an expression may end in each way in which it may end with less: with the same values
/// or with a raise, and with the same trace. So may a function that is entered.
pub fn fuel_laws()
    ensures expression { (U : Program) (stage n j : ℕ) → n ≤ j → (home : Atom) (env : Env) (t : m.Tree) (o : Outcome) (tr : Trace) → HasEnded o
        → Eval U stage n home env t o tr → Eval U stage j home env t o tr }
    ensures function { (U : Program) (stage n j : ℕ) → n ≤ j → (c : Value) (vs : Values) (o : Outcome) (tr : Trace) → HasEnded o
        → EnterAt U stage n c vs o tr → EnterAt U stage j c vs o tr }
{}

/// There are runs: the exported function `'f'/0` of the module `'r8'`, entered at stage 0 with fuel 20,
/// gives `'q'`, and its application gives this back.
pub fn worked_run()
    ensures begins { (is_exported r8_alone r8_name f_name ≡ true) × (top_function r8_alone r8_name f_name ≡ Some f_closure) }
    ensures gives { EnterAt r8_alone 0 20 f_closure no_value (gives (one_value q_value)) f_trace }
    ensures back { Among apply_gave f_trace }
    ensures run { Run r8_alone 0 f_trace }
{}

/// Each row of the tables of forms, of matching and of missing is in something small that was worked by
/// hand: of expressions in any program and environment, of patterns, and of the functions of the module `'w'`,
/// of which one makes a closure at stage 0 that is entered at stage 1.
pub fn worked_rows()
    ensures parts { (U : Program) (stage : ℕ) (home : Atom) (env : Env) (k : Mark) → WorkedParts U (λ v. IsOutside U stage v) home env k }
    ensures choices { (U : Program) (stage : ℕ) (home : Atom) (env : Env) (k : Mark) → WorkedChoices U (λ v. IsOutside U stage v) home env k }
    ensures calls { (U : Program) (stage : ℕ) (home : Atom) (env : Env) (k : Mark) → WorkedCalls U (λ v. IsOutside U stage v) home env k }
    ensures matches { (U : Program) (stage : ℕ) (env : Env) (k : Mark) → WorkedMatches (λ v. IsOutside U stage v) env k }
    ensures misses { (k : Mark) → WorkedMisses k }
    ensures functions { WorkedFunctions }
    ensures stages { WorkedStages }
{
    worked_calls();
}

/// In a program with an accepted module, each exported function of it has a run with as many values from
/// outside as its arity says, in every stage and with any fuel. With fuel 0 it stops.
pub fn runs_exist()
    ensures { (c : Checked) (U : Program) (f : FunName) (stage fuel : ℕ) (vs : Values) → HasModule U (tree_of c)
        → is_exported U (tree_of c).name f ≡ true → count vs ≡ f.arity → AreOutside (λ v. IsOutside U stage v) vs
        → HasRun U stage fuel (tree_of c).name f vs }
{
    label_laws();
    places_are_sound();
    checked_laws();
    value_laws();
}

/// In a program with an accepted module each fun that stands in the module, at any depth, is the one that
/// is found at its label; so is each definition of a `letrec`, and each of the module's own.
pub fn label_laws()
    ensures functions { (c : Checked) (U : Program) (s : Scope) (k : Ask) (i : Mark) (xs : List VarName) (t : m.Tree) → HasModule U (tree_of c)
        → StandsInModule (tree_of c) (expression s k (m.function i xs t)) → IsAtLabel U (tree_of c).name i None xs t }
    ensures letrecs { (c : Checked) (U : Program) (s : Scope) (k : Ask) (i : Mark) (ds : m.Defs) (t : m.Tree) → HasModule U (tree_of c)
        → StandsInModule (tree_of c) (expression s k (m.letrec i ds t)) → AreAtLabels U (tree_of c).name ds }
    ensures definitions { (c : Checked) (U : Program) → HasModule U (tree_of c) → AreAtLabels U (tree_of c).name (tree_of c).defs }
{
    functions_by_label();
}

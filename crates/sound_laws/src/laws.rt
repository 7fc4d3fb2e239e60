//! The laws, as functions that do nothing: who calls one has its clauses.
ghost use Rattle.std.specs.Prelude.{◌≡◌, ℕ, List, Some, length};
ghost use Rattle.type_kinds.specs.declared.atom.Atom.{Atom};
ghost use Rattle.core_ast.specs.Model as m;
ghost use Rattle.core_ast.specs.declared.syntax.FunName.{FunName};
ghost use Rattle.core_ast.specs.declared.syntax.VarName.{VarName};
ghost use Rattle.core_scope.specs.declared.ask.Ask.{Ask};
ghost use Rattle.type_lattice_model.specs.Values.{Value, Values, Env, no_variable, count};
ghost use Rattle.cons_tree.specs.Environments.{Assignment};
ghost use Rattle.cons_tree.specs.declared.parts.Callee.{Callee};
ghost use Rattle.cons_tree.specs.declared.parts.Summary.{Summary};
ghost use Rattle.bif_types.specs.Results.{one_value};
ghost use Rattle.core_meaning.specs.Environments.{with_variables};
ghost use Rattle.core_meaning.specs.Meaning.{gives, gave, Trace, Among};
ghost use Rattle.core_meaning.specs.Programs.{Program, top_function};
ghost use Rattle.core_meaning.specs.Runs.{Eval, Run};
ghost use Rattle.cons_gen_rows.specs.Passes.{Knowledge};
ghost use Rattle.cons_gen_rows.specs.Scopes.{Scope};
ghost use Rattle.sound_laws.specs.Accepted.{AreAccepted};
ghost use Rattle.sound_laws.specs.Knowledge.{IsHonest, AllBearOut, Within, summary_of};
ghost use Rattle.sound_laws.specs.Satisfied.{AreAsked, Meets};
ghost use Rattle.sound_laws.specs.Scopes.{StandsFor};
ghost use Rattle.sound_laws.specs.Summaries.{CallIsIn, HasCall, AreClosed, solved};

use crate::gathered::{facts, solution_facts};
use core_meaning::label_laws;

/// Every evaluation that gives values satisfies the constraint of its expression, where the pass is
/// honest of the program, and what each function gave on the way bears out what the pass knows of it.
/// The slots of the scope's variables hold what the variables are bound to; the expression's own slots,
/// from `s` on, can be given values so that its rows are satisfied and the slots of its results hold the
/// values that it gave, where it gave as many as were asked. So the parameters and the result of a
/// definition can have the arguments and the value of each of its calls, and the greatest solution of
/// its constraint has them.
pub fn constraint_laws()
    ensures expression { (P : Knowledge) (U : Program) (stage fuel : ℕ) → IsHonest P U
        → (home : Atom) (env : Env) (t : m.Tree) (vs : Values) (tr : Trace) (sc : Scope) (s : ℕ) (a : Assignment) (k : Ask)
        → Eval U stage fuel home env t (gives vs) tr → AllBearOut P U tr → StandsFor home s a sc env → AreAsked k vs → Meets P home sc s a k t vs }
    ensures definition { (P : Knowledge) (U : Program) (stage fuel : ℕ) → IsHonest P U
        → (home : Atom) (xs : List VarName) (t : m.Tree) (vs : Values) (v : Value) (tr : Trace) → length xs ≡ count vs
        → Eval U stage fuel home (with_variables xs vs no_variable) t (gives (one_value v)) tr → AllBearOut P U tr → CallIsIn P home xs t vs v }
    ensures solution { (P : Knowledge) (U : Program) (stage fuel : ℕ) → IsHonest P U
        → (home : Atom) (xs : List VarName) (t : m.Tree) (vs : Values) (v : Value) (tr : Trace) → length xs ≡ count vs
        → Eval U stage fuel home (with_variables xs vs no_variable) t (gives (one_value v)) tr → AllBearOut P U tr
        → HasCall (length xs) (solved P home xs t) vs v }
{
    facts();
    solution_facts();
}

/// Success typings: in a program of accepted modules, where what is known of all functions is closed, the
/// arguments and the value of each call of a function that a module defines are of the strict and of the
/// lenient signature that are known of it, in every run of every stage with any fuel. Here `c` is the
/// closure of the function, which has captured nothing; `vs` is what it was entered with, and `v` what it
/// gave.
pub fn success_typings()
    ensures strict { (U : Program) (S : Atom → FunName → Callee) → AreAccepted U → AreClosed U S → (stage : ℕ) (tr : Trace) → Run U stage tr
        → (home : Atom) (f : FunName) (s : Summary) (c : Value) (vs : Values) (v : Value) → summary_of (S home f) ≡ Some s
        → top_function U home f ≡ Some c → Among (gave c vs v) tr → Within s.strict vs v }
    ensures lenient { (U : Program) (S : Atom → FunName → Callee) → AreAccepted U → AreClosed U S → (stage : ℕ) (tr : Trace) → Run U stage tr
        → (home : Atom) (f : FunName) (s : Summary) (c : Value) (vs : Values) (v : Value) → summary_of (S home f) ≡ Some s
        → top_function U home f ≡ Some c → Among (gave c vs v) tr → Within s.lenient vs v }
{
    facts();
    solution_facts();
    label_laws();
}

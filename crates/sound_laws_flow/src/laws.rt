//! The laws, as functions that do nothing: who calls one has its clauses.
ghost use Rattle.std.specs.Prelude.{◌≡◌, ◌⊎◌, ℕ, map, Contains, Some};
ghost use Rattle.core_ast.specs.Model as m;
ghost use Rattle.core_ast.specs.declared.syntax.FunName.{FunName};
ghost use Rattle.core_scope.specs.Names.{Distinct};
ghost use Rattle.type_lattice_model.specs.Values.{Value, Values};
ghost use Rattle.core_meaning.specs.Meaning.{back, chosen, entered, gave};
ghost use Rattle.core_meaning.specs.Programs.{HasModule, Program, top_function};
ghost use Rattle.warn_list.specs.declared.finding.CallText.{CallText};
ghost use Rattle.warn_list.specs.declared.finding.FindingKind.TheVariants.{DeadCall, DeadClause, NeverCalled, NoReturn};
ghost use Rattle.module_flow.specs.Flow.{Callees};
ghost use Rattle.sound_laws.specs.Accepted.{AreAccepted};
ghost use Rattle.sound_laws_rounds.specs.Whole.{IsWhole};
ghost use Rattle.sound_laws_flow.specs.Claims.{AreKnownIn, IsFoundAt, Never, NothingFalse, defined_at};

use crate::facts::{last_facts, text_facts};
use bif_types::builtin_laws;
use cons_tree::type_facts;
use sound_laws::{facts, solution_facts, success_typings};
use sound_laws_rounds::whole_is_closed;

/// No finding of the flow is false. In a program `U` of accepted modules, where what is known of all
/// functions, `K`, is what calls find in the program and the summaries are closed, take any module `x` that
/// the program has under its name, and whatever its flow finds by what is known. Then, in every run of
/// every stage, with any fuel:
///
/// - `no_return`: a function that is found without a local return doesn't return;
/// - `dead_call`: a call or an application that is found never to return doesn't return;
/// - `dead_clause`: a clause that is found never to match isn't chosen;
/// - `never_called`: a function that is found never to be called isn't entered.
///
/// A function of which one of these is found is what the module defines under that name, at the label of
/// the finding (`defined`).
pub fn no_finding_is_false()
    ensures defined { (U : Program) (K : Callees) (x : m.Module) → AreAccepted U → AreKnownIn U K → HasModule U x → (f : FunName) (l : ℕ)
        → IsFoundAt K x (NoReturn f) l ⊎ IsFoundAt K x (NeverCalled f) l → top_function U x.name f ≡ Some (defined_at x f l) }
    ensures no_return { (U : Program) (K : Callees) (x : m.Module) → AreAccepted U → AreKnownIn U K → HasModule U x → (f : FunName) (l : ℕ)
        → IsFoundAt K x (NoReturn f) l → (vs : Values) (v : Value) → Never U (gave (defined_at x f l) vs v) }
    ensures dead_call { (U : Program) (K : Callees) (x : m.Module) → AreAccepted U → AreKnownIn U K → HasModule U x → (text : CallText) (l : ℕ)
        → IsFoundAt K x (DeadCall text) l → (v : Value) → Never U (back x.name l v) }
    ensures dead_clause { (U : Program) (K : Callees) (x : m.Module) → AreAccepted U → AreKnownIn U K → HasModule U x → (l : ℕ)
        → IsFoundAt K x DeadClause l → Never U (chosen x.name l) }
    ensures never_called { (U : Program) (K : Callees) (x : m.Module) → AreAccepted U → AreKnownIn U K → HasModule U x → (f : FunName) (l : ℕ)
        → IsFoundAt K x (NeverCalled f) l → (vs : Values) → Never U (entered (defined_at x f l) vs) }
{
    facts();
    type_facts();
    solution_facts();
    builtin_laws();
    text_facts();
    last_facts();
    success_typings();
}

/// What is known of all functions, where each has the summary that the rounds of its component give it, is
/// what the laws ask: it is what calls find in the program, and the summaries are closed.
pub fn whole_is_known()
    ensures { (U : Program) (K : Callees) → IsWhole U K → AreKnownIn U K }
{
    whole_is_closed();
}

/// The same, gathered for a module: by what is known and closed (`known`), and where each function has the
/// summary that the rounds of its component give it (`whole`); so for each of the modules, where their names
/// differ (`each`).
pub fn nothing_is_false()
    ensures known { (U : Program) (K : Callees) (x : m.Module) → AreAccepted U → AreKnownIn U K → HasModule U x → NothingFalse U K x }
    ensures whole { (U : Program) (K : Callees) (x : m.Module) → AreAccepted U → IsWhole U K → HasModule U x → NothingFalse U K x }
    ensures each { (U : Program) (K : Callees) (x : m.Module) → AreAccepted U → Distinct (map (λ p. p.name) U) → IsWhole U K → Contains U x
        → NothingFalse U K x }
{
    no_finding_is_false();
    whole_is_known();
}

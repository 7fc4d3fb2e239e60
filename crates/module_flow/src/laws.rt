//! The laws of a module's flow, as functions that do nothing: who calls one has its clauses.
ghost use Rattle.std.specs.Prelude.{◌≡◌, ◌≤◌, ℕ, replicate, Some};
ghost use Rattle.core_ast.specs.Model as m;
ghost use Rattle.type_lattice.specs.Types.{any};
ghost use Rattle.module_flow.specs.Flow.{Callees, after_rounds, first_state, last_round, last_state, made_of, world};
ghost use Rattle.module_flow_walk.specs.Contributions.{contributions_of_functions};
ghost use Rattle.module_flow_state.specs.Scopes.{outermost};
ghost use Rattle.module_flow_state.specs.Settled.{AreCounted, AreTaken, AreWhollyTaken, GiveCounted, labels_of};
ghost use Rattle.module_flow_state.specs.States.{FlowState, joined_rounds, next_state, parameters_of, widened};

use cons_tree::type_facts;
use type_lattice::decision_laws;

/// The rounds of a flow end: a late round leaves the last state unchanged, and later rounds do too. The state keeps its
/// functions. It takes in all that its own walk gives: a function that is entered has parameters above the arguments,
/// and one that gives a value has a result above it. Where each function is entered with as many arguments as its
/// `counts` says, this holds of all of them, and a function that begins entered with anything stays so.
pub fn last_state_laws()
    ensures unchanged { (callees : Callees) (x : m.Module)
        → widened (last_state callees x) (made_of callees x (last_state callees x)) ≡ last_state callees x }
    ensures late { (callees : Callees) (x : m.Module) (k : ℕ) → joined_rounds ≤ k
        → next_state k (last_state callees x) (made_of callees x (last_state callees x)) ≡ last_state callees x }
    ensures ends { (callees : Callees) (x : m.Module) (k : ℕ) → last_round callees x ≤ k → after_rounds callees x k ≡ last_state callees x }
    ensures labels { (callees : Callees) (x : m.Module) → labels_of (last_state callees x) ≡ labels_of (first_state x) }
    ensures taken { (callees : Callees) (x : m.Module)
        → AreTaken (last_state callees x) (contributions_of_functions (world callees x (last_state callees x)) outermost x.defs) }
    ensures wholly { (callees : Callees) (x : m.Module) (counts : ℕ → ℕ) → AreCounted counts (first_state x)
        → ((st : FlowState) → GiveCounted counts (contributions_of_functions (world callees x st) outermost x.defs))
        → AreWhollyTaken (last_state callees x) (contributions_of_functions (world callees x (last_state callees x)) outermost x.defs) }
    ensures stays_open { (callees : Callees) (x : m.Module) (counts : ℕ → ℕ) → AreCounted counts (first_state x)
        → ((st : FlowState) → GiveCounted counts (contributions_of_functions (world callees x st) outermost x.defs)) → (l : ℕ)
        → parameters_of (first_state x) l ≡ Some (replicate (counts l) any) → parameters_of (last_state callees x) l ≡ Some (replicate (counts l) any) }
{
    type_facts();
    decision_laws();
}

//! The laws of solutions, as functions that do nothing: who calls one has its clauses.
ghost use Rattle.std.specs.Prelude.{◌≡◌, ℕ, Some, false, set};
ghost use Rattle.type_lattice.specs.Chains.{IsHeight};
ghost use Rattle.type_lattice.specs.Types.{Type4, AreBelow, rank};
ghost use Rattle.cons_tree.specs.declared.parts.Part.{Part};
ghost use Rattle.cons_tree.specs.Constraints.{Cons};
ghost use Rattle.cons_tree.specs.Environments.{Types, State, Assignment, IsBelow, LiesIn, LiesInState};
ghost use Rattle.cons_tree.specs.Satisfied.{Sat};
ghost use Rattle.cons_tree.specs.Signatures.{has_none};
ghost use Rattle.cons_tree.specs.Trails.{Falling};
ghost use Rattle.cons_tree.specs.Frames.{with_slot};
ghost use Rattle.cons_solve.specs.Environments.{environments, solution, Solves};
ghost use Rattle.cons_solve.specs.Frames.{Free};
ghost use Rattle.cons_solve.specs.Solutions.{IsGreatest, Laws};

use cons_tree::{frame_law, narrowing_laws, type_facts};
use type_lattice::{chain_laws, type_laws};

/// Environments are ordered slot by slot, with least joins and ranks that fall, and parts narrow them
/// monotonely.
pub fn environment_laws()
    ensures laws { Laws environments }
    ensures rank { Falling rank }
{
    type_facts();
    type_laws();
    narrowing_laws();
}

/// The solution is below the environment where one began, solves the constraint, and every environment
/// below the beginning that solves it is below the solution. There is only one such state, Bottom
/// included. It is monotone in the beginning, leaves no slot at none, and keeps each assignment of the
/// beginning that satisfies the constraint. A slot that the constraint doesn't name is left alone, and
/// what stands in it doesn't matter.
pub fn solution_laws()
    ensures below { (c : Cons Part) (xs ys : Types) → solution c xs ≡ Some ys → AreBelow ys xs }
    ensures solves { (c : Cons Part) (xs ys : Types) → solution c xs ≡ Some ys → Solves c ys }
    ensures greatest { (c : Cons Part) (xs ys : Types) → AreBelow ys xs → Solves c ys → IsBelow (Some ys) (solution c xs) }
    ensures unique { (c : Cons Part) (xs : Types) (s : State) → IsGreatest environments (Solves c) xs s → solution c xs ≡ s }
    ensures monotone { (c : Cons Part) (xs ys : Types) → AreBelow xs ys → IsBelow (solution c xs) (solution c ys) }
    ensures alive { (c : Cons Part) (xs ys : Types) → has_none xs ≡ false → solution c xs ≡ Some ys → has_none ys ≡ false }
    ensures keeps { (c : Cons Part) (a : Assignment) (xs : Types) → LiesIn a xs → Sat c a → LiesInState a (solution c xs) }
    ensures frame { (c : Cons Part) (s : ℕ) (t : Type4) (xs : Types) → Free s c → solution c (set xs s t) ≡ with_slot s t (solution c xs) }
{
    type_facts();
    narrowing_laws();
    frame_law();
    environment_laws();
}

/// The height of a type, which is the length of the longest way down from it, is lower at each smaller
/// type.
pub fn heights_fall()
    ensures { (h : Type4 → ℕ) → ((t : Type4) → IsHeight (h t) t) → Falling h }
{
    chain_laws();
}

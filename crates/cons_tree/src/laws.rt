//! The laws of narrowing, as functions that do nothing: who calls one has its clauses.
ghost use Rattle.std.specs.Prelude.{◌≡◌, ℕ, Some, false, set};
ghost use Rattle.type_lattice.specs.Types.{Type4, AreBelow};
ghost use Rattle.cons_tree.specs.declared.parts.Part.{Part};
ghost use Rattle.cons_tree.specs.Environments.{Types, Assignment, IsBelow, LiesIn, LiesInState};
ghost use Rattle.cons_tree.specs.Facts.{TypeFacts};
ghost use Rattle.cons_tree.specs.Frames.{IsNone, slots_of, with_slot};
ghost use Rattle.cons_tree.specs.Narrowing.{narrowed};
ghost use Rattle.cons_tree.specs.Satisfied.{SatPart};
ghost use Rattle.cons_tree.specs.Signatures.{has_none};

use type_kinds_sets::int_set_laws;
use type_lattice::{
    cons_laws, decision_laws, element_laws, list_laws, maker_laws, monotone_laws, project_laws,
    tuple_laws, type_laws,
};

/// What is known of types, in one record, so that lemmas on constraints can take it.
pub fn type_facts()
    ensures { TypeFacts }
{
    type_laws();
    monotone_laws();
    decision_laws();
    maker_laws();
    tuple_laws();
    cons_laws();
    list_laws();
    project_laws();
    element_laws();
    int_set_laws();
}

/// Narrowing by a part is below where one began, leaves no slot at none, is monotone, and keeps each
/// assignment that satisfies the part.
pub fn narrowing_laws()
    ensures below { (p : Part) (xs ys : Types) → narrowed p xs ≡ Some ys → AreBelow ys xs }
    ensures alive { (p : Part) (xs ys : Types) → has_none xs ≡ false → narrowed p xs ≡ Some ys → has_none ys ≡ false }
    ensures monotone { (p : Part) (xs ys : Types) → AreBelow xs ys → IsBelow (narrowed p xs) (narrowed p ys) }
    ensures keeps { (p : Part) (a : Assignment) (xs : Types) → LiesIn a xs → SatPart p a → LiesInState a (narrowed p xs) }
{
    type_facts();
}

/// A slot that a part doesn't name is left alone, and what stands in it doesn't matter.
pub fn frame_law()
    ensures { (p : Part) (s : ℕ) (t : Type4) (xs : Types) → IsNone s (slots_of p) → narrowed p (set xs s t) ≡ with_slot s t (narrowed p xs) }
{}

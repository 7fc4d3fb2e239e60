//! The law, as a function that does nothing: who calls it has its clauses.
ghost use Rattle.std.specs.Prelude.{ℕ};
ghost use Rattle.type_lattice.specs.Chains.{IsHeight};
ghost use Rattle.type_lattice.specs.Types.{Type4};
ghost use Rattle.type_lattice_heights.specs.Heights.{height};

/// Each type has a height, the length of the longest way down from it, and it is a function of the type's parts.
pub fn a_height()
    ensures is { (t : Type4) → IsHeight (height t) t }
    ensures some { (t : Type4) → (n : ℕ) × IsHeight n t }
{}

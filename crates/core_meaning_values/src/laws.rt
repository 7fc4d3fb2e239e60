//! What the built-in functions hand on, as a function that does nothing: who calls one has its clauses.
ghost use Rattle.std.specs.Prelude.{◌≡◌, true};
ghost use Rattle.type_kinds.specs.declared.atom.Atom.{Atom};
ghost use Rattle.type_lattice_model.specs.Values.{Value, Values, count};
ghost use Rattle.bif_types.specs.Results.{BifMay, is_exact};
ghost use Rattle.core_meaning_values.specs.Functions.{HoldsFunction, HoldFunction};

/// Where the row of a built-in function is exact, each function that a value which it may give holds, a
/// closure, an external or a foreign one, is held by an argument.
pub fn handed_on()
    ensures held { (f : Atom) (vs : Values) (v c : Value) → is_exact f (count vs) ≡ true → BifMay f vs v → HoldsFunction c v → HoldFunction c vs }
{}

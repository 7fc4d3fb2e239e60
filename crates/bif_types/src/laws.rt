//! What holds of the built-in functions, as a function that does nothing: who calls it has its clauses.
ghost use Rattle.std.specs.Prelude.{◌≡◌, ℕ, pos, Bool, true, List, Some, codes, length};
ghost use Rattle.type_kinds.specs.declared.atom.Atom.{Atom};
ghost use Rattle.type_lattice_model.specs.Values.{Value, Values, count, int};
ghost use Rattle.cons_tree.specs.Environments.{Assignment};
ghost use Rattle.cons_tree.specs.Satisfied.{SatPart, values_of};
ghost use Rattle.bif_types.specs.declared.bif.Bif.{Bif};
ghost use Rattle.bif_types.specs.Closures.{HoldsClosure, HoldClosure};
ghost use Rattle.bif_types.specs.Parts.{part_of_row};
ghost use Rattle.bif_types.specs.Results.{BifMay, is_exact, one_value, two_values};
ghost use Rattle.bif_types.specs.Table.{looked_up};

use cons_tree::type_facts;

/// The arguments of a built-in function and a value that it may give satisfy the part of its row, quiet
/// or not. Where a row is exact, each closure of the value is one of an argument.
pub fn builtin_laws()
    ensures satisfies { (f : Atom) (bif : Bif) (value : ℕ) (args : List ℕ) (quiet : Bool) (a : Assignment) → looked_up f (length args) ≡ Some bif
        → BifMay f (values_of a args) (a value) → SatPart (part_of_row bif value args quiet) a }
    ensures held { (f : Atom) (vs : Values) (v c : Value) → is_exact f (count vs) ≡ true → BifMay f vs v → HoldsClosure c v → HoldClosure c vs }
{}

/// Calls worked by hand: 1 and 2 add up to 3 and to nothing else, nothing comes of 7 divided by 0 or of
/// `exit`, and any value of a function that the table doesn't have.
pub fn worked_calls()
    ensures sum { BifMay (codes "+") (two_values (int (pos 1)) (int (pos 2))) (int (pos 3)) }
    ensures no_other_sum { (v : Value) → BifMay (codes "+") (two_values (int (pos 1)) (int (pos 2))) v → v ≡ int (pos 3) }
    ensures no_quotient { (v : Value) → BifMay (codes "div") (two_values (int (pos 7)) (int (pos 0))) v → ⊥ }
    ensures no_exit { (x v : Value) → BifMay (codes "exit") (one_value x) v → ⊥ }
    ensures unknown { (x y v : Value) → BifMay (codes "send") (two_values x y) v }
{
    type_facts();
}

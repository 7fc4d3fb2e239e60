//! The laws of numberings, as functions that do nothing: who calls one has its clauses.
ghost use Rattle.std.specs.Prelude.{◌≡◌, ℕ, List};
ghost use Rattle.components.specs.Numbering.{Numbering};
ghost use Rattle.components.specs.Ready.{IsReadyNumbering, SamePairs, SomeNumbering};

/// Graphs with the same pairs have one numbering of their components in ready order.
pub fn one_numbering()
    ensures { (graph other : List (List ℕ)) (c d : Numbering) → SamePairs graph other → IsReadyNumbering graph c → IsReadyNumbering other d
        → c ≡ d }
{}

/// Each graph has a numbering of its components in ready order.
pub fn a_numbering()
    ensures { SomeNumbering }
{}

//! The laws of the sets, as functions that do nothing: a caller has their clauses.
ghost use Rattle.std.specs.Prelude.{◌≡◌, ◌&&◌, ◌||◌, ◌+◌, ◌<◌, ◌≤◌, ℕ, ℤ, List, length, true, false, IsTrue};
ghost use Rattle.std.specs.Ordering.{int_cmp};
ghost use Rattle.type_kinds_sets.specs.Ascending.{has_item, merged};
ghost use Rattle.type_kinds_sets.specs.Heights.{Falls};
ghost use Rattle.type_kinds_sets.specs.Numbers as numbers;
ghost use Rattle.type_kinds_sets.specs.Names as names;
ghost use Rattle.type_kinds_sets.specs.BitLengths as bits;

use crate::bits::Bits;
use crate::limits::MAX_MEMBERS;

/// Inclusion of sets of integers is an order, and sets of the same integers are one. The meet has
/// exactly the integers of both sets, and the join is the smallest set of this kind that contains
/// both: of two lists their integers where these are at most `MAX_MEMBERS`, and else the smallest
/// interval that contains both. A set is the empty one or has an integer.
#[tactic(auto, using(crate::proofs::NumberLaws::laws))]
pub fn int_set_laws()
    ensures reflexive { (s : numbers.Numbers) → numbers.Below s s }
    ensures transitive { (s t u : numbers.Numbers) → numbers.Below s t → numbers.Below t u → numbers.Below s u }
    ensures antisymmetric { (s t : numbers.Numbers) → numbers.Below s t → numbers.Below t s → s ≡ t }
    ensures meet { (s t : numbers.Numbers) (n : ℤ) → numbers.has (numbers.meet s t) n ≡ (numbers.has s n && numbers.has t n) }
    ensures left { (s t : numbers.Numbers) → numbers.Below s (numbers.join s t) }
    ensures right { (s t : numbers.Numbers) → numbers.Below t (numbers.join s t) }
    ensures least { (s t u : numbers.Numbers) → numbers.Below s u → numbers.Below t u → numbers.Below (numbers.join s t) u }
    ensures few { (xs ys : List ℤ) → IsTrue (numbers.are_listed xs) → IsTrue (numbers.are_listed ys) → length (merged int_cmp xs ys) ≤ MAX_MEMBERS
        → (n : ℤ) → numbers.has (numbers.join (numbers.listed xs) (numbers.listed ys)) n ≡ (has_item int_cmp xs n || has_item int_cmp ys n) }
    ensures many { (xs ys : List ℤ) → IsTrue (numbers.are_listed xs) → IsTrue (numbers.are_listed ys) → MAX_MEMBERS < length (merged int_cmp xs ys)
        → numbers.join (numbers.listed xs) (numbers.listed ys) ≡ numbers.hull (numbers.listed xs) (numbers.listed ys) }
    ensures empty { (s : numbers.Numbers) → numbers.is_none s ≡ true → s ≡ numbers.none }
    ensures filled { (s : numbers.Numbers) → numbers.is_none s ≡ false → (n : ℤ) × (numbers.has s n ≡ true) }
{}

/// From a set of integers one can go to a smaller one, and on, just as often as its height says. A
/// smaller set has a lower height, and none is above `MAX_MEMBERS + 5`.
#[tactic(auto, using(crate::proofs::NumberHeights::laws))]
pub fn int_set_heights()
    ensures lower { (s t : numbers.Numbers) → numbers.Below s t → (s ≡ t → ⊥) → numbers.height s < numbers.height t }
    ensures bound { (s : numbers.Numbers) (n : ℕ) → Falls numbers.Below n s → n ≤ numbers.height s }
    ensures reached { (s : numbers.Numbers) → Falls numbers.Below (numbers.height s) s }
    ensures most { (s : numbers.Numbers) → numbers.height s ≤ MAX_MEMBERS + 5 }
{}

/// Inclusion of sets of atoms is an order, and sets of the same atoms are one. The meet has exactly
/// the atoms of both sets, and the join is the smallest set of this kind that contains both: of two
/// lists their atoms where these are at most `MAX_MEMBERS`, and else all. A set is the empty one or
/// has an atom.
#[tactic(auto, using(crate::proofs::NameLaws::laws))]
pub fn atom_set_laws()
    ensures reflexive { (s : names.Names) → names.Below s s }
    ensures transitive { (s t u : names.Names) → names.Below s t → names.Below t u → names.Below s u }
    ensures antisymmetric { (s t : names.Names) → names.Below s t → names.Below t s → s ≡ t }
    ensures meet { (s t : names.Names) (q : names.Name) → names.has (names.meet s t) q ≡ (names.has s q && names.has t q) }
    ensures left { (s t : names.Names) → names.Below s (names.join s t) }
    ensures right { (s t : names.Names) → names.Below t (names.join s t) }
    ensures least { (s t u : names.Names) → names.Below s u → names.Below t u → names.Below (names.join s t) u }
    ensures few { (xs ys : List names.Name) → IsTrue (names.are_listed xs) → IsTrue (names.are_listed ys)
        → length (merged names.name_cmp xs ys) ≤ MAX_MEMBERS → (q : names.Name)
        → names.has (names.join (names.listed xs) (names.listed ys)) q ≡ (has_item names.name_cmp xs q || has_item names.name_cmp ys q) }
    ensures many { (xs ys : List names.Name) → IsTrue (names.are_listed xs) → IsTrue (names.are_listed ys)
        → MAX_MEMBERS < length (merged names.name_cmp xs ys) → names.join (names.listed xs) (names.listed ys) ≡ names.every }
    ensures empty { (s : names.Names) → names.is_none s ≡ true → s ≡ names.none }
    ensures filled { (s : names.Names) → names.is_none s ≡ false → (q : names.Name) × (names.has s q ≡ true) }
{}

/// From a set of atoms one can go to a smaller one, and on, just as often as its height says. A
/// smaller set has a lower height, and none is above `MAX_MEMBERS + 1`.
#[tactic(auto, using(crate::proofs::NameHeights::laws))]
pub fn atom_set_heights()
    ensures lower { (s t : names.Names) → names.Below s t → (s ≡ t → ⊥) → names.height s < names.height t }
    ensures bound { (s : names.Names) (n : ℕ) → Falls names.Below n s → n ≤ names.height s }
    ensures reached { (s : names.Names) → Falls names.Below (names.height s) s }
    ensures most { (s : names.Names) → names.height s ≤ MAX_MEMBERS + 1 }
{}

/// Inclusion of sets of bit strings is an order, and sets of the same bit strings are one. The meet
/// has exactly the bit strings of both sets, and the join is the smallest of the three sets that contains both.
#[tactic(auto, using(crate::proofs::BitLaws::laws))]
pub fn bits_laws()
    ensures reflexive { (s : Bits) → bits.Below s s }
    ensures transitive { (s t u : Bits) → bits.Below s t → bits.Below t u → bits.Below s u }
    ensures antisymmetric { (s t : Bits) → bits.Below s t → bits.Below t s → s ≡ t }
    ensures meet { (s t : Bits) (n : ℕ) → bits.has (bits.meet s t) n ≡ (bits.has s n && bits.has t n) }
    ensures left { (s t : Bits) → bits.Below s (bits.join s t) }
    ensures right { (s t : Bits) → bits.Below t (bits.join s t) }
    ensures least { (s t u : Bits) → bits.Below s u → bits.Below t u → bits.Below (bits.join s t) u }
{}

/// From a set of bit strings one can go to a smaller one, and on, just as often as its height says.
/// A smaller set has a lower height, and none is above 2.
#[tactic(auto, using(crate::proofs::BitHeights::laws))]
pub fn bits_heights()
    ensures lower { (s t : Bits) → bits.Below s t → (s ≡ t → ⊥) → bits.height s < bits.height t }
    ensures bound { (s : Bits) (n : ℕ) → Falls bits.Below n s → n ≤ bits.height s }
    ensures reached { (s : Bits) → Falls bits.Below (bits.height s) s }
    ensures most { (s : Bits) → bits.height s ≤ 2 }
{}

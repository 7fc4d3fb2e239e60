//! The laws of types, as functions that do nothing: who calls one has its clauses. They speak of
//! types of any level.
ghost use Rattle.std.specs.Prelude.{◌≡◌, ◌⊎◌, ◌↔◌, ◌≤◌, ◌<◌, ◌+◌, ◌-◌, ℕ, pos, suc};
ghost use Rattle.std.specs.Prelude.{Bool, true, false, List, Some, nat_lt, length, map};
ghost use Rattle.type_kinds_sets.specs.Numbers as numbers;
ghost use Rattle.type_kinds_sets.specs.Numbers.{Numbers};
ghost use Rattle.type_lattice_model.specs.Values.{Value, Values, and_value, ValuePairs, nil, cons, tuple, map as map_value, heads, end_of, count};
ghost use Rattle.type_lattice_model.specs.Canonical.{spelled, IsCanonical, HoldsPair, PairsBelow, put_pair};
ghost use Rattle.type_lattice_model.specs.Shapes.{TypeAt};
ghost use Rattle.type_lattice_model.specs.HasType.{HasAt, HasAll, HasEach};
ghost use Rattle.type_lattice_model.specs.Operations.{ops};
ghost use Rattle.type_lattice_model.specs.Normal.{NormalAt};
ghost use Rattle.type_lattice_model.specs.Laws.{BelowBy, Laws, Lowering};
ghost use Rattle.type_lattice_model.specs.declared.limits.TheConstants.{MAX_ELEMENTS};
ghost use Rattle.type_lattice_model.specs.Cut.{cut};
ghost use Rattle.type_lattice_model.specs.Elements.{elements_at};
ghost use Rattle.type_lattice_model.specs.Ranks.{rank, most_at, FallsAt};
ghost use Rattle.type_lattice_model.specs.Parts.{tuple_at, cons_at, project_at, elem_at, tail_at, is_list, value_at, AreNormal};

/// The types of each level are sets of values, each in one form: inclusion is an order, the meet has
/// exactly the values of both, the join is the least type of the level that contains both, a
/// type is none or has a value, and any has every value.
pub fn type_laws()
    ensures { (d : ℕ) → Laws (HasAt d) (NormalAt d) (ops d) }
{}

/// The cut of a type to a level is the least type of the level that has its values. To a level that
/// isn't below it has no others.
#[tactic(auto, using(crate::proofs::CutLaws::cut_lowering, crate::proofs::CutLaws::cut_exact))]
pub fn cut_laws()
    ensures least { (e d : ℕ) → Lowering (HasAt e) (NormalAt e) (HasAt d) (NormalAt d) (cut e d) }
    ensures exact { (e d : ℕ) → e ≤ d → (t : TypeAt e) → NormalAt e t → (v : Value) → HasAt d v (cut e d t) → HasAt e v t }
{}

/// The type of a product is the least of its level that has the tuples, and has nothing but tuples: up
/// to 64 elements exactly those of the types cut to the level below. The type of an element is above what
/// stands there, and the least such type up to 64 elements.
pub fn tuple_laws()
    ensures normal { (d : ℕ) (es : List (TypeAt d)) → AreNormal (NormalAt d) es → NormalAt d (tuple_at d es) }
    ensures above { (d : ℕ) (es : List (TypeAt d)) → AreNormal (NormalAt d) es → (vs : Values) → HasEach (HasAt d) vs es
        → HasAt d (tuple vs) (tuple_at d es) }
    ensures least { (d : ℕ) (es : List (TypeAt d)) → AreNormal (NormalAt d) es → (u : TypeAt d) → NormalAt d u
        → ((vs : Values) → HasEach (HasAt d) vs es → HasAt d (tuple vs) u) → BelowBy (HasAt d) (tuple_at d es) u }
    ensures only { (d : ℕ) (es : List (TypeAt (suc d))) (v : Value) → HasAt (suc d) v (tuple_at (suc d) es) → (vs : Values) × (v ≡ tuple vs) }
    ensures exact { (d : ℕ) (es : List (TypeAt (suc d))) → AreNormal (NormalAt (suc d)) es → nat_lt (length es) (MAX_ELEMENTS + 1) ≡ true
        → (vs : Values) → HasAt (suc d) (tuple vs) (tuple_at (suc d) es) ↔ HasEach (HasAt d) vs (map (cut (suc d) d) es) }
    ensures project { (d : ℕ) (t : TypeAt (suc d)) → NormalAt (suc d) t → (n : ℕ) (vs : Values) → HasAt (suc d) (tuple vs) t → count vs ≡ n
        → (i : ℕ) (v : Value) → value_at vs (i - 1) ≡ Some v → HasAt (suc d) v (project_at d t n i) }
    ensures project_least { (d : ℕ) (t : TypeAt (suc d)) → NormalAt (suc d) t → (n i : ℕ) → n ≤ MAX_ELEMENTS → 1 ≤ i → i ≤ n
        → (u : TypeAt (suc d))
        → NormalAt (suc d) u → ((vs : Values) (v : Value) → HasAt (suc d) (tuple vs) t → count vs ≡ n → value_at vs (i - 1) ≡ Some v
        → HasAt (suc d) v u) → BelowBy (HasAt (suc d)) (project_at d t n i) u }
{}

/// The join of the elements at the positions in a set, over all sizes: it has what stands there, and where
/// the set has a position it is the least type that does. The first element is at position 1.
pub fn element_laws()
    ensures normal { (d : ℕ) (t : TypeAt (suc d)) → NormalAt (suc d) t → (s : Numbers) → NormalAt (suc d) (elements_at d t s) }
    ensures above { (d : ℕ) (t : TypeAt (suc d)) → NormalAt (suc d) t → (s : Numbers) (vs : Values) → HasAt (suc d) (tuple vs) t
        → (i : ℕ) (v : Value)
        → value_at vs i ≡ Some v → numbers.has s (pos (suc i)) ≡ true → HasAt (suc d) v (elements_at d t s) }
    ensures least { (d : ℕ) (t : TypeAt (suc d)) → NormalAt (suc d) t → (s : Numbers) (p : ℕ) → numbers.has s (pos (suc p)) ≡ true
        → (u : TypeAt (suc d)) → NormalAt (suc d) u
        → ((vs : Values) → HasAt (suc d) (tuple vs) t → (i : ℕ) (v : Value) → value_at vs i ≡ Some v → numbers.has s (pos (suc i)) ≡ true
        → HasAt (suc d) v u) → BelowBy (HasAt (suc d)) (elements_at d t s) u }
    ensures more { (d : ℕ) (t w : TypeAt (suc d)) → NormalAt (suc d) t → NormalAt (suc d) w → BelowBy (HasAt (suc d)) t w → (s q : Numbers)
        → numbers.Below s q → BelowBy (HasAt (suc d)) (elements_at d t s) (elements_at d w q) }
{}

/// The type of the lists of a head and a tail has them and nothing but conses. Where its ends are proper
/// as far as they may be, it is the least of its level, and has proper lists alone where the tail has;
/// with free ends it has every list of these heads. A type has proper lists alone exactly where it is
/// told so. A cons is in a type exactly where its head is among the type's heads and its tail among the
/// type's tails, and these are the least types of which that is true.
pub fn list_laws()
    ensures normal { (d : ℕ) (h t : TypeAt (suc d)) (proper : Bool) → NormalAt (suc d) h → NormalAt (suc d) t
        → NormalAt (suc d) (cons_at d h t proper) }
    ensures above { (d : ℕ) (h t : TypeAt (suc d)) (proper : Bool) → NormalAt (suc d) h → NormalAt (suc d) t → (x y : Value) → HasAt (suc d) x h
        → HasAt (suc d) y t → HasAt (suc d) (cons x y) (cons_at d h t proper) }
    ensures least { (d : ℕ) (h t : TypeAt (suc d)) → NormalAt (suc d) h → NormalAt (suc d) t → (u : TypeAt (suc d)) → NormalAt (suc d) u
        → ((x y : Value) → HasAt (suc d) x h → HasAt (suc d) y t → HasAt (suc d) (cons x y) u) → BelowBy (HasAt (suc d)) (cons_at d h t true) u }
    ensures only { (d : ℕ) (h t : TypeAt (suc d)) (proper : Bool) (v : Value) → HasAt (suc d) v (cons_at d h t proper)
        → (x : Value) × ((y : Value) × (v ≡ cons x y)) }
    ensures proper { (d : ℕ) (h t : TypeAt (suc d)) → NormalAt (suc d) t → ((v : Value) → HasAt (suc d) v t → end_of v ≡ nil) → (v : Value)
        → HasAt (suc d) v (cons_at d h t true) → end_of v ≡ nil }
    ensures free { (d : ℕ) (h t : TypeAt (suc d)) → NormalAt (suc d) h → NormalAt (suc d) t → (x y : Value)
        → HasAt (suc d) (cons x y) (cons_at d h t false) ↔ HasAll (HasAt (suc d)) (and_value x (heads y)) (elem_at d (cons_at d h t true)) }
    ensures lists { (d : ℕ) (t : TypeAt (suc d)) → is_list (ops d) t ≡ true → (v : Value) → HasAt (suc d) v t → end_of v ≡ nil }
    ensures are_lists { (d : ℕ) (t : TypeAt (suc d)) → NormalAt (suc d) t → ((v : Value) → HasAt (suc d) v t → end_of v ≡ nil)
        → is_list (ops d) t ≡ true }
    ensures elem { (d : ℕ) (s : TypeAt (suc d)) → NormalAt (suc d) s → (h t : Value) → HasAt (suc d) (cons h t) s → HasAt (suc d) h (elem_at d s) }
    ensures tail { (d : ℕ) (s : TypeAt (suc d)) (h t : Value) → HasAt (suc d) (cons h t) s → HasAt (suc d) t (tail_at d s) }
    ensures both { (d : ℕ) (s : TypeAt (suc d)) → NormalAt (suc d) s → (x y : Value) → HasAt (suc d) x (elem_at d s) → HasAt (suc d) y (tail_at d s)
        → HasAt (suc d) (cons x y) s }
    ensures elem_least { (d : ℕ) (s : TypeAt (suc d)) → NormalAt (suc d) s → (u : TypeAt (suc d))
        → ((x y : Value) → HasAt (suc d) (cons x y) s → HasAt (suc d) x u) → BelowBy (HasAt (suc d)) (elem_at d s) u }
    ensures tail_least { (d : ℕ) (s : TypeAt (suc d)) → NormalAt (suc d) s → (u : TypeAt (suc d))
        → ((x y : Value) → HasAt (suc d) (cons x y) s → HasAt (suc d) y u) → BelowBy (HasAt (suc d)) (tail_at d s) u }
{}

/// A smaller type has a lower rank, so from a type one can't go down more often than its rank says,
/// and none of a level has a rank above `most_at`.
#[tactic(auto, using(crate::proofs::RankLaws::ranks_of))]
pub fn rank_laws()
    ensures lower { (d : ℕ) (s t : TypeAt d) → NormalAt d s → NormalAt d t → BelowBy (HasAt d) s t → (s ≡ t → ⊥) → rank d s < rank d t }
    ensures bound { (d n : ℕ) (t : TypeAt d) → NormalAt d t → FallsAt d n t → n ≤ rank d t }
    ensures most { (d : ℕ) (t : TypeAt d) → NormalAt d t → rank d t ≤ most_at d }
{}

/// Canonical values. A value is told by its spelling, by which values are ordered. A map is told by
/// its pairs, and has one value at each key. A map with one more pair is canonical again: it has the
/// pair, and those of other keys. Where each canonical value of a type is one of another, each of its
/// values is: canonical values tell types apart as well as all values do.
#[tactic(auto, using(crate::proofs::Spellings::spelled_once, crate::proofs::CanonicalLaws::canonical_maps))]
pub fn value_laws()
    ensures spelled { (v w : Value) → spelled v ≡ spelled w → v ≡ w }
    ensures maps { (ps qs : ValuePairs) → IsCanonical (map_value ps) → IsCanonical (map_value qs) → PairsBelow ps qs → PairsBelow qs ps
        → map_value ps ≡ map_value qs }
    ensures keys { (ps : ValuePairs) → IsCanonical (map_value ps) → (k v w : Value) → HoldsPair ps k v → HoldsPair ps k w → v ≡ w }
    ensures put { (k v : Value) (ps : ValuePairs) → IsCanonical k → IsCanonical v → IsCanonical (map_value ps)
        → IsCanonical (map_value (put_pair k v ps)) }
    ensures put_holds { (k v : Value) (ps : ValuePairs) → IsCanonical (map_value ps) → (x y : Value)
        → HoldsPair (put_pair k v ps) x y ↔ (((x ≡ k) × (y ≡ v)) ⊎ ((x ≡ k → ⊥) × HoldsPair ps x y)) }
    ensures below { (d : ℕ) (s t : TypeAt d) → ((v : Value) → IsCanonical v → HasAt d v s → HasAt d v t) → BelowBy (HasAt d) s t }
{}

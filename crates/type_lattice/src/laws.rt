//! The laws of types, as functions that do nothing: who calls one has its clauses.
ghost use Rattle.std.specs.Prelude.{◌≡◌, ◌<◌, ◌≤◌, ◌-◌, ◌^◌, ◌↔◌, ℕ, ℤ, pos, suc, Bool};
ghost use Rattle.std.specs.Prelude.{true, false, List, Some, IsTrue, length, map};
ghost use Rattle.type_kinds_sets.specs.Names.{Names};
ghost use Rattle.type_kinds_sets.specs.Numbers as numbers;
ghost use Rattle.type_kinds_sets.specs.Numbers.{Numbers};
ghost use Rattle.type_lattice_model.specs.Canonical.{IsCanonical};
ghost use Rattle.type_lattice_model.specs.HasType.{HasAll};
ghost use Rattle.type_lattice_model.specs.Parts.{value_at};
ghost use Rattle.type_lattice_model.specs.declared.limits.TheConstants.{MAX_ELEMENTS};
ghost use Rattle.type_lattice_model.specs.Values.{Value, Values, and_value, count, heads, end_of, int, nil, cons as cons_value, tuple as tuple_value};
ghost use Rattle.type_lattice.specs.Chains.{Falls, IsHeight};
ghost use Rattle.type_lattice.specs.Elements.{ints_of, elements_at};
ghost use Rattle.type_lattice.specs.Inclusion.{is_same, leq};
ghost use Rattle.type_lattice.specs.Kinds.{HasAtom, HasInt, IsKind, of_kind};
ghost use Rattle.type_lattice.specs.Types.{Type4, HasType, HasTypes, Below, AreBelow, IsOfLevel, none, any, is_none};
ghost use Rattle.type_lattice.specs.Types.{meet, join, cut, tuple, cons, project, elem, tail, rank, of_atoms, of_ints};
ghost use Rattle.type_lattice.specs.declared.kinds.Kind.{Kind};
ghost use Rattle.type_lattice.specs.declared.kinds.Kind.TheVariants.{FunOf};

/// Types are sets of values, each in one form, and inclusion is an order. A type is none or has a
/// value, and any has every value. The meet has exactly the values of both, and the join is the
/// least type that contains both. A smaller type has a lower rank, so no descent goes on for ever.
pub fn type_laws()
    ensures reflexive { (t : Type4) → Below t t }
    ensures transitive { (s t u : Type4) → Below s t → Below t u → Below s u }
    ensures same { (s t : Type4) → Below s t → Below t s → s ≡ t }
    ensures empty { (v : Value) → HasType v none → ⊥ }
    ensures filled { (t : Type4) → (t ≡ none → ⊥) → (v : Value) × HasType v t }
    ensures every { (v : Value) → HasType v any }
    ensures both { (s t : Type4) (v : Value) → HasType v (meet s t) ↔ (HasType v s × HasType v t) }
    ensures left { (s t : Type4) → Below s (join s t) }
    ensures right { (s t : Type4) → Below t (join s t) }
    ensures least { (s t u : Type4) → Below s u → Below t u → Below (join s t) u }
    ensures rank { (s t : Type4) → Below s t → (s ≡ t → ⊥) → rank s < rank t }
{}

/// Each operation is monotone: of larger types it gives a larger type.
pub fn monotone_laws()
    ensures meet { (s t u w : Type4) → Below s u → Below t w → Below (meet s t) (meet u w) }
    ensures join { (s t u w : Type4) → Below s u → Below t w → Below (join s t) (join u w) }
    ensures cut { (d : ℕ) (s t : Type4) → Below s t → Below (cut d s) (cut d t) }
    ensures tuple { (ss ts : List Type4) → AreBelow ss ts → Below (tuple ss) (tuple ts) }
    ensures cons { (h t i u : Type4) (proper : Bool) → Below h i → Below t u → Below (cons h t proper) (cons i u proper) }
    ensures project { (s t : Type4) (n i : ℕ) → Below s t → Below (project s n i) (project t n i) }
    ensures elem { (s t : Type4) → Below s t → Below (elem s) (elem t) }
    ensures tail { (s t : Type4) → Below s t → Below (tail s) (tail t) }
{}

/// Canonical values tell types apart as well as all values do: where each canonical value of a type
/// is one of another, each of its values is.
#[tactic(auto, using(crate::proofs::TypeLaws::laws))]
pub fn canonical_laws()
    ensures { (s t : Type4) → ((v : Value) → IsCanonical v → HasType v s → HasType v t) → Below s t }
{}

/// Whether a type is none, whether two types are one, and whether one is part of another are functions
/// of the types.
#[tactic(auto, using(crate::proofs::DecisionLaws::decisions))]
pub fn decision_laws()
    ensures none { (t : Type4) → IsTrue (is_none t) ↔ (t ≡ none) }
    ensures same { (s t : Type4) → IsTrue (is_same s t) ↔ (s ≡ t) }
    ensures below { (s t : Type4) → IsTrue (leq s t) ↔ Below s t }
{}

/// The types of some atoms, of some integers and of a kind have exactly these values. An arity is below
/// 2^32.
#[tactic(auto, using(crate::proofs::KindModels::atoms_only, crate::proofs::KindModels::ints_only, crate::proofs::KindModels::kind_only))]
pub fn maker_laws()
    ensures atoms { (s : Names) (v : Value) → HasType v (of_atoms s) ↔ HasAtom v s }
    ensures ints { (s : Numbers) (v : Value) → HasType v (of_ints s) ↔ HasInt v s }
    ensures kind { (k : Kind) → ((n : ℕ) → k ≡ FunOf n → n < 2 ^ 32) → (v : Value) → HasType v (of_kind k) ↔ IsKind k v }
{}

/// The cut of a type to a level is of the level, and it is the least such type above it.
pub fn cut_laws()
    ensures level { (d : ℕ) (t : Type4) → IsOfLevel d (cut d t) }
    ensures above { (d : ℕ) (t : Type4) → Below t (cut d t) }
    ensures least { (d : ℕ) → d ≤ 4 → (t u : Type4) → IsOfLevel d u → Below t u → Below (cut d t) u }
{}

/// The type of the tuples of some types is the smallest that has them, and has nothing but tuples. Up to
/// 64 types it has exactly the tuples whose elements are in these types cut to level 3.
#[tactic(auto, using(crate::proofs::TypeLaws::laws))]
pub fn tuple_laws()
    ensures above { (ts : List Type4) (vs : Values) → HasTypes vs ts → HasType (tuple_value vs) (tuple ts) }
    ensures least { (ts : List Type4) (u : Type4) → ((vs : Values) → HasTypes vs ts → HasType (tuple_value vs) u) → Below (tuple ts) u }
    ensures only { (ts : List Type4) (v : Value) → HasType v (tuple ts) → (vs : Values) × (v ≡ tuple_value vs) }
    ensures exact { (ts : List Type4) → length ts ≤ MAX_ELEMENTS → (vs : Values)
        → HasType (tuple_value vs) (tuple ts) ↔ HasTypes vs (map (cut 3) ts) }
{}

/// The type of the lists of a head and a tail has them, and has nothing but conses. With proper ends it
/// is the smallest such type, and its ends are proper exactly where the tail has proper lists alone.
/// With free ends it has every list whose heads are those of the lists with proper ends.
pub fn cons_laws()
    ensures above { (h t : Type4) (proper : Bool) (x y : Value) → HasType x h → HasType y t → HasType (cons_value x y) (cons h t proper) }
    ensures least { (h t u : Type4) → ((x y : Value) → HasType x h → HasType y t → HasType (cons_value x y) u) → Below (cons h t true) u }
    ensures only { (h t : Type4) (proper : Bool) (v : Value) → HasType v (cons h t proper) → (x : Value) × ((y : Value) × (v ≡ cons_value x y)) }
    ensures ends { (h t : Type4) → (h ≡ none → ⊥) → ((v : Value) → HasType v (cons h t true) → end_of v ≡ nil)
        ↔ ((v : Value) → HasType v t → end_of v ≡ nil) }
    ensures free { (h t : Type4) (x y : Value) → HasType (cons_value x y) (cons h t false) ↔ HasAll HasType (and_value x (heads y)) (elem (cons h t true)) }
{}

/// A cons is in a type exactly where its head is in `elem` and its tail in `tail`, and both are the
/// smallest types of which that is true.
#[tactic(auto, using(crate::proofs::TypeLaws::laws))]
pub fn list_laws()
    ensures parts { (t : Type4) (x y : Value) → HasType (cons_value x y) t ↔ (HasType x (elem t) × HasType y (tail t)) }
    ensures elem { (t u : Type4) → ((x y : Value) → HasType (cons_value x y) t → HasType x u) → Below (elem t) u }
    ensures tail { (t u : Type4) → ((x y : Value) → HasType (cons_value x y) t → HasType y u) → Below (tail t) u }
{}

/// The type of an element has what stands there in the tuples of a size, and up to 64 elements it is the
/// smallest that does.
#[tactic(auto, using(crate::proofs::TypeLaws::laws))]
pub fn project_laws()
    ensures holds { (t : Type4) (n i : ℕ) (vs : Values) (v : Value) → HasType (tuple_value vs) t → count vs ≡ n → value_at vs (i - 1) ≡ Some v
        → HasType v (project t n i) }
    ensures least { (t : Type4) (n i : ℕ) → n ≤ MAX_ELEMENTS → 1 ≤ i → i ≤ n → (u : Type4)
        → ((vs : Values) (v : Value) → HasType (tuple_value vs) t → count vs ≡ n → value_at vs (i - 1) ≡ Some v → HasType v u)
        → Below (project t n i) u }
{}

/// The integers of a type are exactly those that it has. The type of the elements at some positions has
/// what stands there in tuples of any size; where there is a position in the set, it is the smallest that
/// does. It rises with the type and with the set.
pub fn element_laws()
    ensures ints { (t : Type4) (n : ℤ) → HasType (int n) t ↔ IsTrue (numbers.has (ints_of t) n) }
    ensures holds { (t : Type4) (s : Numbers) (vs : Values) (i : ℕ) (v : Value) → HasType (tuple_value vs) t → value_at vs i ≡ Some v
        → IsTrue (numbers.has s (pos (suc i))) → HasType v (elements_at t s) }
    ensures least { (t : Type4) (s : Numbers) (p : ℕ) → IsTrue (numbers.has s (pos (suc p))) → (u : Type4)
        → ((vs : Values) (i : ℕ) (v : Value) → HasType (tuple_value vs) t → value_at vs i ≡ Some v → IsTrue (numbers.has s (pos (suc i)))
        → HasType v u) → Below (elements_at t s) u }
    ensures monotone { (t u : Type4) (s w : Numbers) → Below t u → numbers.Below s w → Below (elements_at t s) (elements_at u w) }
{}

/// From a type one can't go down more often than its rank says, and from a larger type as often as from
/// a smaller one. So a smaller type has a lower height, which is the length of the longest way down.
pub fn chain_laws()
    ensures bound { (n : ℕ) (t : Type4) → Falls n t → n ≤ rank t }
    ensures above { (n : ℕ) (s t : Type4) → Below s t → Falls n s → Falls n t }
    ensures more { (n : ℕ) (s t : Type4) → Below s t → (s ≡ t → ⊥) → Falls n s → Falls (suc n) t }
    ensures lower { (m n : ℕ) (s t : Type4) → IsHeight m s → IsHeight n t → Below s t → (s ≡ t → ⊥) → m < n }
{}

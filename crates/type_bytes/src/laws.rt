//! The laws of the bytes, as a function that does nothing: who calls it has its clauses.
ghost use Rattle.std.specs.Prelude.{◌≡◌, ◌++◌, [], List, ℕ, IsTrue};
ghost use Rattle.type_lattice.specs.Types.{Type4};
ghost use Rattle.type_bytes.specs.ShortNames.{has_short_names};
ghost use Rattle.type_bytes.specs.Shapes.{TypeShape, IsShort};
ghost use Rattle.type_bytes.specs.Spelling.{bytes_of};

/// Two types with the same bytes are one, and no type's bytes are a proper prefix of another's: what is
/// put is taken, whatever follows. A type's bytes are a shape, and no shape is a proper prefix of another:
/// bytes that begin with a type aren't short.
pub fn bytes_laws()
    ensures once { (s t : Type4) (x y : List ℕ) → IsTrue (has_short_names s) → IsTrue (has_short_names t) → bytes_of s ++ x ≡ bytes_of t ++ y
        → (s ≡ t) × (x ≡ y) }
    ensures shapes { (t : Type4) → IsTrue (has_short_names t) → TypeShape (bytes_of t) }
    ensures apart { (x rest : List ℕ) → TypeShape x → TypeShape (x ++ rest) → rest ≡ [] }
    ensures whole { (t : Type4) (rest : List ℕ) → IsTrue (has_short_names t) → IsShort (bytes_of t ++ rest) → ⊥ }
{}

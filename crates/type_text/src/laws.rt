//! The laws of texts, as functions that do nothing: who calls one has its clauses.
ghost use Rattle.std.specs.Prelude.{◌≡◌, ℕ, ◌<◌, ◌^◌, List, ◌++◌};
ghost use Rattle.std.specs.Fmt.{decimal};
ghost use Rattle.type_kinds.specs.Quoted.{quoted};
ghost use Rattle.type_lattice.specs.Types.{Type4};
ghost use Rattle.type_text.specs.Texts.{text_of};
ghost use Rattle.type_text.specs.Words.{TypeStop, WordStop};

/// Two types with one text are one type.
#[tactic(auto, using(crate::proofs::TextOnce::text_once))]
pub fn text_laws()
    ensures { (s t : Type4) → text_of s ≡ text_of t → s ≡ t }
{}

/// A text begins with one atom in quotes, with one number, where no digit follows it, and with the text of one type, where nothing
/// follows it, a comma or a bracket that closes.
#[tactic(auto, using(crate::proofs::TextOnce::front_once, crate::proofs::LeafLaws::quoted_once, crate::proofs::LeafLaws::decimal_once))]
pub fn front_laws()
    ensures quoted { (a b r q : List ℕ) → quoted a ++ r ≡ quoted b ++ q → (a ≡ b) × (r ≡ q) }
    ensures number { (m n : ℕ) (r q : List ℕ) → m < 2 ^ 128 → n < 2 ^ 128 → WordStop r → WordStop q → decimal m ++ r ≡ decimal n ++ q
        → (m ≡ n) × (r ≡ q) }
    ensures front { (s t : Type4) (r q : List ℕ) → TypeStop r → TypeStop q → text_of s ++ r ≡ text_of t ++ q → (s ≡ t) × (r ≡ q) }
{}

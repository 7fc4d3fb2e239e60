//! The law, as a function that does nothing: who calls it has its clauses.
ghost use Rattle.std.specs.Prelude.{ℕ, ◌<◌, ◌≤◌, codes, length, ◌++◌};
ghost use Rattle.std.specs.Fmt.{decimal};
ghost use Rattle.core_make.specs.Modules.{module_text};
ghost use Rattle.core_make_laws.specs.AcceptedTexts.{SpellsAccepted};

/// The text of the module of number i among n, for at most 1,000 modules.
///
/// - `accepted`: it has tokens, they spell a module with the name g and i behind it, no node of which stands too deep, and which
///   breaks no rule of scopes and degrees.
/// - `short`: it has at most 512 bytes.
pub fn generated_is_accepted()
    ensures accepted { (n i : ℕ) → n ≤ 1000 → i < n → SpellsAccepted (module_text n i) (codes "g" ++ decimal i) }
    ensures short { (n i : ℕ) → n ≤ 1000 → i < n → length (module_text n i) ≤ 512 }
{}

//! The laws, as functions that do nothing: who calls one has its clauses.
ghost use Rattle.std.specs.Prelude.{◌≡◌, List};
ghost use Rattle.core_ast.specs.Model.{Module};
ghost use Rattle.core_scan.specs.declared.token.Token.{Token};
ghost use Rattle.core_parse_grammar.specs.Spells.{SpellsModule};
ghost use Rattle.core_scope.specs.Accepted.{IsAccepted};
ghost use Rattle.core_scope.specs.Checked.{tree_of};
ghost use Rattle.core_scope.specs.declared.checked.Checked.{Checked};
ghost use Rattle.core_reading_laws.specs.Tokens.{AreDecided, SomeFirstBreak};

/// Tokens spell at most one module, however deep its nodes are: no text has two readings.
pub fn one_module_of_tokens()
    ensures { (ts : List Token) (x y : Module) → SpellsModule ts x → SpellsModule ts y → x ≡ y }
{}

/// Tokens are those of a module within the depth limit, and of no other; or they have a first token at which no module goes on, or at
/// which a node too deep begins; or all of them begin a module within the limit, and they spell none.
pub fn tokens_are_decided()
    ensures { (ts : List Token) → AreDecided ts }
{}

/// A module breaks no rule of scopes and degrees, or there is a first break.
pub fn a_first_break()
    ensures { SomeFirstBreak }
{}

/// Each module that is accepted is that of a `Checked`.
pub fn every_accepted()
    ensures { (x : Module) → IsAccepted x → (c : Checked) × (tree_of c ≡ x) }
{}

// What holds of the definitions, for every text.
ghost use Rattle.std.specs.Prelude.{◌≡◌, ◌≢◌, ℕ, ◌*◌, ◌≤◌, List, length};
ghost use Rattle.core_ast.specs.Model.{Module as ModuleTree};
ghost use Rattle.core_parse_grammar.specs.Begins.{depth_limit, Refused};
ghost use Rattle.core_parse_grammar.specs.Spells.{SpellsTo};
ghost use Rattle.core_parse_grammar.specs.declared.fault.ParseFault.{ParseFault};
ghost use Rattle.core_parse_grammar.specs.declared.fault.ParseFault.TheVariants as faults;
ghost use Rattle.type_kinds.specs.declared.place.Place.{Place};
ghost use Rattle.core_scan.specs.declared.token.Token.{Token};
ghost use Rattle.core_scan.specs.Lexed.{Lexed};
ghost use Rattle.core_parse_grammar.specs.Weights.{weight};

/// The tokens of a text weigh at most two for each of its bytes, so those that are scanned may be parsed.
#[tactic(auto, using(crate::proofs::LexedWeights::lexed_weight))]
pub fn lexed_weight()
    ensures { (place : Place) (bytes : List ℕ) (ts : List Token) → Lexed place bytes ts → weight ts ≤ 2 * length bytes }
{}

/// Tokens that spell a module, within the depth limit, are refused only when out of memory: a text is
/// never both a module and at fault.
#[tactic(auto, using(crate::proofs::Whole::module_is_no_fault))]
pub fn module_is_no_fault()
    ensures { (ts : List Token) (x : ModuleTree) → SpellsTo depth_limit ts x → (end : Place) (fault : ParseFault) → Refused ts end fault
        → fault ≡ faults.Memory }
{}

/// Tokens that are refused have at most one fault, apart from out of memory: one number and one place.
#[tactic(auto, using(crate::proofs::OneFault::refused_once))]
pub fn refused_once()
    ensures { (ts : List Token) (end : Place) (fault other : ParseFault) → Refused ts end fault → Refused ts end other → fault ≢ faults.Memory
        → other ≢ faults.Memory → fault ≡ other }
{}

// What holds of the definitions, for every text.
ghost use Rattle.std.specs.Prelude.{◌≡◌, ℕ, List};
ghost use Rattle.core_ast.specs.Model.{Module as ModuleTree};
ghost use Rattle.core_ast.specs.Same.{Same};
ghost use Rattle.type_kinds.specs.declared.place.Place.{Place};
ghost use Rattle.core_scan.specs.declared.token.Token.{Token};
ghost use Rattle.core_scan.specs.declared.token.ScanFault.{ScanFault};
ghost use Rattle.core_scan.specs.Bytes.{start};
ghost use Rattle.core_scan.specs.Lexed.{Lexed, FirstFault};
ghost use Rattle.core_parse_grammar.specs.Begins.{depth_limit, IsModule, Refused};
ghost use Rattle.core_parse_grammar.specs.declared.fault.ParseFault.{ParseFault};
ghost use Rattle.core_parse_grammar.specs.declared.fault.ParseFault.TheVariants as faults;
ghost use Rattle.core_parse_grammar.specs.Labels.{numbered};
ghost use Rattle.core_parse_grammar.specs.Spells.{SpellsTo};
ghost use Rattle.core_print.specs.Words.{Word, line};
ghost use Rattle.core_print.specs.Canonical.{canonical};
ghost use Rattle.core_print.specs.Fits.{ModuleFits};
ghost use Rattle.core_print.specs.Tokens.{AreBytes, AreWords, tokens_of};

use core_parse::module_is_no_fault;
use core_scan::{lexed_once, lexed_without_fault};

/// Words of the language in a line are lexed as their tokens, one token a word.
pub fn line_lexed()
    ensures { (ws : List Word) → AreWords ws → Lexed start (line ws) (tokens_of start ws) }
{}

/// A module that fits within the depth limit is read back from its canonical text, with its labels: the
/// text has tokens, and they spell a module that is the same.
pub fn fitting_module_is_read_back()
    ensures { (x : ModuleTree) → ModuleFits depth_limit x
        → (ts : List Token) × (y : ModuleTree) × Lexed start (canonical (numbered x)) ts × SpellsTo depth_limit ts y × Same y (numbered x) }
{}

/// The module that a text spells within the depth limit is read back from its canonical text: that text has
/// tokens, and they spell a module that is the same.
pub fn spelled_module_is_read_back()
    ensures { (text : List ℕ) (ts : List Token) (x : ModuleTree) → AreBytes text → Lexed start text ts → SpellsTo depth_limit ts x
        → (us : List Token) × (y : ModuleTree) × Lexed start (canonical x) us × SpellsTo depth_limit us y × Same y x }
{}

/// Whatever is scanned and parsed of that canonical text, unless memory runs out, is a module that is the
/// same: the text has no fault, and its tokens are refused only when out of memory.
pub fn canonical_text_has_one_reading()
    ensures { (text : List ℕ) (ts : List Token) (x : ModuleTree) → AreBytes text → Lexed start text ts → SpellsTo depth_limit ts x
        → ((fault : ScanFault) → FirstFault start (canonical x) fault → ⊥)
        × ((us : List Token) → Lexed start (canonical x) us
        → ((y : ModuleTree) → IsModule us y → Same y x) × ((end : Place) (fault : ParseFault) → Refused us end fault → fault ≡ faults.Memory)) }
{
    lexed_once();
    lexed_without_fault();
    module_is_no_fault();
}

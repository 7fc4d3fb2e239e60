//! What holds of the definitions of sources, for all bytes.
ghost use Rattle.std.specs.Prelude.{◌≡◌, ◌⊎◌, ℕ, List, [], Some};
ghost use Rattle.da_shelf.specs.Told.{Files};
ghost use Rattle.core_ast.specs.Model.{Module as ModuleTree};
ghost use Rattle.core_scan.specs.declared.token.Token.{Token};
ghost use Rattle.core_parse_grammar.specs.Begins.{depth_limit};
ghost use Rattle.core_parse_grammar.specs.Spells.{SpellsTo};
ghost use Rattle.core_scope.specs.Breaks.{module_breaks};
ghost use Rattle.table_keep.specs.Model.{Source};
ghost use Rattle.analysis_sources.specs.declared.refusals.SourceFault.{SourceFault};
ghost use Rattle.analysis_sources.specs.Reading.{AreRead, RefusedAt};
ghost use Rattle.analysis_sources.specs.Sources.{IsSource, IsAtFault, Scanned};

use core_parse::{module_is_no_fault, refused_once};
use core_reading_laws::{a_first_break, tokens_are_decided};
use core_scan::{first_fault_once, lexed_once, lexed_or_fault, lexed_without_fault};
use core_scope::first_break_once;

/// Bytes are the source of at most one module, have at most one fault, and never both.
pub fn one_reading()
    ensures one_module { (most : ℕ) (bytes : List ℕ) (x y : ModuleTree) → IsSource most bytes x → IsSource most bytes y → x ≡ y }
    ensures one_fault { (most : ℕ) (bytes : List ℕ) (f g : SourceFault) → IsAtFault most bytes f → IsAtFault most bytes g → f ≡ g }
    ensures never_both { (most : ℕ) (bytes : List ℕ) (x : ModuleTree) (fault : SourceFault) → IsSource most bytes x → IsAtFault most bytes fault
        → ⊥ }
{
    lexed_once();
    first_fault_once();
    lexed_without_fault();
    refused_once();
    module_is_no_fault();
    first_break_once();
}

/// Bytes are the source of a module, or have a fault: with `one_reading` either of the two, and one.
pub fn module_or_fault()
    ensures { (most : ℕ) (bytes : List ℕ) → ((x : ModuleTree) × IsSource most bytes x)
        ⊎ ((fault : SourceFault) × IsAtFault most bytes fault) }
{
    lexed_or_fault();
    tokens_are_decided();
    a_first_break();
}

/// Bytes whose tokens spell a module, no node of which stands too deep, are the source of no other module; and if it breaks no rule of
/// scopes and degrees, they have no fault.
pub fn spelled_module_is_read()
    ensures no_other { (most : ℕ) (bytes : List ℕ) (ts : List Token) (x y : ModuleTree) → Scanned most bytes ts → SpellsTo depth_limit ts x
        → IsSource most bytes y → y ≡ x }
    ensures no_fault { (most : ℕ) (bytes : List ℕ) (ts : List Token) (x : ModuleTree) (fault : SourceFault) → Scanned most bytes ts
        → SpellsTo depth_limit ts x → module_breaks x ≡ [] → IsAtFault most bytes fault → ⊥ }
{
    lexed_once();
    first_fault_once();
    lexed_without_fault();
    refused_once();
    module_is_no_fault();
    first_break_once();
}

/// What is held decides what files are read to: all of them are read, to one list of sources, or one of them is the
/// first that is refused, by one fault.
pub fn one_reading_of_files()
    ensures one_list { (held : Files) (files : List (List ℕ)) (xs ys : List Source) (a b : ℕ) → AreRead (Some held) 0 files xs a
        → AreRead (Some held) 0 files ys b → xs ≡ ys }
    ensures one_refusal { (held : Files) (files : List (List ℕ)) (i j : ℕ) (f g : SourceFault) → RefusedAt (Some held) files i f
        → RefusedAt (Some held) files j g → (i ≡ j) × (f ≡ g) }
    ensures none_refused { (held : Files) (files : List (List ℕ)) (xs : List Source) (after i : ℕ) (f : SourceFault)
        → AreRead (Some held) 0 files xs after → RefusedAt (Some held) files i f → ⊥ }
{
    one_reading();
}

/// All files are read of what is held, or one of them is the first that is refused.
pub fn read_or_refused()
    ensures { (held : Files) (files : List (List ℕ)) → ((xs : List Source) × (after : ℕ) × AreRead (Some held) 0 files xs after)
        ⊎ ((at : ℕ) × (fault : SourceFault) × RefusedAt (Some held) files at fault) }
{
    module_or_fault();
}

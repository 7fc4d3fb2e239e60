// What holds of the definitions, for every text.
ghost use Rattle.std.specs.Prelude.{◌≡◌, ◌≢◌, ◌⊎◌, ℕ, List, All};
ghost use Rattle.type_kinds.specs.declared.place.Place.{Place};
ghost use Rattle.core_scan.specs.declared.token.Token.{Token};
ghost use Rattle.core_scan.specs.declared.token.ScanFault.{ScanFault};
ghost use Rattle.core_scan.specs.declared.sort.Sort.TheVariants.{Other};
ghost use Rattle.core_scan.specs.Sorts.{sort};
ghost use Rattle.core_scan.specs.Lexed.{Lexed, FirstFault};

/// Bytes have at most one list of tokens.
pub fn lexed_once()
    ensures { (place : Place) (bytes : List ℕ) (ts us : List Token) → Lexed place bytes ts → Lexed place bytes us → ts ≡ us }
{}

/// Bytes have at most one first fault.
pub fn first_fault_once()
    ensures { (place : Place) (bytes : List ℕ) (f g : ScanFault) → FirstFault place bytes f → FirstFault place bytes g → f ≡ g }
{}

/// Bytes that have tokens have no first fault.
pub fn lexed_without_fault()
    ensures { (place : Place) (bytes : List ℕ) (ts : List Token) (fault : ScanFault) → Lexed place bytes ts → FirstFault place bytes fault → ⊥ }
{}

/// Bytes have tokens or a first fault.
pub fn lexed_or_fault()
    ensures { (place : Place) (bytes : List ℕ) → ((ts : List Token) × Lexed place bytes ts) ⊎ ((fault : ScanFault) × FirstFault place bytes fault) }
{}

/// Each token of a text is a token of the language.
pub fn lexed_sorts()
    ensures { (place : Place) (bytes : List ℕ) (ts : List Token) → Lexed place bytes ts → All (λ token. sort token ≢ Other) ts }
{}

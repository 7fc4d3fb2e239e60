// The reserved words and the symbols.
ghost use Rattle.std.specs.Prelude.{◌≡◌, ◌∷◌, ◌↔◌, [], IsTrue};
ghost use Rattle.core_scan.specs.Vocabulary.{words, symbols, sort_in, IsOneOf};
ghost use Rattle.core_scan.specs.steps.Fronts.{is_single, is_pair};

use crate::sort::{Sort, is_known};

/// Whether a word is reserved.
pub fn is_reserved(word: &[u8]) -> bool
    ensures { IsTrue result ↔ IsOneOf words word.now }
{
    is_known(word_sort(word))
}

/// The sort of a reserved word, and `Other` for any other bytes.
pub fn word_sort(word: &[u8]) -> Sort
    ensures { result ≡ sort_in words word.now }
{
    match word {
        b"after" => Sort::After,
        b"apply" => Sort::Apply,
        b"attributes" => Sort::Attributes,
        b"call" => Sort::Call,
        b"case" => Sort::Case,
        b"catch" => Sort::Catch,
        b"do" => Sort::Do,
        b"end" => Sort::End,
        b"fun" => Sort::Fun,
        b"in" => Sort::In,
        b"let" => Sort::Let,
        b"letrec" => Sort::Letrec,
        b"module" => Sort::Module,
        b"of" => Sort::Of,
        b"primop" => Sort::Primop,
        b"receive" => Sort::Receive,
        b"try" => Sort::Try,
        b"when" => Sort::When,
        _ => Sort::Other,
    }
}

/// Whether a byte is a symbol.
pub fn is_single(byte: u8) -> bool
    ensures { result ≡ is_single byte }
{
    is_known(single_sort(byte))
}

/// Whether two bytes are a symbol.
pub fn is_pair(first: u8, second: u8) -> bool
    ensures { result ≡ is_pair first second }
{
    is_known(pair_sort(first, second))
}

/// The sort of a symbol, and `Other` for any other bytes.
pub fn symbol_sort(symbol: &[u8]) -> Sort
    ensures { result ≡ sort_in symbols symbol.now }
{
    match symbol {
        [byte] => single_sort(*byte),
        [first, second] => pair_sort(*first, *second),
        _ => Sort::Other,
    }
}

// The sort of a symbol of one byte, and `Other` for any other byte.
fn single_sort(byte: u8) -> Sort
    ensures { result ≡ sort_in symbols (byte ∷ []) }
{
    match byte {
        b'(' => Sort::OpenRound,
        b')' => Sort::CloseRound,
        b'{' => Sort::OpenCurly,
        b'}' => Sort::CloseCurly,
        b'[' => Sort::OpenSquare,
        b']' => Sort::CloseSquare,
        b'<' => Sort::Less,
        b'>' => Sort::Greater,
        b'|' => Sort::Bar,
        b',' => Sort::Comma,
        b':' => Sort::Colon,
        b'/' => Sort::Slash,
        b'=' => Sort::Equals,
        _ => Sort::Other,
    }
}

// The sort of a symbol of two bytes, and `Other` for any other two.
fn pair_sort(first: u8, second: u8) -> Sort
    ensures { result ≡ sort_in symbols (first ∷ second ∷ []) }
{
    match (first, second) {
        (b'-', b'>') => Sort::Arrow,
        (b'-', b'|') => Sort::Noted,
        (b'#', b'{') => Sort::OpenBinary,
        (b'}', b'#') => Sort::CloseBinary,
        (b'#', b'<') => Sort::OpenSegment,
        (b'~', b'{') => Sort::OpenMap,
        (b'}', b'~') => Sort::CloseMap,
        (b'=', b'>') => Sort::Assoc,
        (b':', b'=') => Sort::Exact,
        _ => Sort::Other,
    }
}

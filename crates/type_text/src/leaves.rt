// What stands first in a text and holds no types: words, atoms, numbers and the ends of ranges. Each
// reader gives what it read and what stands behind it.
ghost use Rattle.std.specs.Prelude.{◌≡◌, ℕ, ℤ, pos, neg_ℤ, ◌+◌, ◌*◌, ◌/◌, ◌%◌, ◌^◌, ◌<◌, ◌≤◌, List};
ghost use Rattle.std.specs.Prelude.{[], ◌∷◌, ◌++◌, length, codes, IsTrue, IfOk, IfSome, MatchOption};
ghost use Rattle.std.specs.Option.{IsSomeAnd};
ghost use Rattle.std.specs.Fmt.{decimal, signed_decimal};
ghost use Rattle.type_kinds.specs.Quoted.{quoted, escaped, needs_backslash};
ghost use Rattle.type_kinds_sets.specs.Numbers.{is_narrow};
ghost use Rattle.type_text.specs.Texts.{low_text, high_text};
ghost use Rattle.type_text.specs.Words.{WordStop};

use std::alloc::Global;
use type_kinds::{Atom, Bytes, Memory, digits_len, parse_decimal};
use type_kinds_sets::{High, Low};

/// What stands behind a word, where the text begins with it.
#[tactic(auto, using(crate::proofs::LeafLaws::words_in_front))]
pub fn after_word<'a>(text: &'a [u8], word: &[u8]) -> Option<&'a [u8]>
    ensures complete { (rest : List ℕ) → text.now ≡ word.now ++ rest → IsSomeAnd result (λ left. left.now ≡ rest) }
    ensures exact { IfSome result (λ left. text.now ≡ word.now ++ left.now) }
    ensures shorter { IfSome result (λ left. length word.now + length left.now ≡ length text.now) }
{
    text.strip_prefix(word)
}

/// An atom in quotes.
#[tactic(auto, using(crate::proofs::LeafLaws::atom_further, crate::proofs::LeafLaws::atom_ends))]
pub fn read_quoted(alloc: Global, text: &[u8]) -> Result<Option<(Atom, &[u8])>, Memory>
    ensures complete { IfOk result (λ read. (atom rest : List ℕ) → text.now ≡ quoted atom ++ rest
        → IsSomeAnd read (λ p. (p.0 ≡ atom) × (p.1.now ≡ rest))) }
    ensures shorter { IfOk result (λ read. IfSome read (λ p. length p.1.now < length text.now)) }
{
    let Some(inside) = after_word(text, b"'") else {
        return Ok(None);
    };
    let mut rest = inside;
    let mut bytes = Bytes::new(alloc);
    while let Some((byte, after)) = read_byte(rest) {
        bytes.append(&[byte])?;
        rest = after;
    }
    match after_word(rest, b"'") {
        Some(after) => Ok(Some((Atom::from_bytes(bytes), after))),
        None => Ok(None),
    }
}

// One byte of an atom, as it stands between the quotes.
fn read_byte(text: &[u8]) -> Option<(u8, &[u8])>
    ensures complete { (byte : ℕ) (rest : List ℕ) → text.now ≡ escaped byte ++ rest → IsSomeAnd result (λ p. (p.0 ≡ byte) × (p.1.now ≡ rest)) }
    ensures quote { IfSome result (λ _. (rest : List ℕ) → text.now ≡ 39 ∷ rest → ⊥) }
    ensures shorter { IfSome result (λ p. length p.1.now < length text.now) }
{
    let (first, after) = text.split_first()?;
    match *first {
        b'\'' => None,
        b'\\' => read_escape(after),
        byte => Some((byte, after)),
    }
}

// What stands behind a backslash: a quote, a backslash, or three octal digits.
fn read_escape(text: &[u8]) -> Option<(u8, &[u8])>
    ensures itself { (byte : ℕ) (rest : List ℕ) → IsTrue (needs_backslash byte) → text.now ≡ byte ∷ rest
        → IsSomeAnd result (λ p. (p.0 ≡ byte) × (p.1.now ≡ rest)) }
    ensures octal { (byte : ℕ) (rest : List ℕ) → byte < 256 → text.now ≡ (48 + byte / 64) ∷ (48 + byte / 8 % 8) ∷ (48 + byte % 8) ∷ rest
        → IsSomeAnd result (λ p. (p.0 ≡ byte) × (p.1.now ≡ rest)) }
    ensures shorter { IfSome result (λ p. length p.1.now < length text.now) }
{
    let (first, after) = text.split_first()?;
    if *first == b'\'' || *first == b'\\' {
        return Some((*first, after));
    }
    read_octal(text)
}

// A byte that three octal digits tell.
fn read_octal(text: &[u8]) -> Option<(u8, &[u8])>
    ensures complete { (byte : ℕ) (rest : List ℕ) → byte < 256 → text.now ≡ (48 + byte / 64) ∷ (48 + byte / 8 % 8) ∷ (48 + byte % 8) ∷ rest
        → IsSomeAnd result (λ p. (p.0 ≡ byte) × (p.1.now ≡ rest)) }
    ensures shorter { IfSome result (λ p. length p.1.now < length text.now) }
{
    let (high, after) = octal_digit(text)?;
    let (middle, after) = octal_digit(after)?;
    let (low, rest) = octal_digit(after)?;
    if high > 3 {
        return None;
    }
    Some((high * 64 + middle * 8 + low, rest))
}

// What an octal digit tells.
fn octal_digit(text: &[u8]) -> Option<(u8, &[u8])>
    ensures complete { (digit : ℕ) (rest : List ℕ) → digit < 8 → text.now ≡ (48 + digit) ∷ rest
        → IsSomeAnd result (λ p. (p.0 ≡ digit) × (p.1.now ≡ rest)) }
    ensures small { IfSome result (λ p. p.0 < 8) }
    ensures shorter { IfSome result (λ p. length p.1.now < length text.now) }
{
    let (first, rest) = text.split_first()?;
    match *first {
        b'0'..=b'7' => Some((*first - b'0', rest)),
        _ => None,
    }
}

/// An integer of magnitude below 2^127.
#[tactic(auto, using(crate::proofs::LeafLaws::number_no_minus, std::proofs::lemmas::Bool::Decides::nat_tests))]
pub fn read_integer(text: &[u8]) -> Option<(i128, &[u8])>
    ensures complete { (n : ℤ) (rest : List ℕ) → IsTrue (is_narrow n) → WordStop rest → text.now ≡ signed_decimal n ++ rest
        → IsSomeAnd result (λ p. (p.0 ≡ n) × (p.1.now ≡ rest)) }
    ensures narrow { IfSome result (λ p. IsTrue (is_narrow p.0)) }
    ensures shorter { IfSome result (λ p. length p.1.now < length text.now) }
{
    match after_word(text, b"-") {
        Some(after) => {
            let (magnitude, rest) = read_natural(after)?;
            Some((negative(magnitude), rest))
        }
        None => {
            let (magnitude, rest) = read_natural(text)?;
            Some((magnitude as i128, rest))
        }
    }
}

// The number below zero that has a magnitude.
fn negative(magnitude: u128) -> i128
    requires { magnitude < 2 ^ 127 }
    ensures { result ≡ neg_ℤ (pos magnitude) }
{
    -(magnitude as i128)
}

/// How many arguments a function has.
pub fn read_arity(text: &[u8]) -> Option<(u32, &[u8])>
    ensures complete { (n : ℕ) (rest : List ℕ) → n < 2 ^ 32 → WordStop rest → text.now ≡ decimal n ++ rest
        → IsSomeAnd result (λ p. (p.0 ≡ n) × (p.1.now ≡ rest)) }
    ensures shorter { IfSome result (λ p. length p.1.now < length text.now) }
{
    let (number, rest) = read_natural(text)?;
    match u32::try_from(number) {
        Ok(arity) => Some((arity, rest)),
        Err(_) => None,
    }
}

// A number below 2^127.
#[tactic(auto, using(crate::proofs::LeafLaws::no_digits, type_kinds::proofs::DigitLaws::number_in_front, type_kinds::proofs::DigitLaws::front_digits))]
fn read_natural(text: &[u8]) -> Option<(u128, &[u8])>
    ensures complete { (n : ℕ) (rest : List ℕ) → n < 2 ^ 127 → WordStop rest → text.now ≡ decimal n ++ rest
        → IsSomeAnd result (λ p. (p.0 ≡ n) × (p.1.now ≡ rest)) }
    ensures narrow { IfSome result (λ p. p.0 < 2 ^ 127) }
    ensures shorter { IfSome result (λ p. length p.1.now < length text.now) }
{
    let len = digits_len(text);
    if len == 0 {
        return None;
    }
    let (digits, rest) = text.split_at(len);
    let number = parse_decimal(digits)?;
    Some((number, rest))
}

/// The ends of a range, and the parenthesis behind them.
pub fn read_range(text: &[u8]) -> Option<(Low, High, &[u8])>
    ensures complete { (low : Low) (high : High) (rest : List ℕ) → text.now ≡ low_text low ++ codes ".." ++ high_text high ++ codes ")" ++ rest
        → IsSomeAnd result (λ p. (p.0 ≡ low) × (p.1 ≡ high) × (p.2.now ≡ rest)) }
    ensures shorter { IfSome result (λ p. length p.2.now < length text.now) }
{
    let (low, after) = read_low(text)?;
    let after = after_word(after, b"..")?;
    let (high, after) = read_high(after)?;
    let rest = after_word(after, b")")?;
    Some((low, high, rest))
}

// The lower end of a range.
fn read_low(text: &[u8]) -> Option<(Low, &[u8])>
    ensures complete { (low : Low) (rest : List ℕ) → text.now ≡ low_text low ++ rest → IsSomeAnd result (λ p. (p.0 ≡ low) × (p.1.now ≡ rest)) }
    ensures shorter { IfSome result (λ p. length p.1.now < length text.now) }
{
    if let Some(rest) = after_word(text, b"min") {
        return Some((Low::Min, rest));
    }
    if let Some(rest) = after_word(text, b"0") {
        return Some((Low::Zero, rest));
    }
    let rest = after_word(text, b"1")?;
    Some((Low::One, rest))
}

// The upper end of a range.
fn read_high(text: &[u8]) -> Option<(High, &[u8])>
    ensures complete { (high : High) (rest : List ℕ) → text.now ≡ high_text high ++ rest
        → IsSomeAnd result (λ p. (p.0 ≡ high) × (p.1.now ≡ rest)) }
    ensures shorter { IfSome result (λ p. length p.1.now < length text.now) }
{
    if let Some(rest) = after_word(text, b"-1") {
        return Some((High::MinusOne, rest));
    }
    if let Some(rest) = after_word(text, b"255") {
        return Some((High::Byte, rest));
    }
    if let Some(rest) = after_word(text, b"1114111") {
        return Some((High::Unicode, rest));
    }
    let rest = after_word(text, b"max")?;
    Some((High::Max, rest))
}

//! The number that a word is.
ghost use Rattle.std.specs.Prelude.{◌≡◌, ◌↔◌, ℕ, ◌≤◌, ◌<◌, ◌^◌, IsTrue, MatchOption};
ghost use Rattle.std.specs.Fmt.{decimal};
ghost use Rattle.analysis_answers.specs.steps.Numbers.{Begins};

use type_kinds::{digits_len, parse_decimal};

/// The number from 1 to `most` that a word is, as it is printed.
pub fn number_of(word: &str, most: u32) -> Option<u32>
    requires { most < 2 ^ 32 }
    ensures { MatchOption result ((n : ℕ) → 1 ≤ n → n ≤ most → word.now ≡ decimal n
        → ⊥) (λ n. (word.now ≡ decimal n) × (1 ≤ n) × (n ≤ most)) }
{
    let digits = word.as_bytes();
    if !begins_number(digits) {
        return None;
    }
    if digits_len(digits) < digits.len() {
        return None;
    }
    let Some(number) = parse_decimal(digits) else {
        return None;
    };
    if number > u128::from(most) {
        return None;
    }
    Some(number as u32)
}

// Whether there is a first byte, and it isn't the digit 0.
fn begins_number(digits: &[u8]) -> bool
    ensures { IsTrue result ↔ Begins digits.now }
{
    match digits.first() {
        Some(first) => *first != b'0',
        None => false,
    }
}

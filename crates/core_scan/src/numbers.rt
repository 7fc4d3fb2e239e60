// The shapes of numbers.
ghost use Rattle.std.specs.Prelude.{◌≡◌, ◌==◌, if◌then◌else◌, pos, neg_ℤ, ◌<◌, ◌≤◌, length};
ghost use Rattle.core_scan.specs.steps.Fronts.{sign_len, exponent_len, fraction_len};

use type_kinds::{MAGNITUDE_LIMIT, digits_len};

/// How many bytes at the front are a sign.
pub fn sign_len(rest: &[u8]) -> usize
    ensures front { result ≡ sign_len rest.now }
    ensures within { result ≤ length rest.now }
{
    match rest.first() {
        Some(b'+' | b'-') => 1,
        _ => 0,
    }
}

/// How many bytes at the front are an exponent.
pub fn exponent_len(rest: &[u8]) -> usize
    ensures front { result ≡ exponent_len rest.now }
    ensures within { result ≤ length rest.now }
{
    let Some((mark, after)) = rest.split_first() else {
        return 0;
    };
    if *mark != b'e' && *mark != b'E' {
        return 0;
    }
    let sign = sign_len(after);
    let digits = digits_len(&after[sign..]);
    if digits == 0 { 0 } else { 1 + sign + digits }
}

/// How many bytes at the front are a point, digits and an exponent.
pub fn fraction_len(rest: &[u8]) -> usize
    ensures front { result ≡ fraction_len rest.now }
    ensures within { result ≤ length rest.now }
{
    let Some((point, after)) = rest.split_first() else {
        return 0;
    };
    let digits = digits_len(after);
    if *point != b'.' || digits == 0 {
        return 0;
    }
    1 + digits + exponent_len(&after[digits..])
}

/// The magnitude, negated if the first byte of its number is a minus sign.
pub fn signed(first: u8, magnitude: u128) -> i128
    requires { magnitude < MAGNITUDE_LIMIT }
    ensures { result ≡ (if first == 45 then neg_ℤ (pos magnitude) else pos magnitude) }
{
    let value = magnitude as i128;
    if first == b'-' { -value } else { value }
}

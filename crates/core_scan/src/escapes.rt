// The bytes that escapes stand for.
ghost use Rattle.std.specs.Prelude.{◌≡◌, ◌≤◌, ◌<◌, length, take};
ghost use Rattle.type_kinds.specs.Digits.{number};
ghost use Rattle.core_scan.specs.Escapes.{lettered};
ghost use Rattle.core_scan.specs.steps.Fronts.{octal_of, control_of, marked, escape_of};

use crate::runs::octals_len;

/// The byte that an escape stands for, and how many bytes spell it after the backslash.
#[derive(Clone, Copy, Debug)]
pub struct Escaped {
    pub value: u8,
    pub len: usize,
}

/// The escape that bytes after a backslash begin with.
pub fn escape(rest: &[u8]) -> Option<Escaped>
    ensures { result ≡ escape_of rest.now }
{
    let octals = octals_len(rest);
    if octals == 0 {
        return mark(rest);
    }
    octal(rest, octals.min(3))
}

// The escape of `len` octal digits.
fn octal(rest: &[u8], len: usize) -> Option<Escaped>
    requires some { 0 < len }
    requires few { len ≤ 3 }
    requires within { len ≤ length rest.now }
    ensures { result ≡ octal_of len rest.now }
{
    let value = octal_value(&rest[..len]);
    if value < 256 {
        Some(Escaped {
            value: value as u8,
            len,
        })
    } else {
        None
    }
}

fn octal_value(digits: &[u8]) -> u32
    requires { length digits.now ≤ 3 }
    ensures { result ≡ number 8 digits.now }
{
    let mut value = 0;
    for digit in digits {
        value = value * 8 + u32::from(digit.saturating_sub(b'0'));
    }
    value
}

// The escape of `^` and a byte, or of one letter or mark.
fn mark(rest: &[u8]) -> Option<Escaped>
    ensures { result ≡ marked rest.now }
{
    let (first, after) = rest.split_first()?;
    if *first == b'^' {
        return control(after);
    }
    let value = letter(*first)?;
    Some(Escaped { value, len: 1 })
}

fn control(after: &[u8]) -> Option<Escaped>
    ensures { result ≡ control_of after.now }
{
    let byte = *after.first()?;
    if byte >= 64 && byte <= 95 {
        Some(Escaped {
            value: byte - 64,
            len: 2,
        })
    } else {
        None
    }
}

fn letter(byte: u8) -> Option<u8>
    ensures { result ≡ lettered byte }
{
    match byte {
        b'b' => Some(8),
        b'd' => Some(127),
        b'e' => Some(27),
        b'f' => Some(12),
        b'n' => Some(10),
        b'r' => Some(13),
        b's' => Some(32),
        b't' => Some(9),
        b'v' => Some(11),
        b'"' | b'\'' | b'\\' => Some(byte),
        _ => None,
    }
}

// How many bytes at the front are in a class.
ghost use Rattle.std.specs.Prelude.{◌≡◌, ◌≤◌, length};
ghost use Rattle.std.specs.List.{prefix_len};
ghost use Rattle.core_scan.specs.Bytes.{is_octal, is_name_byte, is_no_line_feed};

use crate::classes::{is_name_byte, is_octal};

/// How many bytes at the front are letters, digits, `_` or `@`.
pub fn name_len(rest: &[u8]) -> usize
    ensures run { result ≡ prefix_len is_name_byte rest.now }
    ensures within { result ≤ length rest.now }
{
    rest.iter().take_while(|byte| is_name_byte(**byte)).count()
}

/// How many bytes at the front are octal digits.
pub fn octals_len(rest: &[u8]) -> usize
    ensures run { result ≡ prefix_len is_octal rest.now }
    ensures within { result ≤ length rest.now }
{
    rest.iter().take_while(|byte| is_octal(**byte)).count()
}

/// How many bytes come before the first LF, or before the end.
pub fn line_len(rest: &[u8]) -> usize
    ensures run { result ≡ prefix_len is_no_line_feed rest.now }
    ensures within { result ≤ length rest.now }
{
    rest.iter().take_while(|byte| **byte != b'\n').count()
}

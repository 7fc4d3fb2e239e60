// Classes of bytes.
ghost use Rattle.std.specs.Prelude.{◌≡◌};
ghost use Rattle.core_scan.specs.Bytes.{is_lower, is_upper, is_octal, is_name_byte, is_blank};

/// `a` to `z`.
pub fn is_lower(byte: u8) -> bool
    ensures { result ≡ is_lower byte }
{
    byte >= b'a' && byte <= b'z'
}

/// `A` to `Z`.
pub fn is_upper(byte: u8) -> bool
    ensures { result ≡ is_upper byte }
{
    byte >= b'A' && byte <= b'Z'
}

/// `0` to `7`.
pub fn is_octal(byte: u8) -> bool
    ensures { result ≡ is_octal byte }
{
    byte >= b'0' && byte <= b'7'
}

/// A letter, a digit, `_` or `@`: what words and variables have after their first byte.
pub fn is_name_byte(byte: u8) -> bool
    ensures { result ≡ is_name_byte byte }
{
    byte.is_ascii_alphanumeric() || byte == b'_' || byte == b'@'
}

/// 9 to 13, and the space.
pub fn is_blank(byte: u8) -> bool
    ensures { result ≡ is_blank byte }
{
    (byte >= 9 && byte <= 13) || byte == b' '
}

use type_kinds::{Atom, Bytes, Memory, Place};

/// What a token is, and the value that its spelling has.
#[derive(Debug, Drop)]
pub enum TokenKind {
    /// A reserved word.
    Word(Bytes),
    /// A variable's name.
    Variable(Atom),
    /// An integer, and whether it is written without a sign.
    Integer { value: i128, bare: bool },
    /// A float, as it is written.
    Float(Bytes),
    /// A character's byte.
    Char(u8),
    /// An atom, without its quotes and escapes.
    Atom(Atom),
    /// A string, without its quotes and escapes.
    Text(Bytes),
    /// A bracket, a comma and the like.
    Symbol(Bytes),
}

/// A token and its place.
#[derive(Debug, Drop)]
pub struct Token {
    /// What it is.
    pub kind: TokenKind,
    /// The place of its first byte.
    pub place: Place,
}

/// Why a text has no tokens.
#[derive(Clone, Copy, Debug, PartialEq, Eq)]
pub enum ScanFault {
    /// No token begins at this byte, or a lower-case word that isn't reserved does.
    BadByte(Place),
    /// The text ends inside the quotes that open here.
    OpenQuote(Place),
    /// The backslash here, inside quotes, begins no escape.
    BadEscape(Place),
    /// The integer that begins here has a magnitude of 2^127 or more.
    WideInteger(Place),
    /// Allocation failed. This says nothing of the text.
    Memory,
}

impl From<Memory> for ScanFault {
    ghost use Rattle.std.specs.Prelude.{◌≡◌};
    ghost use Rattle.core_scan.specs.declared.token.ScanFault.TheVariants as fault;

    ghost from_gives = { λ _ made. made ≡ fault.Memory };

    fn from(_: Memory) -> ScanFault {
        ScanFault::Memory
    }
}

// The sorts of tokens.
ghost use Rattle.std.specs.Prelude.{◌≡◌, ◌↔◌, IsTrue};
ghost use Rattle.core_scan.specs.Sorts.{fits, integer_sort, sort, text_sort};
ghost use Rattle.core_scan.specs.steps.Fronts.{is_known};

use crate::token::{Token, TokenKind};
use crate::vocabulary::{symbol_sort, word_sort};

/// The largest number of parameters that a function has.
pub const LARGEST_ARITY: u32 = 255;

/// What syntax asks of a token: which reserved word or symbol it is, or else its kind.
#[derive(Clone, Copy, Debug, PartialEq, Eq)]
pub enum Sort {
    After,
    Apply,
    Attributes,
    Call,
    Case,
    Catch,
    Do,
    End,
    Fun,
    In,
    Let,
    Letrec,
    Module,
    Of,
    Primop,
    Receive,
    Try,
    When,
    /// `(`
    OpenRound,
    /// `)`
    CloseRound,
    /// `{`
    OpenCurly,
    /// `}`
    CloseCurly,
    /// `[`
    OpenSquare,
    /// `]`
    CloseSquare,
    /// `<`
    Less,
    /// `>`
    Greater,
    /// `|`
    Bar,
    /// `,`
    Comma,
    /// `:`
    Colon,
    /// `/`
    Slash,
    /// `=`
    Equals,
    /// `->`
    Arrow,
    /// `-|`, before an annotation.
    Noted,
    /// `#{`
    OpenBinary,
    /// `}#`
    CloseBinary,
    /// `#<`
    OpenSegment,
    /// `~{`
    OpenMap,
    /// `}~`
    CloseMap,
    /// `=>`
    Assoc,
    /// `:=`
    Exact,
    Variable,
    /// An integer of digits alone that is at most 255: it may be an arity.
    Small,
    /// Any other integer.
    Integer,
    Float,
    Char,
    Atom,
    /// The string `""`.
    EmptyText,
    /// A string that has bytes.
    Text,
    /// A word or a symbol that the language doesn't have. No scanned token has this sort.
    Other,
}

/// The sort of a token. Takes no memory.
pub fn sort_of(token: &Token) -> Sort
    ensures { result ≡ sort token.now }
{
    match &token.kind {
        TokenKind::Word(word) => word_sort(word.as_slice()),
        TokenKind::Variable(_) => Sort::Variable,
        TokenKind::Integer { value, bare } => integer_sort(*value, *bare),
        TokenKind::Float(_) => Sort::Float,
        TokenKind::Char(_) => Sort::Char,
        TokenKind::Atom(_) => Sort::Atom,
        TokenKind::Text(text) => text_sort(text.as_slice()),
        TokenKind::Symbol(symbol) => symbol_sort(symbol.as_slice()),
    }
}

/// Whether a token of the sort `found` may be where one of the sort `wanted` is expected: the two
/// are equal, or an integer is expected and a small one found.
pub fn fits(wanted: Sort, found: Sort) -> bool
    ensures { result ≡ fits wanted found }
{
    same(wanted, found) || (wanted == Sort::Integer && found == Sort::Small)
}

/// Whether two sorts are equal.
pub fn same(one: Sort, other: Sort) -> bool
    ensures { IsTrue result ↔ (one ≡ other) }
{
    one == other
}

/// Whether tokens of the language have this sort: all but `Other`.
pub fn is_known(sort: Sort) -> bool
    ensures { result ≡ is_known sort }
{
    sort != Sort::Other
}

fn integer_sort(value: i128, bare: bool) -> Sort
    ensures { result ≡ integer_sort value bare }
{
    if bare && 0 <= value && value <= i128::from(LARGEST_ARITY) {
        Sort::Small
    } else {
        Sort::Integer
    }
}

fn text_sort(bytes: &[u8]) -> Sort
    ensures { result ≡ text_sort bytes.now }
{
    if bytes.is_empty() {
        Sort::EmptyText
    } else {
        Sort::Text
    }
}

ghost use Rattle.std.specs.Prelude.{◌≡◌, IfOk};
ghost use Rattle.core_parse_grammar.specs.Starters.{literal_of as literal_of_token};

use crate::leaves::{text_bytes, text_of, value_of};
use core_ast::Literal;
use core_scan::{Token, TokenKind};
use std::alloc::Global;
use type_kinds::{List, Memory};

/// The literal that a token is by itself: an integer, a character, a float, an atom, or else the empty list.
pub fn literal_of(alloc: Global, token: &Token) -> Result<Literal, Memory>
    ensures { IfOk result (λ made. made ≡ literal_of_token token.now) }
{
    match &token.kind {
        TokenKind::Integer { .. } | TokenKind::Char(_) => Ok(Literal::Int(value_of(token))),
        TokenKind::Float(_) => match List::from_slice(alloc, text_bytes(token)) {
            Ok(spelling) => Ok(Literal::Float(spelling)),
            Err(Memory) => Err(Memory),
        },
        TokenKind::Atom(_) => match text_of(alloc, token) {
            Ok(name) => Ok(Literal::Atom(name)),
            Err(Memory) => Err(Memory),
        },
        _ => Ok(Literal::Nil),
    }
}

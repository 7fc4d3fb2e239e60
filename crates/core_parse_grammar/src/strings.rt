ghost use Rattle.std.specs.Prelude.{◌≡◌, ◌+◌, ◌^◌, ◌<◌, ◌++◌, length, map, IfOk};
ghost use Rattle.core_ast.specs.Tree.{tree, pattern_tree};
ghost use Rattle.core_parse_grammar.specs.Build.{text};
ghost use Rattle.core_parse_grammar.specs.Strings.{labelled_bytes, labelled_byte_patterns};

use crate::leaves::{mark, text_bytes};
use core_ast::{Expr, Literal, Pattern, discard, discard_pattern};
use core_scan::Token;
use type_kinds::{List, Memory};

/// Adds a node for each byte of a string, with labels from `label` on, and answers the label that
/// follows the last.
pub fn push_bytes(items: &mut List<Expr>, token: &Token, label: u32) -> Result<u32, Memory>
    requires { label + length (text token.now) < 2 ^ 32 }
    ensures added { IfOk result (λ next. map tree items.new ≡ map tree items.old ++ labelled_bytes label token.now.place (text token.now)) }
    ensures next { IfOk result (λ next. next ≡ label + length (text token.now)) }
{
    let mut next = label;
    for byte in text_bytes(token) {
        let node = Expr::literal(mark(next, token.place), Literal::Int(i128::from(*byte)));
        match items.push(node) {
            Ok(()) => next += 1,
            Err((node, Memory)) => {
                discard(node);
                return Err(Memory);
            }
        }
    }
    Ok(next)
}

/// The same, in a pattern.
pub fn push_byte_patterns(
    items: &mut List<Pattern>,
    token: &Token,
    label: u32,
) -> Result<u32, Memory>
    requires { label + length (text token.now) < 2 ^ 32 }
    ensures added { IfOk result (λ next. map pattern_tree items.new
        ≡ map pattern_tree items.old ++ labelled_byte_patterns label token.now.place (text token.now)) }
    ensures next { IfOk result (λ next. next ≡ label + length (text token.now)) }
{
    let mut next = label;
    for byte in text_bytes(token) {
        let node = Pattern::literal(mark(next, token.place), Literal::Int(i128::from(*byte)));
        match items.push(node) {
            Ok(()) => next += 1,
            Err((node, Memory)) => {
                discard_pattern(node);
                return Err(Memory);
            }
        }
    }
    Ok(next)
}

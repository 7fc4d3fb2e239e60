// The tokens of a whole text.
ghost use Rattle.std.specs.Prelude.{◌≡◌, ◌≢◌, ◌^◌, ◌<◌, ◌≤◌, List, length, IfOk, IfErr, All};
ghost use Rattle.core_scan.specs.declared.token.Token.{Token};
ghost use Rattle.core_scan.specs.Bytes.{start};
ghost use Rattle.core_scan.specs.Spells.{IsToken};
ghost use Rattle.core_scan.specs.Lexed.{Lexed, FaultAt, FirstFault};
ghost use Rattle.core_scan.specs.steps.Found.{GoesOn, HasRoom};

use crate::classes::is_blank;
use crate::places::past;
use crate::runs::line_len;
use crate::shapes::one_token;
use crate::token::{ScanFault, Token};
use std::alloc::Global;
use type_kinds::{List, Place};

/// The tokens of a text, first to last, each with the place of its first byte; or the text's first
/// fault from the left, with its place. The text has its tokens or a fault by the definition alone
/// (Core Erlang 1.0.3 language specification, "Lexical definitions"); the answer `Memory` says
/// nothing of it. There are no more tokens than bytes. One pass over the text.
pub fn scan(alloc: Global, text: &[u8]) -> Result<List<Token>, ScanFault>
    requires { length text.now < 2 ^ 30 }
    ensures tokens { IfOk result (λ ts. Lexed start text.now ts) }
    ensures once { IfOk result (λ ts. (us : List Token) → Lexed start text.now us → us ≡ ts) }
    ensures kinds { IfOk result (λ ts. All (λ token. IsToken token.kind) ts) }
    ensures few { IfOk result (λ ts. length ts ≤ length text.now) }
    ensures fault { IfErr result (λ fault. fault ≢ ScanFault.Memory → FirstFault start text.now fault) }
    ensures refused { IfErr result (λ fault. fault ≢ ScanFault.Memory → (ts : List Token) → Lexed start text.now ts → ⊥) }
{
    let mut tokens = List::new(alloc);
    let mut place = Place { byte: 0, line: 1 };
    let mut rest = text;
    while !rest.is_empty() {
        let len = step(alloc, rest, place, &mut tokens)?;
        place = past(place, &rest[..len]);
        rest = &rest[len..];
    }
    Ok(tokens)
}

// Passes a blank or a comment, or adds the next token to the others. Gives how many bytes it takes.
fn step(
    alloc: Global,
    rest: &[u8],
    place: Place,
    tokens: &mut List<Token>,
) -> Result<usize, ScanFault>
    requires some { 0 < length rest.now }
    requires room { HasRoom place (length rest.now) }
    ensures ok { IfOk result (λ len. GoesOn place rest.now tokens.old tokens.new len) }
    ensures err { IfErr result (λ fault. fault ≢ ScanFault.Memory → FaultAt place rest.now fault) }
{
    let first = rest[0];
    if is_blank(first) {
        return Ok(1);
    }
    if first == b'%' {
        return Ok(1 + line_len(&rest[1..]));
    }
    let found = one_token(alloc, rest, place)?;
    let len = found.len;
    tokens.add(Token {
        kind: found.kind,
        place,
    })?;
    Ok(len)
}

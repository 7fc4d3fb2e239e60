// What is written between quotes.
ghost use Rattle.std.specs.Prelude.{◌≡◌, ◌≢◌, ◌≤◌, ◌<◌, [], ◌∷◌, length, take, drop, IfSome, IfNone, IfOk, IfErr};
ghost use Rattle.core_scan.specs.Escapes.{Inside};
ghost use Rattle.core_scan.specs.steps.Fronts.{IsStuck};

use crate::escapes::{Escaped, escape};
use crate::token::ScanFault;
use std::alloc::Global;
use type_kinds::{Bytes, List};

/// The bytes that are spelled between quotes, and how many bytes spell them.
#[derive(Debug, Drop)]
pub struct Unquoted {
    pub text: Bytes,
    pub len: usize,
}

/// Reads the bytes and escapes that follow an opening quote, up to the first of neither. The only
/// error is `Memory`.
pub fn read_unquoted(alloc: Global, quote: u8, rest: &[u8]) -> Result<Unquoted, ScanFault>
    requires { quote ≢ 92 }
    ensures within { IfOk result (λ found. found.len ≤ length rest.now) }
    ensures inside { IfOk result (λ found. Inside quote (take found.len rest.now) found.text (drop found.len rest.now)) }
    ensures stuck { IfOk result (λ found. IsStuck quote (drop found.len rest.now)) }
    ensures err { IfErr result (λ fault. fault ≡ ScanFault.Memory) }
{
    let mut text = List::new(alloc);
    let mut len = 0;
    while let Some(next) = next_unquoted(quote, &rest[len..]) {
        text.add(next.value)?;
        len += next.len;
    }
    Ok(Unquoted { text, len })
}

// The byte or the escape that comes next between quotes, if one does.
fn next_unquoted(quote: u8, rest: &[u8]) -> Option<Escaped>
    requires { quote ≢ 92 }
    ensures stuck { IfNone result (IsStuck quote rest.now) }
    ensures within { IfSome result (λ next. (0 < next.len) × (next.len ≤ length rest.now)) }
    ensures inside { IfSome result (λ next. Inside quote (take next.len rest.now) (next.value ∷ []) (drop next.len rest.now)) }
{
    let Some((first, after)) = rest.split_first() else {
        return None;
    };
    if *first == quote {
        return None;
    }
    if *first != b'\\' {
        return Some(Escaped {
            value: *first,
            len: 1,
        });
    }
    match escape(after) {
        Some(found) => Some(Escaped {
            value: found.value,
            len: 1 + found.len,
        }),
        None => None,
    }
}

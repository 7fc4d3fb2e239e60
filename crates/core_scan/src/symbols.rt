// Symbols of one and of two bytes.
ghost use Rattle.std.specs.Prelude.{◌≡◌, ◌≤◌, length};
ghost use Rattle.core_scan.specs.steps.Fronts.{symbol_len};

use crate::vocabulary::{is_pair, is_single};

/// How many bytes the longest symbol at the front has, and 0 if there is none.
pub fn symbol_len(rest: &[u8]) -> usize
    ensures front { result ≡ symbol_len rest.now }
    ensures within { result ≤ length rest.now }
{
    let Some((first, after)) = rest.split_first() else {
        return 0;
    };
    if let Some(second) = after.first() {
        if is_pair(*first, *second) {
            return 2;
        }
    }
    if is_single(*first) { 1 } else { 0 }
}

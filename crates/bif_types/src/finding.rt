ghost use Rattle.std.specs.Prelude.{◌≡◌, ◌++◌, map};
ghost use Rattle.bif_types.specs.Table.{of_one, conversions, type_tests, row_of, looked_up};

use crate::bif::Bif;
use crate::rows::{Row, conversions, of_one, of_three, of_two, type_tests, without_arguments};
use type_kinds::Atom;

/// The built-in function of the module `erlang` with this name and `arity` arguments, or `None` where
/// the table has none. Takes no memory.
pub fn lookup(name: &Atom, arity: u32) -> Option<Bif>
    ensures { result ≡ looked_up name.now arity }
{
    match arity {
        0 => named(&without_arguments(), name.bytes()),
        1 => of_one_argument(name.bytes()),
        2 => named(&of_two(), name.bytes()),
        3 => named(&of_three(), name.bytes()),
        _ => None,
    }
}

// The function of one argument with this name.
#[tactic(auto, using(crate::proofs::Walks::found_first, crate::proofs::Walks::found_second))]
fn of_one_argument(name: &[u8]) -> Option<Bif>
    ensures { result ≡ row_of (of_one ++ conversions ++ type_tests) name.now }
{
    match named(&of_one(), name) {
        Some(bif) => Some(bif),
        None => conversion_or_test(name),
    }
}

// The conversion or the test of a type with this name.
#[tactic(auto, using(crate::proofs::Walks::found_first, crate::proofs::Walks::found_second))]
fn conversion_or_test(name: &[u8]) -> Option<Bif>
    ensures { result ≡ row_of (conversions ++ type_tests) name.now }
{
    match named(&conversions(), name) {
        Some(bif) => Some(bif),
        None => named(&type_tests(), name),
    }
}

// The function of a name among rows.
fn named(rows: &[Row], name: &[u8]) -> Option<Bif>
    ensures { result ≡ row_of (map (λ r. record { name = r.name.now; bif = r.bif }) rows.now) name.now }
{
    for row in rows {
        if row.name == name {
            return Some(row.bif);
        }
    }
    None
}

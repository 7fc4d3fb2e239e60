//! Equality of what is known of functions: the same entries, in the same order.
ghost use Rattle.std.specs.Prelude.{◌≡◌, ◌↔◌, IsTrue, slice_get};
ghost use Rattle.cons_tree.specs.Codes.{tables_code};
ghost use Rattle.cons_tree.specs.SameBy.{same_by, same_by_equivalence, same_by_laws};

use super::{CalleeTable, Summaries};
use crate::equality::same_callee;
use core_ast::same_name;

// Whether two tables have the same entry at a position, or neither has one there.
fn same_entry(a: &CalleeTable, b: &CalleeTable, at: usize) -> bool
    ensures { IsTrue result ↔ (slice_get (a.now).0 at ≡ slice_get (b.now).0 at) }
{
    match (a.callees.get_index(at), b.callees.get_index(at)) {
        (Some((f, c)), Some((g, d))) => same_name(f, g) && same_callee(c, d),
        (None, None) => true,
        _ => false,
    }
}

// Whether two tables are the same.
fn same_table(a: &CalleeTable, b: &CalleeTable) -> bool
    ensures { IsTrue result ↔ (a.now ≡ b.now) }
{
    let count = a.callees.len().max(b.callees.len());
    for at in 0..count {
        if !same_entry(a, b, at) {
            return false;
        }
    }
    same_callee(&a.rest, &b.rest)
}

// Whether two summaries have the table of the same module at a position, or neither has one there.
fn same_home(a: &Summaries, b: &Summaries, at: usize) -> bool
    ensures { IsTrue result ↔ (slice_get a.now at ≡ slice_get b.now at) }
{
    match (a.tables.get_index(at), b.tables.get_index(at)) {
        (Some((home, table)), Some((other, others))) => home.is(other) && same_table(table, others),
        (None, None) => true,
        _ => false,
    }
}

// Whether what two of them know is the same.
fn same_summaries(a: &Summaries, b: &Summaries) -> bool
    ensures { IsTrue result ↔ (a.now ≡ b.now) }
{
    let count = a.tables.len().max(b.tables.len());
    for at in 0..count {
        if !same_home(a, b, at) {
            return false;
        }
    }
    true
}

impl PartialEq for Summaries {
    ghost eq = { same_by tables_code };

    ghost laws = { same_by_laws tables_code };

    fn eq(&self, other: &Summaries) -> bool {
        same_summaries(self, other)
    }
}

impl Eq for Summaries {
    ghost laws = { same_by_equivalence tables_code };
}

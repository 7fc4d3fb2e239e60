//! Whether two constraints are the same.
ghost use Rattle.std.specs.Prelude.{◌≡◌, ◌↔◌, IsTrue};

use cons_tree::{Constraint, Part, Sig, Slot, Transfer};
use type_lattice::{Ty, decision_laws};

// Whether two types are the same.
fn same_type(a: &Ty, b: &Ty) -> bool
    ensures { IsTrue result → a.now ≡ b.now }
{
    decision_laws();
    a == b
}

// Whether two lists of types are the same.
fn same_types(a: &[Ty], b: &[Ty]) -> bool
    ensures { IsTrue result → a.now ≡ b.now }
{
    if a.len() != b.len() {
        return false;
    }
    for at in 0..a.len() {
        if !same_type(&a[at], &b[at]) {
            return false;
        }
    }
    true
}

// Whether two lists of slots are the same.
fn same_slots(a: &[Slot], b: &[Slot]) -> bool
    ensures { IsTrue result → a.now ≡ b.now }
{
    if a.len() != b.len() {
        return false;
    }
    for at in 0..a.len() {
        if a[at] != b[at] {
            return false;
        }
    }
    true
}

// Whether two transfers are the same.
fn same_transfer(a: &Transfer, b: &Transfer) -> bool
    ensures { IsTrue result → a.now ≡ b.now }
{
    match (a, b) {
        (Transfer::Plain(s), Transfer::Plain(t)) => same_type(s.get(), t.get()),
        (Transfer::Test(s), Transfer::Test(t)) => same_type(s.get(), t.get()),
        (Transfer::TestSome(s), Transfer::TestSome(t)) => same_type(s.get(), t.get()),
        (Transfer::Arith, Transfer::Arith) => true,
        (Transfer::Abs, Transfer::Abs) => true,
        (Transfer::Head, Transfer::Head) => true,
        (Transfer::Tail, Transfer::Tail) => true,
        (Transfer::Element, Transfer::Element) => true,
        (Transfer::Same, Transfer::Same) => true,
        (Transfer::Differ, Transfer::Differ) => true,
        (Transfer::Never, Transfer::Never) => true,
        _ => false,
    }
}

// Whether two signatures are the same.
#[tactic(auto, using(cons_tree::specs::SameBy::same_by_equal))]
fn same_sig(a: &Sig, b: &Sig) -> bool
    ensures { IsTrue result → a.now ≡ b.now }
{
    a == b
}

// Whether the arguments of two calls of built-in functions, and their types, are the same.
fn same_arguments(xs: &[Slot], ts: &[Ty], ys: &[Slot], us: &[Ty]) -> bool
    ensures { IsTrue result → (xs.now ≡ ys.now) × (ts.now ≡ us.now) }
{
    same_slots(xs, ys) && same_types(ts, us)
}

// Whether two parts are the same.
fn same_part(a: &Part, b: &Part) -> bool
    ensures { IsTrue result → a.now ≡ b.now }
{
    match (a, b) {
        (Part::Bound(s, x), Part::Bound(t, y)) => *s == *t && same_type(x.get(), y.get()),
        (Part::Equal(s, x), Part::Equal(t, y)) => *s == *t && *x == *y,
        (Part::Tuple(s, xs), Part::Tuple(t, ys)) => {
            *s == *t && same_slots(xs.as_slice(), ys.as_slice())
        }
        (Part::Cons(s, x, xs), Part::Cons(t, y, ys)) => *s == *t && *x == *y && *xs == *ys,
        (Part::Builtin(s, xs, ts, f), Part::Builtin(t, ys, us, g)) => {
            *s == *t
                && same_arguments(xs.as_slice(), ts.as_slice(), ys.as_slice(), us.as_slice())
                && same_transfer(f, g)
        }
        (Part::Call(s, xs, f), Part::Call(t, ys, g)) => {
            *s == *t && same_slots(xs.as_slice(), ys.as_slice()) && same_sig(f.get(), g.get())
        }
        _ => false,
    }
}

/// Whether two constraints are the same. Takes no memory.
#[cycle(same)]
pub fn same_constraint(a: &Constraint, b: &Constraint) -> bool
    ensures { IsTrue result → a.now ≡ b.now }
{
    match (a, b) {
        (Constraint::Part(p), Constraint::Part(q)) => same_part(p, q),
        (Constraint::All(xs), Constraint::All(ys)) => all_same(xs.as_slice(), ys.as_slice()),
        (Constraint::Any(xs), Constraint::Any(ys)) => all_same(xs.as_slice(), ys.as_slice()),
        _ => false,
    }
}

// Whether two lists of constraints are the same.
#[cycle(same)]
fn all_same(a: &[Constraint], b: &[Constraint]) -> bool
    ensures { IsTrue result → a.now ≡ b.now }
{
    if a.len() != b.len() {
        return false;
    }
    for at in 0..a.len() {
        if !same_constraint(&a[at], &b[at]) {
            return false;
        }
    }
    true
}

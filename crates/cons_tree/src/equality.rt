//! Equality: `==` is true exactly where two values are the same.
ghost use Rattle.std.specs.Prelude.{◌≡◌, ◌↔◌, IsTrue};
ghost use Rattle.cons_tree.specs.SameBy.{same_by, same_by_equivalence, same_by_laws};
ghost use Rattle.cons_tree.specs.Codes.{callee_code, signature_code, summary_code};

use crate::parts::{Callee, Sig, Summary};
use type_lattice::{Ty, decision_laws};

// Whether two types are the same.
fn same_type(a: &Ty, b: &Ty) -> bool
    ensures { IsTrue result ↔ (a.now ≡ b.now) }
{
    decision_laws();
    a == b
}

// Whether two lists of types are the same.
fn same_types(a: &[Ty], b: &[Ty]) -> bool
    ensures { IsTrue result ↔ (a.now ≡ b.now) }
{
    if a.len() != b.len() {
        return false;
    }
    for i in 0..a.len() {
        if !same_type(&a[i], &b[i]) {
            return false;
        }
    }
    true
}

// Whether two signatures are the same.
#[tactic(auto, using(crate::proofs::Copied::same_signature))]
fn same_signature(a: &Sig, b: &Sig) -> bool
    ensures { IsTrue result ↔ (a.now ≡ b.now) }
{
    same_type(&a.result, &b.result) && same_types(a.args.as_slice(), b.args.as_slice())
}

/// Whether two summaries are the same.
pub fn same_summary(a: &Summary, b: &Summary) -> bool
    ensures { IsTrue result ↔ (a.now ≡ b.now) }
{
    same_signature(a.strict.get(), b.strict.get())
        && same_signature(a.lenient.get(), b.lenient.get())
}

/// Whether two callees are the same.
pub fn same_callee(a: &Callee, b: &Callee) -> bool
    ensures { IsTrue result ↔ (a.now ≡ b.now) }
{
    match (a, b) {
        (Callee::Known(s), Callee::Known(t)) => same_summary(s, t),
        (Callee::Local(s), Callee::Local(t)) => same_summary(s, t),
        (Callee::Undefined, Callee::Undefined) => true,
        (Callee::Unknown, Callee::Unknown) => true,
        _ => false,
    }
}

impl PartialEq for Sig {
    ghost eq = { same_by signature_code };

    ghost laws = { same_by_laws signature_code };

    fn eq(&self, other: &Sig) -> bool {
        same_signature(self, other)
    }
}

impl Eq for Sig {
    ghost laws = { same_by_equivalence signature_code };
}

impl PartialEq for Summary {
    ghost eq = { same_by summary_code };

    ghost laws = { same_by_laws summary_code };

    fn eq(&self, other: &Summary) -> bool {
        same_summary(self, other)
    }
}

impl Eq for Summary {
    ghost laws = { same_by_equivalence summary_code };
}

impl PartialEq for Callee {
    ghost eq = { same_by callee_code };

    ghost laws = { same_by_laws callee_code };

    fn eq(&self, other: &Callee) -> bool {
        same_callee(self, other)
    }
}

impl Eq for Callee {
    ghost laws = { same_by_equivalence callee_code };
}

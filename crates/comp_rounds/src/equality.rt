//! Equality: `==` is true exactly where two values are the same.
ghost use Rattle.std.specs.Prelude.{◌≡◌, ◌↔◌, IsTrue};
ghost use Rattle.cons_tree.specs.SameBy.{same_by, same_by_equivalence, same_by_laws};
ghost use Rattle.comp_rounds.specs.Codes.{output_code, part_code};

use crate::members::Member;
use crate::parts::{CompOut, CompPart, Listed};
use cons_tree::{Summaries, Summary};
use core_ast::{equal_definition, same_name};
use type_kinds::{List, Shared};

// Whether two members are the same.
#[tactic(auto, using(crate::proofs::SameMembers::same_member))]
fn same_member(a: &Member, b: &Member) -> bool
    ensures { IsTrue result ↔ (a.now ≡ b.now) }
{
    a.exported == b.exported && a.home.is(&b.home) && equal_definition(a.def.get(), b.def.get())
}

// Whether two lists of members are the same.
fn same_members(a: &[Member], b: &[Member]) -> bool
    ensures { IsTrue result ↔ (a.now ≡ b.now) }
{
    if a.len() != b.len() {
        return false;
    }
    for i in 0..a.len() {
        if !same_member(&a[i], &b[i]) {
            return false;
        }
    }
    true
}

// Whether two functions that are called are the same.
fn same_listed(a: &Listed, b: &Listed) -> bool
    ensures { IsTrue result ↔ (a.now ≡ b.now) }
{
    a.2 == b.2 && a.0.is(&b.0) && same_name(&a.1, &b.1)
}

// Whether two lists of functions that are called are the same.
fn same_list(a: &[Listed], b: &[Listed]) -> bool
    ensures { IsTrue result ↔ (a.now ≡ b.now) }
{
    if a.len() != b.len() {
        return false;
    }
    for i in 0..a.len() {
        if !same_listed(&a[i], &b[i]) {
            return false;
        }
    }
    true
}

// Whether two parts' lists of functions that are called are the same.
fn same_callees(a: &[Shared<List<Listed>>], b: &[Shared<List<Listed>>]) -> bool
    ensures { IsTrue result ↔ (a.now ≡ b.now) }
{
    if a.len() != b.len() {
        return false;
    }
    for i in 0..a.len() {
        if !same_list(a[i].get().as_slice(), b[i].get().as_slice()) {
            return false;
        }
    }
    true
}

// Whether what is known is the same.
#[tactic(auto, using(cons_tree::specs::SameBy::same_by_equal))]
fn same_fixed(a: &Summaries, b: &Summaries) -> bool
    ensures { IsTrue result ↔ (a.now ≡ b.now) }
{
    a == b
}

// Whether two summaries are the same.
#[tactic(auto, using(cons_tree::specs::SameBy::same_by_equal))]
fn same_summary(a: &Summary, b: &Summary) -> bool
    ensures { IsTrue result ↔ (a.now ≡ b.now) }
{
    a == b
}

// Whether two lists of summaries are the same.
fn same_summaries(a: &[Summary], b: &[Summary]) -> bool
    ensures { IsTrue result ↔ (a.now ≡ b.now) }
{
    if a.len() != b.len() {
        return false;
    }
    for i in 0..a.len() {
        if !same_summary(&a[i], &b[i]) {
            return false;
        }
    }
    true
}

// Whether two parts are the same.
fn same_part(a: &CompPart, b: &CompPart) -> bool
    ensures { IsTrue result ↔ (a.now ≡ b.now) }
{
    if !same_members(a.members.as_slice(), b.members.as_slice()) {
        return false;
    }
    same_fixed(&a.fixed, &b.fixed) && same_callees(a.callees.as_slice(), b.callees.as_slice())
}

// Whether two outputs are the same.
fn same_output(a: &CompOut, b: &CompOut) -> bool
    ensures { IsTrue result ↔ (a.now ≡ b.now) }
{
    same_summaries(a.summaries.as_slice(), b.summaries.as_slice())
}

impl PartialEq for CompPart {
    ghost eq = { same_by part_code };

    ghost laws = { same_by_laws part_code };

    fn eq(&self, other: &CompPart) -> bool {
        same_part(self, other)
    }
}

impl Eq for CompPart {
    ghost laws = { same_by_equivalence part_code };
}

impl PartialEq for CompOut {
    ghost eq = { same_by output_code };

    ghost laws = { same_by_laws output_code };

    fn eq(&self, other: &CompOut) -> bool {
        same_output(self, other)
    }
}

impl Eq for CompOut {
    ghost laws = { same_by_equivalence output_code };
}

// Whether two modules are the same apart from places, and whether two definitions are equal.
ghost use Rattle.std.specs.Prelude.{◌≡◌, ◌↔◌, IsTrue, map};
ghost use Rattle.core_ast.specs.Tree.{all_defs, module_tree};
ghost use Rattle.core_ast.specs.Compared.{compared_mark, compared_place, compared_variable};
ghost use Rattle.core_ast.specs.Same.{bare_defs, Same};

use crate::comparing_trees::same_definition;
use crate::syntax::{FunDef, FunName, Literal, Mark, Module, Note, VarName};
use type_kinds::{Place, Shared};

/// Whether two modules are equal apart from their places: in names, exports, definitions, forms,
/// labels and notes. Takes no memory.
pub fn same(a: &Module, b: &Module) -> bool
    ensures { IsTrue result ↔ Same (module_tree a.now) (module_tree b.now) }
{
    if !a.name.is(&b.name) {
        return false;
    }
    if !same_note(&a.note, &b.note) {
        return false;
    }
    same_names(a.exports.as_slice(), b.exports.as_slice())
        && same_definitions(a.defs.as_slice(), b.defs.as_slice())
}

/// Whether two definitions are the same value, with all their labels, places and notes. Takes no
/// memory.
pub fn equal_definition(a: &FunDef, b: &FunDef) -> bool
    ensures { IsTrue result ↔ (a.now ≡ b.now) }
{
    same_definition(true, a, b)
}

// Whether the definitions of two modules are the same apart from places.
fn same_definitions(a: &[Shared<FunDef>], b: &[Shared<FunDef>]) -> bool
    ensures { IsTrue result ↔ (bare_defs (all_defs a.now) ≡ bare_defs (all_defs b.now)) }
{
    if a.len() != b.len() {
        return false;
    }
    for i in 0..a.len() {
        if !same_definition(false, a[i].get(), b[i].get()) {
            return false;
        }
    }
    true
}

// Whether two lists of names are equal.
fn same_names(a: &[FunName], b: &[FunName]) -> bool
    ensures { IsTrue result ↔ (a.now ≡ b.now) }
{
    if a.len() != b.len() {
        return false;
    }
    for i in 0..a.len() {
        if !same_name(&a[i], &b[i]) {
            return false;
        }
    }
    true
}

/// Whether two names are equal.
pub fn same_name(a: &FunName, b: &FunName) -> bool
    ensures { IsTrue result ↔ (a.now ≡ b.now) }
{
    a.arity == b.arity && a.name.is(&b.name)
}

/// Whether two literals are equal.
pub fn same_literal(a: &Literal, b: &Literal) -> bool
    ensures { IsTrue result ↔ (a.now ≡ b.now) }
{
    match (a, b) {
        (Literal::Int(m), Literal::Int(n)) => *m == *n,
        (Literal::Float(x), Literal::Float(y)) => x.as_slice() == y.as_slice(),
        (Literal::Atom(x), Literal::Atom(y)) => x.is(y),
        (Literal::Nil, Literal::Nil) => true,
        _ => false,
    }
}

/// Whether two notes are equal.
pub fn same_note(a: &Note, b: &Note) -> bool
    ensures { IsTrue result ↔ (a.now ≡ b.now) }
{
    a.line == b.line && a.generated == b.generated
}

// Whether two places are equal, or aren't compared.
fn same_place(places: bool, a: &Place, b: &Place) -> bool
    ensures { IsTrue result ↔ (compared_place places a.now ≡ compared_place places b.now) }
{
    !places || (a.byte == b.byte && a.line == b.line)
}

/// Whether two marks are equal, apart from their places where those aren't compared.
pub fn same_mark(places: bool, a: &Mark, b: &Mark) -> bool
    ensures { IsTrue result ↔ (compared_mark places a.now ≡ compared_mark places b.now) }
{
    a.label == b.label && same_note(&a.note, &b.note) && same_place(places, &a.place, &b.place)
}

/// Whether two variables of lists are equal, apart from their places where those aren't compared.
pub fn same_variable(places: bool, a: &VarName, b: &VarName) -> bool
    ensures { IsTrue result ↔ (compared_variable places a.now ≡ compared_variable places b.now) }
{
    a.name.is(&b.name) && same_note(&a.note, &b.note) && same_place(places, &a.place, &b.place)
}

/// Whether two lists of variables are equal, apart from their places where those aren't compared.
pub fn same_variables(places: bool, a: &[VarName], b: &[VarName]) -> bool
    ensures { IsTrue result ↔ (map (compared_variable places) a.now ≡ map (compared_variable places) b.now) }
{
    if a.len() != b.len() {
        return false;
    }
    for i in 0..a.len() {
        if !same_variable(places, &a[i], &b[i]) {
            return false;
        }
    }
    true
}

// The rules of entries, tested.
ghost use Rattle.std.specs.Prelude.{◌≡◌, IsTrue};
ghost use Rattle.std.specs.List.{list_all};
ghost use Rattle.table_file.specs.Order.{rises, is_name_before, is_function_before, has_name};
ghost use Rattle.table_file.specs.Rules.{is_used_before, is_outside, is_export_before};

use crate::used::Used;
use cons_tree::Summary;
use core_ast::FunName;
use std::cmp::Ordering;
use type_kinds::Atom;

/// Whether names rise.
pub fn names_rise(names: &[Atom]) -> bool
    ensures { result ≡ rises is_name_before names.now }
{
    let Some((first, later)) = names.split_first() else {
        return true;
    };
    let mut last = first;
    for name in later {
        if !comes_first(last, name) {
            return false;
        }
        last = name;
    }
    true
}

/// Whether used functions rise.
pub fn used_rise(used: &[Used]) -> bool
    ensures { result ≡ rises is_used_before used.now }
{
    let Some((first, later)) = used.split_first() else {
        return true;
    };
    let mut last = first;
    for one in later {
        if !is_used_earlier(last, one) {
            return false;
        }
        last = one;
    }
    true
}

/// Whether exports rise.
pub fn exports_rise(exports: &[(FunName, Summary)]) -> bool
    ensures { result ≡ rises is_export_before exports.now }
{
    let Some((first, later)) = exports.split_first() else {
        return true;
    };
    let mut last = first;
    for export in later {
        if !is_earlier(&last.0, &export.0) {
            return false;
        }
        last = export;
    }
    true
}

/// Whether the first name stands before the second.
pub fn comes_first(a: &Atom, b: &Atom) -> bool
    ensures { result ≡ is_name_before a.now b.now }
{
    a.cmp(b).is_lt()
}

// Whether the first function stands before the second.
fn is_earlier(f: &FunName, g: &FunName) -> bool
    ensures { result ≡ is_function_before f.now g.now }
{
    match f.name.cmp(&g.name) {
        Ordering::Less => true,
        Ordering::Equal => f.arity < g.arity,
        Ordering::Greater => false,
    }
}

// Whether the first used function stands before the second.
fn is_used_earlier(u: &Used, v: &Used) -> bool
    ensures { result ≡ is_used_before u.now v.now }
{
    match u.home.cmp(&v.home) {
        Ordering::Less => true,
        Ordering::Equal => is_earlier(&u.name, &v.name),
        Ordering::Greater => false,
    }
}

/// Whether the name is one of names that rise.
pub fn holds_name(names: &[Atom], name: &Atom) -> bool
    requires { IsTrue (rises is_name_before names.now) }
    ensures { result ≡ has_name names.now name.now }
{
    names.binary_search(name).is_ok()
}

/// Whether the modules of used functions are among those that are called, and outside the group.
pub fn used_outside(group: &[Atom], calls: &[Atom], used: &[Used]) -> bool
    requires group { IsTrue (rises is_name_before group.now) }
    requires calls { IsTrue (rises is_name_before calls.now) }
    ensures { result ≡ list_all (is_outside group.now calls.now) used.now }
{
    for one in used {
        if !lies_outside(group, calls, one) {
            return false;
        }
    }
    true
}

// Whether the module is among those that are called, and outside the group.
fn lies_outside(group: &[Atom], calls: &[Atom], used: &Used) -> bool
    requires group { IsTrue (rises is_name_before group.now) }
    requires calls { IsTrue (rises is_name_before calls.now) }
    ensures { result ≡ is_outside group.now calls.now used.now }
{
    holds_name(calls, &used.home) && !holds_name(group, &used.home)
}

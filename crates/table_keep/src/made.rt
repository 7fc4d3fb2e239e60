//! The entry that is made of a module that was solved.
ghost use Rattle.std.specs.Prelude.{◌≡◌, ◌<◌, true, length, map, IsTrue, IfOk, Contains};
ghost use Rattle.std.specs.List.{list_all};
ghost use Rattle.call_graph.specs.Outside.{Called};
ghost use Rattle.core_ast.specs.declared.syntax.FunName.{FunName};
ghost use Rattle.core_ast.specs.Tree.{module_tree};
ghost use Rattle.core_scope.specs.Checked.{tree_of};
ghost use Rattle.cons_tree.specs.Callees.{as_called, found};
ghost use Rattle.cons_tree.specs.declared.parts.Callee.TheVariants.{Known};
ghost use Rattle.table_file.specs.Order.{rises, is_name_before};
ghost use Rattle.table_file.specs.Rules.{is_export};
ghost use Rattle.table_keep.specs.Groups.{has};
ghost use Rattle.table_keep.specs.Made.{made, exported, used_of, AreSummarized, IsKnown};
ghost use Rattle.table_keep.specs.Model.{entry_so, source_so, used_so};

use crate::calls::{called_functions, called_modules};
use crate::members::is_member;
use crate::rising::once_each;
use crate::source::Source;
use call_graph::OutsideCall;
use cons_tree::{Callee, Summaries, Summary};
use core_ast::{FunName, Module};
use core_scope::checked_laws;
use std::alloc::Global;
use table_file::{Digest, Entry, Used};
use type_kinds::{Atom, Bytes, List, Memory};

/// The entry of a module, where these modules are its group, this is known of functions, and its report has these lines:
/// what it exports, and what stands of the functions that it calls outside of the group. `Memory`: allocation failed, or a call
/// has 2^32 arguments or more.
pub fn entry_from(
    alloc: Global,
    source: &Source,
    group: &[Atom],
    known: &Summaries,
    lines: Bytes,
) -> Result<Entry, Memory>
    requires rising { IsTrue (rises is_name_before group.now) }
    requires own { has group.now (tree_of source.now.checked).name ≡ true }
    requires known { (f : FunName) → Contains (tree_of source.now.checked).exports f → IsKnown (found known.now (tree_of source.now.checked).name f) }
    ensures made { IfOk result (λ entry. entry_so entry
        ≡ made (source_so source.now) group.now (λ h f. as_called (found known.now h f)) (entry_so entry).result) }
    ensures exports { IfOk result (λ entry. AreSummarized (found known.now) (tree_of source.now.checked).name
        (exported (tree_of source.now.checked)) entry.exports) }
    ensures lines { IfOk result (λ entry. entry.lines ≡ lines) }
{
    checked_laws();
    let digest = same_digest(source.digest);
    let module = source.checked.module();
    let called = called_functions(alloc, &source.checked)?;
    let calls = called_modules(alloc, called.as_slice())?;
    let used = used_from(alloc, called, group, known)?;
    let exports = exports_from(alloc, module, known)?;
    let name = module.name.copy(alloc)?;
    let group = copy_names(alloc, group)?;
    Ok(Entry {
        name,
        digest,
        group,
        calls,
        used,
        exports,
        lines,
    })
}

// A digest has 32 bytes.
fn same_digest(digest: Digest) -> Digest
    ensures same { result ≡ digest }
    ensures whole { length result.0 ≡ 32 }
{
    digest
}

// The same names.
fn copy_names(alloc: Global, names: &[Atom]) -> Result<List<Atom>, Memory>
    ensures { IfOk result (λ copies. copies ≡ names.now) }
{
    let mut copies = List::new(alloc);
    for name in names {
        copies.add(name.copy(alloc)?)?;
    }
    Ok(copies)
}

// The called functions outside of the group, with what stands of them.
fn used_from(
    alloc: Global,
    called: List<OutsideCall>,
    group: &[Atom],
    known: &Summaries,
) -> Result<List<Used>, Memory>
    requires { IsTrue (rises is_name_before group.now) }
    ensures { IfOk result (λ used. map used_so used ≡ used_of group.now (λ h f. as_called (found known.now h f)) called) }
{
    let mut used = List::new(alloc);
    for call in called.into_vec() {
        if !is_member(group, &call.0) {
            used.add(used_now(alloc, call, known)?)?;
        }
    }
    Ok(used)
}

// A called function with what stands of it.
fn used_now(alloc: Global, call: OutsideCall, known: &Summaries) -> Result<Used, Memory>
    ensures { IfOk result (λ used. used_so used ≡ (call, as_called (found known.now call.0 call.1))) }
{
    let (home, name) = call;
    let callee = seen_outside(alloc, known.find(&home, &name))?;
    Ok(Used { home, name, callee })
}

// What another module can tell of a function.
fn seen_outside(alloc: Global, callee: &Callee) -> Result<Callee, Memory>
    ensures { IfOk result (λ seen. seen ≡ as_called callee.now) }
{
    match callee {
        Callee::Known(summary) => Ok(Callee::Known(summary.copy(alloc)?)),
        Callee::Local(_) | Callee::Undefined => Ok(Callee::Undefined),
        Callee::Unknown => Ok(Callee::Unknown),
    }
}

// What a module exports, each function once, rising, with its summary.
fn exports_from(
    alloc: Global,
    module: &Module,
    known: &Summaries,
) -> Result<List<(FunName, Summary)>, Memory>
    requires small { (f : FunName) → Contains module.now.exports f → f.arity < 256 }
    requires known { (f : FunName) → Contains module.now.exports f → IsKnown (found known.now module.now.name f) }
    ensures summarized { IfOk result (λ exports. AreSummarized (found known.now) module.now.name (exported (module_tree module.now)) exports) }
    ensures fit { IfOk result (λ exports. IsTrue (list_all is_export exports)) }
{
    let names = copy_functions(alloc, module.exports.as_slice())?;
    let names = once_each(alloc, names)?;
    let mut exports = List::new(alloc);
    for name in names.into_vec() {
        let summary = known_summary(alloc, known.find(&module.name, &name))?;
        exports.add((name, summary))?;
    }
    Ok(exports)
}

// The same functions.
fn copy_functions(alloc: Global, names: &[FunName]) -> Result<List<FunName>, Memory>
    ensures { IfOk result (λ copies. copies ≡ names.now) }
{
    let mut copies = List::new(alloc);
    for name in names {
        copies.add(name.copy(alloc)?)?;
    }
    Ok(copies)
}

// The summary of a known function.
fn known_summary(alloc: Global, callee: &Callee) -> Result<Summary, Memory>
    requires { IsKnown callee.now }
    ensures { IfOk result (λ summary. callee.now ≡ Known summary) }
{
    match callee {
        Callee::Known(summary) => summary.copy(alloc),
        _ => unreachable!(),
    }
}

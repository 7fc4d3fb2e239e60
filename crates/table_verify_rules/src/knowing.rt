//! What is known by a certificate.
ghost use Rattle.std.specs.Prelude.{◌≡◌, ◌<◌, ℕ, length, map, slice_get, IfOk, IsTrue, OnOk, Some};
ghost use Rattle.type_kinds.specs.declared.atom.Atom.{Atom as TheAtom};
ghost use Rattle.core_ast.specs.declared.syntax.FunName.{FunName as TheName};
ghost use Rattle.core_scope.specs.Checked.{module_of, tree_of};
ghost use Rattle.core_scope.specs.Names.{has_function};
ghost use Rattle.core_scope.specs.Sets.{StandsEarlier};
ghost use Rattle.cons_tree.specs.Callees.{found};
ghost use Rattle.cons_tree.specs.declared.parts.Callee.TheVariants.{Unknown};
ghost use Rattle.cons_tree.specs.declared.parts.Summary.{Summary as TheSummary};
ghost use Rattle.comp_rounds.specs.Rounds.{standing, with_callee};
ghost use Rattle.table_file.specs.Order.{rises, is_name_before};
ghost use Rattle.table_keep.specs.Model.{entries_so, entry_of, source_so, sources_so};
ghost use Rattle.table_verify_laws.specs.Lined.{entry_names};
ghost use Rattle.table_verify_laws.specs.Listed.{known_by};
ghost use Rattle.table_verify_rules.specs.steps.Knowing.{with_entry_of, with_listed};

use crate::names::position;
use analysis_summaries::close_modules;
use cons_tree::{Callee, Summaries, Summary};
use core_ast::FunName;
use core_scope::Names;
use std::alloc::Global;
use table_file::{Entry, Table};
use table_keep::Source;
use type_kinds::{Atom, Memory};

/// What is known by a certificate of sources: the functions that it lists, each by its summary; every other name of one of the modules is
/// undefined, and of other modules nothing is known. Here `names` are the names of the certificate's entries. `Memory` if allocation fails.
pub fn known_by(
    alloc: Global,
    cert: &Table,
    sources: &[Source],
    names: &[Atom],
) -> Result<Summaries, Memory>
    requires distinct { (j : ℕ) → j < length sources.now → StandsEarlier (map (λ s. (module_of s.checked).name) sources.now) j → ⊥ }
    requires rising { IsTrue (rises is_name_before names.now) }
    requires cert { entry_names (entries_so cert.now) ≡ names.now }
    ensures { IfOk result (λ known. found known ≡ known_by (entries_so cert.now) (sources_so sources.now)) }
{
    let mut known = Summaries::new(alloc);
    match enter_all(alloc, cert, sources, names, &mut known) {
        Ok(()) => Ok(known),
        Err(Memory) => {
            drop(known);
            Err(Memory)
        }
    }
}

// The same, where nothing is known before.
fn enter_all(
    alloc: Global,
    cert: &Table,
    sources: &[Source],
    names: &[Atom],
    known: &mut Summaries,
) -> Result<(), Memory>
    requires distinct { (j : ℕ) → j < length sources.now → StandsEarlier (map (λ s. (module_of s.checked).name) sources.now) j → ⊥ }
    requires rising { IsTrue (rises is_name_before names.now) }
    requires cert { entry_names (entries_so cert.now) ≡ names.now }
    requires unknown { (h : TheAtom) (f : TheName) → found known.old h f ≡ Unknown }
    ensures { OnOk result (found known.new ≡ known_by (entries_so cert.now) (sources_so sources.now)) }
{
    close_modules(sources, known)?;
    for source in sources {
        enter_module(alloc, cert, source, names, known)?;
    }
    Ok(())
}

// The functions that the certificate's entry of a module lists, if there is one, are known from now on.
fn enter_module(
    alloc: Global,
    cert: &Table,
    source: &Source,
    names: &[Atom],
    known: &mut Summaries,
) -> Result<(), Memory>
    requires rising { IsTrue (rises is_name_before names.now) }
    requires cert { entry_names (entries_so cert.now) ≡ names.now }
    ensures { OnOk result (found known.new ≡ with_entry_of (source_so source.now) (entry_of (entries_so cert.now) (source_so source.now).tree.name)
        (found known.old)) }
{
    match position(names, &source.checked.module().name) {
        Some(at) => enter_entry(alloc, cert.entries.at(at), source, known),
        None => Ok(()),
    }
}

// The functions that an entry of this module lists are known from now on.
fn enter_entry(
    alloc: Global,
    entry: &Entry,
    source: &Source,
    known: &mut Summaries,
) -> Result<(), Memory>
    ensures { OnOk result (found known.new ≡ with_listed (tree_of source.now.checked).name (tree_of source.now.checked).exports entry.now.exports
        (found known.old)) }
{
    let module = source.checked.module();
    let exports = names_of(alloc, module.exports.as_slice())?;
    let mut at = entry.exports.len();
    while at > 0 {
        at -= 1;
        enter_at(alloc, entry, at, &module.name, &exports, known)?;
    }
    Ok(())
}

// The function that an entry lists at a position is known from now on.
fn enter_at(
    alloc: Global,
    entry: &Entry,
    at: usize,
    home: &Atom,
    exports: &Names<FunName>,
    known: &mut Summaries,
) -> Result<(), Memory>
    requires { at < length entry.now.exports }
    ensures { OnOk result ((x : TheName × TheSummary) → slice_get entry.now.exports at ≡ Some x
        → found known.new ≡ with_callee (found known.old) home.now x.0 (standing (has_function exports.now x.0) x.1)) }
{
    let listed = entry.exports.at(at);
    let callee = callee_of(alloc, exports.has(&listed.0), &listed.1)?;
    known.set(home, &listed.0, callee)
}

// A function with this summary, to others.
fn callee_of(alloc: Global, exported: bool, summary: &Summary) -> Result<Callee, Memory>
    ensures { IfOk result (λ callee. callee ≡ standing exported summary.now) }
{
    let summary = summary.copy(alloc)?;
    if exported {
        Ok(Callee::Known(summary))
    } else {
        Ok(Callee::Local(summary))
    }
}

/// Names of functions, to be found among.
pub fn names_of(alloc: Global, functions: &[FunName]) -> Result<Names<FunName>, Memory>
    ensures { IfOk result (λ names. names ≡ functions.now) }
{
    let mut names = Names::new(alloc);
    for name in functions {
        names.push(name)?;
    }
    Ok(names)
}

//! The certificate of modules: the table of their analysis, with all functions of each module.
ghost use Rattle.std.specs.Prelude.{◌≡◌, ℕ, ◌<◌, ◌≤◌, ◌^◌, List as ListOf, [], true, length};
ghost use Rattle.std.specs.Prelude.{map, slice_get, Some, Contains, IfOk, IfErr, OnOk, IsTrue};
ghost use Rattle.std.specs.List.{list_all};
ghost use Rattle.type_kinds.specs.declared.atom.Atom.{Atom as AtomName};
ghost use Rattle.core_ast.specs.Tree.{all_defs, module_tree};
ghost use Rattle.core_ast.specs.declared.syntax.FunName.{FunName as TheName};
ghost use Rattle.core_scope.specs.Checked.{module_of, tree_of};
ghost use Rattle.core_scope.specs.Names.{defined_names};
ghost use Rattle.core_scope.specs.Sets.{StandsEarlier};
ghost use Rattle.cons_tree.specs.Callees.{found};
ghost use Rattle.cons_tree.specs.declared.parts.Callee.TheVariants.{Unknown};
ghost use Rattle.sound_laws_kept.specs.Solving.{IsWritten};
ghost use Rattle.table_file.specs.Order.{rises};
ghost use Rattle.table_file.specs.Rules.{is_export_before, is_export};
ghost use Rattle.table_keep.specs.Model.{entries_so, entry_so, source_of, source_so, sources_so, is_in, Entry as TheEntry, Source as TheSource};
ghost use Rattle.table_verify_laws.specs.Certificates.{AreListed, EachListsAll, IsCertificate, ListsAll};
ghost use Rattle.table_verify_laws.specs.Listed.{defined};
ghost use Rattle.analysis_typings.specs.Typings.{HasSummary};
ghost use Rattle.analysis.specs.Reports.{IsSetFault};

use crate::analysing::{Analysis, Fault, analyse};
use analysis_crew::solve_modules_parallel;
use analysis_typings::{small_definitions, summary_in};
use cons_tree::{Summaries, Summary};
use core_ast::{FunDef, FunName, Module};
use core_scope::{Names, checked_laws};
use da_shelf::Gate;
use sound_laws_outside::solved_is_known;
use std::alloc::Global;
use std::sync::Wait;
use std::thread::Threads;
use table_file::{Entry, Table};
use table_keep::{Source, once_each};
use type_kinds::{Atom, List, Memory, Shared};

/// The certificate of modules: the table that `analyse` writes of them from the empty table, in which each entry lists all functions that
/// its module defines, by name and arity, in place of those that it exports. The functions are solved by `workers` workers, of which the
/// caller is one. The answer is a function of the modules. Each component is solved between `enter` and `leave` of the gate. The call may
/// wait for workers.
///
/// `Set`: two modules have the same name.
pub fn whole<R: Threads + Wait + Sync, G: Gate + Sync>(
    rt: &R,
    alloc: Global,
    sources: &[Source],
    workers: u32,
    gate: &G,
) -> Result<Table, Fault>
    requires few { length sources.now < 2 ^ 32 }
    requires least { 1 ≤ workers }
    requires most { workers ≤ 64 }
    ensures distinct { OnOk result ((j : ℕ) → j < length sources.now → StandsEarlier (map (λ s. (module_of s.checked).name) sources.now) j → ⊥) }
    ensures certificate { IfOk result (λ table. IsCertificate (sources_so sources.now) (entries_so table)) }
    ensures set { IfErr result (IsSetFault (map (λ s. (module_of s.checked).name) sources.now)) }
{
    let nothing = Table::empty(alloc);
    let Analysis { table, .. } = analyse(rt, alloc, sources, &nothing, workers, gate)?;
    match certificate_of(rt, alloc, sources, table, workers, gate) {
        Ok(certificate) => Ok(certificate),
        Err(Memory) => Err(Fault::Memory),
    }
}

// The certificate of modules with distinct names, of which this is the table.
fn certificate_of<R: Threads + Wait + Sync, G: Gate + Sync>(
    rt: &R,
    alloc: Global,
    sources: &[Source],
    table: Table,
    workers: u32,
    gate: &G,
) -> Result<Table, Memory>
    requires least { 1 ≤ workers }
    requires most { workers ≤ 64 }
    requires distinct { (j : ℕ) → j < length sources.now → StandsEarlier (map (λ s. (module_of s.checked).name) sources.now) j → ⊥ }
    requires written { (reports : ListOf (ListOf ℕ)) × IsWritten [] (sources_so sources.now) reports (entries_so table) }
    ensures { IfOk result (λ certificate. IsCertificate (sources_so sources.now) (entries_so certificate)) }
{
    let mut known = Summaries::new(alloc);
    let certificate = certified(rt, alloc, sources, table, &mut known, workers, gate);
    discard_known(known);
    certificate
}

// Drops what is known.
fn discard_known(_known: Summaries) {}

// The same, where nothing is known of other modules. Behind it, or where allocation failed, what is known is of no use.
fn certified<R: Threads + Wait + Sync, G: Gate + Sync>(
    rt: &R,
    alloc: Global,
    sources: &[Source],
    table: Table,
    known: &mut Summaries,
    workers: u32,
    gate: &G,
) -> Result<Table, Memory>
    requires least { 1 ≤ workers }
    requires most { workers ≤ 64 }
    requires distinct { (j : ℕ) → j < length sources.now → StandsEarlier (map (λ s. (module_of s.checked).name) sources.now) j → ⊥ }
    requires written { (reports : ListOf (ListOf ℕ)) × IsWritten [] (sources_so sources.now) reports (entries_so table) }
    requires nothing { (h : AtomName) (f : TheName) → found known.old h f ≡ Unknown }
    ensures { IfOk result (λ certificate. IsCertificate (sources_so sources.now) (entries_so certificate)) }
{
    solve_modules_parallel(rt, alloc, sources, known, workers, gate)?;
    list_all(alloc, sources, table, known)
}

// The table with all functions of each module.
fn list_all(
    alloc: Global,
    sources: &[Source],
    table: Table,
    known: &Summaries,
) -> Result<Table, Memory>
    requires distinct { (j : ℕ) → j < length sources.now → StandsEarlier (map (λ s. (module_of s.checked).name) sources.now) j → ⊥ }
    requires there { (e : TheEntry) → Contains (entries_so table) e → is_in (sources_so sources.now) e.name ≡ true }
    requires known { (s : TheSource) → Contains (sources_so sources.now) s → (f : TheName) → Contains (defined_names s.tree.defs) f
        → HasSummary (found known.now s.tree.name f) }
    ensures { IfOk result (λ certificate. EachListsAll (found known.now) (sources_so sources.now) (entries_so table) (entries_so certificate)) }
{
    let names = names_of(alloc, sources)?;
    let Table { entries } = table;
    let mut listed = List::new(alloc);
    for entry in entries.into_vec() {
        listed.add(list_in(alloc, sources, &names, entry, known)?)?;
    }
    Ok(Table { entries: listed })
}

// The names of modules, to be found among.
fn names_of(alloc: Global, sources: &[Source]) -> Result<Names<Atom>, Memory>
    ensures { IfOk result (λ names. names ≡ map (λ s. (module_of s.checked).name) sources.now) }
{
    let mut names = Names::new(alloc);
    for source in sources {
        names.push(&source.checked.module().name)?;
    }
    Ok(names)
}

// The entry with all functions of its module, which is one of these.
fn list_in(
    alloc: Global,
    sources: &[Source],
    names: &Names<Atom>,
    entry: Entry,
    known: &Summaries,
) -> Result<Entry, Memory>
    requires distinct { (j : ℕ) → j < length sources.now → StandsEarlier (map (λ s. (module_of s.checked).name) sources.now) j → ⊥ }
    requires names { names.now ≡ map (λ s. (module_of s.checked).name) sources.now }
    requires there { is_in (sources_so sources.now) entry.name ≡ true }
    requires known { (s : TheSource) → Contains (sources_so sources.now) s → (f : TheName) → Contains (defined_names s.tree.defs) f
        → HasSummary (found known.now s.tree.name f) }
    ensures { IfOk result (λ listed. ListsAll (found known.now) (sources_so sources.now) (entry_so entry) (entry_so listed)) }
{
    let source = &sources[place_in(sources, names, &entry.name)];
    let functions = functions_of(alloc, source, known)?;
    Ok(with_functions(entry, functions))
}

// Where the module of a name stands among modules, one of which has it.
fn place_in(sources: &[Source], names: &Names<Atom>, name: &Atom) -> usize
    requires distinct { (j : ℕ) → j < length sources.now → StandsEarlier (map (λ s. (module_of s.checked).name) sources.now) j → ⊥ }
    requires names { names.now ≡ map (λ s. (module_of s.checked).name) sources.now }
    requires there { is_in (sources_so sources.now) name.now ≡ true }
    ensures within { result < length sources.now }
    ensures there { slice_get (sources_so sources.now) result ≡ source_of (sources_so sources.now) name.now }
{
    match names.place_of(name) {
        Some(place) => place,
        None => unreachable!(),
    }
}

// What a module defines, each function once, rising, with its summary.
fn functions_of(
    alloc: Global,
    source: &Source,
    known: &Summaries,
) -> Result<List<(FunName, Summary)>, Memory>
    requires { (f : TheName) → Contains (defined_names (tree_of source.now.checked).defs) f
        → HasSummary (found known.now (tree_of source.now.checked).name f) }
    ensures listed { IfOk result (λ functions. AreListed (found known.now) (tree_of source.now.checked).name
        (defined (tree_of source.now.checked)) functions) }
    ensures fit { IfOk result (λ functions. IsTrue (list_all is_export functions)) }
{
    checked_laws();
    small_definitions();
    defined_in(alloc, source.checked.module(), known)
}

// The same of a module whose functions have at most 255 arguments.
fn defined_in(
    alloc: Global,
    module: &Module,
    known: &Summaries,
) -> Result<List<(FunName, Summary)>, Memory>
    requires small { (f : TheName) → Contains (defined_names (all_defs module.now.defs)) f → f.arity < 256 }
    requires known { (f : TheName) → Contains (defined_names (all_defs module.now.defs)) f → HasSummary (found known.now module.now.name f) }
    ensures listed { IfOk result (λ functions. AreListed (found known.now) module.now.name (defined (module_tree module.now)) functions) }
    ensures fit { IfOk result (λ functions. IsTrue (list_all is_export functions)) }
{
    let names = once_each(alloc, function_names(alloc, module.defs.as_slice())?)?;
    let mut functions = List::new(alloc);
    for name in names.into_vec() {
        let summary = summary_in(alloc, known.find(&module.name, &name))?;
        functions.add((name, summary))?;
    }
    Ok(functions)
}

// The names of definitions.
fn function_names(alloc: Global, defs: &[Shared<FunDef>]) -> Result<List<FunName>, Memory>
    ensures { IfOk result (λ names. names ≡ map (λ d. d.name) defs.now) }
{
    let mut names = List::new(alloc);
    for def in defs {
        names.add(def.get().name.copy(alloc)?)?;
    }
    Ok(names)
}

// The entry with these functions in place of those that it has.
fn with_functions(entry: Entry, functions: List<(FunName, Summary)>) -> Entry
    requires rising { IsTrue (rises is_export_before functions) }
    requires fit { IsTrue (list_all is_export functions) }
    ensures { entry_so result ≡ record (entry_so entry) { result = record { exports = functions; lines = entry.lines } } }
{
    let Entry {
        name,
        digest,
        group,
        calls,
        used,
        exports,
        lines,
    } = entry;
    discard(exports);
    Entry {
        name,
        digest,
        group,
        calls,
        used,
        exports: functions,
        lines,
    }
}

// Drops functions.
fn discard(_functions: List<(FunName, Summary)>) {}

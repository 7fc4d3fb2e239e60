//! The rules that the entries have the digests of their sources, and list their functions.
ghost use Rattle.std.specs.Prelude.{◌≡◌, ◌↔◌, ◌<◌, ℕ, List as ListOf, length, filter, map, slice_get, IfOk, IsTrue, Some};
ghost use Rattle.core_scope.specs.Checked.{module_of};
ghost use Rattle.core_scope.specs.Names.{has_function};
ghost use Rattle.core_scope.specs.Sets.{StandsEarlier};
ghost use Rattle.table_file.specs.Order.{rises, is_name_before};
ghost use Rattle.table_keep.specs.Model.{entries_so, entry_so, source_of, source_so, sources_so, Source as TheSource};
ghost use Rattle.table_verify_laws.specs.Lined.{entry_names};
ghost use Rattle.table_verify_laws.specs.Rules.{ListsFunctions};
ghost use Rattle.table_verify_rules.specs.steps.Asked.{Asked, HaveDigest, KeepsAsked};
ghost use Rattle.table_verify_rules.specs.steps.Leasts.{IsLeastBreaking};
ghost use Rattle.table_verify_rules.specs.steps.Listing.{ListsDefined};

use crate::knowing::names_of;
use crate::least::lesser_unless;
use crate::names::position;
use cons_tree::Summary;
use core_ast::{FunDef, FunName};
use core_scope::Names;
use std::alloc::Global;
use table_file::{Entry, Table};
use table_keep::Source;
use table_verify_laws::counting_tells;
use type_kinds::{Atom, Memory, Shared};

/// A rule on the entries of a module: that they have the digest of its source, or that they list its functions.
#[derive(Clone, Copy)]
pub enum EntryRule {
    SameSource,
    SameFunctions,
}

/// The least name of a module that breaks the rule. Here `names` are the names of the entries of the table, and of the certificate.
/// `Memory` if allocation fails.
pub fn least_breaking(
    alloc: Global,
    rule: EntryRule,
    table: &Table,
    cert: &Table,
    sources: &[Source],
    names: &[Atom],
) -> Result<Option<Atom>, Memory>
    requires distinct { (j : ℕ) → j < length sources.now → StandsEarlier (map (λ s. (module_of s.checked).name) sources.now) j → ⊥ }
    requires rising { IsTrue (rises is_name_before names.now) }
    requires table { entry_names (entries_so table.now) ≡ names.now }
    requires cert { entry_names (entries_so cert.now) ≡ names.now }
    ensures { IfOk result (λ least. IsLeastBreaking rule (entries_so table.now) (entries_so cert.now) (sources_so sources.now)
        (sources_so sources.now) least) }
{
    let mut least = None;
    for source in sources {
        let kept = keeps(alloc, rule, table, cert, source, names)?;
        least = lesser_unless(alloc, kept, least, &source.checked.module().name)?;
    }
    Ok(least)
}

// Whether the module of a source keeps the rule.
fn keeps(
    alloc: Global,
    rule: EntryRule,
    table: &Table,
    cert: &Table,
    source: &Source,
    names: &[Atom],
) -> Result<bool, Memory>
    requires rising { IsTrue (rises is_name_before names.now) }
    requires table { entry_names (entries_so table.now) ≡ names.now }
    requires cert { entry_names (entries_so cert.now) ≡ names.now }
    ensures { IfOk result (λ b. (M : ListOf TheSource) → source_of M (source_so source.now).tree.name ≡ Some (source_so source.now)
        → IsTrue b ↔ KeepsAsked rule (entries_so table.now) (entries_so cert.now) M (source_so source.now).tree.name) }
{
    match position(names, &source.checked.module().name) {
        Some(at) => is_so(
            alloc,
            rule,
            table.entries.at(at),
            cert.entries.at(at),
            source,
        ),
        None => Ok(true),
    }
}

// Whether what the rule asks is so of the entries of a module and its source.
fn is_so(
    alloc: Global,
    rule: EntryRule,
    entry: &Entry,
    certified: &Entry,
    source: &Source,
) -> Result<bool, Memory>
    ensures { IfOk result (λ b. IsTrue b ↔ Asked rule (entry_so entry.now) (entry_so certified.now) (source_so source.now)) }
{
    match rule {
        EntryRule::SameSource => Ok(have_digest(entry, certified, source)),
        EntryRule::SameFunctions => lists_functions(alloc, entry, certified, source),
    }
}

// Whether both entries have the digest of the source.
fn have_digest(entry: &Entry, certified: &Entry, source: &Source) -> bool
    ensures { IsTrue result ↔ HaveDigest (entry_so entry.now) (entry_so certified.now) (source_so source.now) }
{
    entry.digest == source.digest && certified.digest == source.digest
}

// Whether the certificate's entry lists the functions that the module defines, and the table's those that it exports, as the certificate
// has them.
fn lists_functions(
    alloc: Global,
    entry: &Entry,
    certified: &Entry,
    source: &Source,
) -> Result<bool, Memory>
    ensures { IfOk result (λ b. IsTrue b ↔ ListsFunctions (entry_so entry.now) (entry_so certified.now) (source_so source.now)) }
{
    counting_tells();
    let module = source.checked.module();
    if !lists_all(alloc, certified, module.defs.as_slice())? {
        return Ok(false);
    }
    let exports = names_of(alloc, module.exports.as_slice())?;
    Ok(lists_exports(entry, certified, &exports))
}

// Whether the entry lists these definitions, of which no two have one name: as many as there are, and none but these.
fn lists_all(alloc: Global, certified: &Entry, defs: &[Shared<FunDef>]) -> Result<bool, Memory>
    ensures { IfOk result (λ b. IsTrue b ↔ ListsDefined (map (λ x. x.0) certified.now.exports) (map (λ d. d.name) defs.now)) }
{
    if certified.exports.len() != defs.len() {
        return Ok(false);
    }
    let defined = names_defined(alloc, defs)?;
    for listed in certified.exports.as_slice() {
        if !defined.has(&listed.0) {
            return Ok(false);
        }
    }
    Ok(true)
}

// The names of definitions, to be found among.
fn names_defined(alloc: Global, defs: &[Shared<FunDef>]) -> Result<Names<FunName>, Memory>
    ensures { IfOk result (λ names. names ≡ map (λ d. d.name) defs.now) }
{
    let mut names = Names::new(alloc);
    for def in defs {
        names.push(&def.get().name)?;
    }
    Ok(names)
}

// Whether the entry lists what the certificate's lists of these functions, in its order: the same functions with the same summaries.
fn lists_exports(entry: &Entry, certified: &Entry, exports: &Names<FunName>) -> bool
    ensures { IsTrue result ↔ (entry.now.exports ≡ filter (λ x. has_function exports.now x.0) certified.now.exports) }
{
    let count = entry.exports.len();
    let mut next = 0;
    for listed in certified.exports.as_slice() {
        if exports.has(&listed.0) {
            if !stands_at(entry, next, listed) {
                return false;
            }
            next += 1;
        }
    }
    next == count
}

// Whether the entry lists this function with this summary at a position.
fn stands_at(entry: &Entry, at: usize, listed: &(FunName, Summary)) -> bool
    ensures { IsTrue result ↔ (slice_get entry.now.exports at ≡ Some listed.now) }
{
    match entry.exports.get(at) {
        Some(own) => own.0 == listed.0 && own.1 == listed.1,
        None => false,
    }
}

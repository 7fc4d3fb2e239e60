//! Whether a table is right for sources, by a certificate.
ghost use Rattle.std.specs.Prelude.{◌≡◌, ℕ, ◌<◌, List as ListOf, [], length, map, IfErr, IfOk, IsTrue, OnOk};
ghost use Rattle.type_kinds.specs.declared.atom.Atom.{Atom as TheAtom};
ghost use Rattle.core_scope.specs.Checked.{module_of};
ghost use Rattle.core_scope.specs.Sets.{StandsEarlier};
ghost use Rattle.sound_laws_kept.specs.Solving.{IsWritten};
ghost use Rattle.table_file.specs.Order.{rises, is_name_before};
ghost use Rattle.table_keep.specs.Model.{entries_so, sources_so};
ghost use Rattle.table_verify_laws.specs.Certificates.{IsCertificate};
ghost use Rattle.table_verify_laws.specs.Laws.{AreSuccessTypings};
ghost use Rattle.table_verify_laws.specs.Lined.{entry_names};
ghost use Rattle.table_verify_laws.specs.Rules.{Keeps, KeepsRules};
ghost use Rattle.table_verify_laws.specs.Rules.TableRule.{same_functions, same_modules, same_source};
ghost use Rattle.table_verify_rules.specs.Rejected.{IsRejected, IsWantOfMemory};
ghost use Rattle.table_verify_rules.specs.steps.Verdict.{IsVerdict};

use crate::entries::{EntryRule, least_breaking};
use crate::fault::{CLOSED, SAME_FUNCTIONS, SAME_MODULES, SAME_SOURCE, VerifyFault};
use crate::functions::open_module;
use crate::knowing::known_by;
use crate::modules::other_module;
use crate::names::module_names;
use std::alloc::Global;
use table_file::Table;
use table_keep::Source;
use table_verify_laws::{names_tell, rules_are_complete, rules_are_sound};
use type_kinds::{Atom, Memory};

/// Whether a table is right for these sources, by a certificate, a table that lists all functions of each module. Nothing is asked of who
/// made the table or the certificate: each function's constraint is solved by sweeps over its parts, and what it gives is held against the
/// certificate. Then each summary of the table is a success typing in every run of the sources. Summaries may be wider than those that an
/// analysis finds, where they are still closed.
///
/// `Rejected`: the first rule that is broken, and the least name of a module that breaks it:
/// - 29: the module isn't in all of table, certificate and sources.
/// - 30: an entry of the module has another digest than its source.
/// - 31: the certificate's entry doesn't list exactly the functions that the module defines, or the table's not exactly those that it
///   exports, or a summary of the table isn't the certificate's.
/// - 32: the constraint of a function of the module, by what the certificate says of all functions, gives more than the certificate says of
///   this one, strictly or leniently.
///
/// `Memory`: allocation failed, or there are 2^32 functions or more. This says nothing of the table.
pub fn verify(
    alloc: Global,
    table: &Table,
    cert: &Table,
    sources: &[Source],
) -> Result<(), VerifyFault>
    requires distinct { (j : ℕ) → j < length sources.now → StandsEarlier (map (λ s. (module_of s.checked).name) sources.now) j → ⊥ }
    ensures accepted { OnOk result (KeepsRules (entries_so table.now) (entries_so cert.now) (sources_so sources.now)) }
    ensures rejected { IfErr result (IsRejected (entries_so table.now) (entries_so cert.now) (sources_so sources.now)) }
    ensures sound { OnOk result (AreSuccessTypings (sources_so sources.now) (entries_so table.now)) }
    ensures complete { (reports : ListOf (ListOf ℕ)) → IsWritten [] (sources_so sources.now) reports (entries_so table.now)
        → IsCertificate (sources_so sources.now) (entries_so cert.now) → IfErr result IsWantOfMemory }
{
    rules_are_sound();
    rules_are_complete();
    match first_broken(alloc, table, cert, sources) {
        Ok(None) => Ok(()),
        Ok(Some((number, home))) => Err(VerifyFault::Rejected { number, home }),
        Err(Memory) => Err(VerifyFault::Memory),
    }
}

// The number of the first rule that is broken, with the least name of a module that breaks it.
fn first_broken(
    alloc: Global,
    table: &Table,
    cert: &Table,
    sources: &[Source],
) -> Result<Option<(u8, Atom)>, Memory>
    requires distinct { (j : ℕ) → j < length sources.now → StandsEarlier (map (λ s. (module_of s.checked).name) sources.now) j → ⊥ }
    ensures { IfOk result (IsVerdict (entries_so table.now) (entries_so cert.now) (sources_so sources.now)) }
{
    names_tell();
    let names = module_names(alloc, sources)?;
    let names = names.as_slice();
    match other_module(alloc, table, cert, names)? {
        Some(home) => Ok(Some((SAME_MODULES, home))),
        None => broken_by_sources(alloc, table, cert, sources, names),
    }
}

// The same, where each module keeps the first rule. Here `names` are the names of the entries.
fn broken_by_sources(
    alloc: Global,
    table: &Table,
    cert: &Table,
    sources: &[Source],
    names: &[Atom],
) -> Result<Option<(u8, Atom)>, Memory>
    requires distinct { (j : ℕ) → j < length sources.now → StandsEarlier (map (λ s. (module_of s.checked).name) sources.now) j → ⊥ }
    requires rising { IsTrue (rises is_name_before names.now) }
    requires table { entry_names (entries_so table.now) ≡ names.now }
    requires cert { entry_names (entries_so cert.now) ≡ names.now }
    requires modules { (h : TheAtom) → Keeps (entries_so table.now) (entries_so cert.now) (sources_so sources.now) same_modules h }
    ensures { IfOk result (IsVerdict (entries_so table.now) (entries_so cert.now) (sources_so sources.now)) }
{
    match least_breaking(alloc, EntryRule::SameSource, table, cert, sources, names)? {
        Some(home) => Ok(Some((SAME_SOURCE, home))),
        None => broken_by_functions(alloc, table, cert, sources, names),
    }
}

// The same, where each keeps the second, too.
fn broken_by_functions(
    alloc: Global,
    table: &Table,
    cert: &Table,
    sources: &[Source],
    names: &[Atom],
) -> Result<Option<(u8, Atom)>, Memory>
    requires distinct { (j : ℕ) → j < length sources.now → StandsEarlier (map (λ s. (module_of s.checked).name) sources.now) j → ⊥ }
    requires rising { IsTrue (rises is_name_before names.now) }
    requires table { entry_names (entries_so table.now) ≡ names.now }
    requires cert { entry_names (entries_so cert.now) ≡ names.now }
    requires modules { (h : TheAtom) → Keeps (entries_so table.now) (entries_so cert.now) (sources_so sources.now) same_modules h }
    requires sources { (h : TheAtom) → Keeps (entries_so table.now) (entries_so cert.now) (sources_so sources.now) same_source h }
    ensures { IfOk result (IsVerdict (entries_so table.now) (entries_so cert.now) (sources_so sources.now)) }
{
    match least_breaking(alloc, EntryRule::SameFunctions, table, cert, sources, names)? {
        Some(home) => Ok(Some((SAME_FUNCTIONS, home))),
        None => broken_by_closedness(alloc, table, cert, sources, names),
    }
}

// The same, where each keeps the third, too.
fn broken_by_closedness(
    alloc: Global,
    table: &Table,
    cert: &Table,
    sources: &[Source],
    names: &[Atom],
) -> Result<Option<(u8, Atom)>, Memory>
    requires distinct { (j : ℕ) → j < length sources.now → StandsEarlier (map (λ s. (module_of s.checked).name) sources.now) j → ⊥ }
    requires rising { IsTrue (rises is_name_before names.now) }
    requires cert { entry_names (entries_so cert.now) ≡ names.now }
    requires modules { (h : TheAtom) → Keeps (entries_so table.now) (entries_so cert.now) (sources_so sources.now) same_modules h }
    requires sources { (h : TheAtom) → Keeps (entries_so table.now) (entries_so cert.now) (sources_so sources.now) same_source h }
    requires functions { (h : TheAtom) → Keeps (entries_so table.now) (entries_so cert.now) (sources_so sources.now) same_functions h }
    ensures { IfOk result (IsVerdict (entries_so table.now) (entries_so cert.now) (sources_so sources.now)) }
{
    let known = known_by(alloc, cert, sources, names)?;
    let least = open_module(alloc, sources, &known);
    drop(known);
    match least {
        Ok(Some(home)) => Ok(Some((CLOSED, home))),
        Ok(None) => Ok(None),
        Err(Memory) => Err(Memory),
    }
}

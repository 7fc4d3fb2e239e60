// Whether counts and lengths fit into four bytes.
ghost use Rattle.std.specs.Prelude.{◌≡◌};
ghost use Rattle.std.specs.List.{list_all};
ghost use Rattle.table_file.specs.Lengths.{is_short, are_short, is_short_sig, is_short_summary, is_short_callee};
ghost use Rattle.table_file.specs.Lengths.{is_short_used, is_short_export, is_short_entry, is_short_table};
ghost use Rattle.type_bytes.specs.ShortNames as short;

use crate::entries::Entry;
use crate::tables::Table;
use crate::used::Used;
use cons_tree::{Callee, Sig, Summary};
use core_ast::FunName;
use type_bytes::has_short_names;
use type_kinds::Atom;
use type_lattice::Ty;

// What four bytes can't tell any more.
const LIMIT: usize = 1 << 32;

// Whether the atom is short.
fn name_fits(name: &Atom) -> bool
    ensures { result ≡ is_short name.now }
{
    name.bytes().len() < LIMIT
}

// Whether there are few names, and each is short.
fn names_fit(names: &[Atom]) -> bool
    ensures { result ≡ are_short is_short names.now }
{
    if names.len() >= LIMIT {
        return false;
    }
    each_name_fits(names)
}

fn each_name_fits(names: &[Atom]) -> bool
    ensures { result ≡ list_all is_short names.now }
{
    names.iter().all(|name| name_fits(name))
}

// Whether the atoms in the types are short.
#[tactic(auto, unfolding(crate::specs::Lengths::is_short_sig))]
fn sig_fits(sig: &Sig) -> bool
    ensures { result ≡ is_short_sig sig.now }
{
    if !has_short_names(&sig.result) {
        return false;
    }
    each_type_fits(sig.args.as_slice())
}

fn each_type_fits(types: &[Ty]) -> bool
    ensures { result ≡ list_all short.has_short_names types.now }
{
    types.iter().all(|ty| has_short_names(ty))
}

#[tactic(auto, unfolding(crate::specs::Lengths::is_short_summary))]
fn summary_fits(summary: &Summary) -> bool
    ensures { result ≡ is_short_summary summary.now }
{
    sig_fits(summary.strict.get()) && sig_fits(summary.lenient.get())
}

#[tactic(auto, unfolding(crate::specs::Lengths::is_short_callee))]
fn callee_fits(callee: &Callee) -> bool
    ensures { result ≡ is_short_callee callee.now }
{
    match callee {
        Callee::Known(summary) => summary_fits(summary),
        Callee::Local(_) => true,
        Callee::Undefined => true,
        Callee::Unknown => true,
    }
}

#[tactic(auto, unfolding(crate::specs::Lengths::is_short_used))]
fn used_fits(used: &Used) -> bool
    ensures { result ≡ is_short_used used.now }
{
    name_fits(&used.home) && name_fits(&used.name.name) && callee_fits(&used.callee)
}

#[tactic(auto, unfolding(crate::specs::Lengths::is_short_export))]
fn export_fits(export: &(FunName, Summary)) -> bool
    ensures { result ≡ is_short_export export.now }
{
    name_fits(&export.0.name) && summary_fits(&export.1)
}

fn all_used_fit(used: &[Used]) -> bool
    ensures { result ≡ are_short is_short_used used.now }
{
    if used.len() >= LIMIT {
        return false;
    }
    each_used_fits(used)
}

fn each_used_fits(used: &[Used]) -> bool
    ensures { result ≡ list_all is_short_used used.now }
{
    used.iter().all(|one| used_fits(one))
}

fn exports_fit(exports: &[(FunName, Summary)]) -> bool
    ensures { result ≡ are_short is_short_export exports.now }
{
    if exports.len() >= LIMIT {
        return false;
    }
    each_export_fits(exports)
}

fn each_export_fits(exports: &[(FunName, Summary)]) -> bool
    ensures { result ≡ list_all is_short_export exports.now }
{
    exports.iter().all(|export| export_fits(export))
}

#[tactic(auto, unfolding(crate::specs::Lengths::is_short_entry))]
fn entry_fits(entry: &Entry) -> bool
    ensures { result ≡ is_short_entry entry.now }
{
    name_fits(&entry.name)
        && names_fit(entry.group.as_slice())
        && names_fit(entry.calls.as_slice())
        && all_used_fit(entry.used.as_slice())
        && exports_fit(entry.exports.as_slice())
        && entry.lines.len() < LIMIT
}

/// Whether each count and each length that is written in four bytes is below 2^32. Takes no memory.
#[tactic(auto, unfolding(crate::specs::Lengths::is_short_table))]
pub fn table_fits(table: &Table) -> bool
    ensures { result ≡ is_short_table table.now }
{
    if table.entries.len() >= LIMIT {
        return false;
    }
    each_entry_fits(table.entries.as_slice())
}

fn each_entry_fits(entries: &[Entry]) -> bool
    ensures { result ≡ list_all is_short_entry entries.now }
{
    entries.iter().all(|entry| entry_fits(entry))
}

//! What the table knows of one module.
ghost use Rattle.std.specs.Prelude.{◌≡◌, IsTrue, IfOk, length};
ghost use Rattle.std.specs.List.{list_all};
ghost use Rattle.table_file.specs.Order.{rises, is_name_before, has_name};
ghost use Rattle.table_file.specs.Rules.{is_used_before, is_outside, is_export_before, is_export};

use crate::digests::Digest;
use crate::used::Used;
use cons_tree::Summary;
use core_ast::FunName;
use std::alloc::Global;
use type_kinds::{Atom, Bytes, List, Memory};

/// What the table knows of one module. Lists rise strictly: names by their bytes, functions by module,
/// name and arity.
#[derive(Drop)]
pub struct Entry {
    pub name: Atom,
    /// The digest of the module's text.
    pub digest: Digest,
    /// The modules that call one another with this one, itself among them.
    pub group: List<Atom>,
    /// The modules that it calls by literal names.
    pub calls: List<Atom>,
    /// The functions of modules outside the group that it calls. Their modules are among `calls`.
    pub used: List<Used>,
    /// The functions that it exports, and their summaries.
    pub exports: List<(FunName, Summary)>,
    /// The lines of its report.
    pub lines: Bytes,
    pub ghost digest_whole: { length digest.0 ≡ 32 },
    pub ghost group_rises: { IsTrue (rises is_name_before group) },
    pub ghost group_has_own: { IsTrue (has_name group name) },
    pub ghost calls_rise: { IsTrue (rises is_name_before calls) },
    pub ghost used_rise: { IsTrue (rises is_used_before used) },
    pub ghost used_outside: { IsTrue (list_all (is_outside group calls) used) },
    pub ghost exports_rise: { IsTrue (rises is_export_before exports) },
    pub ghost exports_fit: { IsTrue (list_all is_export exports) },
}

impl Entry {
    /// A second entry, equal to the first. `Memory` comes if allocation fails.
    #[tactic(auto, using(crate::proofs::SameLaws::same_entry))]
    pub fn copy(&self, alloc: Global) -> Result<Entry, Memory>
        ensures { IfOk result (λ copy. copy ≡ self.now) }
    {
        let name = self.name.copy(alloc)?;
        let group = copy_names(alloc, self.group.as_slice())?;
        let calls = copy_names(alloc, self.calls.as_slice())?;
        let used = copy_used(alloc, self.used.as_slice())?;
        let exports = copy_exports(alloc, self.exports.as_slice())?;
        let lines = self.lines.copy(alloc)?;
        Ok(Entry {
            name,
            digest: self.digest,
            group,
            calls,
            used,
            exports,
            lines,
        })
    }
}

// A list of the same names.
fn copy_names(alloc: Global, names: &[Atom]) -> Result<List<Atom>, Memory>
    ensures { IfOk result (λ copies. copies ≡ names.now) }
{
    let mut copies = List::new(alloc);
    for name in names {
        let copy = name.copy(alloc)?;
        copies.add(copy)?;
    }
    Ok(copies)
}

// A list of the same used functions.
fn copy_used(alloc: Global, used: &[Used]) -> Result<List<Used>, Memory>
    ensures { IfOk result (λ copies. copies ≡ used.now) }
{
    let mut copies = List::new(alloc);
    for one in used {
        let copy = one.copy(alloc)?;
        copies.add(copy)?;
    }
    Ok(copies)
}

// A list of the same exports.
fn copy_exports(
    alloc: Global,
    exports: &[(FunName, Summary)],
) -> Result<List<(FunName, Summary)>, Memory>
    ensures { IfOk result (λ copies. copies ≡ exports.now) }
{
    let mut copies = List::new(alloc);
    for export in exports {
        let name = export.0.copy(alloc)?;
        let summary = export.1.copy(alloc)?;
        copies.add((name, summary))?;
    }
    Ok(copies)
}

//! Tables as bytes.
ghost use Rattle.std.specs.Prelude.{◌≡◌, ◌++◌, ◌<◌, ◌^◌, true, false, Err, IsTrue, IfOk, OnOk};
ghost use Rattle.std.specs.List.{flat_map, list_all};
ghost use Rattle.table_file.specs.Lengths.{is_short, are_short, is_short_sig, is_short_summary, is_short_callee};
ghost use Rattle.table_file.specs.Lengths.{is_short_used, is_short_export, is_short_entry, is_short_table};
ghost use Rattle.table_file.specs.Spelling.{four_bytes, counted, text_bytes, sig_bytes, summary_bytes};
ghost use Rattle.table_file.specs.Spelling.{callee_bytes, used_bytes, export_bytes, entry_bytes, table_bytes};
ghost use Rattle.table_file.specs.declared.faults.WriteFault.TheVariants.{TooLong};
ghost use Rattle.table_file.specs.Rules.{is_export};
ghost use Rattle.type_bytes.specs.ShortNames as short;
ghost use Rattle.type_bytes.specs.Spelling.{bytes_of};

use crate::digests::digest_of;
use crate::entries::Entry;
use crate::faults::WriteFault;
use crate::lengths::table_fits;
use crate::tables::{MAGIC, Table, VERSION};
use crate::used::Used;
use cons_tree::{Callee, Sig, Summary};
use core_ast::FunName;
use std::alloc::Global;
use type_bytes::put;
use type_kinds::{Atom, Bytes, Memory};
use type_lattice::Ty;

/// The bytes of the table. `TooLong` comes exactly where a count or a length that is written in four
/// bytes is 2^32 or more.
pub fn write_table(alloc: Global, table: &Table) -> Result<Bytes, WriteFault>
    ensures bytes { IfOk result (λ bytes. bytes ≡ table_bytes table.now) }
    ensures fits { OnOk result (is_short_table table.now ≡ true) }
    ensures too_long { result ≡ Err TooLong → is_short_table table.now ≡ false }
{
    if !table_fits(table) {
        return Err(WriteFault::TooLong);
    }
    match sealed_bytes(alloc, table) {
        Ok(bytes) => Ok(bytes),
        Err(Memory) => Err(WriteFault::Memory),
    }
}

// The bytes of a table whose counts and lengths fit.
#[tactic(auto, unfolding(crate::specs::Spelling::table_bytes, crate::specs::Spelling::sealed, crate::specs::Spelling::counted, crate::specs::Lengths::is_short_table))]
fn sealed_bytes(alloc: Global, table: &Table) -> Result<Bytes, Memory>
    requires { IsTrue (is_short_table table.now) }
    ensures { IfOk result (λ bytes. bytes ≡ table_bytes table.now) }
{
    let mut out = Bytes::new(alloc);
    out.append(&MAGIC)?;
    out.append(&VERSION)?;
    put_entries(table.entries.as_slice(), &mut out)?;
    let digest = digest_of(out.as_slice());
    out.append(&digest.0)?;
    Ok(out)
}

// Appends the entries. Here and below, what was there stays in front.
#[tactic(auto, unfolding(crate::specs::Spelling::counted))]
fn put_entries(entries: &[Entry], out: &mut Bytes) -> Result<(), Memory>
    requires { IsTrue (are_short is_short_entry entries.now) }
    ensures { OnOk result (out.new ≡ out.old ++ counted entry_bytes entries.now) }
{
    put_count(entries.len(), out)?;
    for entry in entries {
        put_entry(entry, out)?;
    }
    Ok(())
}

// Appends an entry.
#[tactic(auto, unfolding(crate::specs::Spelling::entry_bytes, crate::specs::Lengths::is_short_entry))]
fn put_entry(entry: &Entry, out: &mut Bytes) -> Result<(), Memory>
    requires { IsTrue (is_short_entry entry.now) }
    ensures { OnOk result (out.new ≡ out.old ++ entry_bytes entry.now) }
{
    put_text(entry.name.bytes(), out)?;
    out.append(&entry.digest.0)?;
    put_names(entry.group.as_slice(), out)?;
    put_names(entry.calls.as_slice(), out)?;
    put_all_used(entry.used.as_slice(), out)?;
    put_exports(entry.exports.as_slice(), out)?;
    put_text(entry.lines.as_slice(), out)
}

// Appends names.
#[tactic(auto, unfolding(crate::specs::Spelling::counted))]
fn put_names(names: &[Atom], out: &mut Bytes) -> Result<(), Memory>
    requires { IsTrue (are_short is_short names.now) }
    ensures { OnOk result (out.new ≡ out.old ++ counted text_bytes names.now) }
{
    put_count(names.len(), out)?;
    for name in names {
        put_text(name.bytes(), out)?;
    }
    Ok(())
}

// Appends used functions.
#[tactic(auto, unfolding(crate::specs::Spelling::counted))]
fn put_all_used(used: &[Used], out: &mut Bytes) -> Result<(), Memory>
    requires { IsTrue (are_short is_short_used used.now) }
    ensures { OnOk result (out.new ≡ out.old ++ counted used_bytes used.now) }
{
    put_count(used.len(), out)?;
    for one in used {
        put_used(one, out)?;
    }
    Ok(())
}

// Appends a used function.
#[tactic(auto, unfolding(crate::specs::Spelling::used_bytes, crate::specs::Lengths::is_short_used))]
fn put_used(used: &Used, out: &mut Bytes) -> Result<(), Memory>
    requires { IsTrue (is_short_used used.now) }
    ensures { OnOk result (out.new ≡ out.old ++ used_bytes used.now) }
{
    put_text(used.home.bytes(), out)?;
    put_text(used.name.name.bytes(), out)?;
    put_number(used.name.arity, out)?;
    put_callee(&used.callee, out)
}

// Appends what stands of a used function.
#[tactic(auto, unfolding(crate::specs::Spelling::callee_bytes, crate::specs::Lengths::is_short_callee))]
fn put_callee(callee: &Callee, out: &mut Bytes) -> Result<(), Memory>
    requires { IsTrue (is_short_callee callee.now) }
    ensures { OnOk result (out.new ≡ out.old ++ callee_bytes callee.now) }
{
    match callee {
        Callee::Undefined => out.append(&[0]),
        Callee::Unknown => out.append(&[1]),
        Callee::Known(summary) => {
            out.append(&[2])?;
            put_summary(summary, out)
        }
        Callee::Local(_) => out.append(&[]),
    }
}

// Appends exports.
#[tactic(auto, unfolding(crate::specs::Spelling::counted))]
fn put_exports(exports: &[(FunName, Summary)], out: &mut Bytes) -> Result<(), Memory>
    requires fit { IsTrue (list_all is_export exports.now) }
    requires short { IsTrue (are_short is_short_export exports.now) }
    ensures { OnOk result (out.new ≡ out.old ++ counted export_bytes exports.now) }
{
    put_count(exports.len(), out)?;
    for export in exports {
        put_export(export, out)?;
    }
    Ok(())
}

// Appends an export.
#[tactic(auto, unfolding(crate::specs::Spelling::export_bytes, crate::specs::Lengths::is_short_export))]
fn put_export(export: &(FunName, Summary), out: &mut Bytes) -> Result<(), Memory>
    requires arity { export.now.0.arity < 256 }
    requires short { IsTrue (is_short_export export.now) }
    ensures { OnOk result (out.new ≡ out.old ++ export_bytes export.now) }
{
    put_text(export.0.name.bytes(), out)?;
    out.append(&[export.0.arity as u8])?;
    put_summary(&export.1, out)
}

// Appends a summary.
#[tactic(auto, unfolding(crate::specs::Spelling::summary_bytes, crate::specs::Lengths::is_short_summary))]
fn put_summary(summary: &Summary, out: &mut Bytes) -> Result<(), Memory>
    requires { IsTrue (is_short_summary summary.now) }
    ensures { OnOk result (out.new ≡ out.old ++ summary_bytes summary.now) }
{
    put_sig(summary.strict.get(), out)?;
    put_sig(summary.lenient.get(), out)
}

// Appends a signature.
#[tactic(auto, unfolding(crate::specs::Spelling::sig_bytes, crate::specs::Lengths::is_short_sig))]
fn put_sig(sig: &Sig, out: &mut Bytes) -> Result<(), Memory>
    requires { IsTrue (is_short_sig sig.now) }
    ensures { OnOk result (out.new ≡ out.old ++ sig_bytes sig.now) }
{
    put_types(sig.args.as_slice(), out)?;
    put(&sig.result, out)
}

// Appends types, one behind the other.
fn put_types(types: &[Ty], out: &mut Bytes) -> Result<(), Memory>
    requires { IsTrue (list_all short.has_short_names types.now) }
    ensures { OnOk result (out.new ≡ out.old ++ flat_map bytes_of types.now) }
{
    for ty in types {
        put(ty, out)?;
    }
    Ok(())
}

// Appends a name or lines.
#[tactic(auto, unfolding(crate::specs::Spelling::text_bytes))]
fn put_text(text: &[u8], out: &mut Bytes) -> Result<(), Memory>
    requires { IsTrue (is_short text.now) }
    ensures { OnOk result (out.new ≡ out.old ++ text_bytes text.now) }
{
    put_count(text.len(), out)?;
    out.append(text)
}

// Appends how many there are.
fn put_count(count: usize, out: &mut Bytes) -> Result<(), Memory>
    requires { count < 2 ^ 32 }
    ensures { OnOk result (out.new ≡ out.old ++ four_bytes count) }
{
    put_number(count as u32, out)
}

// Appends a number in four bytes.
fn put_number(n: u32, out: &mut Bytes) -> Result<(), Memory>
    ensures { OnOk result (out.new ≡ out.old ++ four_bytes n) }
{
    out.append(&n.to_be_bytes())
}

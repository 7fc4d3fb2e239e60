//! Laws of spellings, as functions that do nothing: who calls one has its clauses.
ghost use Rattle.std.specs.Prelude.{◌≡◌, ◌≢◌, ◌<◌, ◌⊎◌, ℕ, List, All, IsTrue};
ghost use Rattle.std.specs.List.{list_all};
ghost use Rattle.table_file.specs.Faults.{IsFirst};
ghost use Rattle.table_file.specs.Lengths.{has_short_types, is_short_table};
ghost use Rattle.table_file.specs.Spelling.{sig_bytes, summary_bytes, callee_bytes, used_bytes, export_bytes, entry_bytes, table_bytes};
ghost use Rattle.table_file.specs.declared.faults.TableFault.{TableFault};
ghost use Rattle.table_file.specs.declared.faults.TableFault.TheVariants.{Memory};
ghost use Rattle.table_file.specs.declared.tables.Table.{Table};
ghost use Rattle.table_file.specs.steps.Entries.{parts_fit, parts_spelled};
ghost use Rattle.table_file.specs.steps.Reads.{Once};
ghost use Rattle.table_file.specs.steps.Tests.{is_sig, is_summary, is_callee, has_short_callee, is_short_export};
ghost use Rattle.type_bytes.specs.ShortNames as short;
ghost use Rattle.type_bytes.specs.Spelling.{bytes_of};

use type_bytes::bytes_laws;

/// Bytes are those of one table, or they have one first fault. The laws speak of tables whose types
/// can be written; those that `write_table` wrote and `read_table` read are such.
pub fn table_laws()
    ensures once { (s t : Table) → IsTrue (list_all has_short_types s.entries) → IsTrue (list_all has_short_types t.entries)
        → table_bytes s ≡ table_bytes t → s ≡ t }
    ensures fault_once { (f g : TableFault) (bytes : List ℕ) → (f ≡ Memory → ⊥) → (g ≡ Memory → ⊥) → IsFirst f bytes → IsFirst g bytes
        → f ≡ g }
    ensures no_fault { (f : TableFault) (t : Table) → IsTrue (list_all has_short_types t.entries) → IsFirst f (table_bytes t) → f ≡ Memory }
    ensures short { (t : Table) → IsTrue (is_short_table t) → IsTrue (list_all has_short_types t.entries) }
{
    spelling_laws();
}

/// Bytes are those of a table whose types can be written, or have a first fault.
pub fn table_or_fault()
    ensures { (bytes : List ℕ) → All (λ b. b < 256) bytes
        → ((t : Table) × (bytes ≡ table_bytes t) × IsTrue (list_all has_short_types t.entries))
        ⊎ ((fault : TableFault) × (fault ≢ Memory) × IsFirst fault bytes) }
{
    spelling_laws();
}

/// No spelling begins another, and each is the spelling of one value.
pub fn spelling_laws()
    ensures types { Once short.has_short_names bytes_of }
    ensures sigs { (n : ℕ) → Once (is_sig n) sig_bytes }
    ensures summaries { (n : ℕ) → Once (is_summary n) summary_bytes }
    ensures callees { (n : ℕ) → Once (is_callee n) callee_bytes }
    ensures used { Once has_short_callee used_bytes }
    ensures exports { Once is_short_export export_bytes }
    ensures parts { Once parts_fit parts_spelled }
    ensures entries { Once has_short_types entry_bytes }
{
    bytes_laws();
}

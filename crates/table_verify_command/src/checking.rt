//! A table is checked against sources by a certificate.
ghost use Rattle.std.specs.Prelude.{◌≡◌, ℕ, ◌+◌, ◌<◌, ◌^◌, List as ListOf, drop, length, map, IfOk};
ghost use Rattle.core_scope.specs.Checked.{module_of};
ghost use Rattle.core_scope.specs.Sets.{StandsEarlier};
ghost use Rattle.table_keep.specs.Model.{entries_so, sources_so};
ghost use Rattle.analysis_sources.specs.Words.{texts};
ghost use Rattle.analysis_answers.specs.Tables.{IsTableRead};
ghost use Rattle.table_verify_command.specs.Outcome.{Intended};
ghost use Rattle.table_verify_command.specs.Words.{Checks};
ghost use Rattle.table_verify_command.specs.steps.Judging.{IsJudged};

use crate::lines::{accepted, rejected};
use crate::reading::{TableRead, named_files, named_table};
use analysis_answers::{FilesRead, RunAnswer, refuse_second};
use analysis_sources::discard_sources;
use core_scope::{SetFault, check_set};
use da_shelf::Shelf;
use std::alloc::Global;
use table_file::Table;
use table_keep::Source;
use table_verify_rules::{VerifyFault, verify};
use type_kinds::{List, Memory};

/// What a check means to answer.
pub fn checked<F: Shelf>(alloc: Global, words: &[&str], shelf: &mut F) -> Result<RunAnswer, Memory>
    requires { (table : ListOf ℕ) × (cert : ListOf ℕ) × Checks (texts words.now) table cert (drop 3 (texts words.now)) }
    ensures intended { IfOk result (λ a. Intended (texts words.now) (F.held shelf.old) (F.read_faults shelf.old) (F.read_faults shelf.new)
        (F.replace_faults shelf.old) (F.replace_faults shelf.new) a.status a.output (F.held shelf.new)) }
    ensures held { F.held shelf.new ≡ F.held shelf.old }
{
    match named_table(alloc, words[1], 1, shelf) {
        Ok(TableRead::Reads(table)) => checked_with(alloc, words, &table, shelf),
        Ok(TableRead::Says(answer)) => Ok(answer),
        Err(Memory) => Err(Memory),
    }
}

// The same of this table.
fn checked_with<F: Shelf>(
    alloc: Global,
    words: &[&str],
    table: &Table,
    shelf: &mut F,
) -> Result<RunAnswer, Memory>
    requires { (name : ListOf ℕ) × (cert : ListOf ℕ) × Checks (texts words.now) name cert (drop 3 (texts words.now))
        × IsTableRead (F.held shelf.old) name table.now }
    ensures intended { IfOk result (λ a. Intended (texts words.now) (F.held shelf.old) (F.read_faults shelf.old) (F.read_faults shelf.new)
        (F.replace_faults shelf.old) (F.replace_faults shelf.new) a.status a.output (F.held shelf.new)) }
    ensures held { F.held shelf.new ≡ F.held shelf.old }
{
    match named_table(alloc, words[2], 2, shelf) {
        Ok(TableRead::Reads(cert)) => checked_by(alloc, words, table, &cert, shelf),
        Ok(TableRead::Says(answer)) => Ok(answer),
        Err(Memory) => Err(Memory),
    }
}

// The same of this table by this certificate.
fn checked_by<F: Shelf>(
    alloc: Global,
    words: &[&str],
    table: &Table,
    cert: &Table,
    shelf: &mut F,
) -> Result<RunAnswer, Memory>
    requires { (name : ListOf ℕ) × (other : ListOf ℕ) × Checks (texts words.now) name other (drop 3 (texts words.now))
        × IsTableRead (F.held shelf.old) name table.now × IsTableRead (F.held shelf.old) other cert.now }
    ensures intended { IfOk result (λ a. Intended (texts words.now) (F.held shelf.old) (F.read_faults shelf.old) (F.read_faults shelf.new)
        (F.replace_faults shelf.old) (F.replace_faults shelf.new) a.status a.output (F.held shelf.new)) }
    ensures held { F.held shelf.new ≡ F.held shelf.old }
{
    match named_files(alloc, words, 3, shelf) {
        Ok(FilesRead::Reads(sources)) => judge(alloc, words, table, cert, sources),
        Ok(FilesRead::Says(answer)) => Ok(answer),
        Err(Memory) => Err(Memory),
    }
}

// What a check answers of these tables and sources, which are dropped.
fn judge(
    alloc: Global,
    words: &[&str],
    table: &Table,
    cert: &Table,
    sources: List<Source>,
) -> Result<RunAnswer, Memory>
    requires whole { 3 + length sources ≡ length words.now }
    requires few { length words.now < 2 ^ 32 }
    ensures { IfOk result (λ a. IsJudged (texts words.now) (entries_so table.now) (entries_so cert.now) (sources_so sources) a.status a.output) }
{
    let answer = judged(alloc, words, table, cert, sources.as_slice());
    discard_sources(sources);
    answer
}

// The same for sources that are kept.
fn judged(
    alloc: Global,
    words: &[&str],
    table: &Table,
    cert: &Table,
    sources: &[Source],
) -> Result<RunAnswer, Memory>
    requires whole { 3 + length sources.now ≡ length words.now }
    requires few { length words.now < 2 ^ 32 }
    ensures { IfOk result (λ a. IsJudged (texts words.now) (entries_so table.now) (entries_so cert.now) (sources_so sources.now) a.status a.output) }
{
    match check_set(sources) {
        Ok(()) => verdict(alloc, table, cert, sources),
        Err(SetFault::DuplicateModule { first, second }) => {
            refuse_second(alloc, words, 3 + first, 3 + second)
        }
    }
}

// The same for sources whose modules have names of their own.
fn verdict(
    alloc: Global,
    table: &Table,
    cert: &Table,
    sources: &[Source],
) -> Result<RunAnswer, Memory>
    requires { (j : ℕ) → j < length sources.now → StandsEarlier (map (λ s. (module_of s.checked).name) sources.now) j → ⊥ }
    ensures { IfOk result (λ a. (words : ListOf (ListOf ℕ))
        → IsJudged words (entries_so table.now) (entries_so cert.now) (sources_so sources.now) a.status a.output) }
{
    match verify(alloc, table, cert, sources) {
        Ok(()) => accepted(alloc),
        Err(VerifyFault::Rejected { number, home }) => rejected(alloc, number, &home),
        Err(VerifyFault::Memory) => Err(Memory),
    }
}

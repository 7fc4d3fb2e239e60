//! The tables and the files that a command names, read.
ghost use Rattle.std.specs.Prelude.{◌≡◌, ◌≤◌, ◌<◌, ◌^◌, length, drop, IfOk};
ghost use Rattle.analysis_sources.specs.Words.{texts};
ghost use Rattle.table_verify_command.specs.steps.Reads.{AreReadFrom, IsOfBytes, IsReadAs};

use crate::lines::bad_table;
use analysis_answers::{FilesRead, RunAnswer, refuse, unread};
use analysis_sources::{MISSING, ReadFault, read_sources};
use da_shelf::{Shelf, ShelfFault};
use std::alloc::Global;
use table_file::{Table, TableFault, read_table};
use type_kinds::Memory;

/// What reading a table gives.
#[derive(Drop)]
pub enum TableRead {
    /// The table that the bytes spell.
    Reads(Table),
    /// What the run answers.
    Says(RunAnswer),
}

/// The table of this name, the word at this position.
pub fn named_table<F: Shelf>(
    alloc: Global,
    name: &str,
    word: u32,
    shelf: &mut F,
) -> Result<TableRead, Memory>
    ensures read { IfOk result (λ r. IsReadAs (F.held shelf.old) word name.now (F.read_faults shelf.old) (F.read_faults shelf.new) r) }
    ensures held { F.held shelf.new ≡ F.held shelf.old }
    ensures counted { F.read_faults shelf.old ≤ F.read_faults shelf.new }
    ensures replaces { F.replace_faults shelf.new ≡ F.replace_faults shelf.old }
{
    match shelf.read(name) {
        Ok(bytes) => table_of(alloc, name, bytes.as_slice()),
        Err(ShelfFault::Missing) => {
            let answer = refuse(alloc, name, word, MISSING)?;
            Ok(TableRead::Says(answer))
        }
        Err(ShelfFault::Failed) => {
            let answer = unread(alloc, name, word)?;
            Ok(TableRead::Says(answer))
        }
        Err(ShelfFault::Memory) => Err(Memory),
    }
}

// The table that the bytes spell which are held under this name.
fn table_of(alloc: Global, name: &str, bytes: &[u8]) -> Result<TableRead, Memory>
    ensures { IfOk result (λ r. IsOfBytes name.now bytes.now r) }
{
    match read_table(alloc, bytes) {
        Ok(table) => Ok(TableRead::Reads(table)),
        Err(TableFault::Memory) => Err(Memory),
        Err(fault) => {
            let answer = bad_table(alloc, name, fault)?;
            Ok(TableRead::Says(answer))
        }
    }
}

/// The sources of the files that the words name from this position on.
pub fn named_files<F: Shelf>(
    alloc: Global,
    words: &[&str],
    start: u32,
    shelf: &mut F,
) -> Result<FilesRead, Memory>
    requires within { start < length words.now }
    requires few { length words.now < 2 ^ 32 }
    ensures read { IfOk result (λ r. AreReadFrom (F.held shelf.old) (drop start (texts words.now)) start (F.read_faults shelf.old)
        (F.read_faults shelf.new) r) }
    ensures held { F.held shelf.new ≡ F.held shelf.old }
    ensures counted { F.read_faults shelf.old ≤ F.read_faults shelf.new }
    ensures replaces { F.replace_faults shelf.new ≡ F.replace_faults shelf.old }
{
    match read_sources(alloc, words, start, shelf) {
        Ok(sources) => Ok(FilesRead::Reads(sources)),
        Err(ReadFault::Refused(word, fault)) => {
            let answer = refuse(alloc, words[word as usize], word, fault)?;
            Ok(FilesRead::Says(answer))
        }
        Err(ReadFault::Failed(word)) => {
            let answer = unread(alloc, words[word as usize], word)?;
            Ok(FilesRead::Says(answer))
        }
        Err(ReadFault::Memory) => Err(Memory),
    }
}

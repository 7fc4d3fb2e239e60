//! The table that a check begins with.
ghost use Rattle.std.specs.Prelude.{◌≡◌, ◌≤◌, ◌<◌, ◌^◌, [], ◌∷◌, length, IfOk, IfSome};
ghost use Rattle.da_shelf.specs.Reads.{IsTold};
ghost use Rattle.analysis_sources.specs.Words.{texts};
ghost use Rattle.dialyze_command.specs.Reads.{table_named};
ghost use Rattle.dialyze_command.specs.steps.Plans.{IsBegunAs, IsOfBytes, IsReadAs};

use crate::answer::{Answer, bad_table, refuse, unread};
use analysis_sources::MISSING;
use da_shelf::{Shelf, ShelfFault};
use std::alloc::Global;
use table_file::{Table, TableFault, read_table};
use type_kinds::Memory;

/// The table that a check begins with, or what is answered where it isn't read.
#[derive(Drop)]
pub enum Begun {
    Reads(Table),
    Says(Answer),
}

/// The table whose name is the word at this position, and the empty one without a name.
pub fn table_to_begin<F: Shelf>(
    alloc: Global,
    words: &[&str],
    plt: Option<usize>,
    shelf: &mut F,
) -> Result<Begun, Memory>
    requires within { IfSome plt (λ word. word < length words.now) }
    requires few { IfSome plt (λ word. word < 2 ^ 32) }
    ensures begun { IfOk result (λ b. IsBegunAs (texts words.now) (F.held shelf.old) plt (F.read_faults shelf.old) (F.read_faults shelf.new) b) }
    ensures told { IfOk result (λ b. IsTold F.told shelf.old shelf.new (table_named (texts words.now) plt)
        (λ held. IsBegunAs (texts words.now) held plt (F.read_faults shelf.old) (F.read_faults shelf.new) b)) }
    ensures held { F.held shelf.new ≡ F.held shelf.old }
    ensures counted { F.read_faults shelf.old ≤ F.read_faults shelf.new }
    ensures replaces { F.replace_faults shelf.new ≡ F.replace_faults shelf.old }
{
    match plt {
        Some(word) => named_table(alloc, words[word], word as u32, shelf),
        None => Ok(Begun::Reads(Table::empty(alloc))),
    }
}

// The table of this name, the word at this position.
fn named_table<F: Shelf>(
    alloc: Global,
    name: &str,
    word: u32,
    shelf: &mut F,
) -> Result<Begun, Memory>
    ensures read { IfOk result (λ b. IsReadAs (F.held shelf.old) word name.now (F.read_faults shelf.old) (F.read_faults shelf.new) b) }
    ensures told { IfOk result (λ b. IsTold F.told shelf.old shelf.new (name.now ∷ [])
        (λ held. IsReadAs held word name.now (F.read_faults shelf.old) (F.read_faults shelf.new) b)) }
    ensures held { F.held shelf.new ≡ F.held shelf.old }
    ensures counted { F.read_faults shelf.old ≤ F.read_faults shelf.new }
    ensures replaces { F.replace_faults shelf.new ≡ F.replace_faults shelf.old }
{
    match shelf.read(name) {
        Ok(bytes) => table_of(alloc, name, bytes.as_slice()),
        Err(ShelfFault::Missing) => {
            let answer = refuse(alloc, name, word, MISSING)?;
            Ok(Begun::Says(answer))
        }
        Err(ShelfFault::Failed) => {
            let answer = unread(alloc, name, word)?;
            Ok(Begun::Says(answer))
        }
        Err(ShelfFault::Memory) => Err(Memory),
    }
}

// The table that the bytes spell which are held under this name.
fn table_of(alloc: Global, name: &str, bytes: &[u8]) -> Result<Begun, Memory>
    ensures { IfOk result (λ b. IsOfBytes name.now bytes.now b) }
{
    match read_table(alloc, bytes) {
        Ok(table) => Ok(Begun::Reads(table)),
        Err(TableFault::Memory) => Err(Memory),
        Err(fault) => {
            let answer = bad_table(alloc, name, fault)?;
            Ok(Begun::Says(answer))
        }
    }
}

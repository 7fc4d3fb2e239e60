//! Files are read one after another, each wholly before the next: its bytes, tokens, tree and scopes.
ghost use Rattle.std.specs.Prelude.{◌≡◌, ℕ, ◌+◌, ◌-◌, ◌<◌, ◌≤◌, ◌^◌, List, ◌++◌, ◌∷◌, [], length};
ghost use Rattle.std.specs.Prelude.{map, drop, slice_index_or, Option, IfOk, IfErr, OnOk, OnErr};
ghost use Rattle.da_shelf.specs.Counts.{Rose};
ghost use Rattle.da_shelf.specs.Reads.{IsTold};
ghost use Rattle.da_shelf.specs.Told.{Files, Holds};
ghost use Rattle.table_keep.specs.Model.{source_so, sources_so};
ghost use Rattle.analysis_sources.specs.Reading.{AreHeld, AreRead, AreUpTo, Fails, TextFails, bytes_of};
ghost use Rattle.analysis_sources.specs.Sources.{room, IsTextOf};
ghost use Rattle.analysis_sources.specs.Words.{texts};
ghost use Rattle.analysis_sources.specs.steps.ReadingSteps.{FailsBytes, FailsOne, IsReadAs};

use crate::refusals::{MISSING, SourceFault};
use crate::source::{MOST_BYTES, SourceError, accepted, room_after};
use da_shelf::{Shelf, ShelfFault};
use std::alloc::Global;
use table_file::digest_of;
use table_keep::{Source, discard_source};
use type_kinds::{Bytes, List, Memory};

/// Why files aren't read to sources. The number is the position of the file among the words.
#[derive(Clone, Copy, Debug, PartialEq, Eq)]
pub enum ReadFault {
    /// The file isn't held, or its bytes are the source of no module, by this fault.
    Refused(u32, SourceFault),
    /// The shelf failed where this file was read, and has counted it.
    Failed(u32),
    /// Allocation failed. This says nothing of the files.
    Memory,
}

/// Drops sources.
pub fn discard_sources(sources: List<Source>) {
    let mut sources = sources;
    while let Some(source) = sources.pop() {
        discard_source(source);
    }
}

/// Reads the files that the words from the position `first` on name, each wholly before the next, and gives
/// their sources in this order, each with the count of its bytes. A source may have 16 MiB, and all that were read 64 MiB together.
/// Behind a file that isn't read to a source none is read.
///
/// `Refused`: this file is the first that isn't held, or whose bytes are too many or the source of no module.
/// `Failed`: the shelf failed at this file, and has counted it; all before it were read.
pub fn read_sources<F: Shelf>(
    alloc: Global,
    words: &[&str],
    first: u32,
    shelf: &mut F,
) -> Result<List<Source>, ReadFault>
    requires within { first < length words.now }
    requires few { length words.now < 2 ^ 32 }
    ensures sources { IfOk result (λ sources. (after : ℕ) × AreRead (F.held shelf.old) 0 (drop first (texts words.now)) (sources_so sources) after) }
    ensures lengths { IfOk result (λ sources. AreRead (F.held shelf.old) 0 (drop first (texts words.now)) (sources_so sources) (bytes_of sources)) }
    ensures told { IfOk result (λ sources.
        IsTold F.told shelf.old shelf.new (drop first (texts words.now))
        (λ held. AreRead held 0 (drop first (texts words.now)) (sources_so sources) (bytes_of sources))) }
    ensures fault { IfErr result (λ fault. Fails (F.held shelf.old) (drop first (texts words.now)) first (F.read_faults shelf.old)
        (F.read_faults shelf.new) fault) }
    ensures told_fault { IfErr result (λ fault. (names : List (List ℕ)) × AreUpTo first (drop first (texts words.now)) names fault ×
        IsTold F.told shelf.old shelf.new names
        (λ held. Fails held (drop first (texts words.now)) first (F.read_faults shelf.old) (F.read_faults shelf.new) fault)) }
    ensures held { F.held shelf.new ≡ F.held shelf.old }
    ensures replaces { F.replace_faults shelf.new ≡ F.replace_faults shelf.old }
    ensures counted { F.read_faults shelf.old ≤ F.read_faults shelf.new }
{
    let mut sources = List::new(alloc);
    match read_all(alloc, &words[first as usize..], first, shelf, &mut sources) {
        Ok(()) => Ok(sources),
        Err(fault) => {
            discard_sources(sources);
            Err(fault)
        }
    }
}

// The same for all of these files, the first of which is the word at the position `first`. The sources go into
// a list that is empty.
#[tactic(auto, using(crate::proofs::Readings::readings))]
fn read_all<F: Shelf>(
    alloc: Global,
    files: &[&str],
    first: u32,
    shelf: &mut F,
    sources: &mut List<Source>,
) -> Result<(), ReadFault>
    requires few { first + length files.now < 2 ^ 32 }
    requires empty { sources.old ≡ [] }
    ensures sources { OnOk result (AreRead (F.held shelf.old) 0 (texts files.now) (sources_so sources.new) (bytes_of sources.new)) }
    ensures told { OnOk result (
        IsTold F.told shelf.old shelf.new (texts files.now)
        (λ held. AreRead held 0 (texts files.now) (sources_so sources.new) (bytes_of sources.new))) }
    ensures fault { IfErr result (λ fault. Fails (F.held shelf.old) (texts files.now) first (F.read_faults shelf.old) (F.read_faults shelf.new) fault) }
    ensures told_fault { IfErr result (λ fault. (names : List (List ℕ)) × AreUpTo first (texts files.now) names fault ×
        IsTold F.told shelf.old shelf.new names
        (λ held. Fails held (texts files.now) first (F.read_faults shelf.old) (F.read_faults shelf.new) fault)) }
    ensures held { F.held shelf.new ≡ F.held shelf.old }
    ensures replaces { F.replace_faults shelf.new ≡ F.replace_faults shelf.old }
    ensures counted { F.read_faults shelf.old ≤ F.read_faults shelf.new }
{
    let mut before = 0;
    for (at, file) in files.iter().enumerate() {
        let source = read_source(alloc, file, first + at as u32, before, shelf)?;
        before += source.length as usize;
        add_source(sources, source)?;
    }
    Ok(())
}

/// The sources of texts, in their order: those of any files that hold them, read one after another. No shelf is asked.
///
/// `Refused`: the text of this number is the first that has too many bytes or is the source of no module. It never answers `Failed`.
pub fn sources_of(alloc: Global, texts: &[Bytes]) -> Result<List<Source>, ReadFault>
    requires few { length texts.now < 2 ^ 32 }
    ensures sources { IfOk result (λ sources. (told : Option Files) (files : List (List ℕ)) → AreHeld told files texts.now
        → (after : ℕ) × AreRead told 0 files (sources_so sources) after) }
    ensures fault { IfErr result (λ fault. (told : Option Files) (files : List (List ℕ)) → AreHeld told files texts.now → TextFails told files fault) }
{
    let mut sources = List::new(alloc);
    match add_sources(alloc, texts, &mut sources) {
        Ok(()) => Ok(sources),
        Err(fault) => {
            discard_sources(sources);
            Err(fault)
        }
    }
}

// The same, where the sources go into a list that is empty.
#[tactic(auto, using(crate::proofs::TextsRead::texts_read))]
fn add_sources(alloc: Global, texts: &[Bytes], sources: &mut List<Source>) -> Result<(), ReadFault>
    requires few { length texts.now < 2 ^ 32 }
    requires empty { sources.old ≡ [] }
    ensures sources { OnOk result ((told : Option Files) (files : List (List ℕ)) → AreHeld told files texts.now
        → (after : ℕ) × AreRead told 0 files (sources_so sources.new) after) }
    ensures fault { IfErr result (λ fault. (told : Option Files) (files : List (List ℕ)) → AreHeld told files texts.now → TextFails told files fault) }
{
    let mut before = 0;
    for (at, text) in texts.iter().enumerate() {
        let source = source_of(alloc, text.as_slice(), at as u32, before)?;
        before += source.length as usize;
        add_source(sources, source)?;
    }
    Ok(())
}

// Adds a source at the end of a list.
fn add_source(sources: &mut List<Source>, source: Source) -> Result<(), ReadFault>
    ensures ok { OnOk result (sources.new ≡ sources.old ++ source ∷ []) }
    ensures err { IfErr result (λ fault. fault ≡ ReadFault.Memory) }
{
    match sources.push(source) {
        Ok(()) => Ok(()),
        Err((source, Memory)) => {
            discard_source(source);
            Err(ReadFault::Memory)
        }
    }
}

// Reads one file, where `before` bytes were read before it.
fn read_source<F: Shelf>(
    alloc: Global,
    file: &str,
    word: u32,
    before: usize,
    shelf: &mut F,
) -> Result<Source, ReadFault>
    requires { before ≤ MOST_BYTES }
    ensures source { IfOk result (λ source. IsReadAs (F.held shelf.old) file.now before source) }
    ensures bounded { IfOk result (λ source. before + source.length ≤ MOST_BYTES) }
    ensures told { IfOk result (λ source. IsTold F.told shelf.old shelf.new (file.now ∷ []) (λ held. IsReadAs held file.now before source)) }
    ensures fault { IfErr result (FailsOne (F.held shelf.old) file.now word before (F.read_faults shelf.old) (F.read_faults shelf.new)) }
    ensures told_fault { IfErr result (λ fault.
        IsTold F.told shelf.old shelf.new (file.now ∷ [])
        (λ held. FailsOne held file.now word before (F.read_faults shelf.old) (F.read_faults shelf.new) fault)) }
    ensures held { F.held shelf.new ≡ F.held shelf.old }
    ensures replaces { F.replace_faults shelf.new ≡ F.replace_faults shelf.old }
    ensures counted { F.read_faults shelf.old ≤ F.read_faults shelf.new }
{
    match shelf.read(file) {
        Ok(bytes) => source_of(alloc, bytes.as_slice(), word, before),
        Err(ShelfFault::Missing) => Err(ReadFault::Refused(word, MISSING)),
        Err(ShelfFault::Failed) => Err(ReadFault::Failed(word)),
        Err(ShelfFault::Memory) => Err(ReadFault::Memory),
    }
}

// The source that bytes are.
fn source_of(alloc: Global, bytes: &[u8], word: u32, before: usize) -> Result<Source, ReadFault>
    requires { before ≤ MOST_BYTES }
    ensures source { IfOk result (λ source. IsTextOf (room before) bytes.now (source_so source)) }
    ensures length { IfOk result (λ source. source.length ≡ length bytes.now) }
    ensures bounded { IfOk result (λ source. before + source.length ≤ MOST_BYTES) }
    ensures fault { IfErr result (FailsBytes bytes.now word before) }
{
    match accepted(alloc, bytes, room_after(before)) {
        Ok(checked) => Ok(Source {
            checked,
            digest: digest_of(bytes),
            length: bytes.len() as u64,
        }),
        Err(SourceError::AtFault(fault)) => Err(ReadFault::Refused(word, fault)),
        Err(SourceError::Memory) => Err(ReadFault::Memory),
    }
}

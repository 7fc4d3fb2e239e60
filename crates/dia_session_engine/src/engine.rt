//! Files that are held, and reports on them.
ghost use Rattle.std.specs.Prelude.{◌≡◌, ℕ, ◌<◌, ◌≤◌, List as ListOf, ◌++◌, ◌∷◌, [], false, length};
ghost use Rattle.std.specs.Prelude.{map, position, slice_get, slice_set, None, Some, IfNone, IfOk, IfErr, OnErr, OnOk};
ghost use Rattle.std.specs.List.{list_any, remove};
ghost use Rattle.std.specs.Str.{bytes_eq};
ghost use Rattle.std.specs.String.{string_bytes};
ghost use Rattle.analysis.specs.Reports.{IsSetFault};
ghost use Rattle.dia_session_engine.specs.Held.{AreReportsOn, HoldsOwnNames, IsPutFault, MayHold, files_in};
ghost use Rattle.dia_session_engine.specs.Held.{held_by, held_file, is_held, sources_in, with_file, without};
ghost use Rattle.dia_session_engine.specs.steps.Holding.{HasPlace};

use analysis::{Analysis, Fault, KeptReport, analyse_again, discard_kept};
use analysis_answers::MOST_FILES;
use analysis_crew::{CompMemo, discard_memo, empty_memo};
use analysis_sources::MOST_BYTES;
use da_shelf::Gate;
use indexmap::IndexSet;
use std::alloc::Global;
use std::marker::Model;
use std::sync::Wait;
use std::thread::Threads;
use table_keep::{Source, discard_source};
use type_kinds::{Bytes, List, Memory};

/// Files with their sources, in the order in which they were added. Contracts see the list of the files. A file is found by the hash of
/// its name. With them is kept what was solved for the last answer, and the reports on their modules, so that the next is found sooner.
#[derive(Drop)]
pub struct Engine {
    alloc: Global,
    names: IndexSet<String>,
    sources: Vec<Source>,
    bytes: u64,
    memo: CompMemo,
    kept: List<Option<KeptReport>>,
}

impl Model for Engine {
    ghost use Rattle.std.specs.Prelude.{ℕ, List, map};
    ghost use Rattle.std.specs.List.{zip};
    ghost use Rattle.std.specs.String.{string_bytes};
    ghost use Rattle.table_keep.specs.declared.source.Source.{Source as HandedIn};
    ghost use Rattle.dia_session_engine.specs.steps.Holding.{files_code, HasReports, IsKept};

    ghost Value = { List (List ℕ × HandedIn) };

    ghost coded = { files_code };

    ghost view = { λ e. zip (map string_bytes e.names.keys) e.sources.items };

    ghost invariant = { λ e. IsKept (map string_bytes e.names.keys) e.sources.items e.bytes × HasReports e.sources.items e.kept };
}

/// Why a file isn't held. What is held is as before.
#[derive(Clone, Copy, Debug, PartialEq, Eq)]
pub enum PutFault {
    /// The file is new, and 1,024 are held.
    TooMany,
    /// The texts of all files would have more than 64 MiB together.
    TooLong,
    /// Allocation failed. This says nothing of the file.
    Memory,
}

impl Engine {
    /// No files. Takes no memory.
    pub fn new(alloc: Global) -> Engine
        ensures { result ≡ [] }
    {
        Engine {
            alloc,
            names: IndexSet::new(alloc),
            sources: Vec::new(alloc),
            bytes: 0,
            memo: empty_memo(alloc),
            kept: List::new(alloc),
        }
    }

    /// Holds a file with this source: in the place of the one that has its name, or last. If it isn't held the source is dropped.
    pub fn put(&mut self, file: &str, source: Source) -> Result<(), PutFault>
        ensures ok { OnOk result (held_by self.new ≡ with_file (held_by self.old) (held_file file.now source)) }
        ensures fits { OnOk result (MayHold (held_by self.old) file.now source.length) }
        ensures fault { IfErr result (IsPutFault (held_by self.old) file.now source.length) }
        ensures err { OnErr result (self.new ≡ self.old) }
    {
        match self.place_for(file, source.length) {
            Ok(Some(at)) => {
                self.replace(at, source);
                Ok(())
            }
            Ok(None) => self.add(file, source),
            Err(fault) => {
                discard_source(source);
                Err(fault)
            }
        }
    }

    // The place of a file, and `None` where it is new, if a text of so many bytes may be held in it.
    fn place_for(&self, file: &str, bytes: u64) -> Result<Option<usize>, PutFault>
        ensures place { IfOk result (λ place. place ≡ position (bytes_eq file.now) (files_in (held_by self.now))) }
        ensures new { IfOk result (λ place. IfNone place (is_held (held_by self.now) file.now ≡ false)) }
        ensures fits { OnOk result (MayHold (held_by self.now) file.now bytes) }
        ensures fault { IfErr result (IsPutFault (held_by self.now) file.now bytes) }
    {
        match self.names.get_index_of(file) {
            Some(at) => {
                let others = self.bytes - self.sources[at].length;
                if bytes > MOST_BYTES as u64 - others {
                    return Err(PutFault::TooLong);
                }
                Ok(Some(at))
            }
            None => {
                if self.sources.len() >= MOST_FILES {
                    return Err(PutFault::TooMany);
                }
                if bytes > MOST_BYTES as u64 - self.bytes {
                    return Err(PutFault::TooLong);
                }
                Ok(None)
            }
        }
    }

    // Puts a source into the place of a file.
    fn replace(&mut self, at: usize, source: Source)
        requires { HasPlace (held_by self.old) at source.length }
        ensures { (file : ListOf ℕ) → position (bytes_eq file) (files_in (held_by self.old)) ≡ Some at
            → held_by self.new ≡ with_file (held_by self.old) (held_file file source) }
    {
        let length = source.length;
        let before = std::mem::replace(&mut self.sources[at], source);
        self.bytes = self.bytes - before.length + length;
        forget_report(&mut self.kept, at);
        discard_source(before);
    }

    // Adds a new file.
    fn add(&mut self, file: &str, source: Source) -> Result<(), PutFault>
        requires new { is_held (held_by self.old) file.now ≡ false }
        requires fits { MayHold (held_by self.old) file.now source.length }
        ensures ok { OnOk result (held_by self.new ≡ with_file (held_by self.old) (held_file file.now source)) }
        ensures fault { IfErr result (λ fault. fault ≡ PutFault.Memory) }
        ensures err { OnErr result (self.new ≡ self.old) }
    {
        let length = source.length;
        match add_file(self.alloc, &mut self.names, &mut self.sources, file, source) {
            Ok(()) => {
                self.bytes += length;
                Ok(())
            }
            Err(Memory) => Err(PutFault::Memory),
        }
    }

    /// Takes a file out, and closes up: `false` exactly where it isn't held, and then nothing changes. Takes no memory.
    pub fn drop_file(&mut self, file: &str) -> bool
        ensures there { result ≡ is_held (held_by self.old) file.now }
        ensures held { held_by self.new ≡ without (held_by self.old) file.now }
        ensures stays { result ≡ false → self.new ≡ self.old }
    {
        let Some(at) = self.names.get_index_of(file) else {
            return false;
        };
        let _name = self.names.shift_remove_index(at);
        let source = self.sources.remove(at);
        self.bytes -= source.length;
        let kept = std::mem::replace(&mut self.kept, List::new(self.alloc));
        self.kept = without_report(kept, at);
        discard_source(source);
        true
    }

    /// The reports on the modules of all files, in the order of the files: those of an analysis from scratch, whatever was held or asked
    /// before. What is held stays. The work is done by `workers` workers, of whom the caller is one, and the call may wait for them.
    ///
    /// `Set`: two modules have the same name.
    pub fn ask<R: Threads + Wait + Sync, G: Gate + Sync>(
        &mut self,
        rt: &R,
        workers: u32,
        gate: &G,
    ) -> Result<List<Bytes>, Fault>
        requires least { 1 ≤ workers }
        requires most { workers ≤ 64 }
        ensures distinct { OnOk result (HoldsOwnNames (held_by self.old)) }
        ensures reports { IfOk result (λ reports. AreReportsOn (held_by self.old) reports) }
        ensures set { IfErr result (IsSetFault (map (λ s. s.tree.name) (sources_in (held_by self.old)))) }
        ensures held { self.new ≡ self.old }
    {
        let memo = std::mem::replace(&mut self.memo, empty_memo(self.alloc));
        match analyse_again(
            rt,
            self.alloc,
            self.sources.as_slice(),
            &mut self.kept,
            memo,
            workers,
            gate,
        ) {
            Ok((analysis, memo)) => {
                self.keep(memo);
                Ok(reports_of(analysis))
            }
            Err(fault) => Err(fault),
        }
    }

    // Keeps a memo for the next answer.
    fn keep(&mut self, memo: CompMemo)
        ensures { self.new ≡ self.old }
    {
        discard_memo(std::mem::replace(&mut self.memo, memo));
    }

    /// The name of the file at a place.
    pub fn file_at(&self, at: u32) -> &str
        requires { at < length self.now }
        ensures { slice_get (files_in (held_by self.now)) at ≡ Some result.now }
    {
        self.names.as_slice()[at as usize].as_str()
    }
}

// The reports of an analysis, the rest of which is dropped.
fn reports_of(analysis: Analysis) -> List<Bytes>
    ensures { result ≡ analysis.reports }
{
    let Analysis { reports, .. } = analysis;
    reports
}

/// Drops an engine, with all that it holds.
pub fn discard_engine(engine: Engine) {
    let Engine { sources, memo, .. } = engine;
    discard_memo(memo);
    let mut sources = sources;
    while let Some(source) = sources.pop() {
        discard_source(source);
    }
}

// Forgets what is kept at a place, if there is one.
fn forget_report(kept: &mut List<Option<KeptReport>>, at: usize)
    ensures { kept.new ≡ slice_set kept.old at None }
{
    if at < kept.len() {
        discard_kept(kept.replace(at, None));
    }
}

// Takes out what is kept at a place, if there is one, and closes up.
fn without_report(kept: List<Option<KeptReport>>, at: usize) -> List<Option<KeptReport>>
    ensures { result ≡ remove kept at }
{
    let mut slots = kept.into_vec();
    if at < slots.len() {
        discard_kept(slots.remove(at));
    }
    List::from_vec(slots)
}

// Adds a file last, whose name isn't there. If there is no memory the source is dropped, and all is as before.
fn add_file(
    alloc: Global,
    names: &mut IndexSet<String>,
    sources: &mut Vec<Source>,
    file: &str,
    source: Source,
) -> Result<(), Memory>
    requires { list_any (bytes_eq file.now) (map string_bytes names.old.keys) ≡ false }
    ensures named { OnOk result (map string_bytes names.new.keys ≡ map string_bytes names.old.keys ++ file.now ∷ []) }
    ensures added { OnOk result (sources.new.items ≡ sources.old.items ++ source ∷ []) }
    ensures names_err { OnErr result (map string_bytes names.new.keys ≡ map string_bytes names.old.keys) }
    ensures sources_err { OnErr result (sources.new.items ≡ sources.old.items) }
{
    if sources.reserve(1).is_err() {
        discard_source(source);
        return Err(Memory);
    }
    if let Err(Memory) = add_name(alloc, names, file) {
        discard_source(source);
        return Err(Memory);
    }
    sources.push_reserved(source);
    Ok(())
}

// Adds a name last that isn't there.
fn add_name(alloc: Global, names: &mut IndexSet<String>, file: &str) -> Result<(), Memory>
    requires { list_any (bytes_eq file.now) (map string_bytes names.old.keys) ≡ false }
    ensures ok { OnOk result (map string_bytes names.new.keys ≡ map string_bytes names.old.keys ++ file.now ∷ []) }
    ensures err { OnErr result (names.new.keys ≡ names.old.keys) }
{
    let Ok(name) = String::from_str(alloc, file) else {
        return Err(Memory);
    };
    match names.insert(name) {
        Ok(_) => Ok(()),
        Err(_) => Err(Memory),
    }
}

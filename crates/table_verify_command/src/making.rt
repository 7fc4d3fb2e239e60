//! A certificate is made and put onto the shelf.
ghost use Rattle.std.specs.Prelude.{◌≡◌, ℕ, ◌+◌, ◌<◌, ◌^◌, List as ListOf, drop, length, slice_get, Some, IfOk, OnErr};
ghost use Rattle.table_keep.specs.Model.{sources_so};
ghost use Rattle.analysis_sources.specs.Words.{texts};
ghost use Rattle.table_verify_command.specs.Outcome.{Intended};
ghost use Rattle.table_verify_command.specs.Words.{Makes};
ghost use Rattle.table_verify_command.specs.steps.Judging.{IsPlanned, IsPutAs, IsSpelledAs, IsStored};

use crate::reading::named_files;
use analysis::{Fault, whole};
use analysis_answers::{
    FilesRead, RunAnswer, RunStatus, refuse, refuse_second, replace_fault_line,
};
use analysis_sources::{Device, RefusalName, SourceFault, discard_sources};
use core_scope::SetFault;
use da_shelf::{Gate, Shelf, ShelfFault};
use std::alloc::Global;
use std::sync::Wait;
use std::thread::Threads;
use table_file::{Table, WriteFault, write_table};
use table_keep::Source;
use type_kinds::{Bytes, List, Memory};

// The refusal of a certificate whose counts and lengths don't fit.
const TOO_LONG: SourceFault = SourceFault {
    name: RefusalName::TooLong,
    line: 0,
};

/// What is to be done with a certificate.
#[derive(Drop)]
pub enum CertificatePlan {
    /// Its bytes are to be put onto the shelf; and this line is written where the shelf fails.
    Puts(Bytes, Bytes),
    /// This is answered, and nothing is put there.
    Says(RunAnswer),
}

/// What a run answers that makes a certificate, once that was put onto the shelf. `Memory`: then the shelf holds what it held.
pub fn made<R: Threads + Wait + Sync, F: Shelf, G: Gate + Sync>(
    rt: &R,
    alloc: Global,
    words: &[&str],
    shelf: &mut F,
    gate: &G,
) -> Result<RunAnswer, Memory>
    requires { (cert : ListOf ℕ) × Makes (texts words.now) cert (drop 2 (texts words.now)) }
    ensures intended { IfOk result (λ a. Intended (texts words.now) (F.held shelf.old) (F.read_faults shelf.old) (F.read_faults shelf.new)
        (F.replace_faults shelf.old) (F.replace_faults shelf.new) a.status a.output (F.held shelf.new)) }
    ensures memory { OnErr result (F.held shelf.new ≡ F.held shelf.old) }
{
    match named_files(alloc, words, 2, shelf) {
        Ok(FilesRead::Reads(sources)) => {
            let plan = plan_of(rt, alloc, words, sources, gate)?;
            stored(alloc, words[1], plan, shelf)
        }
        Ok(FilesRead::Says(answer)) => Ok(answer),
        Err(Memory) => Err(Memory),
    }
}

// What is to be done with the certificate of sources, which are dropped.
fn plan_of<R: Threads + Wait + Sync, G: Gate + Sync>(
    rt: &R,
    alloc: Global,
    words: &[&str],
    sources: List<Source>,
    gate: &G,
) -> Result<CertificatePlan, Memory>
    requires some { 1 < length words.now }
    requires whole { 2 + length sources ≡ length words.now }
    requires few { length words.now < 2 ^ 32 }
    ensures { IfOk result (λ p. (name : ListOf ℕ) → slice_get (texts words.now) 1 ≡ Some name
        → IsPlanned (texts words.now) (sources_so sources) name p) }
{
    let plan = planned(rt, alloc, words, sources.as_slice(), gate);
    discard_sources(sources);
    plan
}

// The same for sources that are kept.
fn planned<R: Threads + Wait + Sync, G: Gate + Sync>(
    rt: &R,
    alloc: Global,
    words: &[&str],
    sources: &[Source],
    gate: &G,
) -> Result<CertificatePlan, Memory>
    requires some { 1 < length words.now }
    requires whole { 2 + length sources.now ≡ length words.now }
    requires few { length words.now < 2 ^ 32 }
    ensures { IfOk result (λ p. (name : ListOf ℕ) → slice_get (texts words.now) 1 ≡ Some name
        → IsPlanned (texts words.now) (sources_so sources.now) name p) }
{
    match whole(rt, alloc, sources, 1, gate) {
        Ok(cert) => spelled(alloc, words[1], &cert),
        Err(Fault::Set(SetFault::DuplicateModule { first, second })) => {
            let answer = refuse_second(alloc, words, 2 + first, 2 + second)?;
            Ok(CertificatePlan::Says(answer))
        }
        Err(Fault::Memory) => Err(Memory),
    }
}

// The bytes of a certificate for this name, or the refusal.
fn spelled(alloc: Global, name: &str, cert: &Table) -> Result<CertificatePlan, Memory>
    ensures { IfOk result (λ p. IsSpelledAs name.now cert.now p) }
{
    match write_table(alloc, cert) {
        Ok(bytes) => {
            let line = replace_fault_line(alloc, name)?;
            Ok(CertificatePlan::Puts(bytes, line))
        }
        Err(WriteFault::TooLong) => {
            let answer = refuse(alloc, name, 1, TOO_LONG)?;
            Ok(CertificatePlan::Says(answer))
        }
        Err(WriteFault::Memory) => Err(Memory),
    }
}

// Puts the certificate onto the shelf, if there is one, and gives what is answered then. Nothing but the shelf takes memory.
fn stored<F: Shelf>(
    alloc: Global,
    name: &str,
    plan: CertificatePlan,
    shelf: &mut F,
) -> Result<RunAnswer, Memory>
    ensures stored { IfOk result (λ a. IsStored name.now (F.held shelf.old) (F.held shelf.new) (F.replace_faults shelf.old)
        (F.replace_faults shelf.new) plan a) }
    ensures memory { OnErr result (F.held shelf.new ≡ F.held shelf.old) }
    ensures reads { F.read_faults shelf.new ≡ F.read_faults shelf.old }
{
    match plan {
        CertificatePlan::Puts(bytes, line) => put(alloc, name, bytes, line, shelf),
        CertificatePlan::Says(answer) => Ok(answer),
    }
}

// Puts the bytes under this name, and gives what is answered then, which is this line where the shelf fails.
fn put<F: Shelf>(
    alloc: Global,
    name: &str,
    bytes: Bytes,
    line: Bytes,
    shelf: &mut F,
) -> Result<RunAnswer, Memory>
    ensures put { IfOk result (λ a. IsPutAs name.now bytes line (F.held shelf.old) (F.held shelf.new) (F.replace_faults shelf.old)
        (F.replace_faults shelf.new) a) }
    ensures memory { OnErr result (F.held shelf.new ≡ F.held shelf.old) }
    ensures reads { F.read_faults shelf.new ≡ F.read_faults shelf.old }
{
    match shelf.replace(name, bytes.as_slice()) {
        Ok(()) => {
            let status = RunStatus::Done;
            let output = List::new(alloc);
            Ok(RunAnswer { status, output })
        }
        Err(ShelfFault::Failed) => {
            let status = RunStatus::DeviceFault(Device::Replace(1));
            let output = line;
            Ok(RunAnswer { status, output })
        }
        Err(ShelfFault::Memory) => Err(Memory),
        Err(ShelfFault::Missing) => unreachable!(),
    }
}

// From the bytes of a file to an accepted module.
ghost use Rattle.std.specs.Prelude.{◌≡◌, ◌≤◌, length, IfOk, IfErr};
ghost use Rattle.table_keep.specs.Few.{HasAtMost};
ghost use Rattle.core_scope.specs.Checked.{tree_of};
ghost use Rattle.analysis_sources.specs.Sources.{scan_refusal, parse_refusal, room, IsSource};
ghost use Rattle.analysis_sources.specs.steps.Refusing.{scope_refusal, told, Refuses};

use crate::refusals::{RefusalName, SourceFault};
use core_parse::{ParseFault, lexed_weight, parse};
use core_scan::{ScanFault, end_place, scan};
use core_scope::{Checked, ScopeFault, check};
use std::alloc::Global;
use table_keep::spelled_laws;
use type_kinds::Place;

/// The most bytes that a source may have, 16 MiB.
pub const LONGEST_SOURCE: usize = 16_777_216;

/// The most bytes that all sources may have together, 64 MiB.
pub const MOST_BYTES: usize = 67_108_864;

/// Why a source isn't accepted.
#[derive(Clone, Copy, Debug, PartialEq, Eq)]
pub enum SourceError {
    /// It has this fault.
    AtFault(SourceFault),
    /// Allocation failed. This says nothing of the source.
    Memory,
}

/// How many bytes a source may have, where those before it have `before` bytes.
pub fn room_after(before: usize) -> usize
    ensures value { result ≡ room before }
    ensures bounded { result ≤ LONGEST_SOURCE }
{
    LONGEST_SOURCE.min(MOST_BYTES.saturating_sub(before))
}

/// The accepted module that bytes, at most `most`, are the source of, or their fault.
pub fn accepted(alloc: Global, bytes: &[u8], most: usize) -> Result<Checked, SourceError>
    requires { most ≤ LONGEST_SOURCE }
    ensures source { IfOk result (λ checked. IsSource most bytes.now (tree_of checked)) }
    ensures few { IfOk result (λ checked. HasAtMost (tree_of checked) (length bytes.now)) }
    ensures fault { IfErr result (λ error. Refuses most bytes.now error) }
{
    if bytes.len() > most {
        return Err(SourceError::AtFault(SourceFault {
            name: RefusalName::TooLong,
            line: 0,
        }));
    }
    let tokens = match scan(alloc, bytes) {
        Ok(tokens) => tokens,
        Err(fault) => return Err(of_scan(fault)),
    };
    lexed_weight();
    spelled_laws();
    let module = match parse(alloc, tokens.as_slice(), end_place(bytes)) {
        Ok(module) => module,
        Err(fault) => return Err(of_parse(fault)),
    };
    match check(alloc, module) {
        Ok(checked) => Ok(checked),
        Err(fault) => Err(of_scope(fault)),
    }
}

// A refusal at a place.
fn at(name: RefusalName, place: Place) -> SourceError
    ensures { result ≡ SourceError.AtFault (record { name = name; line = place.line }) }
{
    SourceError::AtFault(SourceFault {
        name,
        line: place.line,
    })
}

// What a fault of the scanner says of the source.
fn of_scan(fault: ScanFault) -> SourceError
    ensures { result ≡ told (scan_refusal fault) }
{
    match fault {
        ScanFault::BadByte(place) => at(RefusalName::BadByte, place),
        ScanFault::OpenQuote(place) => at(RefusalName::OpenQuote, place),
        ScanFault::BadEscape(place) => at(RefusalName::BadEscape, place),
        ScanFault::WideInteger(place) => at(RefusalName::WideInteger, place),
        ScanFault::Memory => SourceError::Memory,
    }
}

// What a fault of the grammar says of the source.
fn of_parse(fault: ParseFault) -> SourceError
    ensures { result ≡ told (parse_refusal fault) }
{
    match fault {
        ParseFault::Syntax(place) => at(RefusalName::Syntax, place),
        ParseFault::TooDeep(place) => at(RefusalName::TooDeep, place),
        ParseFault::Memory => SourceError::Memory,
    }
}

// What a fault of scopes and degrees says of the source.
fn of_scope(fault: ScopeFault) -> SourceError
    ensures { result ≡ told (scope_refusal fault) }
{
    match fault {
        ScopeFault::Unbound(place) => at(RefusalName::Unbound, place),
        ScopeFault::RepeatedVariable(place) => at(RefusalName::RepeatedVariable, place),
        ScopeFault::UndefinedFunction(place) => at(RefusalName::UndefinedFunction, place),
        ScopeFault::RepeatedFunction(place) => at(RefusalName::RepeatedFunction, place),
        ScopeFault::BadExport(place) => at(RefusalName::BadExport, place),
        ScopeFault::Degree(place) => at(RefusalName::Degree, place),
        ScopeFault::Memory => SourceError::Memory,
    }
}

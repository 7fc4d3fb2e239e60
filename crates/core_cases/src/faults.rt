//! Faults of texts, and their places.
use core_parse::ParseFault;
use core_scan::ScanFault;
use core_scope::ScopeFault;
use type_kinds::{Bytes, Memory, Place};

/// Why a text isn't read: a fault's name and its place, or `Memory`, also where the text is too long.
#[derive(Clone, Copy)]
pub enum Refused {
    At(&'static str, Place),
    Memory,
}

impl From<Memory> for Refused {
    fn from(_: Memory) -> Refused {
        Refused::Memory
    }
}

impl From<ScanFault> for Refused {
    fn from(fault: ScanFault) -> Refused {
        match fault {
            ScanFault::BadByte(place) => Refused::At("BadByte", place),
            ScanFault::OpenQuote(place) => Refused::At("OpenQuote", place),
            ScanFault::BadEscape(place) => Refused::At("BadEscape", place),
            ScanFault::WideInteger(place) => Refused::At("WideInteger", place),
            ScanFault::Memory => Refused::Memory,
        }
    }
}

impl From<ParseFault> for Refused {
    fn from(fault: ParseFault) -> Refused {
        match fault {
            ParseFault::Syntax(place) => Refused::At("Syntax", place),
            ParseFault::TooDeep(place) => Refused::At("TooDeep", place),
            ParseFault::Memory => Refused::Memory,
        }
    }
}

impl From<ScopeFault> for Refused {
    fn from(fault: ScopeFault) -> Refused {
        match fault {
            ScopeFault::Unbound(place) => Refused::At("Unbound", place),
            ScopeFault::RepeatedVariable(place) => Refused::At("RepeatedVariable", place),
            ScopeFault::UndefinedFunction(place) => Refused::At("UndefinedFunction", place),
            ScopeFault::RepeatedFunction(place) => Refused::At("RepeatedFunction", place),
            ScopeFault::BadExport(place) => Refused::At("BadExport", place),
            ScopeFault::Degree(place) => Refused::At("Degree", place),
            ScopeFault::Memory => Refused::Memory,
        }
    }
}

/// Appends a fault's name, its byte and its line.
pub fn append_refused(refused: Refused, out: &mut Bytes) -> Result<(), Memory> {
    match refused {
        Refused::At(name, place) => {
            out.append(name.as_bytes())?;
            out.append(b" ")?;
            append_place(place, out)
        }
        Refused::Memory => Err(Memory),
    }
}

/// Appends a byte and a line.
pub fn append_place(place: Place, out: &mut Bytes) -> Result<(), Memory> {
    out.append_decimal(place.byte)?;
    out.append(b":")?;
    out.append_decimal(place.line)
}

/// Appends a fault, and the text from a byte on, with a `^` at the fault's place.
pub fn append_marked(
    refused: Refused,
    text: &[u8],
    from: usize,
    out: &mut Bytes,
) -> Result<(), Memory> {
    append_refused(refused, out)?;
    let at = match refused {
        Refused::At(_, place) => place.byte as usize,
        Refused::Memory => 0,
    };
    out.append(b" ")?;
    match (text.get(from..at), text.get(at..)) {
        (Some(before), Some(behind)) => {
            out.append(before)?;
            out.append(b"^")?;
            out.append(behind)
        }
        _ => out.append(b"elsewhere"),
    }
}

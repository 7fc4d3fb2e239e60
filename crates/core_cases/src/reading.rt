//! Texts that are read as modules.
use crate::faults::{Refused, append_marked, append_refused};
use crate::tree_texts::Printer;
use core_ast::{Module, discard_module, same};
use core_parse::{lexed_weight, parse};
use core_print::print;
use core_scan::{end_place, scan};
use core_scope::{Checked, check, discard_checked};
use std::alloc::Global;
use type_kinds::{Bytes, Memory};

/// The module that a text spells. `Memory`, too, where the text has more than 10,000 bytes.
pub fn module_of(alloc: Global, text: &[u8]) -> Result<Module, Refused> {
    if text.len() > 10000 {
        return Err(Refused::Memory);
    }
    let tokens = scan(alloc, text)?;
    lexed_weight();
    match parse(alloc, tokens.as_slice(), end_place(text)) {
        Ok(module) => Ok(module),
        Err(fault) => Err(Refused::from(fault)),
    }
}

// The same, where it breaks no rule of scopes and degrees.
fn checked_of(alloc: Global, text: &[u8]) -> Result<Checked, Refused> {
    if text.len() > 10000 {
        return Err(Refused::Memory);
    }
    let tokens = scan(alloc, text)?;
    lexed_weight();
    match parse(alloc, tokens.as_slice(), end_place(text)) {
        Ok(source) => match check(alloc, source) {
            Ok(checked) => Ok(checked),
            Err(fault) => Err(Refused::from(fault)),
        },
        Err(fault) => Err(Refused::from(fault)),
    }
}

/// Appends whether a text is a module, or its first fault with what is shown of the text.
pub fn append_read(alloc: Global, text: &[u8], from: usize, out: &mut Bytes) -> Result<(), Memory> {
    match module_of(alloc, text) {
        Ok(module) => {
            discard_module(module);
            out.append(b"a module")
        }
        Err(refused) => append_marked(refused, text, from, out),
    }
}

/// Appends whether a text is a module that is accepted, or its first fault with what is shown of the text.
pub fn append_checked(
    alloc: Global,
    text: &[u8],
    from: usize,
    out: &mut Bytes,
) -> Result<(), Memory> {
    match checked_of(alloc, text) {
        Ok(checked) => {
            discard_checked(checked);
            out.append(b"accepted")
        }
        Err(refused) => append_marked(refused, text, from, out),
    }
}

/// Appends the tree of the module that a text spells.
pub fn append_tree(alloc: Global, text: &[u8], from: usize, out: &mut Bytes) -> Result<(), Memory> {
    match module_of(alloc, text) {
        Ok(module) => {
            let mut printer = Printer::new(alloc, from as u64);
            let answer = printer.module(alloc, &module);
            discard_module(module);
            let answer = match answer {
                Ok(()) => out.append(printer.out.as_slice()),
                Err(Memory) => Err(Memory),
            };
            drop(printer);
            answer
        }
        Err(refused) => append_refused(refused, out),
    }
}

/// Appends the canonical text of the module that a text spells, and whether it is read back as the same module.
pub fn append_printed(alloc: Global, text: &[u8], out: &mut Bytes) -> Result<(), Memory> {
    match module_of(alloc, text) {
        Ok(module) => {
            let answer = append_print(alloc, &module, out);
            discard_module(module);
            answer
        }
        Err(refused) => append_refused(refused, out),
    }
}

fn append_print(alloc: Global, module: &Module, out: &mut Bytes) -> Result<(), Memory> {
    let printed = print(alloc, module)?;
    let answer = append_read_back(alloc, module, printed.as_slice(), out);
    drop(printed);
    answer
}

fn append_read_back(
    alloc: Global,
    module: &Module,
    text: &[u8],
    out: &mut Bytes,
) -> Result<(), Memory> {
    out.append(text)?;
    match module_of(alloc, text) {
        Ok(again) => {
            let is_same = same(module, &again);
            discard_module(again);
            out.append(if is_same {
                b"read back"
            } else {
                b"read back as another"
            })
        }
        Err(refused) => append_refused(refused, out),
    }
}

//! Typings, as texts.
use cons_tree::{Callee, Sig, Summaries, Summary};
use core_ast::{FunName, Module};
use type_kinds::{Atom, Bytes, Memory};
use type_text::print;

/// Appends the typings of all functions of a module, a line each, in the order of its text.
pub fn append_typings(known: &Summaries, module: &Module, out: &mut Bytes) -> Result<(), Memory> {
    for def in module.defs.as_slice() {
        append_typing(known, &module.name, &def.get().name, out)?;
    }
    Ok(())
}

// The typing of a function, if there is one.
fn append_typing(
    known: &Summaries,
    home: &Atom,
    name: &FunName,
    out: &mut Bytes,
) -> Result<(), Memory> {
    match known.find(home, name) {
        Callee::Known(summary) | Callee::Local(summary) => append_summary(summary, out),
        _ => out.append(b"none\n"),
    }
}

// The strict signature of a function, and the lenient one where it is another.
fn append_summary(summary: &Summary, out: &mut Bytes) -> Result<(), Memory> {
    append_signature(summary.strict.get(), out)?;
    if summary.strict.get() != summary.lenient.get() {
        out.append(b", leniently ")?;
        append_signature(summary.lenient.get(), out)?;
    }
    out.append(b"\n")
}

// Appends the text of a signature.
fn append_signature(sig: &Sig, out: &mut Bytes) -> Result<(), Memory> {
    out.append(b"(")?;
    let mut is_first = true;
    for arg in sig.args.as_slice() {
        if !is_first {
            out.append(b",")?;
        }
        is_first = false;
        print(arg, out)?;
    }
    out.append(b") -> ")?;
    print(&sig.result, out)
}

// The module.
ghost use Rattle.std.specs.Prelude.{◌≡◌, [], ◌∷◌, IfOk, OnOk, codes};
ghost use Rattle.core_ast.specs.Tree.{all_defs, module_tree};
ghost use Rattle.core_print.specs.Words as w;
ghost use Rattle.core_print.specs.Canonical.{canonical, definitions, opened};
ghost use Rattle.core_print.specs.steps.Writes.{Begins, Writes};
ghost use Rattle.core_print.specs.steps.Parts.{header};

use crate::leaves::{append_atom, append_exports};
use crate::lists::append_definition;
use crate::notes::{append_closed, is_written};
use core_ast::{FunDef, Module, Note};
use std::alloc::Global;
use type_kinds::{Bytes, Memory, Shared};

/// The canonical text of a module: the tokens of its forms with one space between each two, and LF
/// at the end. Attributes are empty; a note with a line or with `generated` is written as an
/// annotation of these alone; places don't count. The depth of the module is the depth of the calls.
pub fn print(alloc: Global, source: &Module) -> Result<Bytes, Memory>
    ensures { IfOk result (λ text. text ≡ canonical (module_tree source.now)) }
{
    let mut out = Bytes::new(alloc);
    append_module(source, &mut out)?;
    Ok(out)
}

// Appends a module's text to an empty one.
fn append_module(source: &Module, out: &mut Bytes) -> Result<(), Memory>
    requires { out.old ≡ [] }
    ensures { OnOk result (out.new ≡ canonical (module_tree source.now)) }
{
    append_first(&source.note, out)?;
    append_header(source, out)?;
    append_definitions(source.defs.as_slice(), out)?;
    out.append(b" end")?;
    append_closed(&source.note, out)?;
    out.append(b"\n")
}

// Appends the word `module` to an empty text, and what opens its annotation.
fn append_first(note: &Note, out: &mut Bytes) -> Result<(), Memory>
    requires { out.old ≡ [] }
    ensures { OnOk result (Begins (λ rest. opened note.now (w.reserved (codes "module") ∷ rest)) out.new) }
{
    if is_written(note) {
        return out.append(b"( module");
    }
    out.append(b"module")
}

// Appends what stands between the word `module` and the definitions.
fn append_header(source: &Module, out: &mut Bytes) -> Result<(), Memory>
    ensures { OnOk result (Writes (header source.now.name source.now.exports) out.old out.new) }
{
    append_atom(&source.name, out)?;
    out.append(b" [")?;
    append_exports(source.exports.as_slice(), out)?;
    out.append(b" ] attributes [ ]")
}

// Appends the definitions of a module.
fn append_definitions(shared: &[Shared<FunDef>], out: &mut Bytes) -> Result<(), Memory>
    ensures { OnOk result (Writes (definitions (all_defs shared.now)) out.old out.new) }
{
    for definition in shared {
        append_definition(definition.get(), out)?;
    }
    Ok(())
}

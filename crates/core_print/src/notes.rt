// Notes as annotations.
ghost use Rattle.std.specs.Prelude.{◌≡◌, OnOk};
ghost use Rattle.core_print.specs.Canonical.{is_written, note_items, annotation, opened, closed};
ghost use Rattle.core_print.specs.steps.Writes.{Writes};

use core_ast::Note;
use type_kinds::{Bytes, Memory};

/// Whether a note is written: it has a line, or `generated`.
pub fn is_written(note: &Note) -> bool
    ensures { result ≡ is_written note.now.line note.now.generated }
{
    note.line.is_some() || note.generated
}

/// Appends what stands before that to which a note belongs.
pub fn append_opened(note: &Note, out: &mut Bytes) -> Result<(), Memory>
    ensures { OnOk result (Writes (opened note.now) out.old out.new) }
{
    if is_written(note) {
        return out.append(b" (");
    }
    Ok(())
}

/// Appends what stands behind that to which a note belongs.
pub fn append_closed(note: &Note, out: &mut Bytes) -> Result<(), Memory>
    ensures { OnOk result (Writes (closed note.now) out.old out.new) }
{
    if is_written(note) {
        return append_annotation(note, out);
    }
    Ok(())
}

/// Appends an annotation, also one of nothing.
pub fn append_annotation(note: &Note, out: &mut Bytes) -> Result<(), Memory>
    ensures { OnOk result (Writes (annotation note.now) out.old out.new) }
{
    out.append(b" -| [")?;
    append_items(note, out)?;
    out.append(b" ] )")
}

// Appends the line, and whether the compiler made the node.
fn append_items(note: &Note, out: &mut Bytes) -> Result<(), Memory>
    ensures { OnOk result (Writes (note_items note.now.line note.now.generated) out.old out.new) }
{
    if let Some(line) = note.line {
        out.append(b" ")?;
        out.append_decimal(line)?;
        if note.generated {
            return out.append(b" , 'compiler_generated'");
        }
        return Ok(());
    }
    if note.generated {
        return out.append(b" 'compiler_generated'");
    }
    Ok(())
}

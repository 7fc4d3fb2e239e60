// One node.
ghost use Rattle.std.specs.Prelude.{◌≡◌, ◌∷◌, [], ◌++◌, unwrap_or, OnOk};
ghost use Rattle.core_lines.specs.Lines.{noted};

use core_ast::Mark;
use type_kinds::{List, Memory};

/// The line of the innermost note, of a node with this mark and of what stands around it.
pub fn noted(around: Option<u32>, mark: Mark) -> Option<u32>
    ensures { result ≡ noted around mark }
{
    mark.note.line.or(around)
}

/// Adds the line of a node with this mark, where the innermost note has this line.
pub fn add_line(out: &mut List<u32>, inner: Option<u32>, mark: Mark) -> Result<(), Memory>
    ensures { OnOk result (out.new ≡ out.old ++ unwrap_or inner mark.place.line ∷ []) }
{
    out.add(inner.unwrap_or(mark.place.line))
}

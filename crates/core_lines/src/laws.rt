//! What holds of the definitions, as a function that does nothing: who calls it has its clause.
ghost use Rattle.std.specs.Prelude.{◌≡◌, length};
ghost use Rattle.core_ast.specs.Model as m;
ghost use Rattle.core_scope.specs.Labels.{labels_of};
ghost use Rattle.core_lines.specs.Lines.{lines_of};

/// A module has a line for each of its labels.
pub fn as_many_as_labels()
    ensures { (x : m.Module) → length (lines_of x) ≡ length (labels_of x) }
{}

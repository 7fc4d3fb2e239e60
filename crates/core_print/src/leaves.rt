// Words that hold no others: names, literals, variables of lists.
ghost use Rattle.std.specs.Prelude.{◌≡◌, ◌∷◌, ◌++◌, OnOk, codes, true};
ghost use Rattle.core_ast.specs.declared.syntax.Literal.TheVariants as l;
ghost use Rattle.core_print.specs.Words as w;
ghost use Rattle.core_print.specs.Canonical.{comma, function_name, literal, literal_tail, noted, variable_in_list, variables, exports};
ghost use Rattle.core_print.specs.steps.Writes.{Writes};

use crate::notes::{append_annotation, append_closed, append_opened, is_written};
use core_ast::{FunName, Literal, Note, VarName};
use type_kinds::{Atom, Bytes, Memory};

/// Appends a comma, but before the first item.
pub fn append_comma(first: bool, out: &mut Bytes) -> Result<(), Memory>
    ensures { OnOk result (Writes (comma first) out.old out.new) }
{
    if first {
        return Ok(());
    }
    out.append(b" ,")
}

/// Appends a variable.
pub fn append_variable(name: &Atom, out: &mut Bytes) -> Result<(), Memory>
    ensures { OnOk result (Writes (λ rest. w.variable name.now ∷ rest) out.old out.new) }
{
    out.append(b" ")?;
    out.append(name.bytes())
}

/// Appends an atom.
pub fn append_atom(name: &Atom, out: &mut Bytes) -> Result<(), Memory>
    ensures { OnOk result (Writes (λ rest. w.atom name.now ∷ rest) out.old out.new) }
{
    out.append(b" ")?;
    name.text(out)
}

/// Appends a function's name.
pub fn append_name(name: &FunName, out: &mut Bytes) -> Result<(), Memory>
    ensures { OnOk result (Writes (function_name name.now) out.old out.new) }
{
    append_atom(&name.name, out)?;
    out.append(b" / ")?;
    out.append_decimal(name.arity)
}

/// Appends the name of a function of a module.
pub fn append_external(home: &Atom, name: &FunName, out: &mut Bytes) -> Result<(), Memory>
    ensures { OnOk result (Writes (λ rest. w.reserved (codes "fun") ∷ w.atom home.now ∷ w.symbol (codes ":") ∷ function_name name.now rest) out.old
        out.new) }
{
    out.append(b" fun")?;
    append_atom(home, out)?;
    out.append(b" :")?;
    append_name(name, out)
}

/// Appends a literal.
pub fn append_literal(value: &Literal, out: &mut Bytes) -> Result<(), Memory>
    ensures { OnOk result (Writes (literal value.now) out.old out.new) }
{
    match value {
        Literal::Int(n) => append_integer(*n, out),
        Literal::Float(spelling) => append_float(spelling, out),
        Literal::Atom(name) => append_atom(name, out),
        Literal::Nil => out.append(b" [ ]"),
    }
}

/// Appends a literal as the tail of a list: nothing for nil without a note.
pub fn append_literal_tail(value: &Literal, note: &Note, out: &mut Bytes) -> Result<(), Memory>
    ensures { OnOk result (Writes (literal_tail note.now value.now) out.old out.new) }
{
    match value {
        Literal::Nil => append_nil_tail(note, out),
        value => {
            out.append(b" |")?;
            append_noted_literal(value, note, out)
        }
    }
}

// Appends nil as the tail of a list, if it has a note.
fn append_nil_tail(note: &Note, out: &mut Bytes) -> Result<(), Memory>
    ensures { OnOk result (Writes (literal_tail note.now l.Nil) out.old out.new) }
{
    if is_written(note) {
        out.append(b" | ( [ ]")?;
        return append_annotation(note, out);
    }
    Ok(())
}

// Appends a literal with its note.
fn append_noted_literal(value: &Literal, note: &Note, out: &mut Bytes) -> Result<(), Memory>
    ensures { OnOk result (Writes (noted note.now (literal value.now)) out.old out.new) }
{
    append_opened(note, out)?;
    append_literal(value, out)?;
    append_closed(note, out)
}

// Appends an integer.
fn append_integer(n: i128, out: &mut Bytes) -> Result<(), Memory>
    ensures { OnOk result (Writes (λ rest. w.integer n ∷ rest) out.old out.new) }
{
    out.append(b" ")?;
    out.append_decimal(n)
}

// Appends a float as it was spelled.
fn append_float(spelling: &Bytes, out: &mut Bytes) -> Result<(), Memory>
    ensures { OnOk result (Writes (λ rest. w.float spelling.now ∷ rest) out.old out.new) }
{
    out.append(b" ")?;
    out.append(spelling.as_slice())
}

/// Appends a variable of a list, or of an alias.
pub fn append_listed_variable(variable: &VarName, out: &mut Bytes) -> Result<(), Memory>
    ensures { OnOk result (Writes (variable_in_list variable.now) out.old out.new) }
{
    append_opened(&variable.note, out)?;
    append_variable(&variable.name, out)?;
    append_closed(&variable.note, out)
}

/// Appends variables with commas between them.
pub fn append_variables(list: &[VarName], out: &mut Bytes) -> Result<(), Memory>
    ensures { OnOk result (Writes (variables true list.now) out.old out.new) }
{
    let mut first = true;
    for variable in list {
        append_comma(first, out)?;
        first = false;
        append_listed_variable(variable, out)?;
    }
    Ok(())
}

/// Appends exports with commas between them.
pub fn append_exports(names: &[FunName], out: &mut Bytes) -> Result<(), Memory>
    ensures { OnOk result (Writes (exports true names.now) out.old out.new) }
{
    let mut first = true;
    for name in names {
        append_comma(first, out)?;
        first = false;
        append_name(name, out)?;
    }
    Ok(())
}

//! Typings as lines.
ghost use Rattle.std.specs.Prelude.{◌≡◌, ◌++◌, codes, map, OnOk};
ghost use Rattle.type_text.specs.Texts.{after, separated, text_of};
ghost use Rattle.typer_lines.specs.Lines.{name_text, signature_text, typing_line};

use crate::typing::Typing;
use cons_tree::Sig;
use core_ast::FunName;
use type_kinds::{Atom, Bytes, Memory};
use type_lattice::Ty;
use type_text::print;

impl Typing {
    /// Appends the line. If allocation fails a part of the line may be added.
    pub fn append_line(&self, out: &mut Bytes) -> Result<(), Memory>
        ensures { OnOk result (out.new ≡ out.old ++ typing_line self.now) }
    {
        append_line_of(&self.home, &self.name, &self.sig, out)
    }
}

/// Appends the line of this signature of the function of this name. If allocation fails a part of the line may be added.
pub fn append_line_of(home: &Atom, name: &FunName, sig: &Sig, out: &mut Bytes) -> Result<(), Memory>
    ensures { OnOk result (out.new ≡ out.old ++ typing_line (record { home = home.now; name = name.now; sig = sig.now })) }
{
    home.text(out)?;
    append_name(name, out)?;
    out.append(b" ")?;
    append_signature(sig, out)?;
    out.append(b"\n")
}

// Appends the name behind its module.
fn append_name(name: &FunName, out: &mut Bytes) -> Result<(), Memory>
    ensures { OnOk result (out.new ≡ out.old ++ name_text name.now) }
{
    out.append(b":")?;
    name.name.text(out)?;
    out.append(b"/")?;
    out.append_decimal(name.arity)
}

// Appends the types of the arguments and of the value.
fn append_signature(sig: &Sig, out: &mut Bytes) -> Result<(), Memory>
    ensures { OnOk result (out.new ≡ out.old ++ signature_text sig.now) }
{
    out.append(b"(")?;
    append_types(sig.args.as_slice(), out)?;
    out.append(b") -> ")?;
    print(&sig.result, out)
}

// Appends the types with commas between.
fn append_types(types: &[Ty], out: &mut Bytes) -> Result<(), Memory>
    ensures { OnOk result (out.new ≡ out.old ++ separated (codes ",") (map text_of types.now)) }
{
    let Some((first, later)) = types.split_first() else {
        return Ok(());
    };
    print(first, out)?;
    append_later(later, out)
}

// Appends types with a comma before each.
fn append_later(types: &[Ty], out: &mut Bytes) -> Result<(), Memory>
    ensures { OnOk result (out.new ≡ out.old ++ after (codes ",") (map text_of types.now)) }
{
    for ty in types {
        out.append(b",")?;
        print(ty, out)?;
    }
    Ok(())
}

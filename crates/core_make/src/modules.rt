ghost use Rattle.std.specs.Prelude.{◌≡◌, ◌++◌, ◌<◌, ◌≤◌, IfOk, OnOk};
ghost use Rattle.core_make.specs.Modules.{name_text, header, zero_clause, pair_clause, f_text, b_text, where_three_divides, module_text, generated};

use std::alloc::Global;
use type_kinds::{Bytes, List, Memory};

/// How many modules there may be.
pub const MOST_MODULES: u32 = 1000;

/// The texts of `n` modules that call one another in a ring, in the order of their numbers from 0 on. Fails only if
/// allocation fails.
pub fn make(alloc: Global, n: u32) -> Result<List<Bytes>, Memory>
    requires least { 1 ≤ n }
    requires most { n ≤ MOST_MODULES }
    ensures { IfOk result (λ texts. texts ≡ generated n) }
{
    let mut texts = List::new(alloc);
    for i in 0..n {
        let text = module_text(alloc, n, i)?;
        texts.add(text)?;
    }
    Ok(texts)
}

// The text of the module of number `i` among `n`.
fn module_text(alloc: Global, n: u32, i: u32) -> Result<Bytes, Memory>
    requires { i < n }
    ensures { IfOk result (λ text. text ≡ module_text n i) }
{
    let mut text = List::new(alloc);
    append_header(i, &mut text)?;
    append_f(n, i, &mut text)?;
    text.append(b"'h'/1 = fun (X) -> call 'erlang':'+'(X,1)\n")?;
    text.append(b"'w'/1 = fun (X) -> apply 'h'/1(X)\n")?;
    append_b(i, &mut text)?;
    text.append(b"end\n")?;
    Ok(text)
}

// Adds the line with the module's name and its exports.
fn append_header(i: u32, out: &mut Bytes) -> Result<(), Memory>
    ensures { OnOk result (out.new ≡ out.old ++ header i) }
{
    out.append(b"module ")?;
    append_name(i, out)?;
    out.append(b" ['f'/1,'w'/1")?;
    if i % 3 == 0 {
        out.append(b",'b'/0")?;
    }
    out.append(b"] attributes []\n")
}

// Adds the function that calls the next module.
fn append_f(n: u32, i: u32, out: &mut Bytes) -> Result<(), Memory>
    requires { i < n }
    ensures { OnOk result (out.new ≡ out.old ++ f_text n i) }
{
    out.append(b"'f'/1 = fun (X) -> case X of\n")?;
    append_zero_clause(i, out)?;
    append_pair_clause((i + 1) % n, out)
}

// Adds the clause that answers an atom of the module's own.
fn append_zero_clause(i: u32, out: &mut Bytes) -> Result<(), Memory>
    ensures { OnOk result (out.new ≡ out.old ++ zero_clause i) }
{
    out.append(b"<0> when 'true' -> 'z")?;
    out.append_decimal(i)?;
    out.append(b"'\n")
}

// Adds the clause that calls the module of the number passed.
fn append_pair_clause(next: u32, out: &mut Bytes) -> Result<(), Memory>
    ensures { OnOk result (out.new ≡ out.old ++ pair_clause next) }
{
    out.append(b"<{'ok',Y}> when 'true' -> call ")?;
    append_name(next, out)?;
    out.append(b":'f'(Y) end\n")
}

// Adds the function that never gives a value, where the module has it.
fn append_b(i: u32, out: &mut Bytes) -> Result<(), Memory>
    ensures { OnOk result (out.new ≡ out.old ++ where_three_divides i b_text) }
{
    if i % 3 == 0 {
        out.append(b"'b'/0 = fun () -> apply 'h'/1('no')\n")?;
    }
    Ok(())
}

// Adds the name of the module of this number.
fn append_name(i: u32, out: &mut Bytes) -> Result<(), Memory>
    ensures { OnOk result (out.new ≡ out.old ++ name_text i) }
{
    out.append(b"'g")?;
    out.append_decimal(i)?;
    out.append(b"'")
}

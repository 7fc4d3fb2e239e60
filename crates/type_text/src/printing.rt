//! Types as text.
ghost use Rattle.std.specs.Prelude.{◌≡◌, [], ◌∷◌, ◌++◌, length, map, take, codes, OnOk, OnErr};
ghost use Rattle.std.specs.Fmt.{decimal, signed_decimal};
ghost use Rattle.type_kinds.specs.Quoted.{quoted};
ghost use Rattle.type_text.specs.Texts.{text_of, text_at, word_if, atom_words, low_text as low_model, high_text as high_model, range_word, int_words};
ghost use Rattle.type_text.specs.Texts.{bits_words, function_words, plain_words, cell_words, tuple_word, tag_words, body_words, size_words, tuples_words};
ghost use Rattle.type_text.specs.Adds.{row_text, Adds};
ghost use Rattle.type_lattice_trees.specs.Plains.{functions_of};
ghost use Rattle.type_lattice_trees.specs.View.{view, Fits, row_view, tags_view, body_view, sizes_view, tuples_view};
ghost use Rattle.type_lattice_trees.specs.View.{cell_view, EachNode, EachTag, EachInBody, EachSize, EachInTuples, EachInCell};

use type_kinds::{Atom, Bytes, Memory, Shared};
use type_kinds_sets::{AtomSet, Bits, High, IntSet, Low};
use type_lattice::Ty;
use type_lattice_trees::{BodyOf, CellOf, FunSet, Node, Plain, SizeOf, TagOf, TuplesOf, is_none};

/// Appends the text of the type: `none()`, `any()`, or what its parts have with ` | ` between, part by
/// part. A type has one text. If allocation fails `out` is as before.
#[tactic(auto, unfolding(crate::specs::Texts::text_of))]
pub fn print(t: &Ty, out: &mut Bytes) -> Result<(), Memory>
    ensures ok { OnOk result (out.new ≡ out.old ++ text_of t.now) }
    ensures err { OnErr result (out.new ≡ out.old) }
{
    let before = out.len();
    let answer = append_type(4, t.node(), out);
    out.or_truncate(before, answer)
}

// Appends the text of the type that the tree stands for.
#[tactic(auto, using(type_lattice_trees::proofs::Views::of_above, crate::proofs::Prints::each_below, type_lattice_trees::proofs::Views::view_any, crate::proofs::Prints::any_text, crate::proofs::Prints::text_of_none, std::proofs::lemmas::Result::on_ok_weaker))]
#[cycle(print)]
fn append_type(level: u32, t: &Node, out: &mut Bytes) -> Result<(), Memory>
    requires { Fits level t.now }
    ensures ok { OnOk result (out.new ≡ out.old ++ text_at level (view level t.now)) }
    ensures front { take (length out.old) out.new ≡ out.old }
{
    let Node::Of(parts) = t else {
        return out.append(b"any()");
    };
    if is_none(t) {
        return out.append(b"none()");
    }
    let mut some = false;
    append_plain(&parts.plain, &mut some, out)?;
    append_cell(level - 1, &parts.cell, &mut some, out)?;
    append_tuples(level - 1, &parts.tuples, &mut some, out)
}

// Appends the word of the lists that aren't empty, if there are some. Here and below, `some` says
// whether a word stands already, and so whether the next one has a separator before it, and the
// level is that of the elements.
#[cycle(print)]
fn append_cell(
    level: u32,
    cell: &Option<CellOf<Node>>,
    some: &mut bool,
    out: &mut Bytes,
) -> Result<(), Memory>
    requires { EachInCell (Fits level) cell.now }
    ensures ok { OnOk result (Adds (codes " | ") (cell_words (text_at level) (cell_view level cell.now)) some.old some.new out.old out.new) }
    ensures front { take (length out.old) out.new ≡ out.old }
{
    let Some(cell) = cell else {
        return Ok(());
    };
    separate(b" | ", some, out)?;
    out.append(if cell.is_proper {
        b"cons("
    } else {
        b"cons_any("
    })?;
    append_type(level, cell.element.get(), out)?;
    out.append(b")")
}

// Appends the words of the tuples.
#[cycle(print)]
fn append_tuples(
    level: u32,
    tuples: &TuplesOf<Node>,
    some: &mut bool,
    out: &mut Bytes,
) -> Result<(), Memory>
    requires { EachInTuples (Fits level) tuples.now }
    ensures ok { OnOk result (Adds (codes " | ") (tuples_words (text_at level) (tuples_view level tuples.now)) some.old some.new out.old out.new) }
    ensures front { take (length out.old) out.new ≡ out.old }
{
    match tuples {
        TuplesOf::All => append_word(b"tuple()", some, out),
        TuplesOf::Sizes(sizes) => append_sizes(level, sizes.as_slice(), some, out),
    }
}

// Appends the words of the tuples of these sizes.
#[tactic(auto, using(crate::proofs::Adding::still_front))]
#[cycle(print)]
fn append_sizes(
    level: u32,
    sizes: &[SizeOf<Node>],
    some: &mut bool,
    out: &mut Bytes,
) -> Result<(), Memory>
    requires { EachSize (Fits level) sizes.now }
    ensures ok { OnOk result (Adds (codes " | ") (size_words (text_at level) (sizes_view level sizes.now)) some.old some.new out.old out.new) }
    ensures front { take (length out.old) out.new ≡ out.old }
{
    for size in sizes {
        append_body(level, &size.body, some, out)?;
    }
    Ok(())
}

// Appends the words of the tuples of one size: one word for a product, and one for each tag.
#[cycle(print)]
fn append_body(
    level: u32,
    body: &BodyOf<Node>,
    some: &mut bool,
    out: &mut Bytes,
) -> Result<(), Memory>
    requires { EachInBody (Fits level) body.now }
    ensures ok { OnOk result (Adds (codes " | ") (body_words (text_at level) (body_view level body.now)) some.old some.new out.old out.new) }
    ensures front { take (length out.old) out.new ≡ out.old }
{
    match body {
        BodyOf::Product(row) => append_product(level, row.as_slice(), some, out),
        BodyOf::Tags(tags) => append_tags(level, tags.as_slice(), some, out),
    }
}

// Appends the word of a product.
#[cycle(print)]
fn append_product(
    level: u32,
    row: &[Shared<Node>],
    some: &mut bool,
    out: &mut Bytes,
) -> Result<(), Memory>
    requires { EachNode (Fits level) row.now }
    ensures ok { OnOk result (Adds (codes " | ") (tuple_word (map (text_at level) (row_view level row.now)) ∷ []) some.old some.new out.old out.new) }
    ensures front { take (length out.old) out.new ≡ out.old }
{
    separate(b" | ", some, out)?;
    out.append(b"{")?;
    append_row(level, row, false, out)?;
    out.append(b"}")
}

// Appends a word for each tag.
#[tactic(auto, using(crate::proofs::Adding::still_front))]
#[cycle(print)]
fn append_tags(
    level: u32,
    tags: &[TagOf<Node>],
    some: &mut bool,
    out: &mut Bytes,
) -> Result<(), Memory>
    requires { EachTag (Fits level) tags.now }
    ensures ok { OnOk result (Adds (codes " | ") (tag_words (text_at level) (tags_view level tags.now)) some.old some.new out.old out.new) }
    ensures front { take (length out.old) out.new ≡ out.old }
{
    for tag in tags {
        append_tag(level, tag, some, out)?;
    }
    Ok(())
}

// Appends the word of a tag, the first element of which is its atom.
#[cycle(print)]
fn append_tag(level: u32, tag: &TagOf<Node>, some: &mut bool, out: &mut Bytes) -> Result<(), Memory>
    requires { EachNode (Fits level) tag.now.rest }
    ensures ok { OnOk result (Adds (codes " | ") (tuple_word (quoted tag.now.atom ∷ map (text_at level) (row_view level tag.now.rest)) ∷ []) some.old
        some.new out.old out.new) }
    ensures front { take (length out.old) out.new ≡ out.old }
{
    separate(b" | ", some, out)?;
    out.append(b"{")?;
    tag.atom.get().text(out)?;
    append_row(level, tag.rest.as_slice(), true, out)?;
    out.append(b"}")
}

// Appends the types of a tuple, with commas between. `some` says whether a first element stands
// before them.
#[cycle(print)]
fn append_row(
    level: u32,
    row: &[Shared<Node>],
    mut some: bool,
    out: &mut Bytes,
) -> Result<(), Memory>
    requires { EachNode (Fits level) row.now }
    ensures ok { OnOk result (out.new ≡ out.old ++ row_text (codes ",") some (map (text_at level) (row_view level row.now))) }
    ensures front { take (length out.old) out.new ≡ out.old }
{
    for element in row {
        separate(b",", &mut some, out)?;
        append_type(level, element.get(), out)?;
    }
    Ok(())
}

// Appends the words of the values that hold no others.
fn append_plain(plain: &Plain, some: &mut bool, out: &mut Bytes) -> Result<(), Memory>
    ensures ok { OnOk result (Adds (codes " | ") (plain_words plain.now) some.old some.new out.old out.new) }
    ensures front { take (length out.old) out.new ≡ out.old }
{
    append_atoms(&plain.atoms, some, out)?;
    append_ints(&plain.ints, some, out)?;
    append_if(plain.flags.float, b"float()", some, out)?;
    append_bits(plain.bits, some, out)?;
    append_if(plain.flags.pid, b"pid()", some, out)?;
    append_if(plain.flags.port, b"port()", some, out)?;
    append_if(plain.flags.reference, b"reference()", some, out)?;
    append_if(plain.flags.map, b"map()", some, out)?;
    append_functions(plain.functions, some, out)?;
    append_if(plain.flags.nil, b"[]", some, out)
}

// Appends a word for each atom, or the word of all atoms.
fn append_atoms(atoms: &AtomSet, some: &mut bool, out: &mut Bytes) -> Result<(), Memory>
    ensures ok { OnOk result (Adds (codes " | ") (atom_words atoms.now) some.old some.new out.old out.new) }
    ensures front { take (length out.old) out.new ≡ out.old }
{
    match atoms.members() {
        Some(members) => append_members(members, some, out),
        None => append_word(b"atom()", some, out),
    }
}

// Appends a word for each atom.
fn append_members(members: &[Shared<Atom>], some: &mut bool, out: &mut Bytes) -> Result<(), Memory>
    ensures ok { OnOk result (Adds (codes " | ") (map quoted members.now) some.old some.new out.old out.new) }
    ensures front { take (length out.old) out.new ≡ out.old }
{
    for atom in members {
        separate(b" | ", some, out)?;
        atom.get().text(out)?;
    }
    Ok(())
}

// Appends a word for each integer, or the word of an interval.
fn append_ints(ints: &IntSet, some: &mut bool, out: &mut Bytes) -> Result<(), Memory>
    ensures ok { OnOk result (Adds (codes " | ") (int_words ints.now) some.old some.new out.old out.new) }
    ensures front { take (length out.old) out.new ≡ out.old }
{
    if let Some(numbers) = ints.members() {
        return append_numbers(numbers, some, out);
    }
    match ints.ends() {
        Some((low, high)) => append_range(low, high, some, out),
        None => unreachable!(),
    }
}

// Appends a word for each integer.
fn append_numbers(numbers: &[i128], some: &mut bool, out: &mut Bytes) -> Result<(), Memory>
    ensures ok { OnOk result (Adds (codes " | ") (map signed_decimal numbers.now) some.old some.new out.old out.new) }
    ensures front { take (length out.old) out.new ≡ out.old }
{
    for n in numbers {
        separate(b" | ", some, out)?;
        out.append_decimal(*n)?;
    }
    Ok(())
}

// Appends the word of an interval.
fn append_range(low: Low, high: High, some: &mut bool, out: &mut Bytes) -> Result<(), Memory>
    ensures ok { OnOk result (Adds (codes " | ") (range_word low high ∷ []) some.old some.new out.old out.new) }
    ensures front { take (length out.old) out.new ≡ out.old }
{
    separate(b" | ", some, out)?;
    match (low, high) {
        (Low::Min, High::Max) => out.append(b"integer()"),
        _ => append_ends(low_text(low), high_text(high), out),
    }
}

// Appends an interval by the texts of its ends.
fn append_ends(low: &[u8], high: &[u8], out: &mut Bytes) -> Result<(), Memory>
    ensures ok { OnOk result (out.new ≡ out.old ++ (codes "integer(" ++ low.now ++ codes ".." ++ high.now ++ codes ")")) }
    ensures front { take (length out.old) out.new ≡ out.old }
{
    out.append(b"integer(")?;
    out.append(low)?;
    out.append(b"..")?;
    out.append(high)?;
    out.append(b")")
}

// How a lower end is written.
fn low_text(low: Low) -> &'static [u8]
    ensures { result.now ≡ low_model low }
{
    match low {
        Low::Min => b"min",
        Low::Zero => b"0",
        Low::One => b"1",
    }
}

// How an upper end is written.
fn high_text(high: High) -> &'static [u8]
    ensures { result.now ≡ high_model high }
{
    match high {
        High::MinusOne => b"-1",
        High::Byte => b"255",
        High::Unicode => b"1114111",
        High::Max => b"max",
    }
}

// Appends the word of the bit strings, if there are some.
fn append_bits(bits: Bits, some: &mut bool, out: &mut Bytes) -> Result<(), Memory>
    ensures ok { OnOk result (Adds (codes " | ") (bits_words bits) some.old some.new out.old out.new) }
    ensures front { take (length out.old) out.new ≡ out.old }
{
    match bits {
        Bits::No => Ok(()),
        Bits::Whole => append_word(b"binary()", some, out),
        Bits::Any => append_word(b"bitstring()", some, out),
    }
}

// Appends the word of the functions, if there are some.
fn append_functions(functions: FunSet, some: &mut bool, out: &mut Bytes) -> Result<(), Memory>
    ensures ok { OnOk result (Adds (codes " | ") (function_words (functions_of functions)) some.old some.new out.old out.new) }
    ensures front { take (length out.old) out.new ≡ out.old }
{
    match functions {
        FunSet::Nothing => Ok(()),
        FunSet::OfArity(arity) => append_arity(arity, some, out),
        FunSet::Every => append_word(b"fun()", some, out),
    }
}

// Appends the word of the functions of one arity.
fn append_arity(arity: u32, some: &mut bool, out: &mut Bytes) -> Result<(), Memory>
    ensures ok { OnOk result (Adds (codes " | ") ((codes "fun(" ++ decimal arity ++ codes ")") ∷ []) some.old some.new out.old out.new) }
    ensures front { take (length out.old) out.new ≡ out.old }
{
    separate(b" | ", some, out)?;
    out.append(b"fun(")?;
    out.append_decimal(arity)?;
    out.append(b")")
}

// Appends the word where it is asked for.
fn append_if(is: bool, word: &[u8], some: &mut bool, out: &mut Bytes) -> Result<(), Memory>
    ensures ok { OnOk result (Adds (codes " | ") (word_if is word.now) some.old some.new out.old out.new) }
    ensures front { take (length out.old) out.new ≡ out.old }
{
    if is {
        append_word(word, some, out)
    } else {
        Ok(())
    }
}

// Appends one word.
fn append_word(word: &[u8], some: &mut bool, out: &mut Bytes) -> Result<(), Memory>
    ensures ok { OnOk result (Adds (codes " | ") (word.now ∷ []) some.old some.new out.old out.new) }
    ensures front { take (length out.old) out.new ≡ out.old }
{
    separate(b" | ", some, out)?;
    out.append(word)
}

// Begins a word: appends the separator where a word stands already. Then one stands, with nothing
// in it yet.
fn separate(separator: &[u8], some: &mut bool, out: &mut Bytes) -> Result<(), Memory>
    ensures ok { OnOk result (Adds separator.now ([] ∷ []) some.old some.new out.old out.new) }
    ensures front { take (length out.old) out.new ≡ out.old }
{
    if *some {
        return out.append(separator);
    }
    *some = true;
    Ok(())
}

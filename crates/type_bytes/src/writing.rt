//! How types are written.
ghost use Rattle.std.specs.Prelude.{◌≡◌, ◌++◌, ◌∷◌, ◌*◌, ◌≤◌, ℕ, cond, length, take, IsTrue, OnOk, OnErr};
ghost use Rattle.std.specs.List.{flat_map, list_all};
ghost use Rattle.type_lattice_trees.specs.Plains.{functions_of};
ghost use Rattle.type_lattice_trees.specs.View.{view, row_view, tags_view, body_view, sizes_view, tuples_view, cell_view, parts_view};
ghost use Rattle.type_lattice_trees.specs.View.{Fits, EachNode, EachTag, EachInCell, BodyFits, SizesFit, TuplesFit, PartsFit};
ghost use Rattle.type_bytes.specs.Spelling.{two_bytes, four_bytes, int_bytes, name_bytes, low_number as low_model, high_number as high_model};
ghost use Rattle.type_bytes.specs.Spelling.{tag_bytes, body_bytes, size_bytes, atoms_part, ints_part, bits_part, functions_part};
ghost use Rattle.type_bytes.specs.Spelling.{cell_part, tuples_part, parts_of, mask, part_bytes, some_bytes, all_bytes, bytes_at, bytes_of};
ghost use Rattle.type_bytes.specs.ShortNames.{is_short, are_short, is_short_cell, is_short_tag, is_short_body, is_short_size};
ghost use Rattle.type_bytes.specs.ShortNames.{are_short_tuples, are_short_parts, is_short_at, has_short_names};

use type_kinds::{Atom, Bytes, Memory, Shared};
use type_kinds_sets::{AtomSet, Bits, High, IntSet, Low};
use type_lattice::Ty;
use type_lattice_trees::{
    BodyOf, CellOf, FunSet, Node, PartsOf, Plain, SizeOf, TagOf, TuplesOf, is_none,
};

/// Appends the bytes of the type, each atom of which has fewer than 2^32 bytes. A type has one
/// spelling. If allocation fails `out` is as before.
pub fn put(t: &Ty, out: &mut Bytes) -> Result<(), Memory>
    requires short { IsTrue (has_short_names t.now) }
    ensures ok { OnOk result (out.new ≡ out.old ++ bytes_of t.now) }
    ensures err { OnErr result (out.new ≡ out.old) }
{
    let before = out.len();
    let answer = append_type(4, t.node(), out);
    out.or_truncate(before, answer)
}

// Appends the bytes of the type that the tree stands for.
#[cycle(write)]
fn append_type(level: u32, t: &Node, out: &mut Bytes) -> Result<(), Memory>
    requires fits { Fits level t.now }
    requires short { IsTrue (is_short_at level (view level t.now)) }
    ensures ok { OnOk result (out.new ≡ out.old ++ bytes_at level (view level t.now)) }
    ensures front { take (length out.old) out.new ≡ out.old }
{
    let Node::Of(parts) = t else {
        return out.append(&[1]);
    };
    if is_none(t) {
        return out.append(&[0]);
    }
    out.append(&[2])?;
    append_parts(level - 1, parts, out)
}

// Appends the mask and the parts that have a value. Here and below the level is that of the elements.
#[cycle(write)]
fn append_parts(level: u32, parts: &PartsOf<Node>, out: &mut Bytes) -> Result<(), Memory>
    requires fits { PartsFit level parts.now }
    requires short { IsTrue (are_short_parts (is_short_at level) (parts_view level parts.now)) }
    ensures ok { OnOk result (out.new ≡ out.old ++ all_bytes (parts_of (bytes_at level) (parts_view level parts.now))) }
    ensures front { take (length out.old) out.new ≡ out.old }
{
    append_mask(mask_of(parts), out)?;
    append_plain(&parts.plain, out)?;
    append_cell(level, &parts.cell, out)?;
    append_tuples(level, &parts.tuples, out)
}

// Appends the lists that aren't empty, if there are some.
#[cycle(write)]
fn append_cell(level: u32, cell: &Option<CellOf<Node>>, out: &mut Bytes) -> Result<(), Memory>
    requires fits { EachInCell (Fits level) cell.now }
    requires short { IsTrue (is_short_cell (is_short_at level) (cell_view level cell.now)) }
    ensures ok { OnOk result (out.new ≡ out.old ++ part_bytes (cell_part (bytes_at level) (cell_view level cell.now))) }
    ensures front { take (length out.old) out.new ≡ out.old }
{
    let Some(cell) = cell else {
        return Ok(());
    };
    out.append(if cell.is_proper { &[1] } else { &[0] })?;
    append_type(level, cell.element.get(), out)
}

// Appends the tuples, if there are some.
#[cycle(write)]
fn append_tuples(level: u32, tuples: &TuplesOf<Node>, out: &mut Bytes) -> Result<(), Memory>
    requires fits { TuplesFit level tuples.now }
    requires short { IsTrue (are_short_tuples (is_short_at level) (tuples_view level tuples.now)) }
    ensures ok { OnOk result (out.new ≡ out.old ++ part_bytes (tuples_part (bytes_at level) (tuples_view level tuples.now))) }
    ensures front { take (length out.old) out.new ≡ out.old }
{
    match tuples {
        TuplesOf::All => out.append(&[0]),
        TuplesOf::Sizes(sizes) => {
            if sizes.is_empty() {
                return Ok(());
            }
            append_sizes(level, sizes.as_slice(), out)
        }
    }
}

// Appends how many sizes there are, and these.
#[cycle(write)]
fn append_sizes(level: u32, sizes: &[SizeOf<Node>], out: &mut Bytes) -> Result<(), Memory>
    requires fits { SizesFit level sizes.now }
    requires few { length sizes.now ≤ 8 }
    requires short { IsTrue (list_all (is_short_size (is_short_at level)) (sizes_view level sizes.now)) }
    ensures ok { OnOk result (out.new ≡ out.old ++ (length sizes.now ∷ flat_map (size_bytes (bytes_at level)) (sizes_view level sizes.now))) }
    ensures front { take (length out.old) out.new ≡ out.old }
{
    out.append(&[sizes.len() as u8])?;
    for size in sizes {
        append_size(level, size, out)?;
    }
    Ok(())
}

// Appends the tuples of one size.
#[cycle(write)]
fn append_size(level: u32, size: &SizeOf<Node>, out: &mut Bytes) -> Result<(), Memory>
    requires fits { BodyFits level size.now.size size.now.body }
    requires short { IsTrue (is_short_body (is_short_at level) (body_view level size.now.body)) }
    ensures ok { OnOk result (out.new ≡ out.old ++ (size.now.size ∷ body_bytes (bytes_at level) (body_view level size.now.body))) }
    ensures front { take (length out.old) out.new ≡ out.old }
{
    match &size.body {
        BodyOf::Product(row) => {
            out.append(&[size.size, 0])?;
            append_row(level, row.as_slice(), out)
        }
        BodyOf::Tags(tags) => {
            out.append(&[size.size])?;
            append_tags(level, tags.as_slice(), out)
        }
    }
}

// Appends how many tags there are, and these.
#[cycle(write)]
fn append_tags(level: u32, tags: &[TagOf<Node>], out: &mut Bytes) -> Result<(), Memory>
    requires fits { EachTag (Fits level) tags.now }
    requires few { length tags.now ≤ 13 }
    requires short { IsTrue (list_all (is_short_tag (is_short_at level)) (tags_view level tags.now)) }
    ensures ok { OnOk result (out.new ≡ out.old ++ (length tags.now ∷ flat_map (tag_bytes (bytes_at level)) (tags_view level tags.now))) }
    ensures front { take (length out.old) out.new ≡ out.old }
{
    out.append(&[tags.len() as u8])?;
    for tag in tags {
        append_tag(level, tag, out)?;
    }
    Ok(())
}

// Appends one tag.
#[cycle(write)]
fn append_tag(level: u32, tag: &TagOf<Node>, out: &mut Bytes) -> Result<(), Memory>
    requires fits { EachNode (Fits level) tag.now.rest }
    requires name { IsTrue (is_short tag.now.atom) }
    requires short { IsTrue (list_all (is_short_at level) (row_view level tag.now.rest)) }
    ensures ok { OnOk result (out.new ≡ out.old ++ (name_bytes tag.now.atom ++ flat_map (bytes_at level) (row_view level tag.now.rest))) }
    ensures front { take (length out.old) out.new ≡ out.old }
{
    append_name(tag.atom.get(), out)?;
    append_row(level, tag.rest.as_slice(), out)
}

// Appends element types.
#[cycle(write)]
fn append_row(level: u32, row: &[Shared<Node>], out: &mut Bytes) -> Result<(), Memory>
    requires fits { EachNode (Fits level) row.now }
    requires short { IsTrue (list_all (is_short_at level) (row_view level row.now)) }
    ensures ok { OnOk result (out.new ≡ out.old ++ flat_map (bytes_at level) (row_view level row.now)) }
    ensures front { take (length out.old) out.new ≡ out.old }
{
    for element in row {
        append_type(level, element.get(), out)?;
    }
    Ok(())
}

// Appends the values that hold no others, but those of a part that has no bytes.
fn append_plain(plain: &Plain, out: &mut Bytes) -> Result<(), Memory>
    requires short { IsTrue (are_short plain.now.atoms) }
    ensures ok { OnOk result (out.new ≡ out.old ++ (part_bytes (atoms_part plain.now.atoms)
        ++ (part_bytes (ints_part plain.now.ints) ++ (part_bytes (bits_part plain.now.bits) ++ part_bytes (functions_part plain.now.functions))))) }
    ensures front { take (length out.old) out.new ≡ out.old }
{
    append_atoms(&plain.atoms, out)?;
    append_ints(&plain.ints, out)?;
    append_bits(plain.bits, out)?;
    append_functions(plain.functions, out)
}

// Appends the atoms, if there are some.
fn append_atoms(atoms: &AtomSet, out: &mut Bytes) -> Result<(), Memory>
    requires short { IsTrue (are_short atoms.now) }
    ensures ok { OnOk result (out.new ≡ out.old ++ part_bytes (atoms_part atoms.now)) }
    ensures front { take (length out.old) out.new ≡ out.old }
{
    let Some(members) = atoms.members() else {
        return out.append(&[0]);
    };
    if members.is_empty() {
        return Ok(());
    }
    append_names(members, out)
}

// Appends how many atoms there are, and these.
fn append_names(names: &[Shared<Atom>], out: &mut Bytes) -> Result<(), Memory>
    requires few { length names.now ≤ 13 }
    requires short { IsTrue (list_all is_short names.now) }
    ensures ok { OnOk result (out.new ≡ out.old ++ (length names.now ∷ flat_map name_bytes names.now)) }
    ensures front { take (length out.old) out.new ≡ out.old }
{
    out.append(&[names.len() as u8])?;
    for name in names {
        append_name(name.get(), out)?;
    }
    Ok(())
}

// Appends one atom.
fn append_name(name: &Atom, out: &mut Bytes) -> Result<(), Memory>
    requires short { IsTrue (is_short name.now) }
    ensures ok { OnOk result (out.new ≡ out.old ++ name_bytes name.now) }
    ensures front { take (length out.old) out.new ≡ out.old }
{
    let bytes = name.bytes();
    append_number(bytes.len() as u32, out)?;
    out.append(bytes)
}

// Appends the integers, if there are some.
fn append_ints(ints: &IntSet, out: &mut Bytes) -> Result<(), Memory>
    ensures ok { OnOk result (out.new ≡ out.old ++ part_bytes (ints_part ints.now)) }
    ensures front { take (length out.old) out.new ≡ out.old }
{
    if let Some((low, high)) = ints.ends() {
        return out.append(&[128 + 4 * low_number(low) + high_number(high)]);
    }
    match ints.members() {
        Some(numbers) => append_numbers(numbers, out),
        None => unreachable!(),
    }
}

// Appends how many integers there are, and these, if there are some.
fn append_numbers(numbers: &[i128], out: &mut Bytes) -> Result<(), Memory>
    requires few { length numbers.now ≤ 13 }
    ensures none { length numbers.now ≡ 0 → out.new ≡ out.old }
    ensures ok { OnOk result (1 ≤ length numbers.now → out.new ≡ out.old ++ (length numbers.now ∷ flat_map int_bytes numbers.now)) }
    ensures front { take (length out.old) out.new ≡ out.old }
{
    if numbers.is_empty() {
        return Ok(());
    }
    out.append(&[numbers.len() as u8])?;
    for n in numbers {
        append_int(*n, out)?;
    }
    Ok(())
}

// Appends one integer.
#[tactic(auto, unfolding(crate::specs::Spelling::int_bytes))]
fn append_int(n: i128, out: &mut Bytes) -> Result<(), Memory>
    ensures ok { OnOk result (out.new ≡ out.old ++ int_bytes n) }
    ensures front { take (length out.old) out.new ≡ out.old }
{
    out.append(&n.cast_unsigned().to_be_bytes())
}

// Appends a number in four bytes.
#[tactic(auto, unfolding(crate::specs::Spelling::four_bytes))]
fn append_number(n: u32, out: &mut Bytes) -> Result<(), Memory>
    ensures ok { OnOk result (out.new ≡ out.old ++ four_bytes n) }
    ensures front { take (length out.old) out.new ≡ out.old }
{
    out.append(&n.to_be_bytes())
}

// Appends the mask.
#[tactic(auto, unfolding(crate::specs::Spelling::two_bytes))]
fn append_mask(mask: u16, out: &mut Bytes) -> Result<(), Memory>
    ensures ok { OnOk result (out.new ≡ out.old ++ two_bytes mask) }
    ensures front { take (length out.old) out.new ≡ out.old }
{
    out.append(&mask.to_be_bytes())
}

// The number of a lower end.
fn low_number(low: Low) -> u8
    ensures value { result ≡ low_model low }
    ensures small { result ≤ 2 }
{
    match low {
        Low::Min => 0,
        Low::Zero => 1,
        Low::One => 2,
    }
}

// The number of an upper end.
fn high_number(high: High) -> u8
    ensures value { result ≡ high_model high }
    ensures small { result ≤ 3 }
{
    match high {
        High::MinusOne => 0,
        High::Byte => 1,
        High::Unicode => 2,
        High::Max => 3,
    }
}

// Appends the bit strings, if there are some.
fn append_bits(bits: Bits, out: &mut Bytes) -> Result<(), Memory>
    ensures ok { OnOk result (out.new ≡ out.old ++ part_bytes (bits_part bits)) }
    ensures front { take (length out.old) out.new ≡ out.old }
{
    match bits {
        Bits::No => Ok(()),
        Bits::Whole => out.append(&[1]),
        Bits::Any => out.append(&[2]),
    }
}

// Appends the functions, if there are some.
fn append_functions(functions: FunSet, out: &mut Bytes) -> Result<(), Memory>
    ensures ok { OnOk result (out.new ≡ out.old ++ part_bytes (functions_part (functions_of functions))) }
    ensures front { take (length out.old) out.new ≡ out.old }
{
    match functions {
        FunSet::Nothing => Ok(()),
        FunSet::OfArity(arity) => {
            out.append(&[1])?;
            append_number(arity, out)
        }
        FunSet::Every => out.append(&[0]),
    }
}

// A bit for each part, 1 where it has a value.
fn mask_of(parts: &PartsOf<Node>) -> u16
    ensures { (d : ℕ) → result ≡ mask (parts_of (bytes_at d) (parts_view d parts.now)) }
{
    let plain = &parts.plain;
    let flags = plain.flags;
    bit(!plain.atoms.is_none(), 1)
        + bit(!plain.ints.is_none(), 2)
        + bit(flags.float, 4)
        + bit(has_bits(plain.bits), 8)
        + bit(flags.pid, 16)
        + bit(flags.port, 32)
        + bit(flags.reference, 64)
        + bit(!plain.functions.is_none(), 128)
        + bit(flags.nil, 256)
        + bit(parts.cell.is_some(), 512)
        + bit(has_tuples(&parts.tuples), 1024)
        + bit(flags.map, 2048)
}

// What a part adds to the mask.
fn bit(is: bool, worth: u16) -> u16
    ensures value { result ≡ worth * cond is 1 0 }
    ensures most { result ≤ worth }
{
    if is { worth } else { 0 }
}

// Whether there is a bit string.
fn has_bits(bits: Bits) -> bool
    ensures { result ≡ (bits_part bits).some }
{
    !matches!(bits, Bits::No)
}

// Whether there is a tuple.
fn has_tuples(tuples: &TuplesOf<Node>) -> bool
    ensures { (d : ℕ) → result ≡ (tuples_part (bytes_at d) (tuples_view d tuples.now)).some }
{
    match tuples {
        TuplesOf::All => true,
        TuplesOf::Sizes(sizes) => !sizes.is_empty(),
    }
}

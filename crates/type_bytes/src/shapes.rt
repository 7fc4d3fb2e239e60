//! Where a shape ends: what the layout lets stand where a type does. Nothing here takes memory.
ghost use Rattle.std.specs.Prelude.{◌≡◌, ◌==◌, ◌<◌, ◌≤◌};
ghost use Rattle.std.specs.Int.{bit_at};
ghost use Rattle.type_bytes.specs.steps.Cuts.{Cuts, skip as skip_cut, many, counted, where_set, name_cut, atoms_cut};
ghost use Rattle.type_bytes.specs.steps.Cuts.{ints_cut, bits_cut, functions_cut, cell_cut, tag_cut, tags_cut, body_cut, size_cut};
ghost use Rattle.type_bytes.specs.steps.Cuts.{tuples_cut, parts_cut, masked_cut, behind_cut, element_cut, type_cut};

use crate::faults::ShapeFault;

/// What stands behind the shape that the bytes begin with.
#[tactic(auto, unfolding(crate::specs::steps::Cuts::type_cut))]
pub fn skip_type(bytes: &[u8]) -> Result<&[u8], ShapeFault>
    ensures { Cuts (λ rest. rest.now) result (type_cut bytes.now) }
{
    let Some((first, rest)) = bytes.split_first() else {
        return Err(ShapeFault::Short);
    };
    if *first == 0 {
        return Ok(rest);
    }
    skip_behind(4, *first, rest)
}

// The same for an element of a level.
#[cycle(shapes)]
fn skip_element(level: u32, bytes: &[u8]) -> Result<&[u8], ShapeFault>
    ensures { Cuts (λ rest. rest.now) result (element_cut level bytes.now) }
{
    match bytes.split_first() {
        Some((first, rest)) => skip_behind(level, *first, rest),
        None => Err(ShapeFault::Short),
    }
}

// The same behind the first byte.
#[cycle(shapes)]
#[tactic(auto, unfolding(crate::specs::steps::Cuts::behind_cut))]
fn skip_behind(level: u32, first: u8, bytes: &[u8]) -> Result<&[u8], ShapeFault>
    ensures { Cuts (λ rest. rest.now) result (behind_cut level first bytes.now) }
{
    if first == 1 {
        return Ok(bytes);
    }
    if level == 0 || first != 2 {
        return Err(ShapeFault::Broken);
    }
    skip_masked(level - 1, bytes)
}

// The mask and the parts. Here and below the level is that of the elements.
#[cycle(shapes)]
#[tactic(auto, unfolding(crate::specs::steps::Cuts::masked_cut))]
fn skip_masked(level: u32, bytes: &[u8]) -> Result<&[u8], ShapeFault>
    ensures { Cuts (λ rest. rest.now) result (masked_cut (element_cut level) bytes.now) }
{
    let Some((high, later)) = bytes.split_first() else {
        return Err(ShapeFault::Short);
    };
    if *high >= 16 {
        return Err(ShapeFault::Broken);
    }
    let Some((low, rest)) = later.split_first() else {
        return Err(ShapeFault::Short);
    };
    skip_parts(level, 256 * *high as u16 + *low as u16, rest)
}

// The parts that the mask tells.
#[cycle(shapes)]
#[tactic(auto, unfolding(crate::specs::steps::Cuts::parts_cut))]
fn skip_parts(level: u32, mask: u16, bytes: &[u8]) -> Result<&[u8], ShapeFault>
    ensures { Cuts (λ rest. rest.now) result (parts_cut (element_cut level) mask bytes.now) }
{
    let ints = skip_atoms(has(mask, 0), bytes)?;
    let bits = skip_ints(has(mask, 1), ints)?;
    let functions = skip_bits(has(mask, 3), bits)?;
    let cell = skip_functions(has(mask, 7), functions)?;
    let tuples = skip_cell(level, has(mask, 9), cell)?;
    skip_tuples(level, has(mask, 10), tuples)
}

// Lists that aren't empty, where there are some.
#[cycle(shapes)]
#[tactic(auto, unfolding(crate::specs::steps::Cuts::cell_cut))]
fn skip_cell(level: u32, some: bool, bytes: &[u8]) -> Result<&[u8], ShapeFault>
    ensures { Cuts (λ rest. rest.now) result (where_set some (cell_cut (element_cut level)) bytes.now) }
{
    if !some {
        return Ok(bytes);
    }
    let Some((first, rest)) = bytes.split_first() else {
        return Err(ShapeFault::Short);
    };
    if *first > 1 {
        return Err(ShapeFault::Broken);
    }
    skip_element(level, rest)
}

// Tuples, where there are some.
#[cycle(shapes)]
#[tactic(auto, unfolding(crate::specs::steps::Cuts::tuples_cut))]
fn skip_tuples(level: u32, some: bool, bytes: &[u8]) -> Result<&[u8], ShapeFault>
    ensures { Cuts (λ rest. rest.now) result (where_set some (tuples_cut (element_cut level)) bytes.now) }
{
    if !some {
        return Ok(bytes);
    }
    let Some((first, rest)) = bytes.split_first() else {
        return Err(ShapeFault::Short);
    };
    if *first == 0 {
        return Ok(rest);
    }
    if *first > 8 {
        return Err(ShapeFault::Broken);
    }
    skip_sizes(level, *first, rest)
}

#[cycle(shapes)]
fn skip_sizes(level: u32, count: u8, bytes: &[u8]) -> Result<&[u8], ShapeFault>
    ensures { Cuts (λ rest. rest.now) result (many count (size_cut (element_cut level)) bytes.now) }
{
    let mut rest = bytes;
    for _ in 0..count {
        rest = skip_size(level, rest)?;
    }
    Ok(rest)
}

// The tuples of one size.
#[cycle(shapes)]
#[tactic(auto, unfolding(crate::specs::steps::Cuts::size_cut))]
fn skip_size(level: u32, bytes: &[u8]) -> Result<&[u8], ShapeFault>
    ensures { Cuts (λ rest. rest.now) result (size_cut (element_cut level) bytes.now) }
{
    let Some((size, body)) = bytes.split_first() else {
        return Err(ShapeFault::Short);
    };
    if *size > 64 {
        return Err(ShapeFault::Broken);
    }
    skip_body(level, *size, body)
}

// A product of `size` elements, or tags.
#[cycle(shapes)]
#[tactic(auto, unfolding(crate::specs::steps::Cuts::body_cut, crate::specs::steps::Cuts::tags_cut))]
fn skip_body(level: u32, size: u8, bytes: &[u8]) -> Result<&[u8], ShapeFault>
    ensures { Cuts (λ rest. rest.now) result (body_cut (element_cut level) size bytes.now) }
{
    let Some((first, rest)) = bytes.split_first() else {
        return Err(ShapeFault::Short);
    };
    if *first == 0 {
        return skip_row(level, size, rest);
    }
    if size == 0 || *first > 13 {
        return Err(ShapeFault::Broken);
    }
    skip_tags(level, size - 1, *first, rest)
}

// `count` tags, each with `size` elements behind it.
#[cycle(shapes)]
fn skip_tags(level: u32, size: u8, count: u8, bytes: &[u8]) -> Result<&[u8], ShapeFault>
    ensures { Cuts (λ rest. rest.now) result (many count (tag_cut (element_cut level) size) bytes.now) }
{
    let mut rest = bytes;
    for _ in 0..count {
        rest = skip_tag(level, size, rest)?;
    }
    Ok(rest)
}

#[cycle(shapes)]
#[tactic(auto, unfolding(crate::specs::steps::Cuts::tag_cut))]
fn skip_tag(level: u32, size: u8, bytes: &[u8]) -> Result<&[u8], ShapeFault>
    ensures { Cuts (λ rest. rest.now) result (tag_cut (element_cut level) size bytes.now) }
{
    let row = skip_name(bytes)?;
    skip_row(level, size, row)
}

// `count` elements.
#[cycle(shapes)]
fn skip_row(level: u32, count: u8, bytes: &[u8]) -> Result<&[u8], ShapeFault>
    ensures { Cuts (λ rest. rest.now) result (many count (element_cut level) bytes.now) }
{
    let mut rest = bytes;
    for _ in 0..count {
        rest = skip_element(level, rest)?;
    }
    Ok(rest)
}

// Atoms, where there are some.
#[tactic(auto, unfolding(crate::specs::steps::Cuts::atoms_cut))]
fn skip_atoms(some: bool, bytes: &[u8]) -> Result<&[u8], ShapeFault>
    ensures { Cuts (λ rest. rest.now) result (where_set some atoms_cut bytes.now) }
{
    if !some {
        return Ok(bytes);
    }
    let Some((first, rest)) = bytes.split_first() else {
        return Err(ShapeFault::Short);
    };
    if *first == 0 {
        return Ok(rest);
    }
    if *first > 13 {
        return Err(ShapeFault::Broken);
    }
    skip_names(*first, rest)
}

fn skip_names(count: u8, bytes: &[u8]) -> Result<&[u8], ShapeFault>
    ensures { Cuts (λ rest. rest.now) result (many count name_cut bytes.now) }
{
    let mut rest = bytes;
    for _ in 0..count {
        rest = skip_name(rest)?;
    }
    Ok(rest)
}

#[tactic(auto, unfolding(crate::specs::steps::Cuts::name_cut))]
fn skip_name(bytes: &[u8]) -> Result<&[u8], ShapeFault>
    ensures { Cuts (λ rest. rest.now) result (name_cut bytes.now) }
{
    if bytes.len() < 4 {
        return Err(ShapeFault::Short);
    }
    let (count, rest) = bytes.split_at(4);
    let len = u32::from_be_bytes([count[0], count[1], count[2], count[3]]);
    skip(len as usize, rest)
}

// Integers, where there are some.
#[tactic(auto, unfolding(crate::specs::steps::Cuts::ints_cut))]
fn skip_ints(some: bool, bytes: &[u8]) -> Result<&[u8], ShapeFault>
    ensures { Cuts (λ rest. rest.now) result (where_set some ints_cut bytes.now) }
{
    if !some {
        return Ok(bytes);
    }
    let Some((first, rest)) = bytes.split_first() else {
        return Err(ShapeFault::Short);
    };
    if *first >= 128 && *first < 140 {
        return Ok(rest);
    }
    if *first == 0 || *first > 13 {
        return Err(ShapeFault::Broken);
    }
    skip_numbers(*first, rest)
}

fn skip_numbers(count: u8, bytes: &[u8]) -> Result<&[u8], ShapeFault>
    ensures { Cuts (λ rest. rest.now) result (many count (skip_cut 16) bytes.now) }
{
    let mut rest = bytes;
    for _ in 0..count {
        rest = skip(16, rest)?;
    }
    Ok(rest)
}

// Bit strings, where there are some.
#[tactic(auto, unfolding(crate::specs::steps::Cuts::bits_cut))]
fn skip_bits(some: bool, bytes: &[u8]) -> Result<&[u8], ShapeFault>
    ensures { Cuts (λ rest. rest.now) result (where_set some bits_cut bytes.now) }
{
    if !some {
        return Ok(bytes);
    }
    let Some((first, rest)) = bytes.split_first() else {
        return Err(ShapeFault::Short);
    };
    if *first == 0 || *first > 2 {
        return Err(ShapeFault::Broken);
    }
    Ok(rest)
}

// Functions, where there are some.
#[tactic(auto, unfolding(crate::specs::steps::Cuts::functions_cut))]
fn skip_functions(some: bool, bytes: &[u8]) -> Result<&[u8], ShapeFault>
    ensures { Cuts (λ rest. rest.now) result (where_set some functions_cut bytes.now) }
{
    if !some {
        return Ok(bytes);
    }
    let Some((first, rest)) = bytes.split_first() else {
        return Err(ShapeFault::Short);
    };
    if *first == 0 {
        return Ok(rest);
    }
    if *first != 1 {
        return Err(ShapeFault::Broken);
    }
    skip(4, rest)
}

// `count` bytes, whatever they are.
#[tactic(auto, unfolding(crate::specs::steps::Cuts::skip))]
fn skip(count: usize, bytes: &[u8]) -> Result<&[u8], ShapeFault>
    ensures { Cuts (λ rest. rest.now) result (skip_cut count bytes.now) }
{
    if bytes.len() < count {
        return Err(ShapeFault::Short);
    }
    Ok(&bytes[count..])
}

/// Whether a bit of the mask is set.
pub fn has(mask: u16, bit: u32) -> bool
    requires { bit < 16 }
    ensures { result ≡ (bit_at mask bit == 1) }
{
    (mask >> bit) % 2 == 1
}

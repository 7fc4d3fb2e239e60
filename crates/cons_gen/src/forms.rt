//! The forms of data and of calls.
ghost use Rattle.std.specs.Prelude.{◌≡◌, ◌+◌, length, IfOk, OnOk};
ghost use Rattle.core_ast.specs.Tree.{all_pairs, all_segments, all_trees, tree};
ghost use Rattle.cons_gen_rows.specs.Words.{inner_cells};
ghost use Rattle.cons_gen.specs.Spans.{value_slots};
ghost use Rattle.cons_gen.specs.steps.Generating.{GeneratesApplication, GeneratesBinary, GeneratesElements, GeneratesNamedCall, GeneratesOperands};
ghost use Rattle.cons_gen.specs.steps.Generating.{GeneratesOperator, GeneratesPairs, GeneratesPrimop, GeneratesSegments, GeneratesTail};
ghost use Rattle.cons_gen.specs.steps.Generating.{GeneratesTuple, GeneratesUpdated, GeneratesValues};

use crate::expressions::{walk_all, walk_expression};
use cons_gen_rows::{
    Elements, Generator, Surroundings, function_type, inner_cells, passed_on, whatever_asked,
};
use cons_tree::{Part, Slot};
use core_ast::{Expr, FunName, MapPair, Segment};
use core_scope::Ask;
use type_kinds::{Atom, Memory};
use type_lattice::{Kind, Ty};

/// The slots of a list: its own, and those of its inner cells and of its elements.
#[derive(Drop)]
pub struct ListSlots {
    pub value: Slot,
    pub elements: Elements,
}

/// The elements of a list, behind its own slot and its inner cells.
#[cycle(rows)]
pub fn walk_elements(
    made: &mut Generator,
    context: &Surroundings,
    items: &[Expr],
) -> Result<ListSlots, Memory>
    ensures value { IfOk result (λ list. list.value ≡ made.old.next) }
    ensures cells { IfOk result (λ list. list.elements.cells ≡ made.old.next + 1) }
    ensures elements { IfOk result (λ list. list.elements.slots ≡ value_slots (made.old.next + 1 + inner_cells (length items.now)) (all_trees items.now)) }
    ensures rows { OnOk result (GeneratesElements context.now made.old made.new (length items.now) (all_trees items.now)) }
{
    let value = made.take(1)?;
    let cells = made.take(inner_cells(items.len()))?;
    let slots = walk_all(made, context, items)?;
    let elements = made.elements(cells, slots);
    Ok(ListSlots { value, elements })
}

/// The tail of a list with these elements, and the list.
#[cycle(rows)]
pub fn walk_tail(
    made: &mut Generator,
    context: &Surroundings,
    list: &ListSlots,
    tail: &Expr,
) -> Result<(), Memory>
    ensures { OnOk result (GeneratesTail context.now made.old made.new list.now.value list.now.elements.cells list.now.elements.slots (tree tail.now)) }
{
    let rest = made.next;
    walk_expression(made, context, Ask::Exactly(1), tail)?;
    made.list(list.value, &list.elements, rest)
}

/// A tuple.
#[cycle(rows)]
pub fn walk_tuple(
    made: &mut Generator,
    context: &Surroundings,
    items: &[Expr],
) -> Result<(), Memory>
    ensures { OnOk result (GeneratesTuple context.now made.old made.new (all_trees items.now)) }
{
    let value = made.take(1)?;
    let elements = walk_all(made, context, items)?;
    made.add(Part::Tuple(value, elements))
}

/// The pairs of a map, behind the map's own slot.
#[cycle(rows)]
pub fn walk_pairs(
    made: &mut Generator,
    context: &Surroundings,
    pairs: &[MapPair],
) -> Result<Slot, Memory>
    ensures value { IfOk result (λ value. value ≡ made.old.next) }
    ensures rows { OnOk result (GeneratesPairs context.now made.old made.new (all_pairs pairs.now)) }
{
    let value = made.take(1)?;
    for pair in pairs {
        walk_expression(made, context, Ask::Exactly(1), &pair.key)?;
        walk_expression(made, context, Ask::Exactly(1), &pair.value)?;
    }
    Ok(value)
}

/// The map that pairs update, and the map that they make.
#[cycle(rows)]
pub fn walk_updated(
    made: &mut Generator,
    context: &Surroundings,
    value: Slot,
    map: &Expr,
) -> Result<(), Memory>
    ensures { OnOk result (GeneratesUpdated context.now made.old made.new value (tree map.now)) }
{
    let old = made.next;
    walk_expression(made, context, Ask::Exactly(1), map)?;
    made.bound(old, Ty::kind(Kind::Map))?;
    made.bound(value, Ty::kind(Kind::Map))
}

/// A binary.
#[cycle(rows)]
pub fn walk_binary(
    made: &mut Generator,
    context: &Surroundings,
    segments: &[Segment],
) -> Result<(), Memory>
    ensures { OnOk result (GeneratesBinary context.now made.old made.new (all_segments segments.now)) }
{
    let value = made.take(1)?;
    walk_segments(made, context, segments)?;
    made.bound(value, Ty::kind(Kind::Bitstring))
}

// The segments of a binary.
#[cycle(rows)]
fn walk_segments(
    made: &mut Generator,
    context: &Surroundings,
    segments: &[Segment],
) -> Result<(), Memory>
    ensures { OnOk result (GeneratesSegments context.now made.old made.new (all_segments segments.now)) }
{
    for segment in segments {
        walk_expression(made, context, Ask::Exactly(1), &segment.value)?;
        walk_all(made, context, segment.args.as_slice())?;
    }
    Ok(())
}

/// A value list.
#[cycle(rows)]
pub fn walk_values(
    made: &mut Generator,
    context: &Surroundings,
    ask: Ask,
    items: &[Expr],
) -> Result<(), Memory>
    ensures { OnOk result (GeneratesValues context.now made.old made.new ask (all_trees items.now)) }
{
    let results = made.take_run(passed_on(ask))?;
    let values = walk_all(made, context, items)?;
    made.equal_each(results.as_slice(), values.as_slice())
}

/// The application of a function's name.
#[cycle(rows)]
pub fn walk_application(
    made: &mut Generator,
    context: &Surroundings,
    name: &FunName,
    args: &[Expr],
) -> Result<(), Memory>
    ensures { OnOk result (GeneratesApplication context.now made.old made.new name.now (length args.now) (all_trees args.now)) }
{
    let value = made.take(1)?;
    let slots = walk_all(made, context, args)?;
    made.application(context, name, value, slots.as_slice())
}

/// The operator of an application, behind the application's own slot.
#[cycle(rows)]
pub fn walk_operator(
    made: &mut Generator,
    context: &Surroundings,
    operator: &Expr,
) -> Result<Slot, Memory>
    ensures slot { IfOk result (λ slot. slot ≡ made.old.next + 1) }
    ensures rows { OnOk result (GeneratesOperator context.now made.old made.new (tree operator.now)) }
{
    made.take(1)?;
    let slot = made.next;
    walk_expression(made, context, Ask::Exactly(1), operator)?;
    Ok(slot)
}

/// The arguments to which an operator is applied.
#[cycle(rows)]
pub fn walk_operands(
    made: &mut Generator,
    context: &Surroundings,
    operator: Slot,
    args: &[Expr],
) -> Result<(), Memory>
    ensures { OnOk result (GeneratesOperands context.now made.old made.new operator (length args.now) (all_trees args.now)) }
{
    walk_all(made, context, args)?;
    made.bound(operator, function_type(args.len()))
}

/// A call by a literal module and name, which has `count` results.
#[cycle(rows)]
pub fn walk_named_call(
    made: &mut Generator,
    context: &Surroundings,
    count: usize,
    home: &Atom,
    name: &Atom,
    args: &[Expr],
) -> Result<(), Memory>
    ensures { OnOk result (GeneratesNamedCall context.now made.old made.new count home.now name.now (length args.now) (all_trees args.now)) }
{
    let results = made.take_run(count)?;
    let slots = walk_all(made, context, args)?;
    made.call(context, home, name, results.as_slice(), slots.as_slice())
}

/// A primop.
#[cycle(rows)]
pub fn walk_primop(
    made: &mut Generator,
    context: &Surroundings,
    ask: Ask,
    name: &Atom,
    args: &[Expr],
) -> Result<(), Memory>
    ensures { OnOk result (GeneratesPrimop context.now made.old made.new ask name.now (all_trees args.now)) }
{
    let results = made.take_run(whatever_asked(ask))?;
    walk_all(made, context, args)?;
    made.primop(name, results.as_slice())
}

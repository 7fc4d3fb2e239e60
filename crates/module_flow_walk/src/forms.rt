//! The forms that only put values together, and calls.
ghost use Rattle.std.specs.Prelude.{◌≡◌, is_some, IfOk, OnOk};
ghost use Rattle.core_ast.specs.Tree.{all_pairs, all_segments, all_trees, tree};
ghost use Rattle.core_scope.specs.Asks.{is_raising, one_value};
ghost use Rattle.module_flow_walk.specs.Walk.{passed};
ghost use Rattle.module_flow_state.specs.steps.Walking.{walk_scope_of, world_of};
ghost use Rattle.module_flow_walk.specs.steps.Forms.{after_application, after_call, after_listed, after_named_call, after_operator, after_updated_map};
ghost use Rattle.module_flow_walk.specs.steps.Forms.{updated_given, walked_application, walked_binary, walked_call, walked_listed, walked_named_call};
ghost use Rattle.module_flow_walk.specs.steps.Forms.{walked_new_map, walked_operator, walked_primop, walked_tuple, walked_updated_map};
ghost use Rattle.module_flow_walk.specs.steps.Walked.{after, after_all, after_pairs, after_segments, walked, walked_all, walked_pairs, walked_segments};

use crate::expressions::{walk_all, walk_expression};
use crate::handing::passed;
use cons_gen_rows::{function_type, whatever_asked};
use core_ast::{Expr, FunName, MapPair, Mark, Segment};
use core_scope::{Ask, is_text};
use module_flow_calls::{
    Given, NodeContext, add_any, discard, discard_given, discard_types, first, list_type, meets,
    value,
};
use module_flow_state::{FlowWalk, WalkContext};
use type_kinds::{Atom, List, Memory};
use type_lattice::{Kind, Ty};

/// A list of these elements and this tail.
#[cycle(flow)]
pub fn walk_listed(
    walker: &mut FlowWalk,
    context: &WalkContext,
    around: NodeContext,
    items: &[Expr],
    tail: &Expr,
) -> Result<Given, Memory>
    ensures given { IfOk result (λ given. given ≡ walked_listed context.now walker.old (all_trees items.now) (tree tail.now)) }
    ensures noted { OnOk result (walker.new ≡ after_listed context.now around walker.old (all_trees items.now) (tree tail.now)) }
{
    let elements = walk_all(walker, context, around, items)?;
    let last = walk_expression(walker, context, around, Ask::Exactly(1), tail)?;
    match elements {
        None => Ok(None),
        Some(types) => match last {
            None => Ok(None),
            Some(last) => {
                let list = list_type(walker.alloc, types.as_slice(), first(last))?;
                discard_types(types);
                value(walker.alloc, list)
            }
        },
    }
}

/// A tuple.
#[cycle(flow)]
pub fn walk_tuple(
    walker: &mut FlowWalk,
    context: &WalkContext,
    around: NodeContext,
    items: &[Expr],
) -> Result<Given, Memory>
    ensures given { IfOk result (λ given. given ≡ walked_tuple context.now walker.old (all_trees items.now)) }
    ensures noted { OnOk result (walker.new ≡ after_all context.now around walker.old (all_trees items.now)) }
{
    let elements = walk_all(walker, context, around, items)?;
    match elements {
        None => Ok(None),
        Some(types) => {
            let tuple = Ty::tuple(walker.alloc, types.as_slice())?;
            discard_types(types);
            value(walker.alloc, tuple)
        }
    }
}

/// A new map.
#[cycle(flow)]
pub fn walk_map(
    walker: &mut FlowWalk,
    context: &WalkContext,
    around: NodeContext,
    pairs: &[MapPair],
) -> Result<Given, Memory>
    ensures given { IfOk result (λ given. given ≡ walked_new_map context.now walker.old (all_pairs pairs.now)) }
    ensures noted { OnOk result (walker.new ≡ after_pairs context.now around walker.old (all_pairs pairs.now)) }
{
    let all = walk_pairs(walker, context, around, pairs)?;
    if !all {
        return Ok(None);
    }
    value(walker.alloc, Ty::kind(Kind::Map))
}

/// A map that updates another.
#[cycle(flow)]
pub fn walk_updated_map(
    walker: &mut FlowWalk,
    context: &WalkContext,
    around: NodeContext,
    pairs: &[MapPair],
    map: &Expr,
) -> Result<Given, Memory>
    ensures given { IfOk result (λ given. given ≡ walked_updated_map context.now walker.old (all_pairs pairs.now) (tree map.now)) }
    ensures noted { OnOk result (walker.new ≡ after_updated_map context.now around walker.old (all_pairs pairs.now) (tree map.now)) }
{
    let all = walk_pairs(walker, context, around, pairs)?;
    let is_map = walk_old(walker, context, around, map)?;
    let may = all & is_map;
    if !may {
        return Ok(None);
    }
    value(walker.alloc, Ty::kind(Kind::Map))
}

// An expression, and whether it may be a map.
#[cycle(flow)]
fn walk_old(
    walker: &mut FlowWalk,
    context: &WalkContext,
    around: NodeContext,
    map: &Expr,
) -> Result<bool, Memory>
    ensures given { IfOk result (λ is_map. is_map ≡ is_some (updated_given (world_of context.now) (walk_scope_of walker.old) (tree map.now))) }
    ensures noted { OnOk result (walker.new ≡ after context.now around walker.old one_value (tree map.now)) }
{
    let given = walk_expression(walker, context, around, Ask::Exactly(1), map)?;
    match given {
        None => Ok(false),
        Some(types) => {
            let ty = first(types);
            let common = meets(walker.alloc, &ty, &Ty::kind(Kind::Map));
            discard(ty);
            common
        }
    }
}

// The pairs of a map, and whether each key and value is given.
#[cycle(flow)]
fn walk_pairs(
    walker: &mut FlowWalk,
    context: &WalkContext,
    around: NodeContext,
    pairs: &[MapPair],
) -> Result<bool, Memory>
    ensures given { IfOk result (λ all. all ≡ is_some (walked_pairs context.now walker.old (all_pairs pairs.now))) }
    ensures noted { OnOk result (walker.new ≡ after_pairs context.now around walker.old (all_pairs pairs.now)) }
{
    let mut all = true;
    for pair in pairs {
        let key = walk_one(walker, context, around, &pair.key)?;
        let held = walk_one(walker, context, around, &pair.value)?;
        all = all & key & held;
    }
    Ok(all)
}

// Whether an expression gives a value.
#[cycle(flow)]
fn walk_one(
    walker: &mut FlowWalk,
    context: &WalkContext,
    around: NodeContext,
    expr: &Expr,
) -> Result<bool, Memory>
    ensures given { IfOk result (λ there. there ≡ is_some (walked context.now walker.old one_value (tree expr.now))) }
    ensures noted { OnOk result (walker.new ≡ after context.now around walker.old one_value (tree expr.now)) }
{
    let given = walk_expression(walker, context, around, Ask::Exactly(1), expr)?;
    let there = given.is_some();
    discard_given(given);
    Ok(there)
}

/// A binary.
#[cycle(flow)]
pub fn walk_binary(
    walker: &mut FlowWalk,
    context: &WalkContext,
    around: NodeContext,
    segments: &[Segment],
) -> Result<Given, Memory>
    ensures given { IfOk result (λ given. given ≡ walked_binary context.now walker.old (all_segments segments.now)) }
    ensures noted { OnOk result (walker.new ≡ after_segments context.now around walker.old (all_segments segments.now)) }
{
    let all = walk_segments(walker, context, around, segments)?;
    if !all {
        return Ok(None);
    }
    value(walker.alloc, Ty::kind(Kind::Bitstring))
}

// The segments of a binary, and whether each value and argument is given.
#[cycle(flow)]
fn walk_segments(
    walker: &mut FlowWalk,
    context: &WalkContext,
    around: NodeContext,
    segments: &[Segment],
) -> Result<bool, Memory>
    ensures given { IfOk result (λ all. all ≡ is_some (walked_segments context.now walker.old (all_segments segments.now))) }
    ensures noted { OnOk result (walker.new ≡ after_segments context.now around walker.old (all_segments segments.now)) }
{
    let mut all = true;
    for segment in segments {
        let held = walk_one(walker, context, around, &segment.value)?;
        let args = walk_all(walker, context, around, segment.args.as_slice())?;
        all = all & held & args.is_some();
        discard_given(args);
    }
    Ok(all)
}

/// A value list.
#[cycle(flow)]
pub fn walk_values(
    walker: &mut FlowWalk,
    context: &WalkContext,
    around: NodeContext,
    ask: Ask,
    items: &[Expr],
) -> Result<Given, Memory>
    ensures given { IfOk result (λ given. given ≡ passed ask (walked_all context.now walker.old (all_trees items.now))) }
    ensures noted { OnOk result (walker.new ≡ after_all context.now around walker.old (all_trees items.now)) }
{
    let given = walk_all(walker, context, around, items)?;
    passed(ask, given)
}

/// The application of a name.
#[cycle(flow)]
pub fn walk_application(
    walker: &mut FlowWalk,
    context: &WalkContext,
    around: NodeContext,
    mark: &Mark,
    name: &FunName,
    args: &[Expr],
) -> Result<Given, Memory>
    ensures given { IfOk result (λ given. given ≡ walked_application context.now walker.old name.now (all_trees args.now)) }
    ensures noted { OnOk result (walker.new ≡ after_application context.now around walker.old mark.now name.now (all_trees args.now)) }
{
    let given = walk_all(walker, context, around, args)?;
    match given {
        None => Ok(None),
        Some(types) => walker.apply_name(context, around, mark, name, types),
    }
}

/// The application of a value.
#[cycle(flow)]
pub fn walk_operator(
    walker: &mut FlowWalk,
    context: &WalkContext,
    around: NodeContext,
    mark: &Mark,
    operator: &Expr,
    args: &[Expr],
) -> Result<Given, Memory>
    ensures given { IfOk result (λ given. given ≡ walked_operator context.now walker.old (tree operator.now) (all_trees args.now)) }
    ensures noted { OnOk result (walker.new ≡ after_operator context.now around walker.old mark.now (tree operator.now) (all_trees args.now)) }
{
    let value = walk_expression(walker, context, around, Ask::Exactly(1), operator)?;
    let given = walk_all(walker, context, around, args)?;
    match value {
        None => Ok(None),
        Some(values) => match given {
            None => Ok(None),
            Some(types) => {
                let count = types.len();
                discard_types(types);
                walker.apply_value(around, mark, first(values), count)
            }
        },
    }
}

/// A call by a literal module and name.
#[cycle(flow)]
pub fn walk_named_call(
    walker: &mut FlowWalk,
    context: &WalkContext,
    around: NodeContext,
    mark: &Mark,
    home: &Atom,
    name: &Atom,
    args: &[Expr],
) -> Result<Given, Memory>
    ensures given { IfOk result (λ given. given ≡ walked_named_call context.now walker.old home.now name.now (all_trees args.now)) }
    ensures noted { OnOk result (walker.new ≡ after_named_call context.now around walker.old mark.now home.now name.now (all_trees args.now)) }
{
    let given = walk_all(walker, context, around, args)?;
    match given {
        None => Ok(None),
        Some(types) => {
            let called = walker.call(context, around, mark, home, name, types.as_slice());
            discard_types(types);
            called
        }
    }
}

/// Any other call.
#[cycle(flow)]
pub fn walk_call(
    walker: &mut FlowWalk,
    context: &WalkContext,
    around: NodeContext,
    home: &Expr,
    name: &Expr,
    args: &[Expr],
) -> Result<Given, Memory>
    ensures given { IfOk result (λ given. given ≡ walked_call context.now walker.old (tree home.now) (tree name.now) (all_trees args.now)) }
    ensures noted { OnOk result (walker.new ≡ after_call context.now around walker.old (tree home.now) (tree name.now) (all_trees args.now)) }
{
    let module = walk_one(walker, context, around, home)?;
    let function = walk_one(walker, context, around, name)?;
    let given = walk_all(walker, context, around, args)?;
    let all = module & function & given.is_some();
    discard_given(given);
    if !all {
        return Ok(None);
    }
    value(walker.alloc, Ty::any())
}

// Whether a primop only raises.
fn is_raising(name: &Atom) -> bool
    ensures { result ≡ is_raising name.now }
{
    is_text(name, b"match_fail") || is_text(name, b"raise") || is_text(name, b"raw_raise")
}

/// A primop.
#[cycle(flow)]
pub fn walk_primop(
    walker: &mut FlowWalk,
    context: &WalkContext,
    around: NodeContext,
    ask: Ask,
    name: &Atom,
    args: &[Expr],
) -> Result<Given, Memory>
    ensures given { IfOk result (λ given. given ≡ walked_primop context.now walker.old ask name.now (all_trees args.now)) }
    ensures noted { OnOk result (walker.new ≡ after_all context.now around walker.old (all_trees args.now)) }
{
    let given = walk_all(walker, context, around, args)?;
    let all = given.is_some();
    discard_given(given);
    if !all {
        return Ok(None);
    }
    if is_raising(name) {
        return Ok(None);
    }
    let mut types = List::new(walker.alloc);
    add_any(&mut types, whatever_asked(ask))?;
    Ok(Some(types))
}

//! Applications and calls.
ghost use Rattle.std.specs.Prelude.{◌≡◌, None, map, IfOk};
ghost use Rattle.core_ast.specs.Model as m;
ghost use Rattle.core_ast.specs.Named.{literal_atom, local_name};
ghost use Rattle.core_ast.specs.Tree.{all_trees, tree};
ghost use Rattle.core_ast.specs.declared.syntax.Mark.{Mark};
ghost use Rattle.core_scope.specs.Asks.{one_value};
ghost use Rattle.core_scope.specs.Names.{has_function};
ghost use Rattle.core_meaning.specs.Programs.{found};
ghost use Rattle.fun_flow_places.specs.Naming.{place_named};
ghost use Rattle.fun_flow_sets.specs.Rules.{call_place, call_rules, found_place, found_rules, handing_on};
ghost use Rattle.fun_flow_rules.specs.steps.Walking.{GivesOne, Makes, Walks};

use crate::expressions::{walk_all, walk_one};
use crate::walk::RuleWalk;
use core_ast::{Expr, FunName, Mark};
use core_scope::is_text;
use fun_flow_places::{FlowPlace, FoundFunction};
use type_kinds::{Atom, List, Memory};

/// An application.
#[cycle(rules)]
pub fn walk_apply(
    walk: &mut RuleWalk,
    mark: Mark,
    operator: &Expr,
    args: &[Expr],
) -> Result<List<FlowPlace>, Memory>
    ensures { Walks walk.old walk.new one_value (m.apply mark (tree operator.now) (all_trees args.now)) result }
{
    match operator.local_name() {
        Some(name) => walk_apply_name(walk, name, args),
        None => walk_apply_value(walk, mark, operator, args),
    }
}

// An application of a name: the arguments flow to the parameters, where they are as many.
#[cycle(rules)]
fn walk_apply_name(
    walk: &mut RuleWalk,
    name: &FunName,
    args: &[Expr],
) -> Result<List<FlowPlace>, Memory>
    ensures { (i j : Mark) → Walks walk.old walk.new one_value (m.apply i (m.local j name.now) (all_trees args.now)) result }
{
    let places = walk_all(walk, args)?;
    if name.arity as usize != args.len() {
        return walk.one(FlowPlace::Nowhere);
    }
    match walk.functions.get(name) {
        Some(label) => {
            walk.flow_to_parameters(label, places.as_slice())?;
            walk.one(FlowPlace::Returned(walk.home, label))
        }
        None => walk.one(FlowPlace::Nowhere),
    }
}

// An application of a value.
#[cycle(rules)]
fn walk_apply_value(
    walk: &mut RuleWalk,
    mark: Mark,
    operator: &Expr,
    args: &[Expr],
) -> Result<List<FlowPlace>, Memory>
    requires { local_name (tree operator.now) ≡ None }
    ensures { Walks walk.old walk.new one_value (m.apply mark (tree operator.now) (all_trees args.now)) result }
{
    let place = walk_one(walk, operator)?;
    walk.apply(place, args.len(), mark.label)?;
    walk_all(walk, args)?;
    walk.one(walk.part(mark.label))
}

/// A call.
#[cycle(rules)]
pub fn walk_call(
    walk: &mut RuleWalk,
    mark: Mark,
    home: &Expr,
    name: &Expr,
    args: &[Expr],
) -> Result<List<FlowPlace>, Memory>
    ensures { Walks walk.old walk.new one_value (m.call mark (tree home.now) (tree name.now) (all_trees args.now)) result }
{
    walk_one(walk, home)?;
    walk_one(walk, name)?;
    let places = walk_all(walk, args)?;
    let count = args.len();
    let place = walk_called(walk, mark.label, home, name, count, places.as_slice())?;
    walk.one(place)
}

// What a call to `count` arguments, which are at these places, makes, and the place of its value.
fn walk_called(
    walk: &mut RuleWalk,
    label: u32,
    home: &Expr,
    name: &Expr,
    count: usize,
    args: &[FlowPlace],
) -> Result<FlowPlace, Memory>
    ensures { IfOk result (λ place. Makes walk.old walk.new
        (λ U own sc. call_rules U own label (literal_atom (tree home.now)) (literal_atom (tree name.now)) count (map (place_named U) args.now))
        × GivesOne walk.old place (λ U own sc. call_place U own label (literal_atom (tree home.now)) (literal_atom (tree name.now)) count)) }
{
    let Some(home) = home.atom() else {
        return Ok(FlowPlace::Anywhere);
    };
    let Some(name) = name.atom() else {
        return Ok(FlowPlace::Anywhere);
    };
    let Ok(arity) = u32::try_from(count) else {
        return Err(Memory);
    };
    let name = FunName {
        name: name.copy(walk.alloc)?,
        arity,
    };
    walk_found(walk, label, home, &name, args)
}

// What a call by literal names makes.
fn walk_found(
    walk: &mut RuleWalk,
    label: u32,
    home: &Atom,
    name: &FunName,
    args: &[FlowPlace],
) -> Result<FlowPlace, Memory>
    ensures { IfOk result (λ place. Makes walk.old walk.new
        (λ U own sc. found_rules own label (found U home.now name.now) name.now (map (place_named U) args.now))
        × GivesOne walk.old place (λ U own sc. found_place U own label (found U home.now name.now) home.now name.now)) }
{
    match walk.table.resolve(home, name) {
        FoundFunction::BuiltIn => {
            if hands_on(name) {
                let place = walk.part(label);
                walk.flow_all(args, place)?;
                return Ok(place);
            }
            Ok(FlowPlace::Anywhere)
        }
        FoundFunction::Exported(home, Some(label)) => Ok(FlowPlace::Returned(home, label)),
        FoundFunction::Exported(_, None) => Ok(FlowPlace::Nowhere),
        FoundFunction::Hidden | FoundFunction::Outside => Ok(FlowPlace::Anywhere),
    }
}

// Whether the function of `erlang` hands on parts of its arguments.
fn hands_on(name: &FunName) -> bool
    ensures { result ≡ has_function handing_on name.now }
{
    match name.arity {
        1 => is_text(&name.name, b"hd") || is_text(&name.name, b"tl"),
        2 => is_text(&name.name, b"element"),
        _ => false,
    }
}

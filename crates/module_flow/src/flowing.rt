//! The flow of a module, and what it reports.
ghost use Rattle.std.specs.Prelude.{◌≡◌, ◌∷◌, ◌++◌, [], cond, IfOk, OnOk};
ghost use Rattle.core_ast.specs.Tree.{all_defs, module_tree};
ghost use Rattle.core_scope.specs.Checked.{tree_of};
ghost use Rattle.core_scope.specs.Names.{defined_names};
ghost use Rattle.cons_tree.specs.Callees.{found};
ghost use Rattle.warn_list.specs.declared.finding.FindingKind.TheVariants.{NeverCalled, NoReturn};
ghost use Rattle.module_flow_calls.specs.NodeContext.{at_node};
ghost use Rattle.module_flow_walk.specs.Findings.{found_in_functions};
ghost use Rattle.module_flow.specs.Flow.{findings, functions_reported, gives_nothing, last_state, unless_entered};
ghost use Rattle.module_flow_calls.specs.Functions.{defined_labels};
ghost use Rattle.module_flow_state.specs.Scopes.{outermost};
ghost use Rattle.module_flow_state.specs.States.{parameters_of};
ghost use Rattle.module_flow_calls.specs.Unknown.{unknown_functions};
ghost use Rattle.module_flow_state.specs.steps.Walking.{noting, world_of};

use crate::rounds::{first_state, walk_module};
use crate::visits::{first_positions, first_visits, walk_again};
use cons_tree::{Callee, Summaries, type_facts};
use core_ast::{FunDef, Module};
use core_scope::Checked;
use module_flow_calls::{Functions, NodeContext, unknown_functions};
use module_flow_state::{FlowChanges, FlowFun, FlowStates, FlowWalk, JOINED_ROUNDS, WalkContext};
use std::alloc::Global;
use type_kinds::{List, Memory, Shared};
use type_lattice::decision_laws;
use warn_list::{Finding, FindingKind};

/// The flow of a module: its functions in the last state, by label, and what is found.
#[derive(Drop)]
pub struct FlowOut {
    pub functions: List<FlowFun>,
    pub findings: List<Finding>,
}

/// The flow of types through a module, for summaries of all its own functions: with what each function, top-level or of a
/// `letrec`, is entered, and what it gives; and what the module does that can't work.
///
/// `Memory`: allocation failed, or a call has 2^32 arguments or more.
pub fn flow(alloc: Global, checked: &Checked, known: &Summaries) -> Result<FlowOut, Memory>
    ensures functions { IfOk result (λ out. out.functions ≡ last_state (found known.now) (tree_of checked.now)) }
    ensures findings { IfOk result (λ out. out.findings ≡ findings (found known.now) (tree_of checked.now)) }
{
    let source = checked.module();
    let tops = Functions::of_module(alloc, source.defs.as_slice())?;
    let around = NodeContext {
        quiet: false,
        line: None,
    };
    let around = around.under(source.note);
    let state = last_state(alloc, source, &tops, known, around)?;
    let context = WalkContext {
        home: &source.name,
        tops: &tops,
        known,
        state: &state,
    };
    let findings = findings(alloc, &context, around, source.defs.as_slice())?;
    Ok(FlowOut {
        functions: state.into_functions(),
        findings,
    })
}

// The first state that a round leaves unchanged.
fn last_state(
    alloc: Global,
    source: &Module,
    tops: &Functions,
    known: &Summaries,
    around: NodeContext,
) -> Result<FlowStates, Memory>
    requires names { tops.now.names ≡ defined_names (all_defs source.now.defs) }
    requires labels { tops.now.labels ≡ defined_labels (all_defs source.now.defs) }
    ensures { IfOk result (λ state. state ≡ last_state (found known.now) (module_tree source.now)) }
{
    type_facts();
    decision_laws();
    let defs = source.defs.as_slice();
    let mut state = first_state(alloc, source)?;
    let mut visits = first_visits(alloc, defs)?;
    let mut positions = first_positions(alloc, defs.len())?;
    let mut changes = FlowChanges::new(alloc);
    let count = state.functions().len();
    for round in 0..JOINED_ROUNDS + 2 * count {
        let context = WalkContext {
            home: &source.name,
            tops,
            known,
            state: &state,
        };
        let contributions = walk_again(
            alloc,
            &context,
            around,
            defs,
            &mut visits,
            &changes,
            round,
            positions.as_slice(),
        )?;
        if !state.take_round(contributions.as_slice(), &mut changes, round, round + 1)? {
            return Ok(state);
        }
        positions = visits.candidates(&changes)?;
    }
    Ok(state)
}

// What the walk of all functions finds.
fn found_by_walk(
    alloc: Global,
    context: &WalkContext,
    around: NodeContext,
    defs: &[Shared<FunDef>],
) -> Result<List<Finding>, Memory>
    ensures { IfOk result (λ list. list ≡ found_in_functions (world_of context.now) around outermost (all_defs defs.now)) }
{
    let walker = walk_module(alloc, context, around, defs, true)?;
    let FlowWalk { found, .. } = walker;
    Ok(found)
}

// Adds findings last.
fn add_findings(list: &mut List<Finding>, more: List<Finding>) -> Result<(), Memory>
    ensures { OnOk result (list.new ≡ list.old ++ more) }
{
    for finding in more.into_vec() {
        list.add(finding)?;
    }
    Ok(())
}

// What is found: of the functions, by the walk of the state, and of unknown names.
fn findings(
    alloc: Global,
    context: &WalkContext,
    around: NodeContext,
    defs: &[Shared<FunDef>],
) -> Result<List<Finding>, Memory>
    ensures { IfOk result (λ list. list ≡ functions_reported (world_of context.now) around (all_defs defs.now)
        ++ found_in_functions (world_of context.now) around outermost (all_defs defs.now)
        ++ unknown_functions (found context.now.known.now) around (all_defs defs.now)) }
{
    let mut findings = report_functions(alloc, context, around, defs)?;
    add_findings(&mut findings, found_by_walk(alloc, context, around, defs)?)?;
    add_findings(
        &mut findings,
        unknown_functions(alloc, context.known, around, defs)?,
    )?;
    Ok(findings)
}

// Functions that have no local return, and those that are never called.
fn report_functions(
    alloc: Global,
    context: &WalkContext,
    around: NodeContext,
    defs: &[Shared<FunDef>],
) -> Result<List<Finding>, Memory>
    ensures { IfOk result (λ list. list ≡ functions_reported (world_of context.now) around (all_defs defs.now)) }
{
    let mut walker = FlowWalk::new(alloc, true);
    for def in defs {
        report_function(&mut walker, context, around, def.get())?;
    }
    let FlowWalk { found, .. } = walker;
    Ok(found)
}

// Whether the lenient signature says that a function gives nothing.
fn gives_nothing(callee: &Callee) -> bool
    ensures { result ≡ gives_nothing callee.now }
{
    match callee {
        Callee::Known(summary) | Callee::Local(summary) => summary.lenient.get().result.is_none(),
        Callee::Undefined | Callee::Unknown => false,
    }
}

// What is reported of a function of the module by itself.
fn report_function(
    walker: &mut FlowWalk,
    context: &WalkContext,
    around: NodeContext,
    def: &FunDef,
) -> Result<(), Memory>
    ensures { OnOk result (walker.new ≡ noting walker.old [] (functions_reported (world_of context.now) around (all_defs (def.now ∷ [])))) }
{
    let around = around.under(def.mark.note);
    report_no_return(walker, context, around, def)?;
    report_never_called(walker, context, around, def)
}

// Reports a function that has no local return.
fn report_no_return(
    walker: &mut FlowWalk,
    context: &WalkContext,
    around: NodeContext,
    def: &FunDef,
) -> Result<(), Memory>
    ensures { OnOk result (walker.new ≡ noting walker.old []
        (cond (gives_nothing (found context.now.known.now context.now.home.now def.now.name)) (at_node around def.now.mark (NoReturn def.now.name)) [])) }
{
    if !gives_nothing(context.known.find(context.home, &def.name)) {
        return Ok(());
    }
    let name = def.name.copy(walker.alloc)?;
    walker.report(around, &def.mark, FindingKind::NoReturn(name))
}

// Reports a function that is never entered.
fn report_never_called(
    walker: &mut FlowWalk,
    context: &WalkContext,
    around: NodeContext,
    def: &FunDef,
) -> Result<(), Memory>
    ensures { OnOk result (walker.new ≡ noting walker.old []
        (unless_entered (parameters_of context.now.state.now def.now.mark.label) (at_node around def.now.mark (NeverCalled def.now.name)))) }
{
    if context.state.parameters(def.mark.label).is_some() {
        return Ok(());
    }
    let name = def.name.copy(walker.alloc)?;
    walker.report(around, &def.mark, FindingKind::NeverCalled(name))
}

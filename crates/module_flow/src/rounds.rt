//! Where the flow begins, and the walk of all functions.
ghost use Rattle.std.specs.Prelude.{◌≡◌, ◌∷◌, ◌++◌, ◌||◌, [], ℕ, cond, map, nat_eq, None, replicate, Some, IfOk, OnOk};
ghost use Rattle.core_ast.specs.Tree.{all_defs, module_tree};
ghost use Rattle.type_lattice.specs.Types.{any};
ghost use Rattle.module_flow_walk.specs.Findings.{found_in_functions};
ghost use Rattle.module_flow.specs.Flow.{exported_labels, first_state, has_label};
ghost use Rattle.module_flow_walk.specs.Contributions.{contributions_of_functions};
ghost use Rattle.module_flow_state.specs.Scopes.{outermost};
ghost use Rattle.module_flow.specs.steps.Beginning.{initial_function};
ghost use Rattle.module_flow_state.specs.steps.Walking.{world_of};

use core_ast::{FunDef, FunName, Module};
use core_scope::Names;
use indexmap::IndexSet;
use module_flow_calls::{DefinedFunction, NodeContext, any_types, names_of_module};
use module_flow_state::{FlowFun, FlowStates, FlowWalk, WalkContext};
use module_flow_walk::walk_function;
use std::alloc::{AllocFailed, Global};
use std::marker::Model;
use type_kinds::{List, Memory, Shared};
use type_lattice::Ty;

// Labels of functions, to be looked up.
#[derive(Drop)]
struct Labels {
    labels: IndexSet<u32>,
}

impl Model for Labels {
    ghost use Rattle.std.specs.Prelude.{List, ℕ};

    ghost Value = { List ℕ };

    ghost view = { λ it. it.labels.keys };
}

// Drops what a set returned.
fn discard_failed(_failed: AllocFailed<u32>) {}

impl Labels {
    // These labels.
    fn of(alloc: Global, labels: &[u32]) -> Result<Labels, Memory>
        ensures { IfOk result (λ set. (l : ℕ) → has_label set l ≡ has_label labels.now l) }
    {
        let mut set = Labels {
            labels: IndexSet::new(alloc),
        };
        for label in labels {
            set.add(*label)?;
        }
        Ok(set)
    }

    // Adds a label, which may be there already.
    fn add(&mut self, label: u32) -> Result<(), Memory>
        ensures { OnOk result ((l : ℕ) → has_label self.new l ≡ (nat_eq l label || has_label self.old l)) }
    {
        match self.labels.insert(label) {
            Ok(_) => Ok(()),
            Err(failed) => {
                discard_failed(failed);
                Err(Memory)
            }
        }
    }

    // Whether a label is there.
    fn has(&self, label: u32) -> bool
        ensures { result ≡ has_label self.now label }
    {
        self.labels.contains(&label)
    }
}

// Names of functions, to be looked up.
fn names_of(alloc: Global, exports: &[FunName]) -> Result<Names<FunName>, Memory>
    ensures { IfOk result (λ names. names ≡ exports.now) }
{
    let mut names = Names::new(alloc);
    for name in exports {
        names.push(name)?;
    }
    Ok(names)
}

// Adds the label of a function, if it is exported.
fn add_exported(
    labels: &mut List<u32>,
    exports: &Names<FunName>,
    def: &FunDef,
) -> Result<(), Memory>
    ensures { OnOk result (labels.new ≡ labels.old ++ exported_labels exports.now (all_defs (def.now ∷ []))) }
{
    if exports.has(&def.name) {
        return labels.add(def.mark.label);
    }
    Ok(())
}

// The labels of the exported functions, and behind them those of the functions that stand as values.
fn open_labels(
    alloc: Global,
    exports: &[FunName],
    defs: &[Shared<FunDef>],
    values: &[u32],
) -> Result<List<u32>, Memory>
    ensures { IfOk result (λ labels. labels ≡ exported_labels exports.now (all_defs defs.now) ++ values.now) }
{
    let names = names_of(alloc, exports)?;
    let mut labels = List::new(alloc);
    for def in defs {
        add_exported(&mut labels, &names, def.get())?;
    }
    for label in values {
        labels.add(*label)?;
    }
    Ok(labels)
}

// The parameters of a function as the flow begins.
fn initial_parameters(
    alloc: Global,
    escaping_labels: &Labels,
    function: &DefinedFunction,
) -> Result<Option<List<Ty>>, Memory>
    ensures { IfOk result (λ params. params ≡ cond (has_label escaping_labels.now function.now.label) (Some (replicate function.now.count any)) None) }
{
    if escaping_labels.has(function.label) {
        return Ok(Some(any_types(alloc, function.count)?));
    }
    Ok(None)
}

// A function as the flow begins.
fn initial_function(
    alloc: Global,
    escaping_labels: &Labels,
    function: &DefinedFunction,
) -> Result<FlowFun, Memory>
    ensures { IfOk result (λ f. f ≡ initial_function escaping_labels.now function.now) }
{
    let name = function.name.copy(alloc)?;
    let params = initial_parameters(alloc, escaping_labels, function)?;
    Ok(FlowFun {
        label: function.label,
        name,
        params,
        result: Ty::none(),
    })
}

// All functions as the flow begins.
fn initial_functions(
    alloc: Global,
    escaping_labels: &Labels,
    functions: &[DefinedFunction],
) -> Result<FlowStates, Memory>
    ensures { IfOk result (λ state. state ≡ map (initial_function escaping_labels.now) functions.now) }
{
    let mut state = FlowStates::new(alloc);
    for function in functions {
        state.add(initial_function(alloc, escaping_labels, function)?)?;
    }
    Ok(state)
}

/// The state in which the flow of a module begins.
pub fn first_state(alloc: Global, source: &Module) -> Result<FlowStates, Memory>
    ensures { IfOk result (λ state. state ≡ first_state (module_tree source.now)) }
{
    let defs = source.defs.as_slice();
    let names = names_of_module(alloc, defs)?;
    let exports = source.exports.as_slice();
    let labels = open_labels(alloc, exports, defs, names.labels.as_slice())?;
    let escaping_labels = Labels::of(alloc, labels.as_slice())?;
    initial_functions(alloc, &escaping_labels, names.functions.as_slice())
}

/// One walk of all functions that are entered.
pub fn walk_module(
    alloc: Global,
    context: &WalkContext,
    around: NodeContext,
    defs: &[Shared<FunDef>],
    reporting: bool,
) -> Result<FlowWalk, Memory>
    ensures contributions { IfOk result (λ walker. walker.contributions ≡ contributions_of_functions (world_of context.now) outermost (all_defs defs.now)) }
    ensures found { IfOk result (λ walker. walker.found
        ≡ cond reporting (found_in_functions (world_of context.now) around outermost (all_defs defs.now)) []) }
{
    let mut walker = FlowWalk::new(alloc, reporting);
    for def in defs {
        walk_function(&mut walker, context, around, def.get())?;
    }
    Ok(walker)
}

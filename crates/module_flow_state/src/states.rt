//! The state of the flow: what each function is entered with, and what it gives.
ghost use Rattle.std.specs.Prelude.{◌≡◌, ◌++◌, ◌∷◌, [], ◌<◌, ℕ, false, length, IfOk};
ghost use Rattle.std.specs.Prelude.{IfSome, IsTrue, OnErr, OnOk, MatchOption, None, Some};
ghost use Rattle.module_flow_calls.specs.TypeLists.{joins};
ghost use Rattle.module_flow_state.specs.States.{changed, entered, next_state, parameters_of, result_of};
ghost use Rattle.module_flow_state.specs.States.{returning, takes, takes_one, widened_one, widened_parameters};
ghost use Rattle.module_flow_state.specs.steps.Kept.{Absorbs, KeptIn, functions_at, functions_given, widens};
ghost use Rattle.module_flow_state.specs.steps.Placing.{are_same_parameters, is_same_function, position_of};
ghost use Rattle.module_flow_state.specs.steps.Reading.{label_of};
ghost use Rattle.module_flow_state.specs.steps.Changes.{AllNotedAnew, MoreChanges, Noted, rounds_of};

use crate::changes::FlowChanges;
use cons_tree::{copy_types, type_facts};
use core_ast::FunName;
use indexmap::IndexMap;
use module_flow_calls::{any_types, are_same, joins};
use std::alloc::{AllocFailed, Global};
use std::marker::Model;
use type_kinds::{List, Memory};
use type_lattice::{Ty, decision_laws};

/// The number of rounds that take all that a walk gives.
pub const JOINED_ROUNDS: usize = 12;

/// A function in the flow.
#[derive(Drop)]
pub struct FlowFun {
    /// The label of its definition.
    pub label: u32,
    /// The name that it is defined under.
    pub name: FunName,
    /// The types of its parameters, or `None` where it is never entered.
    pub params: Option<List<Ty>>,
    /// The type of its result.
    pub result: Ty,
}

/// What a walk gives to the state.
#[derive(Drop)]
pub enum Contribution {
    /// The function of this label is entered with arguments of these types.
    Enters(u32, List<Ty>),
    /// The function of this label gives a value of this type.
    Returns(u32, Ty),
}

/// The functions of a module, found by their labels. Contracts see the list of them.
#[derive(Drop)]
pub struct FlowStates {
    alloc: Global,
    functions: List<FlowFun>,
    positions: IndexMap<u32, usize>,
}

impl Model for FlowStates {
    ghost use Rattle.std.specs.Prelude.{◌≡◌, List};
    ghost use Rattle.module_flow_state.specs.declared.states.FlowFun.{FlowFun};
    ghost use Rattle.module_flow_state.specs.steps.Codes.{functions_code};
    ghost use Rattle.module_flow_state.specs.steps.Placing.{ArePlaced};

    ghost Value = { List FlowFun };

    ghost coded = { functions_code };

    ghost view = { λ it. it.functions };

    ghost invariant = { λ it. ArePlaced it.functions it.positions.entries };
}

// Drops what a table returned.
fn discard_failed(_failed: AllocFailed<(u32, usize)>) {}

impl FlowStates {
    /// No functions. Takes no memory.
    pub fn new(alloc: Global) -> FlowStates
        ensures { result ≡ [] }
    {
        FlowStates {
            alloc,
            functions: List::new(alloc),
            positions: IndexMap::new(alloc),
        }
    }

    /// The functions.
    pub fn functions(&self) -> &[FlowFun]
        ensures { result.now ≡ self.now }
    {
        self.functions.as_slice()
    }

    /// The functions, moved out of the state.
    pub fn into_functions(self) -> List<FlowFun>
        ensures { result ≡ self }
    {
        let FlowStates { functions, .. } = self;
        functions
    }

    /// Adds a function last. If allocation fails all is as before.
    pub fn add(&mut self, function: FlowFun) -> Result<(), Memory>
        ensures added { OnOk result (self.new ≡ self.old ++ function ∷ []) }
        ensures unchanged { OnErr result (self.new ≡ self.old) }
    {
        let label = function.label;
        let position = self.functions.len();
        self.functions.add(function)?;
        if self.positions.contains_key(&label) {
            return Ok(());
        }
        match self.positions.insert(label, position) {
            Ok(_) => Ok(()),
            Err(failed) => {
                discard_failed(failed);
                self.functions.truncate(position);
                Err(Memory)
            }
        }
    }

    // Where the first function of this label stands.
    fn position(&self, label: u32) -> Option<usize>
        ensures there { result ≡ position_of self.now label }
        ensures within { IfSome result (λ position. position < length self.now) }
    {
        self.positions.get(&label).copied()
    }

    /// The types of a function's parameters, or `None` where it isn't entered.
    pub fn parameters(&self, label: u32) -> Option<&List<Ty>>
        ensures { MatchOption result (parameters_of self.now label ≡ None) (λ types. parameters_of self.now label ≡ Some types.now) }
    {
        match self.position(label) {
            Some(position) => self.functions.at(position).params.as_ref(),
            None => None,
        }
    }

    /// The type of a function's result.
    pub fn result(&self, label: u32) -> Result<Ty, Memory>
        ensures { IfOk result (λ t. t ≡ result_of self.now label) }
    {
        match self.position(label) {
            Some(position) => self.functions.at(position).result.copy(),
            None => Ok(Ty::none()),
        }
    }

    /// Takes what the walks of a round gave, in their order, and notes what it changes as changed before the next round. Tells
    /// whether anything may have changed.
    pub fn take_round(
        &mut self,
        contributions: &[Contribution],
        changes: &mut FlowChanges,
        round: usize,
        next: usize,
    ) -> Result<bool, Memory>
        ensures after { OnOk result (self.new ≡ next_state round self.old (takes self.old contributions.now)) }
        ensures noted { IfOk result (λ changed. Noted self.old self.new (rounds_of changes.old) (rounds_of changes.new) next changed) }
        ensures anew { OnOk result (AllNotedAnew changes.old changes.new next) }
    {
        let news = self.news(contributions)?;
        self.take_news(news.as_slice(), changes, round, next)
    }

    // Those of the contributions that may change something.
    fn news(&self, contributions: &[Contribution]) -> Result<List<Contribution>, Memory>
        ensures { IfOk result (λ news. (k : ℕ) → next_state k self.now (takes self.now news)
            ≡ next_state k self.now (takes self.now contributions.now)) }
    {
        type_facts();
        decision_laws();
        let mut news = List::new(self.alloc);
        for contribution in contributions {
            if !self.has_taken(contribution) {
                news.add(contribution.copy(self.alloc)?)?;
            }
        }
        Ok(news)
    }

    // Whether taking a contribution changes nothing. Takes no memory.
    fn has_taken(&self, contribution: &Contribution) -> bool
        ensures { IsTrue result → (k : ℕ) → KeptIn k self.now (contribution.now ∷ []) }
    {
        match self.position(contribution.label()) {
            Some(position) => self.functions.at(position).has_taken(contribution),
            None => true,
        }
    }

    // The same, of contributions some of which may change something.
    fn take_news(
        &mut self,
        contributions: &[Contribution],
        changes: &mut FlowChanges,
        round: usize,
        next: usize,
    ) -> Result<bool, Memory>
        ensures after { OnOk result (self.new ≡ next_state round self.old (takes self.old contributions.now)) }
        ensures noted { IfOk result (λ changed. Noted self.old self.new (rounds_of changes.old) (rounds_of changes.new) next changed) }
        ensures anew { OnOk result (AllNotedAnew changes.old changes.new next) }
    {
        changes.begin();
        if round < JOINED_ROUNDS {
            return self.take_all(contributions, changes, next);
        }
        decision_laws();
        let before = self.functions_given(contributions)?;
        let changed = self.take_all(contributions, changes, next)?;
        self.widen_all(before.as_slice())?;
        Ok(changed)
    }

    // Takes contributions, in their order.
    fn take_all(
        &mut self,
        contributions: &[Contribution],
        changes: &mut FlowChanges,
        next: usize,
    ) -> Result<bool, Memory>
        ensures after { OnOk result (self.new ≡ takes self.old contributions.now) }
        ensures noted { IfOk result (λ changed. Noted self.old self.new (rounds_of changes.old) (rounds_of changes.new) next changed) }
        ensures more { OnOk result (MoreChanges changes.old changes.new next) }
    {
        let mut changed = false;
        for contribution in contributions {
            if self.take_noting(contribution, changes, next)? {
                changed = true;
            }
        }
        Ok(changed)
    }

    // Takes one contribution, and notes it if it changes the state.
    fn take_noting(
        &mut self,
        contribution: &Contribution,
        changes: &mut FlowChanges,
        next: usize,
    ) -> Result<bool, Memory>
        ensures after { OnOk result (self.new ≡ takes_one self.old contribution.now) }
        ensures noted { IfOk result (λ changed. Noted self.old self.new (rounds_of changes.old) (rounds_of changes.new) next changed) }
        ensures more { OnOk result (MoreChanges changes.old changes.new next) }
    {
        if !self.take(contribution)? {
            return Ok(false);
        }
        match contribution {
            Contribution::Enters(label, _) => changes.entered.note(*label, next)?,
            Contribution::Returns(label, _) => changes.given.note(*label, next)?,
        }
        Ok(true)
    }

    // Takes one contribution, and tells whether it changes the state.
    fn take(&mut self, contribution: &Contribution) -> Result<bool, Memory>
        ensures after { OnOk result (self.new ≡ takes_one self.old contribution.now) }
        ensures still { IfOk result (λ changed. changed ≡ false → self.new ≡ self.old) }
    {
        match contribution {
            Contribution::Enters(label, types) => self.enter(*label, types.as_slice()),
            Contribution::Returns(label, ty) => self.give(*label, ty),
        }
    }

    // A function is entered with arguments of these types.
    fn enter(&mut self, label: u32, types: &[Ty]) -> Result<bool, Memory>
        ensures after { OnOk result (self.new ≡ changed self.old label (λ f. entered f types.now)) }
        ensures still { IfOk result (λ changed. changed ≡ false → self.new ≡ self.old) }
    {
        let Some(position) = self.position(label) else {
            return Ok(false);
        };
        let function = self.functions.at(position);
        let entered = function.entered(self.alloc, types)?;
        if function.is_same(&entered) {
            discard_function(entered);
            return Ok(false);
        }
        discard_function(self.functions.replace(position, entered));
        Ok(true)
    }

    // A function gives a value of this type.
    fn give(&mut self, label: u32, ty: &Ty) -> Result<bool, Memory>
        ensures after { OnOk result (self.new ≡ changed self.old label (λ f. returning f ty.now)) }
        ensures still { IfOk result (λ changed. changed ≡ false → self.new ≡ self.old) }
    {
        let Some(position) = self.position(label) else {
            return Ok(false);
        };
        let function = self.functions.at(position);
        let returning = function.returning(self.alloc, ty)?;
        if function.is_same(&returning) {
            discard_function(returning);
            return Ok(false);
        }
        discard_function(self.functions.replace(position, returning));
        Ok(true)
    }

    // The functions that contributions are for, one for each contribution.
    fn functions_given(&self, contributions: &[Contribution]) -> Result<List<FlowFun>, Memory>
        ensures { IfOk result (λ list. list ≡ functions_given self.now contributions.now) }
    {
        let mut list = List::new(self.alloc);
        for contribution in contributions {
            self.add_function(contribution.label(), &mut list)?;
        }
        Ok(list)
    }

    // Adds the function of a label, where one stands.
    fn add_function(&self, label: u32, list: &mut List<FlowFun>) -> Result<(), Memory>
        ensures { OnOk result (list.new ≡ list.old ++ functions_at self.now label) }
    {
        match self.position(label) {
            Some(position) => list.add(self.functions.at(position).copy(self.alloc)?),
            None => Ok(()),
        }
    }

    // Widens the functions that were these before a late round.
    fn widen_all(&mut self, before: &[FlowFun]) -> Result<(), Memory>
        ensures { OnOk result (self.new ≡ widens self.old before.now) }
    {
        for old in before {
            self.widen(old)?;
        }
        Ok(())
    }

    // Widens the function that was this one before a late round.
    fn widen(&mut self, old: &FlowFun) -> Result<(), Memory>
        ensures { OnOk result (self.new ≡ changed self.old old.now.label (λ n. widened_one old.now n)) }
    {
        let Some(position) = self.position(old.label) else {
            return Ok(());
        };
        let wide = old.widened(self.alloc, self.functions.at(position))?;
        discard_function(self.functions.replace(position, wide));
        Ok(())
    }
}

impl Contribution {
    /// The label of the function that it is for.
    pub fn label(&self) -> u32
        ensures { result ≡ label_of self.now }
    {
        match self {
            Contribution::Enters(label, _) | Contribution::Returns(label, _) => *label,
        }
    }

    // A second contribution, equal to the first.
    fn copy(&self, alloc: Global) -> Result<Contribution, Memory>
        ensures { IfOk result (λ copy. copy ≡ self.now) }
    {
        match self {
            Contribution::Enters(label, types) => {
                Ok(Contribution::Enters(*label, copy_types(alloc, types.as_slice())?))
            }
            Contribution::Returns(label, ty) => Ok(Contribution::Returns(*label, ty.copy()?)),
        }
    }
}

fn discard_function(_function: FlowFun) {}

// Whether each of these types is below the other at its position, of which there are no more. Takes no memory.
fn cover(others: &[Ty], types: &[Ty]) -> bool
    ensures { IsTrue result → joins others.now types.now ≡ others.now }
{
    type_facts();
    if types.len() < others.len() {
        return false;
    }
    for at in 0..others.len() {
        if !types[at].leq(&others[at]) {
            return false;
        }
    }
    true
}

// Parameters, copied.
fn copy_parameters(alloc: Global, params: &Option<List<Ty>>) -> Result<Option<List<Ty>>, Memory>
    ensures { IfOk result (λ copy. copy ≡ params.now) }
{
    match params {
        Some(types) => Ok(Some(copy_types(alloc, types.as_slice())?)),
        None => Ok(None),
    }
}

// The parameters after a late round that made others of them.
fn widened_parameters(
    alloc: Global,
    old: &Option<List<Ty>>,
    new: &Option<List<Ty>>,
) -> Result<Option<List<Ty>>, Memory>
    ensures { IfOk result (λ params. params ≡ widened_parameters old.now new.now) }
{
    match new {
        None => copy_parameters(alloc, old),
        Some(types) => match old {
            None => Ok(Some(any_types(alloc, types.len())?)),
            Some(before) => {
                if are_same(before.as_slice(), types.as_slice()) {
                    return copy_parameters(alloc, old);
                }
                Ok(Some(any_types(alloc, before.len())?))
            }
        },
    }
}

// Whether parameters are the same.
fn are_same_parameters(one: &Option<List<Ty>>, other: &Option<List<Ty>>) -> bool
    ensures { result ≡ are_same_parameters one.now other.now }
{
    match one {
        None => other.is_none(),
        Some(types) => match other {
            None => false,
            Some(others) => are_same(types.as_slice(), others.as_slice()),
        },
    }
}

impl FlowFun {
    /// A second function, equal to the first.
    pub fn copy(&self, alloc: Global) -> Result<FlowFun, Memory>
        ensures { IfOk result (λ copy. copy ≡ self.now) }
    {
        let name = self.name.copy(alloc)?;
        let params = copy_parameters(alloc, &self.params)?;
        let result = self.result.copy()?;
        Ok(FlowFun {
            label: self.label,
            name,
            params,
            result,
        })
    }

    // Whether taking a contribution for it changes nothing. Takes no memory.
    fn has_taken(&self, contribution: &Contribution) -> bool
        ensures { IsTrue result → Absorbs self.now contribution.now }
    {
        type_facts();
        match contribution {
            Contribution::Enters(_, types) => match &self.params {
                Some(before) => cover(before.as_slice(), types.as_slice()),
                None => false,
            },
            Contribution::Returns(_, ty) => ty.leq(&self.result),
        }
    }

    // The function, entered with arguments of these types.
    fn entered(&self, alloc: Global, types: &[Ty]) -> Result<FlowFun, Memory>
        ensures { IfOk result (λ f. f ≡ entered self.now types.now) }
    {
        let name = self.name.copy(alloc)?;
        let params = match &self.params {
            Some(before) => joins(alloc, before.as_slice(), types)?,
            None => copy_types(alloc, types)?,
        };
        let result = self.result.copy()?;
        Ok(FlowFun {
            label: self.label,
            name,
            params: Some(params),
            result,
        })
    }

    // The function, giving a value of this type.
    fn returning(&self, alloc: Global, ty: &Ty) -> Result<FlowFun, Memory>
        ensures { IfOk result (λ f. f ≡ returning self.now ty.now) }
    {
        let name = self.name.copy(alloc)?;
        let params = copy_parameters(alloc, &self.params)?;
        let result = self.result.join(alloc, ty)?;
        Ok(FlowFun {
            label: self.label,
            name,
            params,
            result,
        })
    }

    // The function after a late round that made another of it.
    fn widened(&self, alloc: Global, new: &FlowFun) -> Result<FlowFun, Memory>
        ensures { IfOk result (λ f. f ≡ widened_one self.now new.now) }
    {
        let name = self.name.copy(alloc)?;
        let params = widened_parameters(alloc, &self.params, &new.params)?;
        let result = if self.result == new.result {
            self.result.copy()?
        } else {
            Ty::any()
        };
        Ok(FlowFun {
            label: self.label,
            name,
            params,
            result,
        })
    }

    // Whether two states of one function are the same.
    fn is_same(&self, other: &FlowFun) -> bool
        ensures { result ≡ is_same_function self.now other.now }
    {
        if self.label != other.label || self.name != other.name {
            return false;
        }
        are_same_parameters(&self.params, &other.params) && self.result == other.result
    }
}

//! The state of the walk through a program, and its small steps.
ghost use Rattle.std.specs.Prelude.{◌≡◌, [], ◌∷◌, ◌++◌, drop, map, IfOk, OnOk};
ghost use Rattle.core_meaning.specs.Programs.{Program};
ghost use Rattle.fun_flow_places.specs.Naming.{place_named};
ghost use Rattle.fun_flow_places.specs.declared.places.FlowPlace.TheVariants as place;
ghost use Rattle.fun_flow_places.specs.declared.places.FlowRule.TheVariants as rule;
ghost use Rattle.fun_flow_sets.specs.Rules.{all_into, in_function, into_parameters, kept, opens, parts, passed_to};
ghost use Rattle.fun_flow_sets.specs.Scopes.{first, with_place, with_places};
ghost use Rattle.fun_flow_rules.specs.steps.Walking.{Binds, Gives, Makes, no_rules, place_in, with_rules};

use core_ast::VarName;
use core_scope::{Ask, is_text};
use fun_flow_places::{Bindings, FlowPlace, FlowRule, FunctionLabels, Item, ModuleTable};
use std::alloc::Global;
use type_kinds::{Atom, List, Memory};

/// What a walk knows: what the modules export, the position of the module that it walks, the places of the
/// variables and the functions that are seen, the module's own first; and the rules so far.
#[derive(Drop)]
pub struct RuleWalk {
    pub alloc: Global,
    pub table: ModuleTable,
    pub home: usize,
    pub variables: Bindings<Atom, FlowPlace>,
    pub functions: FunctionLabels,
    pub rules: List<FlowRule>,
}

/// The first of places; where there is none, any value may stand.
pub fn first(places: &[FlowPlace]) -> FlowPlace
    ensures { (U : Program) → place_named U result ≡ first (map (place_named U) places.now) }
{
    match places.first() {
        Some(place) => *place,
        None => FlowPlace::Anywhere,
    }
}

/// The place at a position; where there is none, any value may stand.
pub fn place_at(places: &[FlowPlace], position: usize) -> FlowPlace
    ensures { (U : Program) → place_named U result ≡ first (map (place_named U) (drop position places.now)) }
{
    match places.get(position) {
        Some(place) => *place,
        None => FlowPlace::Anywhere,
    }
}

/// How many values are kept: those that are asked, and none where any number may come.
fn kept(ask: Ask) -> usize
    ensures { result ≡ kept ask }
{
    match ask {
        Ask::AnyNumber => 0,
        Ask::Exactly(count) => count,
    }
}

impl RuleWalk {
    /// Nothing was walked of a program with this table, and nothing is seen.
    pub fn new(alloc: Global, table: ModuleTable) -> RuleWalk
        ensures table { result.table ≡ table }
        ensures variables { result.variables ≡ [] }
        ensures functions { result.functions ≡ [] }
        ensures rules { result.rules ≡ [] }
    {
        RuleWalk {
            alloc,
            table,
            home: 0,
            variables: Bindings::new(alloc),
            functions: Bindings::new(alloc),
            rules: List::new(alloc),
        }
    }

    /// Takes the rules out.
    pub fn take_rules(&mut self) -> List<FlowRule>
        ensures rules { result ≡ self.old.rules }
        ensures rest { self.new ≡ with_rules self.old [] }
    {
        std::mem::replace(&mut self.rules, List::new(self.alloc))
    }

    /// The place of the expression at a label.
    pub fn part(&self, label: u32) -> FlowPlace
        ensures { result ≡ place.Part self.now.home label 0 }
    {
        FlowPlace::Part(self.home, label, 0)
    }

    /// The places of the values of the expression at a label.
    pub fn parts(&self, label: u32, ask: Ask) -> Result<List<FlowPlace>, Memory>
        ensures { IfOk result (λ places. Gives self.now places (λ U home sc. parts home label 0 (kept ask))) }
    {
        let mut places = List::new(self.alloc);
        for number in 0..kept(ask) {
            places.add(FlowPlace::Part(self.home, label, number))?;
        }
        Ok(places)
    }

    /// One place.
    pub fn one(&self, place: FlowPlace) -> Result<List<FlowPlace>, Memory>
        ensures { IfOk result (λ places. places ≡ place ∷ []) }
    {
        let mut places = List::new(self.alloc);
        places.add(place)?;
        Ok(places)
    }

    /// Where the values of a variable are.
    pub fn place_of(&self, name: &Atom) -> FlowPlace
        ensures { result ≡ place_in self.now.variables name.now }
    {
        match self.variables.get(name) {
            Some(place) => place,
            None => FlowPlace::Nowhere,
        }
    }

    // ---- rules

    /// The place holds the item.
    pub fn hold(&mut self, place: FlowPlace, item: Item) -> Result<(), Memory>
        ensures { OnOk result (self.new ≡ with_rules self.old (self.old.rules ++ rule.Holds place item ∷ [])) }
    {
        self.rules.add(FlowRule::Holds(place, item))
    }

    /// What the first place holds the second one holds.
    pub fn flow(&mut self, from: FlowPlace, to: FlowPlace) -> Result<(), Memory>
        ensures { OnOk result (self.new ≡ with_rules self.old (self.old.rules ++ rule.Flows from to ∷ [])) }
    {
        self.rules.add(FlowRule::Flows(from, to))
    }

    /// What stands at the place is applied to so many arguments, by the application at a label.
    pub fn apply(&mut self, operator: FlowPlace, count: usize, label: u32) -> Result<(), Memory>
        ensures { OnOk result (self.new ≡ with_rules self.old (self.old.rules ++ rule.Applies operator count self.old.home label ∷ [])) }
    {
        self.rules
            .add(FlowRule::Applies(operator, count, self.home, label))
    }

    /// What each of the places holds the last one holds.
    pub fn flow_all(&mut self, from: &[FlowPlace], to: FlowPlace) -> Result<(), Memory>
        ensures { OnOk result (Makes self.old self.new (λ U home sc. all_into (map (place_named U) from.now) (place_named U to))) }
    {
        for place in from {
            self.flow(*place, to)?;
        }
        Ok(())
    }

    /// Each flows to the parameter of its number of the function at a label.
    pub fn flow_to_parameters(&mut self, label: u32, from: &[FlowPlace]) -> Result<(), Memory>
        ensures { OnOk result (Makes self.old self.new (λ U home sc. into_parameters home label 0 (map (place_named U) from.now))) }
    {
        for number in 0..from.len() {
            self.flow(from[number], FlowPlace::Parameter(self.home, label, number))?;
        }
        Ok(())
    }

    /// Each flows to the value of its number of the form at a label, of which some are asked.
    pub fn pass_on(&mut self, label: u32, ask: Ask, from: &[FlowPlace]) -> Result<(), Memory>
        ensures { OnOk result (Makes self.old self.new (λ U home sc. passed_to U home label ask (map (place_named U) from.now))) }
    {
        for number in 0..kept(ask) {
            self.flow(
                place_at(from, number),
                FlowPlace::Part(self.home, label, number),
            )?;
        }
        Ok(())
    }

    /// The parameters of the function at a label may be anything.
    pub fn open_parameters(&mut self, label: u32, count: usize) -> Result<(), Memory>
        ensures { OnOk result (Makes self.old self.new (λ U home sc. opens home label 0 count)) }
    {
        for number in 0..count {
            self.hold(
                FlowPlace::Parameter(self.home, label, number),
                Item::Anything,
            )?;
        }
        Ok(())
    }

    // ---- what is seen

    /// The variable stands for the values at a place. `_` binds nothing.
    pub fn bind(&mut self, name: &Atom, place: FlowPlace) -> Result<(), Memory>
        ensures { OnOk result (Binds self.old self.new no_rules (λ U home sc. with_place name.now (place_named U place) sc)) }
    {
        if is_text(name, b"_") {
            return Ok(());
        }
        self.variables.push(name, place)
    }

    /// The variables stand for the values at these places, one after another.
    pub fn bind_all(&mut self, vars: &[VarName], places: &[FlowPlace]) -> Result<(), Memory>
        ensures { OnOk result (Binds self.old self.new no_rules (λ U home sc. with_places vars.now (map (place_named U) places.now) sc)) }
    {
        for position in 0..vars.len() {
            self.bind(&vars[position].name, place_at(places, position))?;
        }
        Ok(())
    }

    /// The variables are the parameters of the function at a label.
    pub fn bind_parameters(&mut self, label: u32, vars: &[VarName]) -> Result<(), Memory>
        ensures { OnOk result (Binds self.old self.new no_rules (λ U home sc. in_function U home label vars.now sc)) }
    {
        for number in 0..vars.len() {
            let place = FlowPlace::Parameter(self.home, label, number);
            self.bind(&vars[number].name, place)?;
        }
        Ok(())
    }
}

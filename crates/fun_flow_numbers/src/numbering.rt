//! The rules over the numbers of their places and items.
ghost use Rattle.std.specs.Prelude.{◌≡◌, List, [], ◌∷◌, ◌++◌, Contains, Some, slice_get, IfOk, OnOk};
ghost use Rattle.fun_flow_places.specs.declared.places.FlowRule.{FlowRule};
ghost use Rattle.fun_flow_places.specs.declared.places.FlowRule.TheVariants.{Holds, Flows, Applies};
ghost use Rattle.fun_flow_numbers.specs.steps.Numbering.{AddsItem, GivesFor, GivesFound, IsNumbering, Keeps, first_rule};

use crate::numbered::Numbered;
use fun_flow_places::{FlowPlace, FlowRule, FoundFunction, Item, ModuleTable};
use fun_flow_solver::{Application, Edge, Gives, Known, Pair, Problem};
use std::alloc::Global;
use type_kinds::Memory;

/// The places and items that were met, and the rules so far over their numbers. Item 0 is anything.
#[derive(Drop)]
pub struct RuleNumbering {
    pub alloc: Global,
    pub places: Numbered<FlowPlace>,
    pub items: Numbered<Item>,
    pub problem: Problem,
}

// A number of 32 bits, or `Memory` where it is greater.
fn small(number: usize) -> Result<u32, Memory>
    ensures { IfOk result (λ small. small ≡ number) }
{
    match u32::try_from(number) {
        Ok(small) => Ok(small),
        Err(_) => Err(Memory),
    }
}

// The same item. `Memory` if allocation fails.
fn copy_of(alloc: Global, item: &Item) -> Result<Item, Memory>
    ensures { IfOk result (λ copy. copy ≡ item.now) }
{
    match item {
        Item::Anything => Ok(Item::Anything),
        Item::Closure(home, label, arity) => Ok(Item::Closure(*home, *label, *arity)),
        Item::External(home, name) => Ok(Item::External(home.copy(alloc)?, name.copy(alloc)?)),
    }
}

impl RuleNumbering {
    /// The rule that anything is anywhere. `Memory` if allocation fails.
    pub fn new(alloc: Global) -> Result<RuleNumbering, Memory>
        ensures { IfOk result (λ numbering. (table : ModuleTable) → IsNumbering table (first_rule ∷ []) numbering) }
    {
        let problem = Problem {
            starts: Vec::new(alloc),
            flows: Vec::new(alloc),
            applications: Vec::new(alloc),
            items: Vec::new(alloc),
        };
        let mut numbering = RuleNumbering {
            alloc,
            places: Numbered::new(alloc),
            items: Numbered::new(alloc),
            problem,
        };
        let item = numbering.add_item(Item::Anything, 0, Gives::Unknown)?;
        numbering.start(FlowPlace::Anywhere, item)?;
        Ok(numbering)
    }

    // The number of a place, which is new where it wasn't met.
    fn place(&mut self, place: FlowPlace) -> Result<u32, Memory>
        ensures number { IfOk result (λ number. slice_get self.new.places number ≡ Some place) }
        ensures keeps { OnOk result (Keeps self.old self.new) }
    {
        let number = self.places.add(place)?;
        small(number)
    }

    // Adds an item that wasn't met, with what is known of it, and gives its number.
    fn add_item(&mut self, item: Item, arity: usize, gives: Gives) -> Result<u32, Memory>
        requires new { Contains self.old.items item → ⊥ }
        ensures number { IfOk result (λ number. slice_get self.new.items number ≡ Some item) }
        ensures adds { OnOk result (AddsItem self.old self.new item arity gives) }
    {
        let arity = small(arity)?;
        let number = small(self.items.add(item)?)?;
        match self.problem.items.push(Known { arity, gives }) {
            Ok(()) => Ok(number),
            Err(_) => Err(Memory),
        }
    }

    // The number of an item, which is new where it wasn't met.
    fn item(&mut self, table: &ModuleTable, item: &Item) -> Result<u32, Memory>
        ensures number { IfOk result (λ number. slice_get self.new.items number ≡ Some item.now) }
        ensures kept { OnOk result ((rules : List FlowRule) → IsNumbering table.now rules self.old → IsNumbering table.now rules self.new) }
    {
        if let Some(number) = self.items.number_of(item) {
            return small(number);
        }
        let gives = self.gives_of(table, item)?;
        let copy = copy_of(self.alloc, item)?;
        self.add_item(copy, item.arity(), gives)
    }

    // What applying an item gives.
    fn gives_of(&mut self, table: &ModuleTable, item: &Item) -> Result<Gives, Memory>
        ensures gives { IfOk result (λ gives. GivesFor table.now self.new.places item.now gives) }
        ensures keeps { OnOk result (Keeps self.old self.new) }
    {
        match item {
            Item::Anything => Ok(Gives::Unknown),
            Item::Closure(home, label, _) => {
                let returned = self.place(FlowPlace::Returned(*home, *label))?;
                Ok(Gives::Body(returned))
            }
            Item::External(home, name) => self.gives_found(table.resolve(home, name)),
        }
    }

    // What calling a function gives, once it is found.
    fn gives_found(&mut self, found: FoundFunction) -> Result<Gives, Memory>
        ensures gives { IfOk result (λ gives. GivesFound self.new.places found gives) }
        ensures keeps { OnOk result (Keeps self.old self.new) }
    {
        match found {
            FoundFunction::BuiltIn | FoundFunction::Outside => Ok(Gives::Unknown),
            FoundFunction::Hidden | FoundFunction::Exported(_, None) => Ok(Gives::Nothing),
            FoundFunction::Exported(at, Some(label)) => {
                let returned = self.place(FlowPlace::Returned(at, label))?;
                Ok(Gives::Body(returned))
            }
        }
    }

    // A place holds an item.
    fn add_start(
        &mut self,
        table: &ModuleTable,
        place: FlowPlace,
        item: &Item,
    ) -> Result<(), Memory>
        ensures { OnOk result ((rules : List FlowRule) → IsNumbering table.now rules self.old
            → IsNumbering table.now (rules ++ Holds place item.now ∷ []) self.new) }
    {
        let item = self.item(table, item)?;
        self.start(place, item)
    }

    // A place holds the item of a number.
    fn start(&mut self, place: FlowPlace, item: u32) -> Result<(), Memory>
        ensures { OnOk result ((table : ModuleTable) (rules : List FlowRule) (x : Item) → slice_get self.old.items item ≡ Some x
            → IsNumbering table rules self.old → IsNumbering table (rules ++ Holds place x ∷ []) self.new) }
    {
        let place = self.place(place)?;
        match self.problem.starts.push(Pair { place, item }) {
            Ok(()) => Ok(()),
            Err(_) => Err(Memory),
        }
    }

    // What one place holds another one holds.
    fn add_flow(&mut self, from: FlowPlace, to: FlowPlace) -> Result<(), Memory>
        ensures { OnOk result ((table : ModuleTable) (rules : List FlowRule) → IsNumbering table rules self.old
            → IsNumbering table (rules ++ Flows from to ∷ []) self.new) }
    {
        let from = self.place(from)?;
        let to = self.place(to)?;
        match self.problem.flows.push(Edge { from, to }) {
            Ok(()) => Ok(()),
            Err(_) => Err(Memory),
        }
    }

    // What a place holds is applied to arguments, by the application at a label of a module.
    fn add_application(
        &mut self,
        operator: FlowPlace,
        count: usize,
        home: usize,
        label: u32,
    ) -> Result<(), Memory>
        ensures { OnOk result ((table : ModuleTable) (rules : List FlowRule) → IsNumbering table rules self.old
            → IsNumbering table (rules ++ Applies operator count home label ∷ []) self.new) }
    {
        let operator = self.place(operator)?;
        let place = self.place(FlowPlace::Part(home, label, 0))?;
        let arity = small(count)?;
        let application = Application {
            operator,
            arity,
            place,
        };
        match self.problem.applications.push(application) {
            Ok(()) => Ok(()),
            Err(_) => Err(Memory),
        }
    }

    /// Adds a rule. `Memory` if allocation fails, or there are 2^32 places, items or arguments or more.
    pub fn add(&mut self, table: &ModuleTable, rule: &FlowRule) -> Result<(), Memory>
        ensures { OnOk result ((rules : List FlowRule) → IsNumbering table.now rules self.old → IsNumbering table.now (rules ++ rule.now ∷ []) self.new) }
    {
        match rule {
            FlowRule::Holds(place, item) => self.add_start(table, *place, item),
            FlowRule::Flows(from, to) => self.add_flow(*from, *to),
            FlowRule::Applies(operator, count, home, label) => {
                self.add_application(*operator, *count, *home, *label)
            }
        }
    }
}

ghost use Rattle.std.specs.Prelude.{◌≡◌};
ghost use Rattle.fun_flow_places.specs.Arities.{arity_of};

use core_ast::FunName;
use type_kinds::Atom;

/// Where values are. A module is named by its position in the list of modules.
#[derive(Clone, Copy, Debug, PartialEq, Eq, Hash)]
pub enum FlowPlace {
    /// No functions stand here.
    Nowhere,
    /// Any values may stand here.
    Anywhere,
    /// A value of the expression at a label of a module: module, label and the value's number.
    Part(usize, u32, usize),
    /// A parameter of the function at a label of a module: module, label and the parameter's number.
    Parameter(usize, u32, usize),
    /// What the function at a label of a module gives.
    Returned(usize, u32),
}

/// What a place may hold.
#[derive(Debug, PartialEq, Eq, Hash, Drop)]
pub enum Item {
    /// Nothing is known of the values.
    Anything,
    /// The closures of the function at a label of a module: module, label and arity.
    Closure(usize, u32, usize),
    /// A function by its module's name and its own.
    External(Atom, FunName),
}

impl Item {
    /// How many arguments the function takes; 0 for anything.
    pub fn arity(&self) -> usize
        ensures { result ≡ arity_of self.now }
    {
        match self {
            Item::Anything => 0,
            Item::Closure(_, _, arity) => *arity,
            Item::External(_, name) => name.arity as usize,
        }
    }
}

/// A rule of a text.
#[derive(Drop)]
pub enum FlowRule {
    /// The place holds the item.
    Holds(FlowPlace, Item),
    /// What the first place holds the second one holds.
    Flows(FlowPlace, FlowPlace),
    /// What stands at the place is applied to so many arguments, by the application at a label of a module:
    /// operator, number of arguments, module and label.
    Applies(FlowPlace, usize, usize, u32),
}

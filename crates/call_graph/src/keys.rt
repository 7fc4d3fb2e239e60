ghost use Rattle.std.specs.Prelude.{IfOk, ◌≡◌};
ghost use Rattle.call_graph.specs.Tables.{key_of};

use core_ast::FunName;
use std::alloc::Global;
use type_kinds::{Atom, Memory};

/// A function by its module's name, its own and its number of arguments.
#[derive(Debug, PartialEq, Eq, Hash, Drop)]
pub struct FunctionKey {
    pub home: Atom,
    pub name: Atom,
    pub arity: usize,
}

impl FunctionKey {
    /// The key of a function. `Memory`: allocation failed.
    pub fn new(alloc: Global, home: &Atom, name: &Atom, arity: usize) -> Result<FunctionKey, Memory>
        ensures { IfOk result (λ key. key ≡ record { home = home.now; name = name.now; arity = arity }) }
    {
        let home = home.copy(alloc)?;
        let name = name.copy(alloc)?;
        Ok(FunctionKey { home, name, arity })
    }

    /// The key of a function of a module. `Memory`: allocation failed.
    pub fn of(alloc: Global, home: &Atom, name: &FunName) -> Result<FunctionKey, Memory>
        ensures { IfOk result (λ key. key ≡ key_of home.now name.now) }
    {
        FunctionKey::new(alloc, home, &name.name, name.arity as usize)
    }
}

//! What a module uses of others.
ghost use Rattle.std.specs.Prelude.{◌≡◌, IsTrue, IfOk};
ghost use Rattle.table_file.specs.Stored.{is_stored};

use cons_tree::Callee;
use core_ast::FunName;
use std::alloc::Global;
use type_kinds::{Atom, Memory};

/// A function outside a module's group that the module calls, and what stood of it when the module
/// was analysed. That is never `Local`, and a summary has as many arguments as the name.
#[derive(Drop)]
pub struct Used {
    pub home: Atom,
    pub name: FunName,
    pub callee: Callee,
    pub ghost stored: { IsTrue (is_stored callee name.arity) },
}

impl Used {
    /// A second used function, equal to the first. `Memory` comes if allocation fails.
    #[tactic(auto, using(crate::proofs::SameLaws::same_used))]
    pub fn copy(&self, alloc: Global) -> Result<Used, Memory>
        ensures { IfOk result (λ copy. copy ≡ self.now) }
    {
        let home = self.home.copy(alloc)?;
        let name = self.name.copy(alloc)?;
        let callee = self.callee.copy(alloc)?;
        Ok(Used { home, name, callee })
    }
}

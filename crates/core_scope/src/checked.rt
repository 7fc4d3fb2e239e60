ghost use Rattle.core_ast.specs.Tree.{module_tree};
ghost use Rattle.core_scope.specs.Accepted.{IsSpelled};
ghost use Rattle.core_scope.specs.Breaks.{module_breaks};
ghost use Rattle.std.specs.Prelude.{◌≡◌, []};

use core_ast::{Module, discard_module};

/// A module that is accepted: some text spells it, and it breaks no rule of scopes and degrees. Its type
/// carries both, so that no reader has to ask for them.
#[derive(Drop)]
pub struct Checked {
    source: Module,
    ghost spelled: { IsSpelled (module_tree source) },
    ghost sound: { module_breaks (module_tree source) ≡ [] },
}

impl Checked {
    ghost use Rattle.core_scope.specs.Checked.{module_of, tree_of};

    /// The module of an accepted tree.
    pub(crate) fn accept(source: Module) -> Checked
        requires spelled { IsSpelled (module_tree source) }
        requires sound { module_breaks (module_tree source) ≡ [] }
        ensures { module_of result ≡ source }
    {
        Checked { source }
    }

    /// The module.
    pub fn module(&self) -> &Module
        ensures { result.now ≡ module_of self.now }
    {
        &self.source
    }
}

/// What stands for an accepted module.
pub trait AsChecked {
    ghost use Rattle.core_scope.specs.declared.checked.Checked.{Checked};

    ghost stands_for: { Self → Checked };

    /// The module that the value stands for.
    fn checked(&self) -> &Checked
        ensures { result.now ≡ stands_for self.now };
}

impl AsChecked for Checked {
    ghost stands_for = { λ checked. checked };

    fn checked(&self) -> &Checked {
        self
    }
}

/// Drops an accepted module.
pub fn discard_checked(checked: Checked) {
    let Checked { source } = checked;
    discard_module(source);
}

//! The functions of a component.
ghost use Rattle.std.specs.Prelude.{◌≡◌, ◌<◌, IfOk, Some, length, slice_get};
ghost use Rattle.core_scope.specs.Checked.{module_of};
ghost use Rattle.comp_rounds.specs.Definitions.{IsDefinition};

use core_ast::FunDef;
use core_scope::{Checked, places_are_sound};
use std::alloc::Global;
use type_kinds::{Atom, Memory, Shared};

/// A function of a component: its module, its definition, which is one that an accepted module has at its top, and
/// whether its module exports it.
#[derive(Drop)]
pub struct Member {
    pub home: Atom,
    pub def: Shared<FunDef>,
    pub exported: bool,
    pub ghost defined: { IsDefinition def },
    pub ghost whole: { length def.fun.params ≡ def.name.arity },
}

impl Member {
    /// The member for the definition at this position of a module, which the caller knows to be exported or not. `Memory`
    /// if allocation fails, or where the count of the definition's owners can rise no further.
    pub fn new(
        alloc: Global,
        checked: &Checked,
        at: usize,
        exported: bool,
    ) -> Result<Member, Memory>
        requires { at < length (module_of checked.now).defs }
        ensures home { IfOk result (λ member. member.home ≡ (module_of checked.now).name) }
        ensures def { IfOk result (λ member. slice_get (module_of checked.now).defs at ≡ Some member.def) }
        ensures exported { IfOk result (λ member. member.exported ≡ exported) }
    {
        places_are_sound();
        let source = checked.module();
        let home = source.name.copy(alloc)?;
        let def = source.defs.at(at).share()?;
        Ok(Member {
            home,
            def,
            exported,
        })
    }
}

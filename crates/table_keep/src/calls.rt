//! Which functions of other modules a module calls.
ghost use Rattle.std.specs.Prelude.{◌≡◌, [], ◌++◌, not, filter, map, IfOk, OnOk};
ghost use Rattle.core_scope.specs.Checked.{tree_of};
ghost use Rattle.core_scope.specs.Names.{same_atom};
ghost use Rattle.type_kinds_sets.specs.Ascending.{merged};
ghost use Rattle.type_kinds_sets.specs.Names.{name_cmp};
ghost use Rattle.table_keep.specs.Calls.{called_functions, homes};

use crate::rising::once_each;
use call_graph::{AllCalls, OutsideCall, all_calls};
use core_scope::Checked;
use std::alloc::Global;
use type_kinds::{Atom, List, Memory};

/// The functions of other modules that a module calls by literal names, each once, rising by module, name and arity. Calls into
/// the module `erlang` are left out. `Memory`: allocation failed, or a call has 2^32 arguments or more.
pub fn called_functions(alloc: Global, module: &Checked) -> Result<List<OutsideCall>, Memory>
    ensures { IfOk result (λ calls. calls ≡ called_functions (tree_of module.now)) }
{
    let AllCalls { outside, .. } = all_calls(alloc, std::slice::from_ref(module))?;
    let own = &module.module().name;
    let mut leaving = List::new(alloc);
    for calls in outside.into_vec() {
        add_leaving(&mut leaving, own, calls)?;
    }
    once_each(alloc, leaving)
}

// Adds the calls that go to other modules.
fn add_leaving(
    leaving: &mut List<OutsideCall>,
    own: &Atom,
    calls: List<OutsideCall>,
) -> Result<(), Memory>
    ensures { OnOk result (leaving.new ≡ leaving.old ++ filter (λ call. not (same_atom call.0 own.now)) calls) }
{
    for call in calls.into_vec() {
        if call.0 != *own {
            leaving.add(call)?;
        }
    }
    Ok(())
}

/// The modules of called functions, each once, rising. `Memory` if allocation fails.
pub fn called_modules(alloc: Global, calls: &[OutsideCall]) -> Result<List<Atom>, Memory>
    ensures { IfOk result (λ names. names ≡ merged name_cmp [] (homes calls.now)) }
{
    let mut names = List::new(alloc);
    for call in calls {
        names.add(call.0.copy(alloc)?)?;
    }
    once_each(alloc, names)
}

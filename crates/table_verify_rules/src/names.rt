//! Names of modules that rise.
ghost use Rattle.std.specs.Prelude.{◌≡◌, false, slice_get, IfOk, IsTrue, MatchOption, Some};
ghost use Rattle.table_file.specs.Order.{rises, has_name, is_name_before};
ghost use Rattle.table_keep.specs.Model.{sources_so};
ghost use Rattle.table_verify_laws.specs.Lined.{AreModuleNames};

use std::alloc::Global;
use table_keep::{Source, once_each};
use type_kinds::{Atom, List, Memory};

/// The names of the modules of sources, each once, rising. `Memory` if allocation fails.
pub fn module_names(alloc: Global, sources: &[Source]) -> Result<List<Atom>, Memory>
    ensures { IfOk result (λ names. AreModuleNames (sources_so sources.now) names) }
{
    let mut names = List::new(alloc);
    for source in sources {
        names.add(source.checked.module().name.copy(alloc)?)?;
    }
    once_each(alloc, names)
}

/// Where a name stands among names that rise, if it is there.
pub fn position(names: &[Atom], name: &Atom) -> Option<usize>
    requires { IsTrue (rises is_name_before names.now) }
    ensures { MatchOption result (has_name names.now name.now ≡ false) (λ at. slice_get names.now at ≡ Some name.now) }
{
    names.binary_search(name).ok()
}

// Names of functions in another crate than theirs: what their contracts give it.
ghost use Rattle.std.specs.Prelude.{◌≡◌, ◌∷◌, ◌++◌, [], IfOk};
ghost use Rattle.core_scope.specs.Names.{has_function};

use core_ast::FunName;
use core_scope::Names;
use type_kinds::Memory;

/// Whether a function is among the names.
pub fn is_kept(names: &Names<FunName>, name: &FunName) -> bool
    ensures { result ≡ has_function names.now name.now }
{
    names.has(name)
}

/// Whether a function is among the names and one more. They are the same as before then.
pub fn is_kept_beside(
    names: &mut Names<FunName>,
    other: &FunName,
    name: &FunName,
) -> Result<bool, Memory>
    ensures test { IfOk result (λ found. found ≡ has_function (names.old ++ other.now ∷ []) name.now) }
    ensures same { names.new ≡ names.old }
{
    let around = names.len();
    names.push(other)?;
    let found = names.has(name);
    names.leave(around);
    Ok(found)
}

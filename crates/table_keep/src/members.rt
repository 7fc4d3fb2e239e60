//! Names that rise, searched.
ghost use Rattle.std.specs.Prelude.{◌≡◌, IsTrue};
ghost use Rattle.table_file.specs.Order.{rises, is_name_before};
ghost use Rattle.table_keep.specs.Groups.{has};

use type_kinds::Atom;

/// Whether the name is one of names that rise.
pub fn is_member(names: &[Atom], name: &Atom) -> bool
    requires { IsTrue (rises is_name_before names.now) }
    ensures { result ≡ has names.now name.now }
{
    names.binary_search(name).is_ok()
}

//! Equality of types.
ghost use Rattle.std.specs.Cmp.{partial_equiv_from_equiv};
ghost use Rattle.type_lattice.specs.Inclusion.{is_same, same_equivalence};

use crate::types::Ty;

impl PartialEq for Ty {
    ghost eq = { is_same };

    ghost laws = { partial_equiv_from_equiv same_equivalence };

    fn eq(&self, other: &Ty) -> bool {
        self.leq(other) && other.leq(self)
    }
}

impl Eq for Ty {
    ghost laws = { same_equivalence };
}

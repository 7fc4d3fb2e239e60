//! Facts that are proved for all types from what the calls on types promise. Each `prove!` is the fact.
ghost use Rattle.std.specs.Prelude.{◌≡◌, ◌↔◌, IsTrue};

use std::alloc::Global;
use type_kinds::Memory;
use type_lattice::{Ty, decision_laws};

/// A meet is included in both types. `Memory` comes if allocation fails.
pub fn meet_is_below(alloc: Global, a: &Ty, b: &Ty) -> Result<(), Memory> {
    let met = a.meet(alloc, b)?;
    let below = met.leq(a) && met.leq(b);
    prove!(below);
    Ok(())
}

/// Both types are included in their join. `Memory` comes if allocation fails.
pub fn join_is_above(alloc: Global, a: &Ty, b: &Ty) -> Result<(), Memory> {
    let joined = a.join(alloc, b)?;
    let above = a.leq(&joined) && b.leq(&joined);
    prove!(above);
    Ok(())
}

/// A type is included in whatever includes a type that includes it.
pub fn inclusion_is_transitive(a: &Ty, b: &Ty, c: &Ty) {
    if a.leq(b) && b.leq(c) {
        let below = a.leq(c);
        prove!(below);
    }
}

/// Whether two types are one. Equality of types is that of their models.
pub fn are_equal(a: &Ty, b: &Ty) -> bool
    ensures { IsTrue result ↔ (a.now ≡ b.now) }
{
    decision_laws();
    a == b
}

//! Signatures by their rule.
ghost use Rattle.std.specs.Prelude.{◌≡◌, ◌∷◌, length, map};
ghost use Rattle.type_lattice.specs.Types.{none, is_none};
ghost use Rattle.cons_tree.specs.Signatures.{has_none, agreed};

use crate::parts::Sig;
use type_kinds::List;
use type_lattice::{Ty, decision_laws};

/// Drops a type.
pub fn discard(_ty: Ty) {}

/// Whether one of the types is none.
pub fn any_none(types: &[Ty]) -> bool
    ensures { result ≡ has_none types.now }
{
    types.iter().any(|ty| ty.is_none())
}

// Makes all types none. Takes no memory.
fn empty_all(types: &mut List<Ty>)
    ensures { types.new ≡ map (λ t. none) types.old }
{
    let count = types.len();
    for at in 0..count {
        discard(types.replace(at, Ty::none()));
    }
}

// Whether the result or one of the arguments is none.
fn some_none(returned: &Ty, args: &[Ty]) -> bool
    ensures { result ≡ has_none (returned.now ∷ args.now) }
{
    returned.is_none() || any_none(args)
}

impl Sig {
    /// The signature of these argument types and of this result. Where one of them is none, all
    /// become none. Takes no memory.
    pub fn new(mut args: List<Ty>, returned: Ty) -> Sig
        ensures types { result.result ∷ result.args ≡ agreed (returned ∷ args) }
        ensures count { length result.args ≡ length args }
    {
        decision_laws();
        let none = some_none(&returned, args.as_slice());
        if !none {
            return Sig {
                args,
                result: returned,
            };
        }
        discard(returned);
        empty_all(&mut args);
        Sig {
            args,
            result: Ty::none(),
        }
    }
}

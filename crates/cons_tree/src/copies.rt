//! Second values that equal the first.
ghost use Rattle.std.specs.Prelude.{◌≡◌, IfOk};

use crate::parts::{Callee, Sig, Summary};
use std::alloc::Global;
use type_kinds::{List, Memory, Shared};
use type_lattice::Ty;

/// A list of the same types. `Memory` comes if allocation fails.
pub fn copy_types(alloc: Global, types: &[Ty]) -> Result<List<Ty>, Memory>
    ensures { IfOk result (λ copies. copies ≡ types.now) }
{
    let mut copies = List::new(alloc);
    for ty in types {
        let copy = ty.copy()?;
        copies.add(copy)?;
    }
    Ok(copies)
}

/// A list of the same types, each with an owner of its own. `Memory` comes if allocation fails.
pub fn share_types(alloc: Global, types: &[Ty]) -> Result<List<Shared<Ty>>, Memory>
    ensures { IfOk result (λ shared. shared ≡ types.now) }
{
    let mut shared = List::new(alloc);
    for ty in types {
        let copy = ty.copy()?;
        shared.add(Shared::new(alloc, copy)?)?;
    }
    Ok(shared)
}

/// A list of the same types, which nothing shares. `Memory` comes if allocation fails.
pub fn own_types(alloc: Global, types: &[Shared<Ty>]) -> Result<List<Ty>, Memory>
    ensures { IfOk result (λ copies. copies ≡ types.now) }
{
    let mut copies = List::new(alloc);
    for ty in types {
        let copy = ty.get().copy()?;
        copies.add(copy)?;
    }
    Ok(copies)
}

impl Sig {
    /// A second signature, equal to the first. `Memory` comes if allocation fails.
    #[tactic(auto, using(crate::proofs::Copied::same_signature))]
    pub fn copy(&self, alloc: Global) -> Result<Sig, Memory>
        ensures { IfOk result (λ copy. copy ≡ self.now) }
    {
        let args = copy_types(alloc, self.args.as_slice())?;
        let result = self.result.copy()?;
        Ok(Sig { args, result })
    }
}

impl Summary {
    /// A second summary, equal to the first, which shares its signatures. `Memory` where the count of owners can rise no
    /// further.
    pub fn copy(&self, _alloc: Global) -> Result<Summary, Memory>
        ensures { IfOk result (λ copy. copy ≡ self.now) }
    {
        let strict = self.strict.share()?;
        let lenient = self.lenient.share()?;
        Ok(Summary { strict, lenient })
    }
}

impl Callee {
    /// A second callee, equal to the first. `Memory` comes if allocation fails.
    pub fn copy(&self, alloc: Global) -> Result<Callee, Memory>
        ensures { IfOk result (λ copy. copy ≡ self.now) }
    {
        match self {
            Callee::Known(summary) => Ok(Callee::Known(summary.copy(alloc)?)),
            Callee::Local(summary) => Ok(Callee::Local(summary.copy(alloc)?)),
            Callee::Undefined => Ok(Callee::Undefined),
            Callee::Unknown => Ok(Callee::Unknown),
        }
    }
}

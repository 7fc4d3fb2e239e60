//! Signatures: joins and comparisons, and those of which all or nothing is known.
ghost use Rattle.std.specs.Prelude.{◌≡◌, IfOk, replicate};
ghost use Rattle.type_lattice.specs.Types.{any, none};
ghost use Rattle.comp_rounds.specs.Signatures.{anything, are_below, is_below, join_of, joins, nothing, signature};

use cons_tree::Sig;
use std::alloc::Global;
use type_kinds::{List, Memory};
use type_lattice::Ty;

/// The signature of these types. Where one of them is none, all become none. Takes no memory.
pub fn signature_of(args: List<Ty>, returned: Ty) -> Sig
    ensures { result ≡ signature returned args }
{
    Sig::new(args, returned)
}

// The type `none`, `count` times.
fn nones(alloc: Global, count: usize) -> Result<List<Ty>, Memory>
    ensures { IfOk result (λ types. types ≡ replicate count none) }
{
    let mut types = List::new(alloc);
    for _ in 0..count {
        types.add(Ty::none())?;
    }
    Ok(types)
}

/// The type `any`, `count` times. `Memory` if allocation fails.
pub fn anys(alloc: Global, count: u64) -> Result<List<Ty>, Memory>
    ensures { IfOk result (λ types. types ≡ replicate count any) }
{
    let mut types = List::new(alloc);
    for _ in 0..count {
        types.add(Ty::any())?;
    }
    Ok(types)
}

/// The signature of a function of `count` arguments that gives no value. `Memory` if allocation fails.
pub fn no_value(alloc: Global, count: usize) -> Result<Sig, Memory>
    ensures { IfOk result (λ sig. sig ≡ nothing count) }
{
    let args = nones(alloc, count)?;
    Ok(signature_of(args, Ty::none()))
}

/// The signature of a function of `count` arguments of which nothing is known. `Memory` if allocation fails.
#[tactic(auto, unfolding(crate::specs::Signatures::anything))]
pub fn any_value(alloc: Global, count: usize) -> Result<Sig, Memory>
    ensures { IfOk result (λ sig. sig ≡ anything count) }
{
    let args = anys(alloc, count as u64)?;
    Ok(signature_of(args, Ty::any()))
}

// Type by type.
fn joined(alloc: Global, left: &[Ty], right: &[Ty]) -> Result<List<Ty>, Memory>
    ensures { IfOk result (λ types. types ≡ joins left.now right.now) }
{
    let mut types = List::new(alloc);
    let count = left.len().min(right.len());
    for at in 0..count {
        types.add(left[at].join(alloc, &right[at])?)?;
    }
    Ok(types)
}

/// The join of two signatures. `Memory` if allocation fails.
#[tactic(auto, unfolding(crate::specs::Signatures::join_of))]
pub fn join(alloc: Global, left: &Sig, right: &Sig) -> Result<Sig, Memory>
    ensures { IfOk result (λ sig. sig ≡ join_of left.now right.now) }
{
    let returned = left.result.join(alloc, &right.result)?;
    let args = joined(alloc, left.args.as_slice(), right.args.as_slice())?;
    Ok(signature_of(args, returned))
}

// Whether there are as many types on both sides, each below the other side's.
fn types_below(left: &[Ty], right: &[Ty]) -> bool
    ensures { result ≡ are_below left.now right.now }
{
    if left.len() != right.len() {
        return false;
    }
    for at in 0..left.len() {
        if !left[at].leq(&right[at]) {
            return false;
        }
    }
    true
}

/// Whether a signature is below another, type by type. Takes no memory.
#[tactic(auto, unfolding(crate::specs::Signatures::is_below))]
pub fn below(left: &Sig, right: &Sig) -> bool
    ensures { result ≡ is_below left.now right.now }
{
    left.result.leq(&right.result) && types_below(left.args.as_slice(), right.args.as_slice())
}

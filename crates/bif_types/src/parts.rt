//! The part of a constraint that stands for a call of a built-in function.
ghost use Rattle.std.specs.Prelude.{◌≡◌, IfOk};
ghost use Rattle.bif_types.specs.declared.bif.Rule.TheVariants as r;
ghost use Rattle.bif_types.specs.ArgTypes.{type_of};
ghost use Rattle.bif_types.specs.Parts.{arg_types, part_of_row, transfer_of};

use crate::bif::{ArgKind, Bif, Rule};
use cons_tree::{Part, Slot, Transfer};
use std::alloc::Global;
use type_kinds::{List, Memory, Shared};
use type_lattice::Ty;

/// What a row of the table says of a call: the slots of the arguments have the types of the row, and
/// the slot of the value is what its rule makes of them. With `quiet` a function that never gives a
/// value may give any. `Memory` comes if allocation fails.
pub fn part(
    alloc: Global,
    bif: Bif,
    value: Slot,
    args: &[Slot],
    quiet: bool,
) -> Result<Part, Memory>
    ensures { IfOk result (λ p. p ≡ part_of_row bif value args.now quiet) }
{
    let types = argument_types(alloc, &bif)?;
    let transfer = transfer(alloc, bif.rule, quiet)?;
    let slots = List::from_slice(alloc, args)?;
    Ok(Part::Builtin(value, slots, types, transfer))
}

// The types of the arguments.
fn argument_types(alloc: Global, bif: &Bif) -> Result<List<Ty>, Memory>
    ensures { IfOk result (λ types. types ≡ arg_types bif.now) }
{
    let count = (bif.arity as usize).min(bif.args.len());
    let mut types = List::new(alloc);
    for kind in &bif.args[..count] {
        types.add(kind.named_type(alloc)?)?;
    }
    Ok(types)
}

// The type that a kind names, with one owner.
fn shared_type(alloc: Global, kind: ArgKind) -> Result<Shared<Ty>, Memory>
    ensures { IfOk result (λ t. t ≡ type_of kind) }
{
    let ty = kind.named_type(alloc)?;
    let shared = Shared::new(alloc, ty)?;
    Ok(shared)
}

// The transfer of a rule.
fn transfer(alloc: Global, rule: Rule, quiet: bool) -> Result<Transfer, Memory>
    ensures { IfOk result (λ t. t ≡ transfer_of rule quiet) }
{
    match rule {
        Rule::Plain(kind) => Ok(Transfer::Plain(shared_type(alloc, kind)?)),
        Rule::Arith => Ok(Transfer::Arith),
        Rule::Abs => Ok(Transfer::Abs),
        Rule::Head => Ok(Transfer::Head),
        Rule::Tail => Ok(Transfer::Tail),
        Rule::Element => Ok(Transfer::Element),
        Rule::Test(kind) => Ok(Transfer::Test(shared_type(alloc, kind)?)),
        Rule::TestSome(kind) => Ok(Transfer::TestSome(shared_type(alloc, kind)?)),
        Rule::Same => Ok(Transfer::Same),
        Rule::Differ => Ok(Transfer::Differ),
        Rule::Never => never(alloc, quiet),
    }
}

// The transfer of a function that never gives a value.
fn never(alloc: Global, quiet: bool) -> Result<Transfer, Memory>
    ensures { IfOk result (λ t. t ≡ transfer_of r.Never quiet) }
{
    if quiet {
        let every = Shared::new(alloc, Ty::any())?;
        return Ok(Transfer::Plain(every));
    }
    Ok(Transfer::Never)
}

//! Parts as texts. A part has a word, numbers of slots, and types behind these, ` ; ` before each:
//!
//! - `bound 0 ; TYPE`, `equal 0 1`, `tuple 0 1 2` and `cons 0 1 2`, the tuple and the list first;
//! - `call 0 1 2 ; ARGUMENT ; ARGUMENT ; RESULT`, the value first;
//! - the name of a transfer, the slot of the value and those of the arguments, and the types of the arguments; behind those of `plain`,
//!   `test` and `test-some` the type that the transfer has.
use crate::texts::{number, numbers, parted, types_of};
use cons_tree::{Part, Sig, Slot, Transfer};
use std::alloc::Global;
use type_kinds::{Bytes, List, Memory, Shared};
use type_lattice::Ty;
use type_text::{TextFault, print};

/// The part of a text.
pub fn part_of(alloc: Global, text: &str) -> Result<Part, TextFault> {
    let (front, types) = parted(text, " ; ");
    let (what, slots) = parted(front, " ");
    let (value, others) = parted(slots, " ");
    let args = numbers(alloc, others)?;
    let types = types_of(alloc, types)?;
    Ok(made(alloc, what, number(value), args, types)?)
}

fn made(
    alloc: Global,
    what: &str,
    slot: Slot,
    others: List<Slot>,
    mut types: List<Ty>,
) -> Result<Part, Memory> {
    let part = match what {
        "bound" => Part::Bound(slot, shared(alloc, last(&mut types))?),
        "equal" => Part::Equal(slot, slot_at(&others, 0)),
        "tuple" => Part::Tuple(slot, others),
        "cons" => Part::Cons(slot, slot_at(&others, 0), slot_at(&others, 1)),
        "call" => call(alloc, slot, others, types)?,
        _ => built_in(alloc, what, slot, others, types)?,
    };
    Ok(part)
}

fn call(alloc: Global, value: Slot, args: List<Slot>, mut types: List<Ty>) -> Result<Part, Memory> {
    let returned = last(&mut types);
    let sig = Shared::new(alloc, Sig::new(types, returned))?;
    Ok(Part::Call(value, args, sig))
}

fn built_in(
    alloc: Global,
    what: &str,
    value: Slot,
    args: List<Slot>,
    mut types: List<Ty>,
) -> Result<Part, Memory> {
    let transfer = transfer_of(alloc, what, &mut types)?;
    Ok(Part::Builtin(value, args, types, transfer))
}

// A type with one owner.
fn shared(alloc: Global, ty: Ty) -> Result<Shared<Ty>, Memory> {
    Shared::new(alloc, ty)
}

fn transfer_of(alloc: Global, what: &str, types: &mut List<Ty>) -> Result<Transfer, Memory> {
    let transfer = match what {
        "plain" => Transfer::Plain(shared(alloc, last(types))?),
        "arith" => Transfer::Arith,
        "abs" => Transfer::Abs,
        "head" => Transfer::Head,
        "tail" => Transfer::Tail,
        "element" => Transfer::Element,
        "test" => Transfer::Test(shared(alloc, last(types))?),
        "test-some" => Transfer::TestSome(shared(alloc, last(types))?),
        "same" => Transfer::Same,
        "differ" => Transfer::Differ,
        _ => Transfer::Never,
    };
    Ok(transfer)
}

// Takes the last type; none, where there is no type.
fn last(types: &mut List<Ty>) -> Ty {
    match types.pop() {
        Some(ty) => ty,
        None => Ty::none(),
    }
}

fn slot_at(slots: &List<Slot>, at: usize) -> Slot {
    match slots.get(at) {
        Some(slot) => *slot,
        None => 0,
    }
}

/// Appends the text of a built-in function's part.
pub fn append_built_in(part: &Part, out: &mut Bytes) -> Result<(), Memory> {
    let Part::Builtin(value, args, types, transfer) = part else {
        return out.append(b"no built-in function");
    };
    let (name, last) = named(transfer);
    out.append(name)?;
    out.append(b" ")?;
    out.append_decimal(*value)?;
    append_slots(args.as_slice(), out)?;
    append_types(types.as_slice(), out)?;
    match last {
        Some(ty) => append_type(ty, out),
        None => Ok(()),
    }
}

// The name of a transfer, and its type.
fn named(transfer: &Transfer) -> (&'static [u8], Option<&Ty>) {
    match transfer {
        Transfer::Plain(ty) => (b"plain", Some(ty.get())),
        Transfer::Arith => (b"arith", None),
        Transfer::Abs => (b"abs", None),
        Transfer::Head => (b"head", None),
        Transfer::Tail => (b"tail", None),
        Transfer::Element => (b"element", None),
        Transfer::Test(ty) => (b"test", Some(ty.get())),
        Transfer::TestSome(ty) => (b"test-some", Some(ty.get())),
        Transfer::Same => (b"same", None),
        Transfer::Differ => (b"differ", None),
        Transfer::Never => (b"never", None),
    }
}

fn append_slots(slots: &[Slot], out: &mut Bytes) -> Result<(), Memory> {
    for slot in slots {
        out.append(b" ")?;
        out.append_decimal(*slot)?;
    }
    Ok(())
}

fn append_types(types: &[Ty], out: &mut Bytes) -> Result<(), Memory> {
    for ty in types {
        append_type(ty, out)?;
    }
    Ok(())
}

fn append_type(ty: &Ty, out: &mut Bytes) -> Result<(), Memory> {
    out.append(b" ; ")?;
    print(ty, out)
}

//! Lists of types.
ghost use Rattle.std.specs.Prelude.{◌≡◌, ◌++◌, cond, false, replicate, true, IfOk, OnOk};
ghost use Rattle.type_lattice.specs.Types.{any, is_none, meet};
ghost use Rattle.module_flow_calls.specs.TypeLists.{one, as_many, are_same, joins, either, first, list_type, value};

use std::alloc::Global;
use type_kinds::{List, Memory};
use type_lattice::{Ends, Ty};

/// The types of the values of an expression, or `None` where it gives none.
pub type Given = Option<List<Ty>>;

/// Drops a type, or types.
pub fn discard(_ty: Ty) {}

pub fn discard_types(_types: List<Ty>) {}

pub fn discard_given(_given: Given) {}

/// One value of this type.
pub fn value(alloc: Global, ty: Ty) -> Result<Given, Memory>
    ensures { IfOk result (λ given. given ≡ value ty) }
{
    let mut types = List::new(alloc);
    types.add(ty)?;
    Ok(Some(types))
}

/// One value of this type, which none hasn't.
pub fn one(alloc: Global, ty: Ty) -> Result<Given, Memory>
    ensures { IfOk result (λ given. given ≡ one ty) }
{
    if ty.is_none() {
        discard(ty);
        return Ok(None);
    }
    value(alloc, ty)
}

/// The first type. Takes no memory.
pub fn first(mut types: List<Ty>) -> Ty
    ensures { result ≡ first types }
{
    types.truncate(1);
    match types.pop() {
        Some(ty) => ty,
        None => Ty::any(),
    }
}

/// Adds `any` behind the types, `count` times.
pub fn add_any(types: &mut List<Ty>, count: usize) -> Result<(), Memory>
    ensures { OnOk result (types.new ≡ types.old ++ replicate count any) }
{
    for _at in 0..count {
        types.add(Ty::any())?;
    }
    Ok(())
}

/// The type `any`, `count` times.
pub fn any_types(alloc: Global, count: usize) -> Result<List<Ty>, Memory>
    ensures { IfOk result (λ list. list ≡ replicate count any) }
{
    let mut types = List::new(alloc);
    add_any(&mut types, count)?;
    Ok(types)
}

/// `count` types: the first of these, and `any` where there are fewer.
pub fn as_many(mut types: List<Ty>, count: usize) -> Result<List<Ty>, Memory>
    ensures { IfOk result (λ list. list ≡ as_many count types) }
{
    types.truncate(count);
    let missing = count - types.len();
    add_any(&mut types, missing)?;
    Ok(types)
}

/// The joins of types, one by one, up to the shorter list's end.
pub fn joins(alloc: Global, left: &[Ty], right: &[Ty]) -> Result<List<Ty>, Memory>
    ensures { IfOk result (λ list. list ≡ joins left.now right.now) }
{
    let mut list = List::new(alloc);
    for at in 0..left.len().min(right.len()) {
        let ty = left[at].join(alloc, &right[at])?;
        list.add(ty)?;
    }
    Ok(list)
}

/// Either of two.
pub fn either(alloc: Global, left: Given, right: Given) -> Result<Given, Memory>
    ensures { IfOk result (λ given. given ≡ either left right) }
{
    match left {
        None => Ok(right),
        Some(types) => match right {
            None => Ok(Some(types)),
            Some(others) => {
                let list = joins(alloc, types.as_slice(), others.as_slice())?;
                discard_types(types);
                discard_types(others);
                Ok(Some(list))
            }
        },
    }
}

/// Whether two types have a value in common.
pub fn meets(alloc: Global, one: &Ty, other: &Ty) -> Result<bool, Memory>
    ensures { IfOk result (λ common. is_none (meet one.now other.now) ≡ cond common false true) }
{
    let met = one.meet(alloc, other)?;
    let common = !met.is_none();
    discard(met);
    Ok(common)
}

/// Whether types are the same, one by one.
pub fn are_same(left: &[Ty], right: &[Ty]) -> bool
    ensures { result ≡ are_same left.now right.now }
{
    if left.len() != right.len() {
        return false;
    }
    for at in 0..left.len() {
        if left[at] != right[at] {
            return false;
        }
    }
    true
}

/// The type of the lists with these elements and this tail.
pub fn list_type(alloc: Global, elements: &[Ty], tail: Ty) -> Result<Ty, Memory>
    ensures { IfOk result (λ t. t ≡ list_type elements.now tail) }
{
    let mut list = tail;
    let mut rest = elements;
    while let Some((last, front)) = rest.split_last() {
        let longer = Ty::cons(alloc, last, &list, Ends::Proper)?;
        discard(std::mem::replace(&mut list, longer));
        rest = front;
    }
    Ok(list)
}

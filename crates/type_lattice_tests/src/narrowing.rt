//! Narrowing of types by what is known of them, proved from what the calls on types and their laws
//! promise.
ghost use Rattle.std.specs.Prelude.{◌≡◌, true, Err, IfOk};
ghost use Rattle.type_lattice_model.specs.Values.{Value, cons as cons_value};
ghost use Rattle.type_lattice.specs.Types.{Type4, HasType, Below, meet, cons, elem, tail};
ghost use Rattle.type_text.specs.declared.reading.TextFault.TheVariants.{NotAType};

use std::alloc::Global;
use type_kinds::{List, Memory};
use type_lattice::{Ends, Ty, cons_laws, list_laws, monotone_laws};
use type_text::{TextFault, print, read};

/// A type narrowed by a meet: it is below the type, and keeps each value that is in both. `Memory`
/// comes if allocation fails.
pub fn narrowed(alloc: Global, t: &Ty, by: &Ty) -> Result<Ty, Memory>
    ensures below { IfOk result (λ n. Below n t.now) }
    ensures keeps { IfOk result (λ n. (v : Value) → HasType v t.now → HasType v by.now → HasType v n) }
{
    let met = t.meet(alloc, by)?;
    Ok(met)
}

/// Narrowing by a meet is monotone: of a larger type, or by a larger one, it gives a larger type.
pub fn narrowing_is_monotone()
    ensures { (s t by with : Type4) → Below s t → Below by with → Below (meet s by) (meet t with) }
{
    monotone_laws();
}

// What of a list may have this head and this tail.
fn narrowed_by_parts(alloc: Global, list: &Ty, head: &Ty, tail: &Ty) -> Result<Ty, Memory>
    ensures below { IfOk result (λ n. Below n list.now) }
    ensures keeps { IfOk result (λ n. (x y : Value) → HasType (cons_value x y) list.now → HasType x head.now → HasType y tail.now
        → HasType (cons_value x y) n) }
{
    let made = Ty::cons(alloc, head, tail, Ends::Proper)?;
    let lists = narrowed(alloc, list, &made);
    drop(made);
    lists
}

// What of a head may stand in a list.
fn head_in(alloc: Global, list: &Ty, head: &Ty) -> Result<Ty, Memory>
    ensures below { IfOk result (λ n. Below n head.now) }
    ensures keeps { IfOk result (λ n. (x y : Value) → HasType (cons_value x y) list.now → HasType x head.now → HasType x n) }
{
    let heads = list.elem(alloc)?;
    let first = narrowed(alloc, head, &heads);
    drop(heads);
    first
}

// What of a tail may stand in a list.
fn tail_in(alloc: Global, list: &Ty, tail: &Ty) -> Result<Ty, Memory>
    ensures below { IfOk result (λ n. Below n tail.now) }
    ensures keeps { IfOk result (λ n. (x y : Value) → HasType (cons_value x y) list.now → HasType y tail.now → HasType y n) }
{
    let tails = list.tail(alloc)?;
    let rest = narrowed(alloc, tail, &tails);
    drop(tails);
    rest
}

/// A list narrowed by its head and its tail, and these by the list: where the three have values that
/// are a cons, its head and its tail, they have them still. `Memory` comes if allocation fails.
pub fn narrowed_list(alloc: Global, list: &Ty, head: &Ty, tail: &Ty) -> Result<(Ty, Ty, Ty), Memory>
    ensures below { IfOk result (λ r. Below r.0 list.now × (Below r.1 head.now × Below r.2 tail.now)) }
    ensures keeps { IfOk result (λ r. (x y : Value) → HasType (cons_value x y) list.now → HasType x head.now → HasType y tail.now
        → HasType (cons_value x y) r.0 × (HasType x r.1 × HasType y r.2)) }
{
    let lists = narrowed_by_parts(alloc, list, head, tail)?;
    let first = head_in(alloc, &lists, head)?;
    let rest = tail_in(alloc, &lists, tail)?;
    Ok((lists, first, rest))
}

/// A type is above the lists of its heads and tails, so narrowing by these doesn't widen it.
pub fn cons_of_its_parts()
    ensures { (t : Type4) → Below (cons (elem t) (tail t) true) t }
{
    cons_laws();
    list_laws();
}

/// What is read back of what was printed is the type. It never fails but where allocation does.
pub fn read_back(alloc: Global, t: &Ty) -> Result<Ty, TextFault>
    ensures same { IfOk result (λ u. u ≡ t.now) }
    ensures memory { result ≡ Err NotAType → ⊥ }
{
    let mut text = List::new(alloc);
    match print(t, &mut text) {
        Ok(()) => read(alloc, text.as_slice()),
        Err(Memory) => Err(TextFault::Memory),
    }
}

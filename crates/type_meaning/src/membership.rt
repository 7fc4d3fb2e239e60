ghost use Rattle.std.specs.Prelude.{◌≡◌, ◌↔◌, true, Some, IsTrue, length, map};
ghost use Rattle.type_lattice_model.specs.ValueShapes.{Leaf, has_leaf, shape, leaf};
ghost use Rattle.type_lattice_model.specs.HasType.{HasAt, HasAll, HasEach, HasBody, HasTuple};
ghost use Rattle.type_lattice_model.specs.Values as m;
ghost use Rattle.type_lattice.specs.Types.{HasType};
ghost use Rattle.type_lattice_trees.specs.View.{view, Fits, row_view, body_view, tuples_view, EachNode, BodyFits, TuplesFit};
ghost use Rattle.type_meaning.specs.Values.{value_of, values};

use crate::value::Value;
use type_kinds::Shared;
use type_kinds_sets::Bits;
use type_lattice::Ty;
use type_lattice_model::MAX_ELEMENTS;
use type_lattice_trees::{BodyOf, CellOf, FunSet, Node, Plain, TuplesOf, find_size, find_tag};

/// Whether the value is in the type. Takes no memory.
pub fn value_in(v: &Value, t: &Ty) -> bool
    ensures { IsTrue result ↔ HasType (value_of v.now) t.now }
{
    is_in(4, v, t.node())
}

// Whether the value is in the type of a level that the tree stands for.
#[cycle(membership)]
fn is_in(level: u32, v: &Value, t: &Node) -> bool
    requires { Fits level t.now }
    ensures { IsTrue result ↔ HasAt level (value_of v.now) (view level t.now) }
{
    let Node::Of(parts) = t else {
        return true;
    };
    match v {
        // A cons is a list of the cell where it may follow a head of one.
        Value::Cons(_, _) => match &parts.cell {
            None => false,
            Some(cell) => follows(level - 1, v, cell),
        },
        Value::Tuple(elements) => tuple_in(level - 1, elements.as_slice(), &parts.tuples),
        _ => plain_in(v, &parts.plain),
    }
}

// Whether the value may follow a head of the list: it is walked along its chain to its end.
#[cycle(membership)]
fn follows(level: u32, v: &Value, cell: &CellOf<Node>) -> bool
    requires { Fits level cell.now.element }
    ensures { IsTrue result ↔ (HasAll (HasAt level) (m.heads (value_of v.now)) (view level cell.now.element)
        × (IsTrue cell.now.is_proper → m.end_of (value_of v.now) ≡ m.nil)) }
{
    match v {
        Value::Cons(head, tail) => {
            is_in(level, head.get(), cell.element.get()) && follows(level, tail.get(), cell)
        }
        Value::Nil => true,
        _ => !cell.is_proper,
    }
}

#[cycle(membership)]
fn tuple_in(level: u32, elements: &[Value], tuples: &TuplesOf<Node>) -> bool
    requires { TuplesFit level tuples.now }
    ensures { IsTrue result ↔ HasTuple (HasAt level) (values (map value_of elements.now)) (tuples_view level tuples.now) }
{
    let TuplesOf::Sizes(sizes) = tuples else {
        return true;
    };
    if elements.len() > MAX_ELEMENTS {
        return false;
    }
    match find_size(sizes.as_slice(), elements.len() as u8) {
        None => false,
        Some(body) => body_in(level, elements, body),
    }
}

#[cycle(membership)]
fn body_in(level: u32, elements: &[Value], body: &BodyOf<Node>) -> bool
    requires { BodyFits level (length elements.now) body.now }
    ensures { IsTrue result ↔ HasBody (HasAt level) (values (map value_of elements.now)) (Some (body_view level body.now)) }
{
    match body {
        BodyOf::Product(row) => each_in(level, elements, row.as_slice()),
        BodyOf::Tags(tags) => {
            let Some((first, rest)) = elements.split_first() else {
                return false;
            };
            let Value::Atom(atom) = first else {
                return false;
            };
            match find_tag(tags.as_slice(), atom) {
                None => false,
                Some(row) => each_in(level, rest, row),
            }
        }
    }
}

// Whether each element is in the type at its position.
#[cycle(membership)]
fn each_in(level: u32, elements: &[Value], row: &[Shared<Node>]) -> bool
    requires fits { EachNode (Fits level) row.now }
    requires same { length elements.now ≡ length row.now }
    ensures { IsTrue result ↔ HasEach (HasAt level) (values (map value_of elements.now)) (row_view level row.now) }
{
    for i in 0..elements.len() {
        if !is_in(level, &elements[i], row[i].get()) {
            return false;
        }
    }
    true
}

// Whether a value that is no cons and no tuple is among the plain values.
fn plain_in(v: &Value, plain: &Plain) -> bool
    ensures { (l : Leaf) → shape (value_of v.now) ≡ leaf l → IsTrue result ↔ (has_leaf plain.now l ≡ true) }
{
    match v {
        Value::Int(n) => plain.ints.contains(*n),
        Value::Float(_) => plain.flags.float,
        Value::Atom(atom) => plain.atoms.contains(atom),
        Value::Bits(length) => match plain.bits {
            Bits::No => false,
            Bits::Whole => *length % 8 == 0,
            Bits::Any => true,
        },
        Value::Nil => plain.flags.nil,
        Value::Map(_) => plain.flags.map,
        Value::Pid(_) => plain.flags.pid,
        Value::Port(_) => plain.flags.port,
        Value::Reference(_) => plain.flags.reference,
        Value::Function(arity) => match plain.functions {
            FunSet::Nothing => false,
            FunSet::OfArity(other) => *arity == other,
            FunSet::Every => true,
        },
        Value::Cons(_, _) => false,
        Value::Tuple(_) => false,
    }
}

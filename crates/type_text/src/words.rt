//! What a text begins with, as a type: a whole type, or one of its words.
ghost use Rattle.std.specs.Prelude.{◌≡◌, ◌≤◌, ◌<◌, ◌^◌, ◌++◌, ◌∷◌, [], ℕ, ℤ, List, suc, true};
ghost use Rattle.std.specs.Prelude.{false, length, map, codes, IsTrue, IfOk, IfSome, MatchOption};
ghost use Rattle.std.specs.Fmt.{signed_decimal};
ghost use Rattle.type_kinds.specs.Quoted.{quoted};
ghost use Rattle.type_kinds_sets.specs.Names as names;
ghost use Rattle.type_kinds_sets.specs.Numbers as numbers;
ghost use Rattle.type_kinds_sets.specs.Numbers.{is_narrow};
ghost use Rattle.type_lattice_model.specs.Shapes.{TypeAt, sizes, all_tuples};
ghost use Rattle.type_lattice_model.specs.Operations.{ops, of_plain, of_atoms};
ghost use Rattle.type_lattice_model.specs.Normal.{NormalAt, NormalFunctions, IsElement, AreElements};
ghost use Rattle.type_lattice_trees.specs.Plains.{flags_of, functions_of};
ghost use Rattle.type_lattice_trees.specs.View.{view, body_view, row_view, Fits, EachNode, BodyFits};
ghost use Rattle.type_text.specs.Texts.{text_at, after, separated};
ghost use Rattle.type_text.specs.Words.{TypeStop, WordStop};
ghost use Rattle.type_text.specs.WordTypes.{IsWord, AreWords, spelled, joined_with, of_row, of_flags, of_bits, of_functions, of_ints};
ghost use Rattle.type_lattice_model.specs.Operations.{of_tuples, of_list};
ghost use Rattle.type_text.specs.Starts.{begins_number, NoFlag, NoBits, NoFunction, NoInterval, NoTypeName};

use crate::leaves::{after_word, read_arity, read_integer, read_quoted, read_range};
use std::alloc::Global;
use type_kinds::{List, Memory, Shared};
use type_kinds_sets::{AtomSet, Bits, High, IntSet, Low, SharedList};
use type_lattice_model::MAX_ELEMENTS;
use type_lattice_trees::{
    FlagSet, FunSet, Node, Plain, discard, every_tuple, is_none, join, lists_of, plain_alone,
    product_body, tuples_of,
};

/// The type of a level, which has a value, that the text begins with, and what is left.
#[tactic(auto, using(type_lattice_trees::proofs::Views::any_fits))]
#[cycle(words)]
pub fn read_type<'a>(
    alloc: Global,
    level: u32,
    text: &'a [u8],
) -> Result<Option<(Node, &'a [u8])>, Memory>
    ensures fits { IfOk result (λ r. IfSome r (λ p. Fits level p.0)) }
    ensures shorter { IfOk result (λ r. IfSome r (λ p. length p.1.now ≤ length text.now)) }
    ensures complete { IfOk result (λ r. (t : TypeAt level) (rest : List ℕ) → NormalAt level t → (ops level).is_none t ≡ false → TypeStop rest
        → text.now ≡ text_at level t ++ rest → MatchOption r ⊥ (λ p. (view level p.0 ≡ t) × (p.1.now ≡ rest))) }
{
    if let Some(rest) = after_word(text, b"any()") {
        return Ok(Some((Node::Any, rest)));
    }
    if level == 0 {
        return Ok(None);
    }
    match read_word(alloc, level - 1, text)? {
        None => Ok(None),
        Some((first, rest)) => read_more(alloc, level - 1, first, rest),
    }
}

// The join of a type and of all words to come, each of which has a separator before it. Here and
// below the level is that of the elements.
#[cycle(words)]
fn read_more<'a>(
    alloc: Global,
    level: u32,
    first: Node,
    text: &'a [u8],
) -> Result<Option<(Node, &'a [u8])>, Memory>
    requires fits { Fits (suc level) first }
    requires below { suc level < 2 ^ 32 }
    ensures fits { IfOk result (λ r. IfSome r (λ p. Fits (suc level) p.0)) }
    ensures shorter { IfOk result (λ r. IfSome r (λ p. length p.1.now ≤ length text.now)) }
    ensures complete { IfOk result (λ r. (later : List (List ℕ × TypeAt (suc level))) (rest : List ℕ) → AreWords level later → TypeStop rest
        → text.now ≡ after (codes " | ") (spelled later) ++ rest
        → MatchOption r ⊥ (λ p. (view (suc level) p.0 ≡ joined_with (ops (suc level)).join (view (suc level) first) later) × (p.1.now ≡ rest))) }
{
    let mut t = first;
    let mut rest = text;
    while let Some(next) = after_word(rest, b" | ") {
        let Some((other, after)) = read_word(alloc, level, next)? else {
            discard(t);
            return Ok(None);
        };
        t = joined(alloc, level, t, other)?;
        rest = after;
    }
    Ok(Some((t, rest)))
}

// The join of two types, of which neither is left.
fn joined(alloc: Global, level: u32, a: Node, b: Node) -> Result<Node, Memory>
    requires a { Fits (suc level) a }
    requires b { Fits (suc level) b }
    requires below { suc level < 2 ^ 32 }
    ensures fits { IfOk result (λ j. Fits (suc level) j) }
    ensures value { IfOk result (λ j. view (suc level) j ≡ (ops (suc level)).join (view (suc level) a) (view (suc level) b)) }
{
    join(alloc, level + 1, &a, &b)
}

// The type of one word, whose elements are of the level.
#[tactic(auto, using(crate::proofs::WordStarts::words_apart))]
#[cycle(words)]
fn read_word<'a>(
    alloc: Global,
    level: u32,
    text: &'a [u8],
) -> Result<Option<(Node, &'a [u8])>, Memory>
    ensures fits { IfOk result (λ r. IfSome r (λ p. Fits (suc level) p.0)) }
    ensures shorter { IfOk result (λ r. IfSome r (λ p. length p.1.now ≤ length text.now)) }
    ensures complete { IfOk result (λ r. (w rest : List ℕ) (u : TypeAt (suc level)) → IsWord level w u → WordStop rest → text.now ≡ w ++ rest
        → MatchOption r ⊥ (λ p. (view (suc level) p.0 ≡ u) × (p.1.now ≡ rest))) }
{
    if after_word(text, b"'").is_some() {
        return read_atom(alloc, text);
    }
    if is_number(text) {
        return Ok(read_number(text));
    }
    if let Some(rest) = after_word(text, b"{") {
        return read_tuple(alloc, level, rest);
    }
    if let Some(rest) = after_word(text, b"cons(") {
        return read_list(alloc, level, true, rest);
    }
    if let Some(rest) = after_word(text, b"cons_any(") {
        return read_list(alloc, level, false, rest);
    }
    Ok(read_name(text))
}

// Whether the text begins as a number does.
fn is_number(text: &[u8]) -> bool
    ensures { result ≡ begins_number text.now }
{
    match text.split_first() {
        Some((first, _)) => *first == b'-' || first.is_ascii_digit(),
        None => false,
    }
}

// The type of a level that the text begins with, where it has a value.
#[cycle(words)]
fn read_element<'a>(
    alloc: Global,
    level: u32,
    text: &'a [u8],
) -> Result<Option<(Node, &'a [u8])>, Memory>
    ensures fits { IfOk result (λ r. IfSome r (λ p. Fits level p.0 × ((ops level).is_none (view level p.0) ≡ false))) }
    ensures shorter { IfOk result (λ r. IfSome r (λ p. length p.1.now ≤ length text.now)) }
    ensures complete { IfOk result (λ r. (t : TypeAt level) (rest : List ℕ) → IsElement (NormalAt level) (ops level) t → TypeStop rest
        → text.now ≡ text_at level t ++ rest → MatchOption r ⊥ (λ p. (view level p.0 ≡ t) × (p.1.now ≡ rest))) }
{
    let Some((element, rest)) = read_type(alloc, level, text)? else {
        return Ok(None);
    };
    if is_none(&element) {
        discard(element);
        return Ok(None);
    }
    Ok(Some((element, rest)))
}

// The lists of an element type, whose text ends in a bracket.
#[cycle(words)]
fn read_list<'a>(
    alloc: Global,
    level: u32,
    is_proper: bool,
    text: &'a [u8],
) -> Result<Option<(Node, &'a [u8])>, Memory>
    ensures fits { IfOk result (λ r. IfSome r (λ p. Fits (suc level) p.0)) }
    ensures shorter { IfOk result (λ r. IfSome r (λ p. length p.1.now ≤ length text.now)) }
    ensures complete { IfOk result (λ r. (e : TypeAt level) (rest : List ℕ) → IsElement (NormalAt level) (ops level) e
        → text.now ≡ text_at level e ++ (codes ")" ++ rest)
        → MatchOption r ⊥ (λ p. (view (suc level) p.0 ≡ of_list (ops level) e is_proper) × (p.1.now ≡ rest))) }
{
    let Some((element, rest)) = read_element(alloc, level, text)? else {
        return Ok(None);
    };
    match after_word(rest, b")") {
        Some(rest) => Ok(Some((lists_of(alloc, element, is_proper)?, rest))),
        None => {
            discard(element);
            Ok(None)
        }
    }
}

// A tuple, whose opening bracket is gone.
#[cycle(words)]
fn read_tuple<'a>(
    alloc: Global,
    level: u32,
    text: &'a [u8],
) -> Result<Option<(Node, &'a [u8])>, Memory>
    ensures fits { IfOk result (λ r. IfSome r (λ p. Fits (suc level) p.0)) }
    ensures shorter { IfOk result (λ r. IfSome r (λ p. length p.1.now ≤ length text.now)) }
    ensures complete { IfOk result (λ r. (es : List (TypeAt level)) (rest : List ℕ) → AreElements (NormalAt level) (ops level) es
        → length es ≤ MAX_ELEMENTS → text.now ≡ separated (codes ",") (map (text_at level) es) ++ (codes "}" ++ rest)
        → MatchOption r ⊥ (λ p. (view (suc level) p.0 ≡ of_row (ops level) es) × (p.1.now ≡ rest))) }
{
    let Some((row, rest)) = read_row(alloc, level, text)? else {
        return Ok(None);
    };
    if row.len() > MAX_ELEMENTS {
        discard_row(row);
        return Ok(None);
    }
    Ok(Some((tuples_with(alloc, level, row)?, rest)))
}

fn discard_row(_row: List<Shared<Node>>) {}

// The tuples of these element types.
#[tactic(auto, using(type_lattice_trees::proofs::MadeTrees::row_body))]
fn tuples_with(alloc: Global, level: u32, row: List<Shared<Node>>) -> Result<Node, Memory>
    requires few { length row ≤ MAX_ELEMENTS }
    requires each { EachNode (Fits level) row }
    requires some { AreElements (NormalAt level) (ops level) (row_view level row) }
    ensures fits { IfOk result (λ t. Fits (suc level) t) }
    ensures value { IfOk result (λ t. view (suc level) t ≡ of_row (ops level) (row_view level row)) }
{
    let size = row.len() as u8;
    let body = product_body(alloc, level, SharedList::new(alloc, row)?)?;
    tuples_of(alloc, size, body)
}

// Element types up to the closing bracket, which is gone then too.
#[tactic(auto, using(crate::proofs::WordReads::elements_more, type_lattice_trees::proofs::Views::each_more))]
#[cycle(words)]
fn read_row<'a>(
    alloc: Global,
    level: u32,
    text: &'a [u8],
) -> Result<Option<(List<Shared<Node>>, &'a [u8])>, Memory>
    ensures each { IfOk result (λ r. IfSome r (λ p. EachNode (Fits level) p.0)) }
    ensures some { IfOk result (λ r. IfSome r (λ p. AreElements (NormalAt level) (ops level) (row_view level p.0))) }
    ensures shorter { IfOk result (λ r. IfSome r (λ p. length p.1.now ≤ length text.now)) }
    ensures complete { IfOk result (λ r. (es : List (TypeAt level)) (rest : List ℕ) → AreElements (NormalAt level) (ops level) es
        → text.now ≡ separated (codes ",") (map (text_at level) es) ++ (codes "}" ++ rest)
        → MatchOption r ⊥ (λ p. (row_view level p.0 ≡ es) × (p.1.now ≡ rest))) }
{
    if let Some(rest) = after_word(text, b"}") {
        return Ok(Some((List::new(alloc), rest)));
    }
    let Some((element, rest)) = read_element(alloc, level, text)? else {
        return Ok(None);
    };
    let mut row = List::new(alloc);
    row.add(Shared::new(alloc, element)?)?;
    read_later(alloc, level, row, rest)
}

// More element types, each of which has a comma before it, and the closing bracket.
#[cycle(words)]
fn read_later<'a>(
    alloc: Global,
    level: u32,
    first: List<Shared<Node>>,
    text: &'a [u8],
) -> Result<Option<(List<Shared<Node>>, &'a [u8])>, Memory>
    requires each { EachNode (Fits level) first }
    requires some { AreElements (NormalAt level) (ops level) (row_view level first) }
    ensures each { IfOk result (λ r. IfSome r (λ p. EachNode (Fits level) p.0)) }
    ensures some { IfOk result (λ r. IfSome r (λ p. AreElements (NormalAt level) (ops level) (row_view level p.0))) }
    ensures shorter { IfOk result (λ r. IfSome r (λ p. length p.1.now ≤ length text.now)) }
    ensures complete { IfOk result (λ r. (es : List (TypeAt level)) (rest : List ℕ) → AreElements (NormalAt level) (ops level) es
        → text.now ≡ after (codes ",") (map (text_at level) es) ++ (codes "}" ++ rest)
        → MatchOption r ⊥ (λ p. (row_view level p.0 ≡ row_view level first ++ es) × (p.1.now ≡ rest))) }
{
    let mut row = first;
    let mut rest = text;
    while let Some(next) = after_word(rest, b",") {
        let Some((element, after)) = read_element(alloc, level, next)? else {
            discard_row(row);
            return Ok(None);
        };
        row.add(Shared::new(alloc, element)?)?;
        rest = after;
    }
    match after_word(rest, b"}") {
        Some(after) => Ok(Some((row, after))),
        None => {
            discard_row(row);
            Ok(None)
        }
    }
}

// One atom.
fn read_atom<'a>(alloc: Global, text: &'a [u8]) -> Result<Option<(Node, &'a [u8])>, Memory>
    ensures fits { IfOk result (λ r. IfSome r (λ p. (d : ℕ) → Fits (suc d) p.0)) }
    ensures shorter { IfOk result (λ r. IfSome r (λ p. length p.1.now ≤ length text.now)) }
    ensures complete { IfOk result (λ r. (atom rest : List ℕ) → text.now ≡ quoted atom ++ rest
        → MatchOption r ⊥ (λ p. ((d : ℕ) → view (suc d) p.0 ≡ of_atoms (ops d) (names.listed (atom ∷ []))) × (p.1.now ≡ rest))) }
{
    let Some((atom, rest)) = read_quoted(alloc, text)? else {
        return Ok(None);
    };
    let set = AtomSet::one(alloc, &atom)?;
    Ok(Some((plain_alone(Plain::of_atoms(set)), rest)))
}

// One integer.
fn read_number(text: &[u8]) -> Option<(Node, &[u8])>
    ensures fits { IfSome result (λ p. (d : ℕ) → Fits (suc d) p.0) }
    ensures shorter { IfSome result (λ p. length p.1.now ≤ length text.now) }
    ensures complete { (n : ℤ) (rest : List ℕ) → IsTrue (is_narrow n) → WordStop rest → text.now ≡ signed_decimal n ++ rest
        → MatchOption result ⊥ (λ p. ((d : ℕ) → view (suc d) p.0 ≡ of_ints (ops d) (numbers.listed (n ∷ []))) × (p.1.now ≡ rest)) }
{
    let (n, rest) = read_integer(text)?;
    Some((ints_alone(IntSet::one(n)), rest))
}

// A word that begins with a name, or the empty list.
#[tactic(auto, using(crate::proofs::WordStarts::words_apart))]
fn read_name(text: &[u8]) -> Option<(Node, &[u8])>
    ensures fits { IfSome result (λ p. (d : ℕ) → Fits (suc d) p.0) }
    ensures shorter { IfSome result (λ p. length p.1.now ≤ length text.now) }
    ensures complete { (d : ℕ) (w rest : List ℕ) (u : TypeAt (suc d)) → IsWord d w u → text.now ≡ w ++ rest
        → MatchOption result (NoTypeName text.now) (λ p. (view (suc d) p.0 ≡ u) × (p.1.now ≡ rest)) }
{
    if let Some(rest) = after_word(text, b"tuple()") {
        return Some((every_tuple(), rest));
    }
    if let Some(rest) = after_word(text, b"atom()") {
        return Some((plain_alone(Plain::of_atoms(AtomSet::all())), rest));
    }
    if let Some((flags, rest)) = read_flags(text) {
        return Some((flags_alone(flags), rest));
    }
    if let Some((bits, rest)) = read_bits(text) {
        return Some((bits_alone(bits), rest));
    }
    if let Some((functions, rest)) = read_functions(text) {
        return Some((functions_alone(functions), rest));
    }
    let (ints, rest) = read_interval(text)?;
    Some((ints_alone(ints), rest))
}

// A part that is no or yes.
#[tactic(auto, using(crate::proofs::WordStarts::words_apart))]
fn read_flags(text: &[u8]) -> Option<(FlagSet, &[u8])>
    ensures shorter { IfSome result (λ p. length p.1.now ≤ length text.now) }
    ensures complete { (d : ℕ) (w rest : List ℕ) (u : TypeAt (suc d)) → IsWord d w u → text.now ≡ w ++ rest
        → MatchOption result (NoFlag text.now) (λ p. (of_flags (ops d) (flags_of p.0) ≡ u) × (p.1.now ≡ rest)) }
{
    let mut flags = FlagSet {
        float: false,
        pid: false,
        port: false,
        reference: false,
        nil: false,
        map: false,
    };
    if let Some(rest) = after_word(text, b"float()") {
        flags.float = true;
        return Some((flags, rest));
    }
    if let Some(rest) = after_word(text, b"pid()") {
        flags.pid = true;
        return Some((flags, rest));
    }
    if let Some(rest) = after_word(text, b"port()") {
        flags.port = true;
        return Some((flags, rest));
    }
    if let Some(rest) = after_word(text, b"reference()") {
        flags.reference = true;
        return Some((flags, rest));
    }
    if let Some(rest) = after_word(text, b"map()") {
        flags.map = true;
        return Some((flags, rest));
    }
    let rest = after_word(text, b"[]")?;
    flags.nil = true;
    Some((flags, rest))
}

// Some bits.
#[tactic(auto, using(crate::proofs::WordStarts::words_apart))]
fn read_bits(text: &[u8]) -> Option<(Bits, &[u8])>
    ensures shorter { IfSome result (λ p. length p.1.now ≤ length text.now) }
    ensures complete { (d : ℕ) (w rest : List ℕ) (u : TypeAt (suc d)) → IsWord d w u → text.now ≡ w ++ rest
        → MatchOption result (NoBits text.now) (λ p. (of_bits (ops d) p.0 ≡ u) × (p.1.now ≡ rest)) }
{
    if let Some(rest) = after_word(text, b"binary()") {
        return Some((Bits::Whole, rest));
    }
    let rest = after_word(text, b"bitstring()")?;
    Some((Bits::Any, rest))
}

// Every function, or those of one arity.
#[tactic(auto, using(crate::proofs::WordStarts::words_apart))]
fn read_functions(text: &[u8]) -> Option<(FunSet, &[u8])>
    ensures normal { IfSome result (λ p. NormalFunctions (functions_of p.0)) }
    ensures shorter { IfSome result (λ p. length p.1.now ≤ length text.now) }
    ensures complete { (d : ℕ) (w rest : List ℕ) (u : TypeAt (suc d)) → IsWord d w u → text.now ≡ w ++ rest
        → MatchOption result (NoFunction text.now) (λ p. (of_functions (ops d) (functions_of p.0) ≡ u) × (p.1.now ≡ rest)) }
{
    if let Some(rest) = after_word(text, b"fun()") {
        return Some((FunSet::Every, rest));
    }
    let inside = after_word(text, b"fun(")?;
    let (arity, after) = read_arity(inside)?;
    let rest = after_word(after, b")")?;
    Some((FunSet::OfArity(arity), rest))
}

// The integers of an interval.
#[tactic(auto, using(crate::proofs::WordStarts::words_apart))]
fn read_interval(text: &[u8]) -> Option<(IntSet, &[u8])>
    ensures shorter { IfSome result (λ p. length p.1.now ≤ length text.now) }
    ensures complete { (d : ℕ) (w rest : List ℕ) (u : TypeAt (suc d)) → IsWord d w u → text.now ≡ w ++ rest
        → MatchOption result (NoInterval text.now) (λ p. (of_ints (ops d) p.0 ≡ u) × (p.1.now ≡ rest)) }
{
    if let Some(rest) = after_word(text, b"integer()") {
        return Some((IntSet::range(Low::Min, High::Max), rest));
    }
    let inside = after_word(text, b"integer(")?;
    let (low, high, rest) = read_range(inside)?;
    if IntSet::is_range(low, high) {
        Some((IntSet::range(low, high), rest))
    } else {
        None
    }
}

fn flags_alone(flags: FlagSet) -> Node
    ensures fits { (d : ℕ) → Fits (suc d) result }
    ensures value { (d : ℕ) → view (suc d) result ≡ of_flags (ops d) (flags_of flags) }
{
    plain_alone(Plain {
        flags,
        ..Plain::none()
    })
}

fn bits_alone(bits: Bits) -> Node
    ensures fits { (d : ℕ) → Fits (suc d) result }
    ensures value { (d : ℕ) → view (suc d) result ≡ of_bits (ops d) bits }
{
    plain_alone(Plain {
        bits,
        ..Plain::none()
    })
}

fn functions_alone(functions: FunSet) -> Node
    requires { NormalFunctions (functions_of functions) }
    ensures fits { (d : ℕ) → Fits (suc d) result }
    ensures value { (d : ℕ) → view (suc d) result ≡ of_functions (ops d) (functions_of functions) }
{
    plain_alone(Plain {
        functions,
        ..Plain::none()
    })
}

fn ints_alone(ints: IntSet) -> Node
    ensures fits { (d : ℕ) → Fits (suc d) result }
    ensures value { (d : ℕ) → view (suc d) result ≡ of_ints (ops d) ints }
{
    plain_alone(Plain {
        ints,
        ..Plain::none()
    })
}

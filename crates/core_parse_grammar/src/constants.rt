ghost use Rattle.std.specs.Prelude.{◌≡◌, ◌+◌, ◌<◌, ◌≤◌, true, false, length, IfOk, IfErr};
ghost use Rattle.core_scan.specs.Sorts.{fits as fits_sort};
ghost use Rattle.core_parse_grammar.specs.Build.{atom_constant as constant_of_atom, tuple_constant as constant_of_tuple, text};
ghost use Rattle.core_parse_grammar.specs.Grammar.{the, many, constant as constant_part, other_constant as other_constant_part};
ghost use Rattle.core_parse_grammar.specs.Grammar.{constant_tail as tail_part, constant_segment as segment_part, constant_pair as pair_part};
ghost use Rattle.core_parse_grammar.specs.Faults.{Refuses, Starts, closing, begins_constant as begins, single_constant as constant_of_token};
ghost use Rattle.core_parse_grammar.specs.Readings.{ReadsConstant, ReadsOtherConstant, ReadsConstantElements, ReadsConstantTail, ReadsConstants};
ghost use Rattle.core_parse_grammar.specs.Readings.{ReadsConstantSegment, ReadsConstantSegments, ReadsConstantPair, ReadsConstantPairs};

use crate::fault::PartFault;
use crate::leaves::{DEEPEST, First, is_too_deep, next, take, text_bytes, value_of};
use crate::names::name_tokens;
use crate::notes::Constant;
use core_scan::{Sort, Token, fits};
use std::alloc::Global;
use type_kinds::{List, Memory};

/// A constant, and what follows it.
#[derive(Clone, Copy)]
pub struct ReadConstant<'a> {
    pub constant: Constant,
    pub rest: &'a [Token],
}

/// Constants, and what follows the token that closes them.
#[derive(Drop)]
pub struct ReadConstants<'a> {
    pub constants: List<Constant>,
    pub rest: &'a [Token],
}

/// What follows the elements of a list and its tail, and how many brackets have to close it.
#[derive(Clone, Copy)]
struct ReadElements<'a> {
    pending: usize,
    rest: &'a [Token],
}

/// What comes behind the bar of a list: a whole tail, or the opening bracket of a list with elements,
/// which goes into the list.
#[derive(Clone, Copy, Debug, PartialEq, Eq)]
pub enum Tail {
    Whole,
    Elements,
}

/// What follows a whole tail, or the bracket.
#[derive(Clone, Copy)]
struct ReadTail<'a> {
    kind: Tail,
    rest: &'a [Token],
}

// The constant that a token is by itself, if it is one.
fn single_constant(sort: Sort, token: &Token) -> Option<Constant>
    ensures { result ≡ constant_of_token sort token.now }
{
    match sort {
        Sort::Small => Some(Constant::Number(value_of(token))),
        Sort::Integer => Some(Constant::Number(value_of(token))),
        Sort::Char => Some(Constant::Number(value_of(token))),
        Sort::Atom => Some(atom_constant(token)),
        Sort::Float => Some(Constant::Another),
        Sort::EmptyText => Some(Constant::Another),
        _ => None,
    }
}

// Whether a constant begins with a token of this sort.
fn begins_constant(sort: Sort) -> bool
    ensures { result ≡ begins sort }
{
    match sort {
        Sort::Small => true,
        Sort::Integer => true,
        Sort::Float => true,
        Sort::Char => true,
        Sort::Atom => true,
        Sort::EmptyText => true,
        Sort::Text => true,
        Sort::OpenSquare => true,
        Sort::OpenCurly => true,
        Sort::Fun => true,
        Sort::OpenBinary => true,
        Sort::OpenMap => true,
        _ => false,
    }
}

fn atom_constant(token: &Token) -> Constant
    ensures { result ≡ constant_of_atom (text token.now) }
{
    if text_bytes(token) == b"compiler_generated".as_slice() {
        Constant::Generated
    } else {
        Constant::Another
    }
}

fn tuple_constant(constants: &[Constant]) -> Constant
    ensures { result ≡ constant_of_tuple constants.now }
{
    match constants {
        [Constant::Number(first), Constant::Number(_)] => Constant::Pair(*first),
        _ => Constant::Another,
    }
}

/// The constant that comes first.
#[cycle(constants)]
pub fn constant<'a>(
    alloc: Global,
    tokens: &'a [Token],
    depth: u32,
) -> Result<ReadConstant<'a>, PartFault>
    requires { depth ≤ DEEPEST + 1 }
    ensures ok { IfOk result (λ r. ReadsConstant depth tokens.now r.constant r.rest.now) }
    ensures shorter { IfOk result (λ r. length r.rest.now < length tokens.now) }
    ensures shallow { IfOk result (λ r. depth ≤ DEEPEST) }
    ensures err { IfErr result (λ e. Refuses (constant_part depth) tokens.now e) }
{
    let first = match next(tokens) {
        Ok(first) => first,
        Err(fault) => return Err(fault),
    };
    if is_too_deep(first.sort, depth) {
        if begins_constant(first.sort) {
            return Err(PartFault::TooDeep(first.place));
        }
        return Err(PartFault::Syntax(first.place));
    }
    match first.sort {
        Sort::Text => Ok(ReadConstant {
            constant: Constant::Another,
            rest: first.rest,
        }),
        Sort::OpenSquare => match constant_list(alloc, tokens, first, depth) {
            Ok(read) => Ok(read),
            Err(fault) => Err(fault),
        },
        _ => match other_constant(alloc, tokens, first, depth) {
            Ok(read) => Ok(read),
            Err(fault) => Err(fault),
        },
    }
}

// The constant that comes first, where it is no list with elements and no string with bytes.
#[cycle(constants)]
fn other_constant<'a>(
    alloc: Global,
    tokens: &'a [Token],
    first: First<'a>,
    depth: u32,
) -> Result<ReadConstant<'a>, PartFault>
    requires shallow { depth ≤ DEEPEST }
    requires starts { Starts tokens.now first.token.now first.sort first.place first.rest.now }
    requires shorter { length first.rest.now + 1 ≡ length tokens.now }
    requires no_list { first.sort ≡ Sort.OpenSquare → ⊥ }
    ensures ok { IfOk result (λ r. ReadsOtherConstant depth tokens.now r.constant r.rest.now) }
    ensures shorter { IfOk result (λ r. length r.rest.now < length tokens.now) }
    ensures err { IfErr result (λ e. Refuses (other_constant_part depth) tokens.now e) }
{
    if let Some(constant) = single_constant(first.sort, first.token) {
        return Ok(ReadConstant {
            constant,
            rest: first.rest,
        });
    }
    match first.sort {
        Sort::OpenCurly => match constants(alloc, first.rest, Sort::CloseCurly, depth + 1) {
            Ok(read) => Ok(ReadConstant {
                constant: tuple_constant(read.constants.as_slice()),
                rest: read.rest,
            }),
            Err(fault) => Err(fault),
        },
        Sort::Fun => match external_constant(tokens, first, depth) {
            Ok(read) => Ok(read),
            Err(fault) => Err(fault),
        },
        Sort::OpenBinary => match constant_segments(alloc, first.rest, depth + 1) {
            Ok(rest) => Ok(another(rest)),
            Err(fault) => Err(fault),
        },
        Sort::OpenMap => match constant_pairs(alloc, first.rest, depth + 1) {
            Ok(rest) => Ok(another(rest)),
            Err(fault) => Err(fault),
        },
        _ => Err(PartFault::Syntax(first.place)),
    }
}

// A constant that says nothing, and what follows it.
fn another<'a>(rest: &'a [Token]) -> ReadConstant<'a>
    ensures constant { result.constant ≡ Constant.Another }
    ensures rest { result.rest.now ≡ rest.entry.now }
{
    ReadConstant {
        constant: Constant::Another,
        rest,
    }
}

// The name of a function of a module, from the word `fun` on.
fn external_constant<'a>(
    tokens: &'a [Token],
    first: First<'a>,
    depth: u32,
) -> Result<ReadConstant<'a>, PartFault>
    requires shallow { depth ≤ DEEPEST }
    requires starts { Starts tokens.now first.token.now first.sort first.place first.rest.now }
    requires shorter { length first.rest.now + 1 ≡ length tokens.now }
    requires sort { first.sort ≡ Sort.Fun }
    ensures ok { IfOk result (λ r. ReadsOtherConstant depth tokens.now r.constant r.rest.now) }
    ensures shorter { IfOk result (λ r. length r.rest.now < length tokens.now) }
    ensures err { IfErr result (λ e. Refuses (other_constant_part depth) tokens.now e) }
{
    let rest = match take(first.rest, Sort::Atom) {
        Ok(rest) => rest,
        Err(fault) => return Err(fault),
    };
    let rest = match take(rest, Sort::Colon) {
        Ok(rest) => rest,
        Err(fault) => return Err(fault),
    };
    match name_tokens(rest) {
        Ok(read) => Ok(another(read.rest)),
        Err(fault) => Err(fault),
    }
}

// A list, from its opening bracket on.
#[cycle(constants)]
fn constant_list<'a>(
    alloc: Global,
    tokens: &'a [Token],
    first: First<'a>,
    depth: u32,
) -> Result<ReadConstant<'a>, PartFault>
    requires shallow { depth ≤ DEEPEST }
    requires starts { Starts tokens.now first.token.now first.sort first.place first.rest.now }
    requires shorter { length first.rest.now + 1 ≡ length tokens.now }
    requires sort { first.sort ≡ Sort.OpenSquare }
    ensures ok { IfOk result (λ r. ReadsConstant depth tokens.now r.constant r.rest.now) }
    ensures shorter { IfOk result (λ r. length r.rest.now < length tokens.now) }
    ensures err { IfErr result (λ e. Refuses (constant_part depth) tokens.now e) }
{
    let second = match next(first.rest) {
        Ok(second) => second,
        Err(fault) => return Err(fault),
    };
    if fits(Sort::CloseSquare, second.sort) {
        return Ok(another(second.rest));
    }
    let ReadElements {
        mut pending,
        mut rest,
    } = match constant_elements(alloc, tokens, first, second, depth) {
        Ok(read) => read,
        Err(fault) => return Err(fault),
    };
    while pending > 0 {
        match take(rest, Sort::CloseSquare) {
            Ok(after) => rest = after,
            Err(fault) => return Err(fault),
        }
        pending -= 1;
    }
    Ok(another(rest))
}

// The elements of a list and its tail, up to the brackets that close it. A tail that is a list with
// elements goes into the list.
#[cycle(constants)]
fn constant_elements<'a>(
    alloc: Global,
    tokens: &'a [Token],
    first: First<'a>,
    second: First<'a>,
    depth: u32,
) -> Result<ReadElements<'a>, PartFault>
    requires shallow { depth ≤ DEEPEST }
    requires starts { Starts tokens.now first.token.now first.sort first.place first.rest.now }
    requires shorter { length first.rest.now + 1 ≡ length tokens.now }
    requires sort { first.sort ≡ Sort.OpenSquare }
    requires goes_on { Starts first.rest.now second.token.now second.sort second.place second.rest.now }
    requires some { fits_sort Sort.CloseSquare second.sort ≡ false }
    ensures ok { IfOk result (λ r. ReadsConstantElements depth tokens.now r.pending r.rest.now) }
    ensures shorter { IfOk result (λ r. length r.rest.now + r.pending < length tokens.now) }
    ensures err { IfErr result (λ e. Refuses (constant_part depth) tokens.now e) }
{
    let mut pending: usize = 0;
    let mut from = first.rest;
    loop {
        let element = match constant(alloc, from, depth + 1) {
            Ok(element) => element,
            Err(fault) => return Err(fault),
        };
        let after = match next(element.rest) {
            Ok(after) => after,
            Err(fault) => return Err(fault),
        };
        if fits(Sort::CloseSquare, after.sort) {
            return Ok(ReadElements {
                pending,
                rest: after.rest,
            });
        }
        if fits(Sort::Comma, after.sort) {
            from = after.rest;
            continue;
        }
        if !fits(Sort::Bar, after.sort) {
            return Err(PartFault::Syntax(after.place));
        }
        let tail = match constant_tail(alloc, after.rest, depth) {
            Ok(tail) => tail,
            Err(fault) => return Err(fault),
        };
        pending += 1;
        match tail.kind {
            Tail::Whole => {
                return Ok(ReadElements {
                    pending,
                    rest: tail.rest,
                });
            }
            Tail::Elements => from = tail.rest,
        }
    }
}

// What comes behind the bar of a list: a whole tail, or the bracket of a list with elements.
#[cycle(constants)]
fn constant_tail<'a>(
    alloc: Global,
    tokens: &'a [Token],
    depth: u32,
) -> Result<ReadTail<'a>, PartFault>
    requires { depth < DEEPEST }
    ensures ok { IfOk result (λ r. ReadsConstantTail depth tokens.now r.kind r.rest.now) }
    ensures shorter { IfOk result (λ r. length r.rest.now < length tokens.now) }
    ensures err { IfErr result (λ e. Refuses (tail_part depth) tokens.now e) }
{
    let first = match next(tokens) {
        Ok(first) => first,
        Err(fault) => return Err(fault),
    };
    match first.sort {
        Sort::Text => Ok(whole(first.rest)),
        Sort::OpenSquare => {
            let second = match next(first.rest) {
                Ok(second) => second,
                Err(fault) => return Err(fault),
            };
            if fits(Sort::CloseSquare, second.sort) {
                return Ok(whole(second.rest));
            }
            Ok(ReadTail {
                kind: Tail::Elements,
                rest: first.rest,
            })
        }
        _ => match other_constant(alloc, tokens, first, depth + 1) {
            Ok(read) => Ok(whole(read.rest)),
            Err(fault) => Err(fault),
        },
    }
}

fn whole<'a>(rest: &'a [Token]) -> ReadTail<'a>
    ensures kind { result.kind ≡ Tail.Whole }
    ensures rest { result.rest.now ≡ rest.entry.now }
{
    ReadTail {
        kind: Tail::Whole,
        rest,
    }
}

/// Constants with commas between them, up to and with the token that closes them.
#[cycle(constants)]
pub fn constants<'a>(
    alloc: Global,
    tokens: &'a [Token],
    close: Sort,
    depth: u32,
) -> Result<ReadConstants<'a>, PartFault>
    requires closes { closing close ≡ true }
    requires shallow { depth ≤ DEEPEST + 1 }
    ensures ok { IfOk result (λ r. ReadsConstants close depth tokens.now r.constants r.rest.now) }
    ensures shorter { IfOk result (λ r. length r.rest.now < length tokens.now) }
    ensures err { IfErr result (λ e. Refuses (many close (the (constant_part depth))) tokens.now e) }
{
    let first = match next(tokens) {
        Ok(first) => first,
        Err(fault) => return Err(fault),
    };
    let mut constants = List::new(alloc);
    if fits(close, first.sort) {
        return Ok(ReadConstants {
            constants,
            rest: first.rest,
        });
    }
    let mut from = tokens;
    loop {
        let item = match constant(alloc, from, depth) {
            Ok(item) => item,
            Err(fault) => return Err(fault),
        };
        match constants.add(item.constant) {
            Ok(()) => {}
            Err(Memory) => return Err(PartFault::Memory),
        }
        let after = match next(item.rest) {
            Ok(after) => after,
            Err(fault) => return Err(fault),
        };
        if fits(close, after.sort) {
            return Ok(ReadConstants {
                constants,
                rest: after.rest,
            });
        }
        if !fits(Sort::Comma, after.sort) {
            return Err(PartFault::Syntax(after.place));
        }
        from = after.rest;
    }
}

// Segments of a binary with commas between them, up to and with the token that closes them.
#[cycle(constants)]
fn constant_segments<'a>(
    alloc: Global,
    tokens: &'a [Token],
    depth: u32,
) -> Result<&'a [Token], PartFault>
    requires { depth ≤ DEEPEST + 1 }
    ensures ok { IfOk result (λ r. ReadsConstantSegments depth tokens.now r.now) }
    ensures shorter { IfOk result (λ r. length r.now < length tokens.now) }
    ensures err { IfErr result (λ e. Refuses (many Sort.CloseBinary (the (segment_part depth))) tokens.now e) }
{
    let first = match next(tokens) {
        Ok(first) => first,
        Err(fault) => return Err(fault),
    };
    if fits(Sort::CloseBinary, first.sort) {
        return Ok(first.rest);
    }
    let mut from = tokens;
    loop {
        let rest = match constant_segment(alloc, from, depth) {
            Ok(rest) => rest,
            Err(fault) => return Err(fault),
        };
        let after = match next(rest) {
            Ok(after) => after,
            Err(fault) => return Err(fault),
        };
        if fits(Sort::CloseBinary, after.sort) {
            return Ok(after.rest);
        }
        if !fits(Sort::Comma, after.sort) {
            return Err(PartFault::Syntax(after.place));
        }
        from = after.rest;
    }
}

// #< constant > ( constants )
#[cycle(constants)]
fn constant_segment<'a>(
    alloc: Global,
    tokens: &'a [Token],
    depth: u32,
) -> Result<&'a [Token], PartFault>
    requires { depth ≤ DEEPEST + 1 }
    ensures ok { IfOk result (λ r. ReadsConstantSegment depth tokens.now r.now) }
    ensures shorter { IfOk result (λ r. length r.now < length tokens.now) }
    ensures err { IfErr result (λ e. Refuses (segment_part depth) tokens.now e) }
{
    let rest = match take(tokens, Sort::OpenSegment) {
        Ok(rest) => rest,
        Err(fault) => return Err(fault),
    };
    let value = match constant(alloc, rest, depth) {
        Ok(value) => value,
        Err(fault) => return Err(fault),
    };
    let rest = match take(value.rest, Sort::Greater) {
        Ok(rest) => rest,
        Err(fault) => return Err(fault),
    };
    let rest = match take(rest, Sort::OpenRound) {
        Ok(rest) => rest,
        Err(fault) => return Err(fault),
    };
    match constants(alloc, rest, Sort::CloseRound, depth) {
        Ok(read) => Ok(read.rest),
        Err(fault) => Err(fault),
    }
}

// Pairs of a map with commas between them, up to and with the token that closes them.
#[cycle(constants)]
fn constant_pairs<'a>(
    alloc: Global,
    tokens: &'a [Token],
    depth: u32,
) -> Result<&'a [Token], PartFault>
    requires { depth ≤ DEEPEST + 1 }
    ensures ok { IfOk result (λ r. ReadsConstantPairs depth tokens.now r.now) }
    ensures shorter { IfOk result (λ r. length r.now < length tokens.now) }
    ensures err { IfErr result (λ e. Refuses (many Sort.CloseMap (the (pair_part depth))) tokens.now e) }
{
    let first = match next(tokens) {
        Ok(first) => first,
        Err(fault) => return Err(fault),
    };
    if fits(Sort::CloseMap, first.sort) {
        return Ok(first.rest);
    }
    let mut from = tokens;
    loop {
        let rest = match constant_pair(alloc, from, depth) {
            Ok(rest) => rest,
            Err(fault) => return Err(fault),
        };
        let after = match next(rest) {
            Ok(after) => after,
            Err(fault) => return Err(fault),
        };
        if fits(Sort::CloseMap, after.sort) {
            return Ok(after.rest);
        }
        if !fits(Sort::Comma, after.sort) {
            return Err(PartFault::Syntax(after.place));
        }
        from = after.rest;
    }
}

// constant => constant
#[cycle(constants)]
fn constant_pair<'a>(
    alloc: Global,
    tokens: &'a [Token],
    depth: u32,
) -> Result<&'a [Token], PartFault>
    requires { depth ≤ DEEPEST + 1 }
    ensures ok { IfOk result (λ r. ReadsConstantPair depth tokens.now r.now) }
    ensures shorter { IfOk result (λ r. length r.now < length tokens.now) }
    ensures err { IfErr result (λ e. Refuses (pair_part depth) tokens.now e) }
{
    let key = match constant(alloc, tokens, depth) {
        Ok(key) => key,
        Err(fault) => return Err(fault),
    };
    let rest = match take(key.rest, Sort::Assoc) {
        Ok(rest) => rest,
        Err(fault) => return Err(fault),
    };
    match constant(alloc, rest, depth) {
        Ok(value) => Ok(value.rest),
        Err(fault) => Err(fault),
    }
}

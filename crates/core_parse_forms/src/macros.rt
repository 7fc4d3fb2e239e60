//! What the readers of the grammar write again and again, once: each macro is written out where it is called, and
//! proved there. A tree that is half built is never dropped where it goes out of scope, but handed to a `discard`
//! of `core_ast`: so most of these take the calls that discard what was read before.

use core_scan::Token;
use type_kinds::{Boxed, List};

/// What was read, what follows it, and the label that follows its last.
pub struct Read<'a, T> {
    pub value: T,
    pub rest: &'a [Token],
    pub label: u32,
}

/// The elements of a list and its tail, and how many brackets have to close it.
pub struct ReadElements<'a, T> {
    pub items: List<T>,
    pub tail: Boxed<T>,
    pub pending: usize,
    pub rest: &'a [Token],
    pub label: u32,
}

/// What the call found. If it refuses, what was read before is discarded, and the reader answers the refusal.
macro_rules! found {
    ($call:expr $(, $discard:expr)* $(,)?) => {
        match $call {
            Ok(found) => found,
            Err(fault) => {
                $($discard;)*
                return Err(fault);
            }
        }
    };
}

/// Names what the call read, what follows it and the next label. If the call refuses, as `found`.
macro_rules! read {
    ($value:pat, $rest:pat, $label:pat in $call:expr $(, $discard:expr)* $(,)?) => {
        let Read {
            value: $value,
            rest: $rest,
            label: $label,
        } = found!($call $(, $discard)*);
    };
}

/// The call's answer, as the reader's own.
macro_rules! answer {
    ($call:expr) => {
        match $call {
            Ok(found) => Ok(found),
            Err(fault) => Err(fault),
        }
    };
}

/// What the call made. If there is no memory for it, what was read before is discarded, and the reader answers
/// that.
macro_rules! made {
    ($call:expr $(, $discard:expr)* $(,)?) => {
        match $call {
            Ok(made) => made,
            Err(Memory) => {
                $($discard;)*
                return Err(PartFault::Memory);
            }
        }
    };
}

/// What the call made, as the reader's answer.
macro_rules! node {
    ($call:expr, $rest:expr, $label:expr) => {
        match $call {
            Ok(value) => Ok(Read {
                value,
                rest: $rest,
                label: $label,
            }),
            Err(Memory) => Err(PartFault::Memory),
        }
    };
}

/// A chain, and the annotations behind it, which are read when the frame of the chain's reader is gone.
macro_rules! closed_chain {
    ($alloc:ident, $tokens:ident, $first:ident, $depth:ident, $label:ident) => {
        closed(
            $alloc,
            $tokens,
            $first,
            $depth,
            $label,
            chain($alloc, $tokens, $first, $depth, $label),
        )
    };
}

/// Items with commas between them, up to and with the token of the sort that closes them: how one is read, how it
/// is kept behind those before it, and how they are discarded.
macro_rules! many {
    (
        $read:ident($alloc:ident, $tokens:ident, $depth:ident, $label:ident) => $item:ident { $($part:ident),+ },
        $close:expr,
        $keep:ident,
        $discard:ident
    ) => {{
        let first = found!(next($tokens));
        let mut items = List::new($alloc);
        if same(first.sort, $close) {
            return Ok(Read {
                value: items,
                rest: first.rest,
                label: $label,
            });
        }
        let $item {
            $($part,)+
            rest: mut left,
            label: mut next_label,
        } = found!($read($alloc, $tokens, $depth, $label), $discard(items));
        items = made!($keep(items, $($part),+));
        loop {
            let first = found!(next(left), $discard(items));
            if same(first.sort, $close) {
                return Ok(Read {
                    value: items,
                    rest: first.rest,
                    label: next_label,
                });
            }
            if !same(first.sort, Sort::Comma) {
                $discard(items);
                return Err(PartFault::Syntax(first.place));
            }
            let $item {
                $($part,)+
                rest,
                label,
            } = found!($read($alloc, first.rest, $depth, next_label), $discard(items));
            items = made!($keep(items, $($part),+));
            left = rest;
            next_label = label;
        }
    }};
}

/// A segment of a binary: how its value is read, how it is made, and how the value is discarded.
macro_rules! segment {
    (
        $read:ident($alloc:ident, $tokens:ident, $depth:ident, $label:ident),
        $make:path,
        $discard:ident
    ) => {{
        let rest = found!(take($tokens, Sort::OpenSegment));
        read!(value, rest, label in $read($alloc, rest, $depth, $label));
        let rest = found!(take(rest, Sort::Greater), $discard(value));
        let rest = found!(take(rest, Sort::OpenRound), $discard(value));
        read!(args, rest, label in expressions($alloc, rest, Sort::CloseRound, $depth, label), $discard(value));
        node!($make($alloc, value, args), rest, label)
    }};
}

/// A pair of a map, with or without annotation brackets: how it is read without them and behind one of them, and how
/// what is read of it is discarded.
macro_rules! pair {
    (
        $bare:ident($alloc:ident, $tokens:ident, $depth:ident, $label:ident) => $pair:ident { $($part:ident),+ },
        $in_brackets:ident,
        $($discard:ident($tree:ident)),+
    ) => {{
        let first = found!(next($tokens));
        if !same(first.sort, Sort::OpenRound) {
            return answer!($bare($alloc, $tokens, $depth, $label));
        }
        let second = found!(next(first.rest));
        if same(second.sort, Sort::OpenRound) {
            let $pair {
                $($part,)+
                rest,
                label,
            } = found!($bare($alloc, first.rest, $depth, $label));
            return match annotation($alloc, rest) {
                Ok(found) => Ok($pair {
                    $($part,)+
                    rest: found.rest,
                    label,
                }),
                Err(fault) => {
                    $($discard($tree);)+
                    Err(fault)
                }
            };
        }
        answer!($in_brackets($alloc, $tokens, first, $depth, $label))
    }};
}

/// A pair of a map behind one bracket, which is the key's where an annotation follows the key: how the value is read
/// behind the key, how the pair is where the key has brackets, and how the value is discarded.
macro_rules! pair_in_brackets {
    (
        $read:ident($alloc:ident, $tokens:expr, $depth:ident, $label:ident) => $found:ident { $($part:ident),+ },
        $of_key:ident,
        $pair:ident,
        $discard:ident($value:ident)
    ) => {{
        read!(key, rest, label in bare_expression($alloc, $tokens, $depth, $label));
        let token = found!(next(rest), discard(key));
        if same(token.sort, Sort::Noted) {
            return match annotated($alloc, key, rest) {
                Ok(ReadAnnotated { expr, rest }) => answer!($of_key($alloc, expr, rest, $depth, label)),
                Err(fault) => Err(fault),
            };
        }
        let $found {
            $($part,)+
            rest,
            label,
        } = found!($read($alloc, rest, $depth, label), discard(key));
        match annotation($alloc, rest) {
            Ok(found) => Ok($pair {
                key,
                $($part,)+
                rest: found.rest,
                label,
            }),
            Err(fault) => {
                discard(key);
                $discard($value);
                Err(fault)
            }
        }
    }};
}

/// The list of a string's bytes: how they are added to the elements, how the list is made, and how the elements are
/// discarded.
macro_rules! string {
    ($push_bytes:ident($alloc:ident, $first:ident, $label:ident), $make:path, $discard:ident) => {{
        let mut items = List::new($alloc);
        let label_of_tail = made!($push_bytes(&mut items, $first.token, $label + 1), $discard(items));
        let tail = made!(nil($alloc, label_of_tail, $first.place), $discard(items));
        node!(
            $make($alloc, mark($label, $first.place), items, tail),
            $first.rest,
            label_of_tail + 1
        )
    }};
}

/// A list: how its elements and its tail are read, how it is made, and how its elements and its tail are discarded.
macro_rules! list {
    (
        $elements:ident($alloc:ident, $tokens:ident, $first:ident, $depth:ident, $label:ident),
        $make:path,
        $discard:ident,
        $discard_tail:ident
    ) => {{
        let second = found!(next($first.rest));
        if same(second.sort, Sort::CloseSquare) {
            return node!(nil($alloc, $label, $first.place), second.rest, $label + 1);
        }
        let ReadElements {
            items,
            tail,
            mut pending,
            mut rest,
            label: next_label,
        } = found!($elements($alloc, $tokens, $first, second, $depth, $label));
        while pending > 0 {
            rest = found!(take(rest, Sort::CloseSquare), $discard(items), $discard_tail(tail));
            pending -= 1;
        }
        node!($make($alloc, mark($label, $first.place), items, tail), rest, next_label)
    }};
}

/// One more element. If there is no memory for it, the elements are discarded.
macro_rules! element {
    ($items:ident, $item:ident, $discard:ident) => {
        if !pushed(&mut $items, $item) {
            $discard($items);
            return Err(PartFault::Memory);
        }
    };
}

/// The elements of a list, whose tail is the empty list at the place.
macro_rules! nil_tail {
    ($alloc:ident, $items:ident, $place:expr, $pending:expr, $rest:expr, $label:ident, $discard:ident) => {
        match nil($alloc, $label, $place) {
            Ok(tail) => Ok(ReadElements {
                items: $items,
                tail,
                pending: $pending,
                rest: $rest,
                label: $label + 1,
            }),
            Err(Memory) => {
                $discard($items);
                Err(PartFault::Memory)
            }
        }
    };
}

/// The elements of a list and its tail, as `elements` of `expression_lists` says: how one is read, how a tail without
/// brackets is, how the bytes of a string are added, how elements are discarded, and what reads a tail in annotation
/// brackets, with the names that it has for the elements, for the bar and the bracket, for the label, and for the
/// brackets that have to close the list.
macro_rules! elements {
    (
        $read:ident($alloc:ident, $first:ident, $depth:ident, $label:ident),
        $other:ident,
        $push_bytes:ident,
        $discard:ident,
        |$items:ident, $bar:ident, $behind:ident, $next:ident, $pending:ident| $in_brackets:expr
    ) => {{
        let mut $items = List::new($alloc);
        read!(item, mut left, mut $next in $read($alloc, $first.rest, $depth + 1, $label + 1), $discard($items));
        element!($items, item, $discard);
        let mut $pending: usize = 0;
        loop {
            let $bar = found!(next(left), $discard($items));
            if same($bar.sort, Sort::CloseSquare) {
                return nil_tail!($alloc, $items, $bar.place, $pending, $bar.rest, $next, $discard);
            }
            if same($bar.sort, Sort::Comma) {
                read!(item, rest, label in $read($alloc, $bar.rest, $depth + 1, $next), $discard($items));
                element!($items, item, $discard);
                left = rest;
                $next = label;
                continue;
            }
            if !same($bar.sort, Sort::Bar) {
                $discard($items);
                return Err(PartFault::Syntax($bar.place));
            }
            let $behind = found!(next($bar.rest), $discard($items));
            if same($behind.sort, Sort::OpenRound) {
                return $in_brackets;
            }
            if same($behind.sort, Sort::Text) {
                let $next = made!($push_bytes(&mut $items, $behind.token, $next), $discard($items));
                return nil_tail!($alloc, $items, $behind.place, $pending + 1, $behind.rest, $next, $discard);
            }
            if !same($behind.sort, Sort::OpenSquare) {
                return match $other($alloc, $bar.rest, $depth + 1, $next) {
                    Ok(Read { value, rest, label }) => Ok(ReadElements {
                        items: $items,
                        tail: value,
                        pending: $pending + 1,
                        rest,
                        label,
                    }),
                    Err(fault) => {
                        $discard($items);
                        Err(fault)
                    }
                };
            }
            let inner = found!(next($behind.rest), $discard($items));
            if same(inner.sort, Sort::CloseSquare) {
                return nil_tail!($alloc, $items, $behind.place, $pending + 1, inner.rest, $next, $discard);
            }
            read!(item, rest, label in $read($alloc, $behind.rest, $depth + 1, $next), $discard($items));
            element!($items, item, $discard);
            left = rest;
            $next = label;
            $pending += 1;
        }
    }};
}

pub(crate) use answer;
pub(crate) use closed_chain;
pub(crate) use element;
pub(crate) use elements;
pub(crate) use found;
pub(crate) use list;
pub(crate) use made;
pub(crate) use many;
pub(crate) use nil_tail;
pub(crate) use node;
pub(crate) use pair;
pub(crate) use pair_in_brackets;
pub(crate) use read;
pub(crate) use segment;
pub(crate) use string;

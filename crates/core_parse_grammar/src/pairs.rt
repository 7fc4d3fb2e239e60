// The pairs of maps: what is read of one, and the signs between a key and its value.
ghost use Rattle.std.specs.Prelude.{◌≡◌, ◌+◌, ◌≤◌, length, IfOk, IfErr};
ghost use Rattle.core_parse_grammar.specs.Faults.{Takes, Misses};
ghost use Rattle.core_parse_grammar.specs.Pairs.{exact_sign};
ghost use Rattle.core_parse_grammar.specs.Weights.{weight};

use crate::fault::PartFault;
use crate::leaves::take;
use core_ast::Expr;
use core_scan::{Sort, Token};
use type_kinds::Boxed;

/// The key and the value of a pair, whether it is an exact one, and what follows it.
pub struct ReadPair<'a> {
    pub exact: bool,
    pub key: Boxed<Expr>,
    pub value: Boxed<Expr>,
    pub rest: &'a [Token],
    pub label: u32,
}

/// The value of a pair, whether the sign before it is that of an exact pair, and what follows it.
pub struct ReadValue<'a> {
    pub exact: bool,
    pub value: Boxed<Expr>,
    pub rest: &'a [Token],
    pub label: u32,
}

/// Whether it is the sign of an exact pair, if it is the sign of a pair.
pub fn exactness(sort: Sort) -> Option<bool>
    ensures { result ≡ exact_sign sort }
{
    match sort {
        Sort::Exact => Some(true),
        Sort::Assoc => Some(false),
        _ => None,
    }
}

/// What follows the sign of a pair, which is := in every pattern.
pub fn behind_sign<'a>(tokens: &'a [Token]) -> Result<&'a [Token], PartFault>
    ensures ok { IfOk result (λ r. Takes (Sort.Exact) tokens.now r.now) }
    ensures shorter { IfOk result (λ r. length r.now + 1 ≡ length tokens.now) }
    ensures lighter { IfOk result (λ r. weight r.now + 2 ≤ weight tokens.now) }
    ensures err { IfErr result (λ e. Misses (Sort.Exact) tokens.now e) }
{
    take(tokens, Sort::Exact)
}

/// The pair of this key and of the value behind it. It takes no label of its own.
pub fn pair_read<'a>(key: Boxed<Expr>, found: ReadValue<'a>) -> ReadPair<'a>
    ensures exact { result.exact ≡ found.entry.exact }
    ensures key { result.key ≡ key }
    ensures value { result.value ≡ found.entry.value }
    ensures rest { result.rest.now ≡ found.entry.rest.now }
    ensures label { result.label ≡ found.entry.label }
{
    let ReadValue {
        exact,
        value,
        rest,
        label,
    } = found;
    ReadPair {
        exact,
        key,
        value,
        rest,
        label,
    }
}

ghost use Rattle.std.specs.Prelude.{◌≡◌, ◌+◌, ◌^◌, ◌<◌, ◌≤◌, false, length, IfOk, IfErr, IfSome, IfNone};
ghost use Rattle.core_ast.specs.Tree.{pattern_tree};
ghost use Rattle.core_parse_grammar.specs.Build.{text};
ghost use Rattle.core_parse_grammar.specs.Grammar.{pattern as pattern_of, bare_pattern as bare_pattern_of};
ghost use Rattle.core_parse_grammar.specs.Faults.{Starts, Takes, Refuses};
ghost use Rattle.core_parse_forms.specs.steps.Patterns.{ReadsNamed, ReadsInBrackets, RefusesInBrackets, ReadsNotedVariable, RefusesNotedVariable};
ghost use Rattle.core_parse_grammar.specs.Readings.{ReadsBarePattern};
ghost use Rattle.core_parse_grammar.specs.Starters.{opens_with};
ghost use Rattle.core_parse_grammar.specs.Weights.{weight};

use crate::macros::{Read, answer, found, made, node, read};
use crate::patterns::{bare_pattern, pattern};
use core_ast::{Mark, Pattern, VarName};
use core_parse_grammar::annotations::{ReadAnnotatedPattern, annotated_pattern, annotation};
use core_parse_grammar::fault::PartFault;
use core_parse_grammar::leaves::{DEEPEST, First, mark, next, no_note, take, text_of};
use core_parse_grammar::pattern_nodes;
use core_scan::{Sort, Token, same};
use std::alloc::Global;
use type_kinds::{Atom, Boxed, Memory};

/// A pattern that begins with a bracket, and whether the bracket is that of the variable's alone which names
/// it.
pub struct ReadInBrackets<'a> {
    pub pattern: Boxed<Pattern>,
    pub alone: bool,
    pub rest: &'a [Token],
    pub label: u32,
}

/// The pattern that begins with a bracket: the bracket of its annotation, or that of the variable's which
/// names it.
#[cycle(expressions)]
#[inline(never)]
pub fn in_brackets<'a>(
    alloc: Global,
    tokens: &'a [Token],
    first: First<'a>,
    depth: u32,
    label: u32,
) -> Result<ReadInBrackets<'a>, PartFault>
    requires shallow { depth ≤ 401 }
    requires labels { label + weight tokens.now < 2 ^ 32 }
    requires starts { Starts tokens.now first.token.now first.sort first.place first.rest.now }
    requires shorter { length first.rest.now + 1 ≡ length tokens.now }
    requires lighter { weight first.rest.now + 2 ≤ weight tokens.now }
    requires sort { first.sort ≡ Sort.OpenRound }
    ensures ok { IfOk result (λ r. ReadsInBrackets depth label first.entry.place first.entry.rest.now (pattern_tree r.pattern) r.alone r.rest.now r.label) }
    ensures labels { IfOk result (λ r. r.label + weight r.rest.now ≤ label + weight tokens.now) }
    ensures shorter { IfOk result (λ r. length r.rest.now < length tokens.now) }
    ensures shallow { IfOk result (λ r. depth ≤ 400) }
    ensures err { IfErr result (λ e. RefusesInBrackets depth first.entry.place first.entry.rest.now e) }
{
    let second = found!(next(first.rest));
    if same(second.sort, Sort::Variable) {
        return answer!(variable_in_brackets(alloc, tokens, first, second, depth, label));
    }
    read!(pattern, rest, label in bare_pattern(alloc, first.rest, depth, label));
    match annotated_pattern(alloc, pattern, rest) {
        Ok(ReadAnnotatedPattern { pattern, rest }) => Ok(ReadInBrackets {
            pattern,
            alone: false,
            rest,
            label,
        }),
        Err(fault) => Err(fault),
    }
}

// ( variable = pattern -| [ constants ] ), or a variable in annotation brackets.
#[cycle(expressions)]
#[inline(never)]
fn variable_in_brackets<'a>(
    alloc: Global,
    tokens: &'a [Token],
    first: First<'a>,
    second: First<'a>,
    depth: u32,
    label: u32,
) -> Result<ReadInBrackets<'a>, PartFault>
    requires shallow { depth ≤ 401 }
    requires labels { label + weight tokens.now < 2 ^ 32 }
    requires starts { Starts tokens.now first.token.now first.sort first.place first.rest.now }
    requires shorter { length first.rest.now + 1 ≡ length tokens.now }
    requires lighter { weight first.rest.now + 2 ≤ weight tokens.now }
    requires sort { first.sort ≡ Sort.OpenRound }
    requires goes_on { Starts first.rest.now second.token.now second.sort second.place second.rest.now }
    requires lighter_still { weight second.rest.now + 2 ≤ weight first.rest.now }
    requires variable { second.sort ≡ Sort.Variable }
    ensures ok { IfOk result (λ r. ReadsInBrackets depth label first.entry.place first.entry.rest.now (pattern_tree r.pattern) r.alone r.rest.now r.label) }
    ensures labels { IfOk result (λ r. r.label + weight r.rest.now ≤ label + weight tokens.now) }
    ensures shorter { IfOk result (λ r. length r.rest.now < length tokens.now) }
    ensures shallow { IfOk result (λ r. depth ≤ 400) }
    ensures err { IfErr result (λ e. RefusesInBrackets depth first.entry.place first.entry.rest.now e) }
{
    if depth > DEEPEST {
        return Err(PartFault::TooDeep(second.place));
    }
    let name = made!(text_of(alloc, second.token));
    let third = found!(next(second.rest));
    if same(third.sort, Sort::Equals) {
        let name = VarName {
            name,
            place: second.place,
            note: no_note(),
        };
        let mark = mark(label, second.place);
        read!(pattern, rest, label in named(alloc, mark, name, third.rest, depth, label));
        return match annotated_pattern(alloc, pattern, rest) {
            Ok(ReadAnnotatedPattern { pattern, rest }) => Ok(ReadInBrackets {
                pattern,
                alone: false,
                rest,
                label,
            }),
            Err(fault) => Err(fault),
        };
    }
    answer!(noted_variable(alloc, name, first, second, depth, label))
}

/// A variable in annotation brackets, behind the variable, and the pattern that it names behind an equals
/// sign, if one comes.
#[cycle(expressions)]
#[inline(never)]
pub fn noted_variable<'a>(
    alloc: Global,
    name: Atom,
    first: First<'a>,
    second: First<'a>,
    depth: u32,
    label: u32,
) -> Result<ReadInBrackets<'a>, PartFault>
    requires shallow { depth ≤ 400 }
    requires labels { label + 2 + weight second.rest.now < 2 ^ 32 }
    requires name { name ≡ text second.token.now }
    requires place { second.place ≡ second.token.now.place }
    ensures ok { IfOk result (λ r. ReadsNotedVariable depth label first.entry.place second.entry.token.now second.entry.rest.now
        (pattern_tree r.pattern) r.alone r.rest.now r.label) }
    ensures labels { IfOk result (λ r. r.label + weight r.rest.now ≤ label + 2 + weight second.entry.rest.now) }
    ensures shorter { IfOk result (λ r. length r.rest.now < length second.entry.rest.now) }
    ensures err { IfErr result (λ e. RefusesNotedVariable depth first.entry.place second.entry.token.now second.entry.rest.now e) }
{
    let found = found!(annotation(alloc, second.rest));
    let Some(rest) = behind_equals(found.rest) else {
        let mark = mark(label, second.place).with_note(found.note);
        return match pattern_nodes::variable(alloc, mark, name) {
            Ok(pattern) => Ok(ReadInBrackets {
                pattern,
                alone: false,
                rest: found.rest,
                label: label + 1,
            }),
            Err(Memory) => Err(PartFault::Memory),
        };
    };
    let name = VarName {
        name,
        place: second.place,
        note: found.note,
    };
    match named(alloc, mark(label, first.place), name, rest, depth, label) {
        Ok(
            Read {
                value: pattern,
                rest,
                label,
            },
        ) => Ok(ReadInBrackets {
            pattern,
            alone: true,
            rest,
            label,
        }),
        Err(fault) => Err(fault),
    }
}

/// What follows the equals sign that comes first, if one does.
pub fn behind_equals<'a>(tokens: &'a [Token]) -> Option<&'a [Token]>
    ensures found { IfSome result (λ r. Takes (Sort.Equals) tokens.now r.now) }
    ensures shorter { IfSome result (λ r. length r.now + 1 ≡ length tokens.now) }
    ensures lighter { IfSome result (λ r. weight r.now + 2 ≤ weight tokens.now) }
    ensures none { IfNone result (opens_with (Sort.Equals) tokens.now ≡ false) }
{
    match take(tokens, Sort::Equals) {
        Ok(rest) => Some(rest),
        Err(_) => None,
    }
}

/// The pattern that the variable names, behind the equals sign.
#[cycle(expressions)]
#[inline(never)]
pub fn named<'a>(
    alloc: Global,
    mark: Mark,
    name: VarName,
    tokens: &'a [Token],
    depth: u32,
    label: u32,
) -> Result<Read<'a, Boxed<Pattern>>, PartFault>
    requires shallow { depth ≤ 400 }
    requires labels { label + 2 + weight tokens.now < 2 ^ 32 }
    ensures ok { IfOk result (λ r. ReadsNamed mark name depth label tokens.now (pattern_tree r.value) r.rest.now r.label) }
    ensures labels { IfOk result (λ r. r.label + weight r.rest.now ≤ label + 1 + weight tokens.now) }
    ensures shorter { IfOk result (λ r. length r.rest.now < length tokens.now) }
    ensures err { IfErr result (λ e. Refuses (pattern_of (depth + 1)) tokens.now e) }
{
    read!(pattern, rest, label in pattern(alloc, tokens, depth + 1, label + 1));
    node!(
        pattern_nodes::alias(alloc, mark, name, pattern),
        rest,
        label
    )
}

/// ( variable -| [ constants ] ) = pattern
#[cycle(expressions)]
#[inline(never)]
pub fn noted_alias<'a>(
    alloc: Global,
    tokens: &'a [Token],
    first: First<'a>,
    depth: u32,
    label: u32,
) -> Result<Read<'a, Boxed<Pattern>>, PartFault>
    requires shallow { depth ≤ 401 }
    requires labels { label + weight tokens.now < 2 ^ 32 }
    requires starts { Starts tokens.now first.token.now first.sort first.place first.rest.now }
    requires shorter { length first.rest.now + 1 ≡ length tokens.now }
    requires lighter { weight first.rest.now + 2 ≤ weight tokens.now }
    requires sort { first.sort ≡ Sort.OpenRound }
    ensures ok { IfOk result (λ r. ReadsBarePattern depth label tokens.now (pattern_tree r.value) r.rest.now r.label) }
    ensures labels { IfOk result (λ r. r.label + weight r.rest.now ≤ label + weight tokens.now) }
    ensures shorter { IfOk result (λ r. length r.rest.now < length tokens.now) }
    ensures shallow { IfOk result (λ r. depth ≤ 400) }
    ensures err { IfErr result (λ e. Refuses (bare_pattern_of depth) tokens.now e) }
{
    let second = found!(next(first.rest));
    if !same(second.sort, Sort::Variable) {
        return Err(PartFault::Syntax(second.place));
    }
    if depth > DEEPEST {
        return Err(PartFault::TooDeep(second.place));
    }
    let name = made!(text_of(alloc, second.token));
    let found = found!(annotation(alloc, second.rest));
    let rest = found!(take(found.rest, Sort::Equals));
    let name = VarName {
        name,
        place: second.place,
        note: found.note,
    };
    answer!(named(alloc, mark(label, first.place), name, rest, depth, label))
}

ghost use Rattle.std.specs.Prelude.{◌≡◌, ◌+◌, ◌^◌, ◌<◌, ◌≤◌, [], ◌∷◌, true, false, length, IfOk, IfErr};
ghost use Rattle.core_ast.specs.Tree.{tree, pattern_tree, patterns as patterns_of, all_clauses, all_patterns};
ghost use Rattle.core_parse_grammar.specs.Grammar.{clauses_to, clause as clause_of};
ghost use Rattle.core_parse_forms.specs.steps.Clauses.{ends_clauses, read_clause, ReadsMoreClauses, ReadsHead};
ghost use Rattle.core_parse_forms.specs.steps.Clauses.{ReadsSeveral, RefusesSeveral, ReadsEither, RefusesEither};
ghost use Rattle.core_parse_grammar.specs.Faults.{Starts, Takes, MissesOrMemory, Refuses};
ghost use Rattle.core_parse_grammar.specs.Readings.{ReadsClause};
ghost use Rattle.core_parse_grammar.specs.Weights.{weight};

use crate::expressions::expression;
use crate::macros::{Read, answer, found, made, read};
use crate::pattern_brackets::{ReadInBrackets, in_brackets, named, noted_variable};
use crate::patterns::{bare_pattern, patterns};
use core_ast::{Clause, Expr, Mark, Pattern, VarName, discard_clauses, discard_patterns};
use core_parse_grammar::annotations::{ReadAnnotatedPattern, annotated_pattern, annotation};
use core_parse_grammar::boxes::{discard, discard_pattern, pushed};
use core_parse_grammar::fault::PartFault;
use core_parse_grammar::leaves::{DEEPEST, First, mark, next, no_note, take, text_of};
use core_parse_grammar::part_nodes::with_clause;
use core_parse_grammar::pattern_nodes;
use core_scan::{Sort, Token, same};
use std::alloc::Global;
use type_kinds::{Boxed, List, Memory, Place};

/// The parts of a clause, and what follows it.
pub struct ReadClause<'a> {
    pub mark: Mark,
    pub patterns: List<Pattern>,
    pub guard: Boxed<Expr>,
    pub body: Boxed<Expr>,
    pub rest: &'a [Token],
    pub label: u32,
}

// The patterns of a clause and where they begin, whether annotation brackets stand around the clause, and
// what follows the word `when`.
struct ReadHead<'a> {
    patterns: List<Pattern>,
    place: Place,
    noted: bool,
    rest: &'a [Token],
    label: u32,
}

/// These clauses and those that come, up to and with the token that closes them.
#[cycle(expressions)]
#[inline(never)]
pub fn clauses<'a>(
    alloc: Global,
    tokens: &'a [Token],
    close: Sort,
    items: List<Clause>,
    depth: u32,
    label: u32,
) -> Result<Read<'a, List<Clause>>, PartFault>
    requires closes { ends_clauses close ≡ true }
    requires shallow { depth ≤ 401 }
    requires labels { label + 1 + weight tokens.now < 2 ^ 32 }
    ensures ok { IfOk result (λ r. ReadsMoreClauses close depth label (all_clauses items) tokens.now (all_clauses r.value) r.rest.now r.label) }
    ensures labels { IfOk result (λ r. r.label + weight r.rest.now ≤ label + weight tokens.now) }
    ensures shorter { IfOk result (λ r. length r.rest.now < length tokens.now) }
    ensures err { IfErr result (λ e. Refuses (clauses_to close depth) tokens.now e) }
{
    let first = found!(next(tokens), discard_clauses(items));
    if same(first.sort, close) {
        return Ok(Read {
            value: items,
            rest: first.rest,
            label,
        });
    }
    let ReadClause {
        mark,
        patterns,
        guard,
        body,
        rest: mut left,
        label: mut next_label,
    } = found!(clause(alloc, tokens, depth, label), discard_clauses(items));
    let mut items = made!(with_clause(items, mark, patterns, guard, body));
    loop {
        let token = found!(next(left), discard_clauses(items));
        if same(token.sort, close) {
            return Ok(Read {
                value: items,
                rest: token.rest,
                label: next_label,
            });
        }
        let ReadClause {
            mark,
            patterns,
            guard,
            body,
            rest,
            label,
        } = found!(
            clause(alloc, left, depth, next_label),
            discard_clauses(items)
        );
        items = made!(with_clause(items, mark, patterns, guard, body));
        left = rest;
        next_label = label;
    }
}

/// The parts of the clause that comes first, with or without annotation brackets.
#[cycle(expressions)]
#[inline(never)]
pub fn clause<'a>(
    alloc: Global,
    tokens: &'a [Token],
    depth: u32,
    label: u32,
) -> Result<ReadClause<'a>, PartFault>
    requires shallow { depth ≤ 401 }
    requires labels { label + 1 + weight tokens.now < 2 ^ 32 }
    ensures ok { IfOk result (λ r. ReadsClause depth label tokens.now (read_clause r.mark r.patterns r.guard r.body) r.rest.now r.label) }
    ensures labels { IfOk result (λ r. r.label + weight r.rest.now ≤ label + weight tokens.now) }
    ensures shorter { IfOk result (λ r. length r.rest.now < length tokens.now) }
    ensures err { IfErr result (λ e. Refuses (clause_of depth) tokens.now e) }
{
    let ReadHead {
        patterns,
        place,
        noted,
        rest,
        label: next_label,
    } = found!(head(alloc, tokens, depth, label + 1));
    let mark = mark(label, place);
    read!(guard, rest, label in expression(alloc, rest, depth, next_label), discard_patterns(patterns));
    let rest = found!(
        take(rest, Sort::Arrow),
        discard_patterns(patterns),
        discard(guard)
    );
    read!(body, rest, label in expression(alloc, rest, depth, label), discard_patterns(patterns), discard(guard));
    if !noted {
        return Ok(ReadClause {
            mark,
            patterns,
            guard,
            body,
            rest,
            label,
        });
    }
    match annotation(alloc, rest) {
        Ok(found) => Ok(ReadClause {
            mark: mark.with_note(found.note),
            patterns,
            guard,
            body,
            rest: found.rest,
            label,
        }),
        Err(fault) => {
            discard_patterns(patterns);
            discard(guard);
            discard(body);
            Err(fault)
        }
    }
}

// The patterns of a clause, up to and with the word `when`.
#[cycle(expressions)]
#[inline(never)]
fn head<'a>(
    alloc: Global,
    tokens: &'a [Token],
    depth: u32,
    label: u32,
) -> Result<ReadHead<'a>, PartFault>
    requires shallow { depth ≤ 401 }
    requires labels { label + weight tokens.now < 2 ^ 32 }
    ensures ok { IfOk result (λ r. ReadsHead depth label tokens.now (all_patterns r.patterns) r.place r.noted r.rest.now r.label) }
    ensures labels { IfOk result (λ r. r.label + 2 + weight r.rest.now ≤ label + weight tokens.now) }
    ensures shorter { IfOk result (λ r. length r.rest.now < length tokens.now) }
    ensures err { IfErr result (λ e. Refuses (clause_of depth) tokens.now e) }
{
    let first = found!(next(tokens));
    if same(first.sort, Sort::OpenRound) {
        return answer!(head_in_brackets(alloc, tokens, first, depth, label));
    }
    if same(first.sort, Sort::Less) {
        return answer!(several(alloc, first, false, depth, label));
    }
    match bare_pattern(alloc, tokens, depth, label) {
        Ok(found) => single(alloc, found, first.place, false),
        Err(fault) => Err(fault),
    }
}

// The same where brackets come first: those of the clause, of its pattern, or of the variable that names
// its pattern.
#[cycle(expressions)]
#[inline(never)]
fn head_in_brackets<'a>(
    alloc: Global,
    tokens: &'a [Token],
    first: First<'a>,
    depth: u32,
    label: u32,
) -> Result<ReadHead<'a>, PartFault>
    requires shallow { depth ≤ 401 }
    requires labels { label + weight tokens.now < 2 ^ 32 }
    requires starts { Starts tokens.now first.token.now first.sort first.place first.rest.now }
    requires shorter { length first.rest.now + 1 ≡ length tokens.now }
    requires lighter { weight first.rest.now + 2 ≤ weight tokens.now }
    requires sort { first.sort ≡ Sort.OpenRound }
    ensures ok { IfOk result (λ r. ReadsHead depth label tokens.now (all_patterns r.patterns) r.place r.noted r.rest.now r.label) }
    ensures labels { IfOk result (λ r. r.label + 2 + weight r.rest.now ≤ label + weight tokens.now) }
    ensures shorter { IfOk result (λ r. length r.rest.now < length tokens.now) }
    ensures err { IfErr result (λ e. Refuses (clause_of depth) tokens.now e) }
{
    let second = found!(next(first.rest));
    if same(second.sort, Sort::Less) {
        return answer!(several(alloc, second, true, depth, label));
    }
    if same(second.sort, Sort::Variable) {
        return answer!(head_with_variable(alloc, tokens, first, second, depth, label));
    }
    if !same(second.sort, Sort::OpenRound) {
        return match bare_pattern(alloc, first.rest, depth, label) {
            Ok(found) => either(alloc, found, first.place, second.place),
            Err(fault) => Err(fault),
        };
    }
    let ReadInBrackets {
        pattern,
        alone,
        rest,
        label,
    } = found!(in_brackets(alloc, first.rest, second, depth, label));
    let found = Read {
        value: pattern,
        rest,
        label,
    };
    if alone {
        return either(alloc, found, first.place, second.place);
    }
    single(alloc, found, second.place, true)
}

// The same where brackets and a variable come first.
#[cycle(expressions)]
#[inline(never)]
fn head_with_variable<'a>(
    alloc: Global,
    tokens: &'a [Token],
    first: First<'a>,
    second: First<'a>,
    depth: u32,
    label: u32,
) -> Result<ReadHead<'a>, PartFault>
    requires shallow { depth ≤ 401 }
    requires labels { label + weight tokens.now < 2 ^ 32 }
    requires starts { Starts tokens.now first.token.now first.sort first.place first.rest.now }
    requires shorter { length first.rest.now + 1 ≡ length tokens.now }
    requires lighter { weight first.rest.now + 2 ≤ weight tokens.now }
    requires sort { first.sort ≡ Sort.OpenRound }
    requires goes_on { Starts first.rest.now second.token.now second.sort second.place second.rest.now }
    requires lighter_still { weight second.rest.now + 2 ≤ weight first.rest.now }
    requires variable { second.sort ≡ Sort.Variable }
    ensures ok { IfOk result (λ r. ReadsHead depth label tokens.now (all_patterns r.patterns) r.place r.noted r.rest.now r.label) }
    ensures labels { IfOk result (λ r. r.label + 2 + weight r.rest.now ≤ label + weight tokens.now) }
    ensures shorter { IfOk result (λ r. length r.rest.now < length tokens.now) }
    ensures err { IfErr result (λ e. Refuses (clause_of depth) tokens.now e) }
{
    if depth > DEEPEST {
        return Err(PartFault::TooDeep(second.place));
    }
    let name = made!(text_of(alloc, second.token));
    let third = found!(next(second.rest));
    if same(third.sort, Sort::Noted) {
        return match noted_variable(alloc, name, first, second, depth, label) {
            Ok(
                ReadInBrackets {
                    pattern,
                    rest,
                    label,
                    alone: _,
                },
            ) => {
                let found = Read {
                    value: pattern,
                    rest,
                    label,
                };
                single(alloc, found, first.place, false)
            }
            Err(fault) => Err(fault),
        };
    }
    let mark = mark(label, second.place);
    if same(third.sort, Sort::Equals) {
        let name = VarName {
            name,
            place: second.place,
            note: no_note(),
        };
        return match named(alloc, mark, name, third.rest, depth, label) {
            Ok(found) => either(alloc, found, first.place, second.place),
            Err(fault) => Err(fault),
        };
    }
    let pattern = made!(pattern_nodes::variable(alloc, mark, name));
    let found = Read {
        value: pattern,
        rest: second.rest,
        label: label + 1,
    };
    single(alloc, found, second.place, true)
}

// < patterns > when, behind the first bracket.
#[cycle(expressions)]
#[inline(never)]
fn several<'a>(
    alloc: Global,
    first: First<'a>,
    noted: bool,
    depth: u32,
    label: u32,
) -> Result<ReadHead<'a>, PartFault>
    requires shallow { depth ≤ 401 }
    requires labels { label + weight first.rest.now < 2 ^ 32 }
    ensures ok { IfOk result (λ r. ReadsSeveral depth label first.entry.rest.now (all_patterns r.patterns) r.rest.now r.label) }
    ensures place { IfOk result (λ r. r.place ≡ first.entry.place) }
    ensures noted { IfOk result (λ r. r.noted ≡ noted) }
    ensures labels { IfOk result (λ r. r.label + 2 + weight r.rest.now ≤ label + weight first.entry.rest.now) }
    ensures shorter { IfOk result (λ r. length r.rest.now < length first.entry.rest.now) }
    ensures err { IfErr result (λ e. RefusesSeveral depth first.entry.rest.now e) }
{
    read!(items, rest, label in patterns(alloc, first.rest, Sort::Greater, depth, label));
    let rest = found!(take(rest, Sort::When), discard_patterns(items));
    Ok(ReadHead {
        patterns: items,
        place: first.place,
        noted,
        rest,
        label,
    })
}

// One pattern, behind which the annotation of its brackets comes, or the word `when` of a clause in
// brackets.
fn either<'a>(
    alloc: Global,
    found: Read<'a, Boxed<Pattern>>,
    outer: Place,
    inner: Place,
) -> Result<ReadHead<'a>, PartFault>
    ensures ok { IfOk result (λ r. ReadsEither found.entry.rest.now (pattern_tree found.entry.value) outer inner
        (all_patterns r.patterns) r.place r.noted r.rest.now) }
    ensures label { IfOk result (λ r. r.label ≡ found.entry.label) }
    ensures shorter { IfOk result (λ r. length r.rest.now < length found.entry.rest.now) }
    ensures lighter { IfOk result (λ r. weight r.rest.now + 2 ≤ weight found.entry.rest.now) }
    ensures err { IfErr result (λ e. RefusesEither found.entry.rest.now e) }
{
    let Read {
        value: pattern,
        rest,
        label,
    } = found;
    let token = found!(next(rest), discard_pattern(pattern));
    if !same(token.sort, Sort::Noted) {
        let found = Read {
            value: pattern,
            rest,
            label,
        };
        return single(alloc, found, inner, true);
    }
    match annotated_pattern(alloc, pattern, rest) {
        Ok(ReadAnnotatedPattern { pattern, rest }) => {
            let found = Read {
                value: pattern,
                rest,
                label,
            };
            single(alloc, found, outer, false)
        }
        Err(fault) => Err(fault),
    }
}

// One pattern, behind which the word `when` comes.
fn single<'a>(
    alloc: Global,
    found: Read<'a, Boxed<Pattern>>,
    place: Place,
    noted: bool,
) -> Result<ReadHead<'a>, PartFault>
    ensures ok { IfOk result (λ r. Takes (Sort.When) found.entry.rest.now r.rest.now) }
    ensures patterns { IfOk result (λ r. all_patterns r.patterns ≡ patterns_of (pattern_tree found.entry.value ∷ [])) }
    ensures place { IfOk result (λ r. r.place ≡ place) }
    ensures noted { IfOk result (λ r. r.noted ≡ noted) }
    ensures label { IfOk result (λ r. r.label ≡ found.entry.label) }
    ensures shorter { IfOk result (λ r. length r.rest.now + 1 ≡ length found.entry.rest.now) }
    ensures lighter { IfOk result (λ r. weight r.rest.now + 2 ≤ weight found.entry.rest.now) }
    ensures err { IfErr result (λ e. MissesOrMemory (Sort.When) found.entry.rest.now e) }
{
    let Read {
        value: pattern,
        rest,
        label,
    } = found;
    let rest = found!(take(rest, Sort::When), discard_pattern(pattern));
    let mut patterns = List::new(alloc);
    if !pushed(&mut patterns, pattern) {
        discard_patterns(patterns);
        return Err(PartFault::Memory);
    }
    Ok(ReadHead {
        patterns,
        place,
        noted,
        rest,
        label,
    })
}

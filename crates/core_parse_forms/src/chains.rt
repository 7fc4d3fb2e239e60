ghost use Rattle.std.specs.Prelude.{◌≡◌, ◌+◌, ◌^◌, ◌<◌, ◌≤◌, true, false, length, reverse, IfOk, IfErr, IfSome, IfNone};
ghost use Rattle.core_ast.specs.Tree.{tree, step_tree};
ghost use Rattle.core_parse_grammar.specs.Grammar.{other_expression};
ghost use Rattle.core_parse_forms.specs.steps.Chains.{ReadsStep, RefusesStep, ReadsSteps, ReadsChain as ReadsSuchChain, BeginsStep};
ghost use Rattle.core_parse_grammar.specs.Faults.{Starts, Refuses};
ghost use Rattle.core_parse_grammar.specs.Readings.{chain_sort, opens_chain, ReadsOtherExpression};
ghost use Rattle.core_parse_grammar.specs.Weights.{weight};

use crate::expressions::expression;
use crate::macros::{Read, found, node, read};
use core_ast::{Expr, Step, discard_steps};
use core_parse_grammar::annotations::annotation;
use core_parse_grammar::boxes::{added, discard, discard_step, noted_step, pushed};
use core_parse_grammar::fault::PartFault;
use core_parse_grammar::leaves::{First, mark, next, take};
use core_parse_grammar::nodes;
use core_parse_grammar::part_nodes::{do_step, let_step};
use core_parse_grammar::variables::variables;
use core_scan::{Sort, Token, same};
use std::alloc::Global;
use type_kinds::{Boxed, List, Memory};

/// A step of a chain under way, and whether annotation brackets stand around it and what follows it.
#[derive(Drop)]
pub struct Frame {
    pub step: Boxed<Step>,
    pub noted: bool,
}

/// The steps of a chain, the first of them first, and its last expression, and what follows it.
pub struct ReadChain<'a> {
    pub frames: List<Frame>,
    pub last: Boxed<Expr>,
    pub rest: &'a [Token],
    pub label: u32,
}

// The word that a step begins with, and whether an annotation bracket stands before it.
#[derive(Clone, Copy)]
struct StepWord<'a> {
    word: First<'a>,
    noted: bool,
}

fn discard_frames(_frames: List<Frame>) {}

// Whether a step begins with a token of this sort.
fn is_step(sort: Sort) -> bool
    ensures { result ≡ chain_sort sort }
{
    match sort {
        Sort::Let => true,
        Sort::Do => true,
        _ => false,
    }
}

// The word of the step that comes first, if one does.
fn next_step<'a>(tokens: &'a [Token]) -> Option<StepWord<'a>>
    ensures found { IfSome result (λ r. BeginsStep tokens.now r.word.token.now r.word.sort r.word.place r.word.rest.now r.noted) }
    ensures shorter { IfSome result (λ r. length r.word.rest.now < length tokens.now) }
    ensures lighter { IfSome result (λ r. weight r.word.rest.now + 2 ≤ weight tokens.now) }
    ensures none { IfNone result (opens_chain tokens.now ≡ false) }
{
    let Ok(first) = next(tokens) else {
        return None;
    };
    if is_step(first.sort) {
        return Some(StepWord {
            word: first,
            noted: false,
        });
    }
    if !same(first.sort, Sort::OpenRound) {
        return None;
    }
    let Ok(second) = next(first.rest) else {
        return None;
    };
    if !is_step(second.sort) {
        return None;
    }
    Some(StepWord {
        word: second,
        noted: true,
    })
}

/// Steps, each a `let` or a `do`, and the expression that follows them, up to the annotations of the steps
/// in brackets.
#[cycle(expressions)]
#[inline(never)]
pub fn chain<'a>(
    alloc: Global,
    tokens: &'a [Token],
    first: First<'a>,
    depth: u32,
    label: u32,
) -> Result<ReadChain<'a>, PartFault>
    requires shallow { depth ≤ 400 }
    requires labels { label + weight tokens.now < 2 ^ 32 }
    requires starts { Starts tokens.now first.token.now first.sort first.place first.rest.now }
    requires shorter { length first.rest.now + 1 ≡ length tokens.now }
    requires lighter { weight first.rest.now + 2 ≤ weight tokens.now }
    requires sort { chain_sort first.sort ≡ true }
    ensures ok { IfOk result (λ r. ReadsSuchChain depth label first.entry.place tokens.now r.frames (tree r.last) r.rest.now r.label) }
    ensures labels { IfOk result (λ r. r.label + weight r.rest.now ≤ label + weight tokens.now) }
    ensures shorter { IfOk result (λ r. length r.rest.now < length tokens.now) }
    ensures err { IfErr result (λ e. Refuses (other_expression depth) tokens.now e) }
{
    read!(frames, rest, next_label in steps(alloc, tokens, first, depth, label));
    match expression(alloc, rest, depth, next_label) {
        Ok(
            Read {
                value: expr,
                rest,
                label,
            },
        ) => Ok(ReadChain {
            frames,
            last: expr,
            rest,
            label,
        }),
        Err(fault) => {
            discard_frames(frames);
            Err(fault)
        }
    }
}

/// The chain with these steps and this last expression, behind it: the annotations of the steps in
/// brackets, those of the last step first.
pub fn closed<'a>(
    alloc: Global,
    tokens: &'a [Token],
    first: First<'a>,
    depth: u32,
    label: u32,
    chain: Result<ReadChain<'a>, PartFault>,
) -> Result<Read<'a, Boxed<Expr>>, PartFault>
    requires shallow { depth ≤ 400 }
    requires starts { Starts tokens.now first.token.now first.sort first.place first.rest.now }
    requires sort { chain_sort first.sort ≡ true }
    requires reads { IfOk chain (λ r. ReadsSuchChain depth label first.place tokens.now r.frames (tree r.last) r.rest.now r.label) }
    requires labels { IfOk chain (λ r. r.label + weight r.rest.now ≤ label + weight tokens.now) }
    requires shorter { IfOk chain (λ r. length r.rest.now < length tokens.now) }
    requires refuses { IfErr chain (λ e. Refuses (other_expression depth) tokens.now e) }
    ensures ok { IfOk result (λ r. ReadsOtherExpression depth label tokens.now (tree r.value) r.rest.now r.label) }
    ensures labels { IfOk result (λ r. r.label + weight r.rest.now ≤ label + weight tokens.now) }
    ensures shorter { IfOk result (λ r. length r.rest.now < length tokens.now) }
    ensures err { IfErr result (λ e. Refuses (other_expression depth) tokens.now e) }
{
    let ReadChain {
        mut frames,
        last,
        rest,
        label: next_label,
    } = found!(chain);
    let mut left = rest;
    let mut done: List<Step> = List::new(alloc);
    while let Some(frame) = frames.pop() {
        let Frame { step, noted } = frame;
        if noted {
            match annotation(alloc, left) {
                Ok(found) => {
                    if !added(&mut done, noted_step(step, found.note)) {
                        discard_frames(frames);
                        discard_steps(done);
                        discard(last);
                        return Err(PartFault::Memory);
                    }
                    left = found.rest;
                }
                Err(fault) => {
                    discard_step(step);
                    discard_frames(frames);
                    discard_steps(done);
                    discard(last);
                    return Err(fault);
                }
            }
        } else if !pushed(&mut done, step) {
            discard_frames(frames);
            discard_steps(done);
            discard(last);
            return Err(PartFault::Memory);
        }
    }
    let steps = reversed(done);
    node!(
        nodes::chain(alloc, mark(label, first.place), steps, last),
        left,
        next_label
    )
}

// Steps, the last first.
fn reversed(done: List<Step>) -> List<Step>
    ensures { result ≡ reverse done }
{
    let mut items = done.into_vec();
    items.reverse();
    List::from_vec(items)
}

// The steps of a chain, up to the expression that follows them.
#[cycle(expressions)]
#[inline(never)]
fn steps<'a>(
    alloc: Global,
    tokens: &'a [Token],
    first: First<'a>,
    depth: u32,
    label: u32,
) -> Result<Read<'a, List<Frame>>, PartFault>
    requires shallow { depth ≤ 400 }
    requires labels { label + weight tokens.now < 2 ^ 32 }
    requires starts { Starts tokens.now first.token.now first.sort first.place first.rest.now }
    requires shorter { length first.rest.now + 1 ≡ length tokens.now }
    requires lighter { weight first.rest.now + 2 ≤ weight tokens.now }
    requires sort { chain_sort first.sort ≡ true }
    ensures ok { IfOk result (λ r. ReadsSteps depth label first.entry.place tokens.now r.value r.rest.now r.label) }
    ensures labels { IfOk result (λ r. r.label + weight r.rest.now ≤ label + weight tokens.now) }
    ensures shorter { IfOk result (λ r. length r.rest.now < length tokens.now) }
    ensures last { IfOk result (λ r. opens_chain r.rest.now ≡ false) }
    ensures err { IfErr result (λ e. Refuses (other_expression depth) tokens.now e) }
{
    let mut frames = List::new(alloc);
    read!(begun, mut left, mut next_label in step(alloc, first, depth, label + 1), discard_frames(frames));
    let frame = Frame {
        step: begun,
        noted: false,
    };
    if !added(&mut frames, frame) {
        discard_frames(frames);
        return Err(PartFault::Memory);
    }
    while let Some(StepWord { word, noted }) = next_step(left) {
        read!(step, rest, label in step(alloc, word, depth, next_label), discard_frames(frames));
        let frame = Frame { step, noted };
        if !added(&mut frames, frame) {
            discard_frames(frames);
            return Err(PartFault::Memory);
        }
        left = rest;
        next_label = label;
    }
    Ok(Read {
        value: frames,
        rest: left,
        label: next_label,
    })
}

// The step that begins with this word, behind the word: variables = expression in, or an expression.
#[cycle(expressions)]
#[inline(never)]
fn step<'a>(
    alloc: Global,
    word: First<'a>,
    depth: u32,
    label: u32,
) -> Result<Read<'a, Boxed<Step>>, PartFault>
    requires shallow { depth ≤ 400 }
    requires labels { label + 1 + weight word.rest.now < 2 ^ 32 }
    requires sort { chain_sort word.sort ≡ true }
    ensures ok { IfOk result (λ r. ReadsStep word.entry.sort depth label word.entry.place word.entry.rest.now (step_tree r.value) r.rest.now r.label) }
    ensures labels { IfOk result (λ r. r.label + weight r.rest.now ≤ label + 1 + weight word.entry.rest.now) }
    ensures shorter { IfOk result (λ r. length r.rest.now < length word.entry.rest.now) }
    ensures err { IfErr result (λ e. RefusesStep word.entry.sort depth word.entry.rest.now e) }
{
    let mark = mark(label, word.place);
    if same(word.sort, Sort::Do) {
        return match expression(alloc, word.rest, depth + 1, label + 1) {
            Ok(
                Read {
                    value: expr,
                    rest,
                    label,
                },
            ) => node!(do_step(alloc, mark, expr), rest, label),
            Err(fault) => Err(fault),
        };
    }
    let vars = found!(variables(alloc, word.rest));
    let rest = found!(take(vars.rest, Sort::Equals));
    read!(value, rest, label in expression(alloc, rest, depth + 1, label + 1));
    let rest = found!(take(rest, Sort::In), discard(value));
    node!(let_step(alloc, mark, vars.variables, value), rest, label)
}

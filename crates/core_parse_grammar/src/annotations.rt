ghost use Rattle.std.specs.Prelude.{◌≡◌, ◌<◌, ◌≤◌, length, IfOk, IfErr};
ghost use Rattle.core_ast.specs.Notes.{note_tree, noted_pattern as noted_pattern_tree};
ghost use Rattle.core_ast.specs.Tree.{tree, pattern_tree};
ghost use Rattle.core_ast.specs.declared.syntax.Note.{Note};
ghost use Rattle.core_parse_grammar.specs.Grammar.{annotation as annotation_part};
ghost use Rattle.core_parse_grammar.specs.Faults.{Refuses};
ghost use Rattle.core_parse_grammar.specs.Readings.{ReadsAnnotation};
ghost use Rattle.core_parse_grammar.specs.Weights.{weight};

use crate::boxes::{discard, discard_pattern, noted, noted_pattern};
use crate::constants::constants;
use crate::fault::PartFault;
use crate::leaves::take;
use crate::notes::note_of;
use core_ast::{Expr, Note, Pattern};
use core_scan::{Sort, Token};
use std::alloc::Global;
use type_kinds::{Boxed, Memory};

/// What an annotation says, and what follows its closing bracket.
#[derive(Clone, Copy)]
pub struct ReadAnnotation<'a> {
    pub note: Note,
    pub rest: &'a [Token],
}

/// An expression with the note of its annotation, and what follows the closing bracket.
pub struct ReadAnnotated<'a> {
    pub expr: Boxed<Expr>,
    pub rest: &'a [Token],
}

/// A pattern with the note of its annotation, and what follows the closing bracket.
pub struct ReadAnnotatedPattern<'a> {
    pub pattern: Boxed<Pattern>,
    pub rest: &'a [Token],
}

/// The rest of a part in annotation brackets, behind the part: `-|`, the constants and the closing
/// bracket.
pub fn annotation<'a>(alloc: Global, tokens: &'a [Token]) -> Result<ReadAnnotation<'a>, PartFault>
    ensures ok { IfOk result (λ r. ReadsAnnotation tokens.now r.note r.rest.now) }
    ensures shorter { IfOk result (λ r. length r.rest.now < length tokens.now) }
    ensures lighter { IfOk result (λ r. weight r.rest.now ≤ weight tokens.now) }
    ensures err { IfErr result (λ e. Refuses annotation_part tokens.now e) }
{
    let rest = match take(tokens, Sort::Noted) {
        Ok(rest) => rest,
        Err(fault) => return Err(fault),
    };
    let rest = match take(rest, Sort::OpenSquare) {
        Ok(rest) => rest,
        Err(fault) => return Err(fault),
    };
    let read = match constants(alloc, rest, Sort::CloseSquare, 1) {
        Ok(read) => read,
        Err(fault) => return Err(fault),
    };
    match take(read.rest, Sort::CloseRound) {
        Ok(rest) => Ok(ReadAnnotation {
            note: note_of(read.constants.as_slice()),
            rest,
        }),
        Err(fault) => Err(fault),
    }
}

/// The rest of an expression in annotation brackets, behind the expression, which gets the note. On an
/// error the expression is dropped.
#[inline(never)]
pub fn annotated<'a>(
    alloc: Global,
    expr: Boxed<Expr>,
    tokens: &'a [Token],
) -> Result<ReadAnnotated<'a>, PartFault>
    ensures ok { IfOk result (λ r. (note : Note) × ReadsAnnotation tokens.now note r.rest.now × (tree r.expr ≡ note_tree note (tree expr))) }
    ensures shorter { IfOk result (λ r. length r.rest.now < length tokens.now) }
    ensures lighter { IfOk result (λ r. weight r.rest.now ≤ weight tokens.now) }
    ensures err { IfErr result (λ e. Refuses annotation_part tokens.now e) }
{
    let ReadAnnotation { note, rest } = match annotation(alloc, tokens) {
        Ok(found) => found,
        Err(fault) => {
            discard(expr);
            return Err(fault);
        }
    };
    match noted(alloc, expr, note) {
        Ok(expr) => Ok(ReadAnnotated { expr, rest }),
        Err(Memory) => Err(PartFault::Memory),
    }
}

/// The rest of a pattern in annotation brackets, behind the pattern, which gets the note. On an error the
/// pattern is dropped.
#[inline(never)]
pub fn annotated_pattern<'a>(
    alloc: Global,
    pattern: Boxed<Pattern>,
    tokens: &'a [Token],
) -> Result<ReadAnnotatedPattern<'a>, PartFault>
    ensures ok { IfOk result (λ r. (note : Note) × ReadsAnnotation tokens.now note r.rest.now
        × (pattern_tree r.pattern ≡ noted_pattern_tree note (pattern_tree pattern))) }
    ensures shorter { IfOk result (λ r. length r.rest.now < length tokens.now) }
    ensures lighter { IfOk result (λ r. weight r.rest.now ≤ weight tokens.now) }
    ensures err { IfErr result (λ e. Refuses annotation_part tokens.now e) }
{
    match annotation(alloc, tokens) {
        Ok(found) => match noted_pattern(alloc, pattern, found.note) {
            Ok(pattern) => Ok(ReadAnnotatedPattern {
                pattern,
                rest: found.rest,
            }),
            Err(Memory) => Err(PartFault::Memory),
        },
        Err(fault) => {
            discard_pattern(pattern);
            Err(fault)
        }
    }
}

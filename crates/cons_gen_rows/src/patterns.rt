//! The walk through patterns, which binds their variables. The keys of maps and the arguments of segments add
//! nothing.
ghost use Rattle.std.specs.Prelude.{◌≡◌, ◌+◌, [], ◌∷◌, ◌++◌, ℕ, None, Some, drop, length, IfOk, MatchOption, OnOk};
ghost use Rattle.core_ast.specs.Tree.{all_pat_pairs, all_pat_segments, all_patterns, all_trees, pattern_tree};
ghost use Rattle.core_scope.specs.Segments.{is_integer_segment, kind_named, segment_kind, third};
ghost use Rattle.cons_gen_rows.specs.Patterns.{outer_bindings, outer_rows, outer_span, pat_pair_spans, pat_pairs_bindings, pat_pairs_rows};
ghost use Rattle.cons_gen_rows.specs.Patterns.{pat_segment_spans, pat_segments_bindings, pat_segments_rows, pattern_bindings, pattern_rows};
ghost use Rattle.cons_gen_rows.specs.Patterns.{pattern_slots, pattern_span, pattern_spans, patterns_bindings, patterns_rows, segment_rows};
ghost use Rattle.cons_gen_rows.specs.Scopes.{binding};
ghost use Rattle.cons_gen_rows.specs.Walking.{Adds, Binds};
ghost use Rattle.cons_gen_rows.specs.Words.{bound, equal, inner_cells, list_rows, literal_type};
ghost use Rattle.cons_gen_rows.specs.steps.Matching.{Matches, typed};

use crate::generator::Generator;
use crate::types::{all_floats, all_integers, literal_type};
use crate::words::{Elements, inner_cells};
use cons_tree::{Part, Slot};
use core_ast::{Expr, Literal, PatForm, PatPair, PatSegment, Pattern};
use core_scope::is_text;
use type_kinds::{Atom, List, Memory};
use type_lattice::{Kind, Ty};

// The third of a segment's arguments, where it is a literal atom.
fn third(args: &[Expr]) -> Option<&Atom>
    ensures { MatchOption result (third (all_trees args.now) ≡ None) (λ name. third (all_trees args.now) ≡ Some name.now) }
{
    if args.len() <= 2 {
        return None;
    }
    args[2].atom()
}

// Whether a segment of this type has an integer.
fn is_integer_segment(name: &Atom) -> bool
    ensures { result ≡ is_integer_segment name.now }
{
    is_text(name, b"integer")
        || is_text(name, b"utf8")
        || is_text(name, b"utf16")
        || is_text(name, b"utf32")
}

// What the value of a segment of this type is, or `None` where it may be any.
fn type_named(name: &Atom) -> Option<Ty>
    ensures { (s : ℕ) → segment_rows s (kind_named (Some name.now)) ≡ typed result s }
{
    if is_integer_segment(name) {
        return Some(all_integers());
    }
    if is_text(name, b"float") {
        return Some(all_floats());
    }
    if is_text(name, b"binary") {
        return Some(Ty::kind(Kind::Bitstring));
    }
    None
}

// What the value of a segment with these arguments is, or `None` where it may be any.
fn segment_type(args: &[Expr]) -> Option<Ty>
    ensures { (s : ℕ) → segment_rows s (segment_kind (all_trees args.now)) ≡ typed result s }
{
    match third(args) {
        Some(name) => type_named(name),
        None => None,
    }
}

impl Generator {
    // Adds a variable of a pattern, which is matched with the value of a slot.
    fn pattern_variable(&mut self, matched: Slot, name: &Atom) -> Result<(), Memory>
        ensures { OnOk result (Binds self.old self.new 1 (equal matched self.old.next) (binding name.now self.old.next)) }
    {
        let own = self.take(1)?;
        self.equal(matched, own)?;
        self.bind(name, own)
    }

    // Adds that a slot has the value of a literal.
    fn literal_value(&mut self, slot: Slot, literal: &Literal) -> Result<(), Memory>
        ensures { OnOk result (Adds self.old self.new 0 (bound slot (literal_type literal.now))) }
    {
        let ty = literal_type(self.alloc, literal)?;
        self.bound(slot, ty)
    }

    // Adds what the value of a segment is by the segment's arguments.
    fn segment_value(&mut self, slot: Slot, args: &[Expr]) -> Result<(), Memory>
        ensures { OnOk result (Adds self.old self.new 0 (segment_rows slot (segment_kind (all_trees args.now)))) }
    {
        match segment_type(args) {
            Some(ty) => self.bound(slot, ty),
            None => Ok(()),
        }
    }
}

// A pattern that is matched with the value of a slot.
#[cycle(patterns)]
fn walk_pattern(made: &mut Generator, matched: Slot, pattern: &Pattern) -> Result<(), Memory>
    ensures { OnOk result (Matches made.old made.new matched (pattern_tree pattern.now)) }
{
    match &pattern.form {
        PatForm::Var(name) => made.pattern_variable(matched, name),
        PatForm::Lit(literal) => made.literal_value(matched, literal),
        PatForm::Listed(items, tail) => {
            let elements = walk_elements(made, items.as_slice())?;
            walk_tail(made, matched, &elements, tail.get())
        }
        PatForm::Tuple(items) => {
            let slots = walk_each(made, items.as_slice())?;
            made.add(Part::Tuple(matched, slots))
        }
        PatForm::Map(pairs) => {
            made.bound(matched, Ty::kind(Kind::Map))?;
            walk_pairs(made, pairs.as_slice())
        }
        PatForm::Binary(segments) => {
            made.bound(matched, Ty::kind(Kind::Bitstring))?;
            walk_segments(made, segments.as_slice())
        }
        PatForm::Alias(var, inside) => {
            made.pattern_variable(matched, &var.name)?;
            walk_pattern(made, matched, inside.get())
        }
    }
}

// A pattern at a slot of its own.
#[cycle(patterns)]
fn walk_own(made: &mut Generator, pattern: &Pattern) -> Result<Slot, Memory>
    ensures slot { IfOk result (λ slot. slot ≡ made.old.next) }
    ensures pattern { OnOk result (Binds made.old made.new (1 + pattern_span (pattern_tree pattern.now))
        (pattern_rows made.old.next (made.old.next + 1) (pattern_tree pattern.now)) (pattern_bindings (made.old.next + 1) (pattern_tree pattern.now))) }
{
    let slot = made.take(1)?;
    walk_pattern(made, slot, pattern)?;
    Ok(slot)
}

// Patterns, each at a slot of its own.
#[cycle(patterns)]
fn walk_each(made: &mut Generator, patterns: &[Pattern]) -> Result<List<Slot>, Memory>
    ensures slots { IfOk result (λ slots. slots ≡ pattern_slots made.old.next (all_patterns patterns.now)) }
    ensures patterns { OnOk result (Binds made.old made.new (pattern_spans (all_patterns patterns.now))
        (patterns_rows made.old.next (all_patterns patterns.now)) (patterns_bindings made.old.next (all_patterns patterns.now))) }
{
    let mut slots = List::new(made.alloc);
    for pattern in patterns {
        let slot = walk_own(made, pattern)?;
        slots.add(slot)?;
    }
    Ok(slots)
}

// The elements of a list, behind its inner cells.
#[cycle(patterns)]
fn walk_elements(made: &mut Generator, patterns: &[Pattern]) -> Result<Elements, Memory>
    ensures cells { IfOk result (λ elements. elements.cells ≡ made.old.next) }
    ensures slots { IfOk result (λ elements. elements.slots
        ≡ pattern_slots (made.old.next + inner_cells (length patterns.now)) (all_patterns patterns.now)) }
    ensures patterns { OnOk result (Binds made.old made.new (inner_cells (length patterns.now) + pattern_spans (all_patterns patterns.now))
        (patterns_rows (made.old.next + inner_cells (length patterns.now)) (all_patterns patterns.now))
        (patterns_bindings (made.old.next + inner_cells (length patterns.now)) (all_patterns patterns.now))) }
{
    let cells = made.take(inner_cells(patterns.len()))?;
    let slots = walk_each(made, patterns)?;
    Ok(made.elements(cells, slots))
}

// The tail of a list with these elements, and the list.
#[cycle(patterns)]
fn walk_tail(
    made: &mut Generator,
    matched: Slot,
    elements: &Elements,
    tail: &Pattern,
) -> Result<(), Memory>
    ensures { OnOk result (Binds made.old made.new (1 + pattern_span (pattern_tree tail.now))
        (pattern_rows made.old.next (made.old.next + 1) (pattern_tree tail.now) ++ list_rows matched elements.now.cells elements.now.slots made.old.next)
        (pattern_bindings (made.old.next + 1) (pattern_tree tail.now))) }
{
    let rest = walk_own(made, tail)?;
    made.list(matched, elements, rest)
}

// The pairs of a map.
#[cycle(patterns)]
fn walk_pairs(made: &mut Generator, pairs: &[PatPair]) -> Result<(), Memory>
    ensures { OnOk result (Binds made.old made.new (pat_pair_spans (all_pat_pairs pairs.now)) (pat_pairs_rows made.old.next (all_pat_pairs pairs.now))
        (pat_pairs_bindings made.old.next (all_pat_pairs pairs.now))) }
{
    for pair in pairs {
        walk_own(made, &pair.value)?;
    }
    Ok(())
}

// The segments of a binary.
#[cycle(patterns)]
fn walk_segments(made: &mut Generator, segments: &[PatSegment]) -> Result<(), Memory>
    ensures { OnOk result (Binds made.old made.new (pat_segment_spans (all_pat_segments segments.now))
        (pat_segments_rows made.old.next (all_pat_segments segments.now)) (pat_segments_bindings made.old.next (all_pat_segments segments.now))) }
{
    for segment in segments {
        walk_segment(made, segment)?;
    }
    Ok(())
}

// One segment.
#[cycle(patterns)]
fn walk_segment(made: &mut Generator, segment: &PatSegment) -> Result<(), Memory>
    ensures { OnOk result (Binds made.old made.new (pat_segment_spans (all_pat_segments (segment.now ∷ [])))
        (pat_segments_rows made.old.next (all_pat_segments (segment.now ∷ [])))
        (pat_segments_bindings made.old.next (all_pat_segments (segment.now ∷ [])))) }
{
    let slot = made.take(1)?;
    made.segment_value(slot, segment.args.as_slice())?;
    walk_pattern(made, slot, &segment.value)
}

// A pattern for which there is no slot, as in no accepted module: only its slots and variables are added.
fn skip_pattern(made: &mut Generator, pattern: &Pattern) -> Result<(), Memory>
    ensures { OnOk result (Binds made.old made.new (pattern_span (pattern_tree pattern.now)) [] (pattern_bindings made.old.next (pattern_tree pattern.now))) }
{
    let count = made.count();
    walk_pattern(made, 0, pattern)?;
    made.members.truncate(count);
    Ok(())
}

// The outermost pattern at a position of a clause.
fn walk_outermost(
    made: &mut Generator,
    slots: &[Slot],
    position: usize,
    pattern: &Pattern,
) -> Result<(), Memory>
    ensures { OnOk result (Binds made.old made.new (outer_span (all_patterns (pattern.now ∷ [])))
        (outer_rows (drop position slots.now) made.old.next (all_patterns (pattern.now ∷ [])))
        (outer_bindings made.old.next (all_patterns (pattern.now ∷ [])))) }
{
    if position < slots.len() {
        return walk_pattern(made, slots[position], pattern);
    }
    skip_pattern(made, pattern)
}

/// The outermost patterns of a clause, at the slots of its arguments.
pub fn walk_outer(made: &mut Generator, slots: &[Slot], patterns: &[Pattern]) -> Result<(), Memory>
    ensures { OnOk result (Binds made.old made.new (outer_span (all_patterns patterns.now)) (outer_rows slots.now made.old.next (all_patterns patterns.now))
        (outer_bindings made.old.next (all_patterns patterns.now))) }
{
    for (position, pattern) in patterns.iter().enumerate() {
        walk_outermost(made, slots, position, pattern)?;
    }
    Ok(())
}

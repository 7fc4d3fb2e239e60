// Whether two trees are the same: with their places where `places` says so, and else apart from them.
ghost use Rattle.std.specs.Prelude.{◌≡◌, ◌↔◌, IsTrue, map};
ghost use Rattle.core_ast.specs.Tree.{tree, pattern_tree, all_trees, all_pairs, all_segments, all_steps, all_clauses, all_defs, all_patterns, all_pat_pairs};
ghost use Rattle.core_ast.specs.Tree.{all_pat_segments, clause_parts, pair_parts, segment_parts, pat_pair_parts, pat_segment_parts, step_tree, def_tree};
ghost use Rattle.core_ast.specs.Compared.{compared_mark, compared_variable, compared, compared_all, compared_pairs, compared_segments, compared_steps};
ghost use Rattle.core_ast.specs.Compared.{compared_clauses, compared_defs, compared_pattern, compared_patterns, compared_pat_pairs, compared_pat_segments};
ghost use Rattle.core_ast.specs.steps.Comparing.{compared_pair, compared_segment, compared_step, compared_clause, compared_def};
ghost use Rattle.core_ast.specs.steps.Comparing.{compared_pat_pair, compared_pat_segment, SameTry, SameUpdated, IsComposed, IsControl};

use crate::comparing::{same_literal, same_mark, same_name, same_variable, same_variables};
use crate::syntax::{
    Clause, Expr, Form, FunDef, MapPair, PatForm, PatPair, PatSegment, Pattern, Segment, Step,
    TryParts,
};
use type_kinds::Boxed;

// Whether two expressions are the same.
#[cycle(same)]
fn same_expr(places: bool, a: &Expr, b: &Expr) -> bool
    ensures { IsTrue result ↔ (compared places (tree a.now) ≡ compared places (tree b.now)) }
{
    if !same_mark(places, &a.mark, &b.mark) {
        return false;
    }
    same_form(places, a, b)
}

// Whether two expressions are the same whose marks are.
#[cycle(same)]
fn same_form(places: bool, a: &Expr, b: &Expr) -> bool
    requires { compared_mark places a.now.mark ≡ compared_mark places b.now.mark }
    ensures { IsTrue result ↔ (compared places (tree a.now) ≡ compared places (tree b.now)) }
{
    match &a.form {
        Form::Var(x) => match &b.form {
            Form::Var(y) => x.is(y),
            _ => false,
        },
        Form::Local(x) => match &b.form {
            Form::Local(y) => same_name(x, y),
            _ => false,
        },
        Form::External(m, x) => match &b.form {
            Form::External(n, y) => m.is(n) && same_name(x, y),
            _ => false,
        },
        Form::Lit(x) => match &b.form {
            Form::Lit(y) => same_literal(x, y),
            _ => false,
        },
        Form::Tuple(xs) => match &b.form {
            Form::Tuple(ys) => same_all(places, xs.as_slice(), ys.as_slice()),
            _ => false,
        },
        Form::Values(xs) => match &b.form {
            Form::Values(ys) => same_all(places, xs.as_slice(), ys.as_slice()),
            _ => false,
        },
        Form::Binary(xs) => match &b.form {
            Form::Binary(ys) => same_segments(places, xs.as_slice(), ys.as_slice()),
            _ => false,
        },
        _ => same_composed(places, a, b),
    }
}

// The same, of a fun, a list, a map, a call or another form of more than one part.
#[cycle(same)]
fn same_composed(places: bool, a: &Expr, b: &Expr) -> bool
    requires marks { compared_mark places a.now.mark ≡ compared_mark places b.now.mark }
    requires composed { IsComposed (tree a.now) }
    ensures { IsTrue result ↔ (compared places (tree a.now) ≡ compared places (tree b.now)) }
{
    match &a.form {
        Form::Fun(x) => match &b.form {
            Form::Fun(y) => {
                same_variables(places, x.params.as_slice(), y.params.as_slice())
                    && same_expr(places, x.body.get(), y.body.get())
            }
            _ => false,
        },
        Form::Listed(xs, x) => match &b.form {
            Form::Listed(ys, y) => {
                same_all(places, xs.as_slice(), ys.as_slice())
                    && same_expr(places, x.get(), y.get())
            }
            _ => false,
        },
        Form::Map(xs, x) => match &b.form {
            Form::Map(ys, y) => {
                same_pairs(places, xs.as_slice(), ys.as_slice()) && same_updated(places, x, y)
            }
            _ => false,
        },
        Form::Apply(x, xs) => match &b.form {
            Form::Apply(y, ys) => {
                same_expr(places, x.get(), y.get())
                    && same_all(places, xs.as_slice(), ys.as_slice())
            }
            _ => false,
        },
        Form::Primop(x, xs) => match &b.form {
            Form::Primop(y, ys) => x.is(y) && same_all(places, xs.as_slice(), ys.as_slice()),
            _ => false,
        },
        Form::Catch(x) => match &b.form {
            Form::Catch(y) => same_expr(places, x.get(), y.get()),
            _ => false,
        },
        _ => same_control(places, a, b),
    }
}

// The same, of the remaining forms.
#[cycle(same)]
fn same_control(places: bool, a: &Expr, b: &Expr) -> bool
    requires marks { compared_mark places a.now.mark ≡ compared_mark places b.now.mark }
    requires control { IsControl (tree a.now) }
    ensures { IsTrue result ↔ (compared places (tree a.now) ≡ compared places (tree b.now)) }
{
    match &a.form {
        Form::Chain(xs, x) => match &b.form {
            Form::Chain(ys, y) => {
                same_steps(places, xs.as_slice(), ys.as_slice())
                    && same_expr(places, x.get(), y.get())
            }
            _ => false,
        },
        Form::Case(x, xs) => match &b.form {
            Form::Case(y, ys) => {
                same_expr(places, x.get(), y.get())
                    && same_clauses(places, xs.as_slice(), ys.as_slice())
            }
            _ => false,
        },
        Form::Letrec(xs, x) => match &b.form {
            Form::Letrec(ys, y) => {
                same_defs(places, xs.as_slice(), ys.as_slice())
                    && same_expr(places, x.get(), y.get())
            }
            _ => false,
        },
        Form::Call(m, x, xs) => match &b.form {
            Form::Call(n, y, ys) => {
                if !same_expr(places, m.get(), n.get()) {
                    return false;
                }
                same_expr(places, x.get(), y.get())
                    && same_all(places, xs.as_slice(), ys.as_slice())
            }
            _ => false,
        },
        Form::Try(x) => match &b.form {
            Form::Try(y) => same_try(places, x, y),
            _ => false,
        },
        Form::Receive(xs, t, x) => match &b.form {
            Form::Receive(ys, u, y) => {
                if !same_clauses(places, xs.as_slice(), ys.as_slice()) {
                    return false;
                }
                same_expr(places, t.get(), u.get()) && same_expr(places, x.get(), y.get())
            }
            _ => false,
        },
        _ => false,
    }
}

// Whether the parts of two `try`s are the same.
#[cycle(same)]
fn same_try(places: bool, a: &TryParts, b: &TryParts) -> bool
    ensures { IsTrue result ↔ SameTry places a.now b.now }
{
    if !same_expr(places, a.arg.get(), b.arg.get()) {
        return false;
    }
    if !same_expr(places, a.body.get(), b.body.get()) {
        return false;
    }
    if !same_expr(places, a.handler.get(), b.handler.get()) {
        return false;
    }
    same_variables(places, a.vars.as_slice(), b.vars.as_slice())
        && same_variables(places, a.catch_vars.as_slice(), b.catch_vars.as_slice())
}

// Whether the maps that two maps update are the same.
#[cycle(same)]
fn same_updated(places: bool, a: &Option<Boxed<Expr>>, b: &Option<Boxed<Expr>>) -> bool
    ensures { IsTrue result ↔ SameUpdated places a.now b.now }
{
    match (a, b) {
        (Some(x), Some(y)) => same_expr(places, x.get(), y.get()),
        (None, None) => true,
        _ => false,
    }
}

// Whether two patterns are the same.
#[cycle(same)]
fn same_pattern(places: bool, a: &Pattern, b: &Pattern) -> bool
    ensures { IsTrue result ↔ (compared_pattern places (pattern_tree a.now) ≡ compared_pattern places (pattern_tree b.now)) }
{
    if !same_mark(places, &a.mark, &b.mark) {
        return false;
    }
    same_pattern_form(places, a, b)
}

// Whether two patterns are the same whose marks are.
#[cycle(same)]
fn same_pattern_form(places: bool, a: &Pattern, b: &Pattern) -> bool
    requires { compared_mark places a.now.mark ≡ compared_mark places b.now.mark }
    ensures { IsTrue result ↔ (compared_pattern places (pattern_tree a.now) ≡ compared_pattern places (pattern_tree b.now)) }
{
    match (&a.form, &b.form) {
        (PatForm::Var(x), PatForm::Var(y)) => x.is(y),
        (PatForm::Lit(x), PatForm::Lit(y)) => same_literal(x, y),
        (PatForm::Listed(xs, x), PatForm::Listed(ys, y)) => {
            same_patterns(places, xs.as_slice(), ys.as_slice())
                && same_pattern(places, x.get(), y.get())
        }
        (PatForm::Tuple(xs), PatForm::Tuple(ys)) => same_patterns(
            places,
            xs.as_slice(),
            ys.as_slice(),
        ),
        (PatForm::Map(xs), PatForm::Map(ys)) => same_pat_pairs(
            places,
            xs.as_slice(),
            ys.as_slice(),
        ),
        (PatForm::Binary(xs), PatForm::Binary(ys)) => {
            same_pat_segments(places, xs.as_slice(), ys.as_slice())
        }
        (PatForm::Alias(v, x), PatForm::Alias(w, y)) => {
            same_variable(places, v, w) && same_pattern(places, x.get(), y.get())
        }
        _ => false,
    }
}

// Whether two pairs are the same.
#[cycle(same)]
fn same_pair(places: bool, a: &MapPair, b: &MapPair) -> bool
    ensures { IsTrue result ↔ (compared_pair places (pair_parts a.now) ≡ compared_pair places (pair_parts b.now)) }
{
    if a.exact != b.exact {
        return false;
    }
    same_expr(places, &a.key, &b.key) && same_expr(places, &a.value, &b.value)
}

// Whether two segments are the same.
#[cycle(same)]
fn same_segment(places: bool, a: &Segment, b: &Segment) -> bool
    ensures { IsTrue result ↔ (compared_segment places (segment_parts a.now) ≡ compared_segment places (segment_parts b.now)) }
{
    same_expr(places, &a.value, &b.value) && same_all(places, a.args.as_slice(), b.args.as_slice())
}

// Whether two steps are the same.
#[cycle(same)]
fn same_step(places: bool, a: &Step, b: &Step) -> bool
    ensures { IsTrue result ↔ (compared_step places (step_tree a.now) ≡ compared_step places (step_tree b.now)) }
{
    match (a, b) {
        (Step::Let(m, xs, x), Step::Let(n, ys, y)) => {
            if !same_mark(places, m, n) {
                return false;
            }
            same_variables(places, xs.as_slice(), ys.as_slice()) && same_expr(places, x, y)
        }
        (Step::Do(m, x), Step::Do(n, y)) => same_mark(places, m, n) && same_expr(places, x, y),
        _ => false,
    }
}

// Whether two clauses are the same.
#[cycle(same)]
fn same_clause(places: bool, a: &Clause, b: &Clause) -> bool
    ensures { IsTrue result ↔ (compared_clause places (clause_parts a.now) ≡ compared_clause places (clause_parts b.now)) }
{
    if !same_mark(places, &a.mark, &b.mark) {
        return false;
    }
    if !same_patterns(places, a.patterns.as_slice(), b.patterns.as_slice()) {
        return false;
    }
    same_expr(places, &a.guard, &b.guard) && same_expr(places, &a.body, &b.body)
}

/// Whether two definitions are equal, apart from their places where those aren't compared.
#[cycle(same)]
pub fn same_definition(places: bool, a: &FunDef, b: &FunDef) -> bool
    ensures { IsTrue result ↔ (compared_def places (def_tree a.now) ≡ compared_def places (def_tree b.now)) }
{
    if !same_name(&a.name, &b.name) {
        return false;
    }
    if !same_mark(places, &a.mark, &b.mark) {
        return false;
    }
    same_variables(places, a.fun.params.as_slice(), b.fun.params.as_slice())
        && same_expr(places, a.fun.body.get(), b.fun.body.get())
}

// Whether two pairs of map patterns are the same.
#[cycle(same)]
fn same_pat_pair(places: bool, a: &PatPair, b: &PatPair) -> bool
    ensures { IsTrue result ↔ (compared_pat_pair places (pat_pair_parts a.now) ≡ compared_pat_pair places (pat_pair_parts b.now)) }
{
    same_expr(places, &a.key, &b.key) && same_pattern(places, &a.value, &b.value)
}

// Whether two segments of binary patterns are the same.
#[cycle(same)]
fn same_pat_segment(places: bool, a: &PatSegment, b: &PatSegment) -> bool
    ensures { IsTrue result ↔ (compared_pat_segment places (pat_segment_parts a.now) ≡ compared_pat_segment places (pat_segment_parts b.now)) }
{
    same_pattern(places, &a.value, &b.value)
        && same_all(places, a.args.as_slice(), b.args.as_slice())
}

// Whether expressions are the same, one by one.
#[cycle(same)]
fn same_all(places: bool, a: &[Expr], b: &[Expr]) -> bool
    ensures { IsTrue result ↔ (compared_all places (all_trees a.now) ≡ compared_all places (all_trees b.now)) }
{
    if a.len() != b.len() {
        return false;
    }
    for i in 0..a.len() {
        if !same_expr(places, &a[i], &b[i]) {
            return false;
        }
    }
    true
}

// Whether pairs are the same, one by one.
#[cycle(same)]
fn same_pairs(places: bool, a: &[MapPair], b: &[MapPair]) -> bool
    ensures { IsTrue result ↔ (compared_pairs places (all_pairs a.now) ≡ compared_pairs places (all_pairs b.now)) }
{
    if a.len() != b.len() {
        return false;
    }
    for i in 0..a.len() {
        if !same_pair(places, &a[i], &b[i]) {
            return false;
        }
    }
    true
}

// Whether segments are the same, one by one.
#[cycle(same)]
fn same_segments(places: bool, a: &[Segment], b: &[Segment]) -> bool
    ensures { IsTrue result ↔ (compared_segments places (all_segments a.now) ≡ compared_segments places (all_segments b.now)) }
{
    if a.len() != b.len() {
        return false;
    }
    for i in 0..a.len() {
        if !same_segment(places, &a[i], &b[i]) {
            return false;
        }
    }
    true
}

// Whether steps are the same, one by one.
#[cycle(same)]
fn same_steps(places: bool, a: &[Step], b: &[Step]) -> bool
    ensures { IsTrue result ↔ (compared_steps places (all_steps a.now) ≡ compared_steps places (all_steps b.now)) }
{
    if a.len() != b.len() {
        return false;
    }
    for i in 0..a.len() {
        if !same_step(places, &a[i], &b[i]) {
            return false;
        }
    }
    true
}

// Whether clauses are the same, one by one.
#[cycle(same)]
fn same_clauses(places: bool, a: &[Clause], b: &[Clause]) -> bool
    ensures { IsTrue result ↔ (compared_clauses places (all_clauses a.now) ≡ compared_clauses places (all_clauses b.now)) }
{
    if a.len() != b.len() {
        return false;
    }
    for i in 0..a.len() {
        if !same_clause(places, &a[i], &b[i]) {
            return false;
        }
    }
    true
}

// Whether definitions are the same, one by one.
#[cycle(same)]
fn same_defs(places: bool, a: &[FunDef], b: &[FunDef]) -> bool
    ensures { IsTrue result ↔ (compared_defs places (all_defs a.now) ≡ compared_defs places (all_defs b.now)) }
{
    if a.len() != b.len() {
        return false;
    }
    for i in 0..a.len() {
        if !same_definition(places, &a[i], &b[i]) {
            return false;
        }
    }
    true
}

// Whether patterns are the same, one by one.
#[cycle(same)]
fn same_patterns(places: bool, a: &[Pattern], b: &[Pattern]) -> bool
    ensures { IsTrue result ↔ (compared_patterns places (all_patterns a.now) ≡ compared_patterns places (all_patterns b.now)) }
{
    if a.len() != b.len() {
        return false;
    }
    for i in 0..a.len() {
        if !same_pattern(places, &a[i], &b[i]) {
            return false;
        }
    }
    true
}

// Whether pairs of map patterns are the same, one by one.
#[cycle(same)]
fn same_pat_pairs(places: bool, a: &[PatPair], b: &[PatPair]) -> bool
    ensures { IsTrue result ↔ (compared_pat_pairs places (all_pat_pairs a.now) ≡ compared_pat_pairs places (all_pat_pairs b.now)) }
{
    if a.len() != b.len() {
        return false;
    }
    for i in 0..a.len() {
        if !same_pat_pair(places, &a[i], &b[i]) {
            return false;
        }
    }
    true
}

// Whether segments of binary patterns are the same, one by one.
#[cycle(same)]
fn same_pat_segments(places: bool, a: &[PatSegment], b: &[PatSegment]) -> bool
    ensures { IsTrue result ↔ (compared_pat_segments places (all_pat_segments a.now) ≡ compared_pat_segments places (all_pat_segments b.now)) }
{
    if a.len() != b.len() {
        return false;
    }
    for i in 0..a.len() {
        if !same_pat_segment(places, &a[i], &b[i]) {
            return false;
        }
    }
    true
}

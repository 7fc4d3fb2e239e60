//! Trees as texts: a node is (LABEL FORM@PLACE..). Its place is its byte, behind its line and a colon where that isn't 1. Behind it come
//! `#LINE` and `!` for a line and `generated` of its note, and then the nodes inside. A variable of a list has its place and its note too.
use core_ast::{
    Clause, Expr, Form, FunDef, FunName, Literal, Mark, Module, Note, PatForm, Pattern, Step,
    VarName,
};
use std::alloc::Global;
use type_kinds::{Bytes, List, Memory, Place};

// What is to be written.
#[derive(Clone, Copy)]
enum Written<'a> {
    Expression(&'a Expr),
    Pattern(&'a Pattern),
    Clause(&'a Clause),
    Step(&'a Step),
    Definition(&'a FunDef),
    Text(&'a [u8]),
}

type Parts<'a> = List<Written<'a>>;

/// What is written of a tree. Places count from a byte on; those before it are 0.
#[derive(Drop)]
pub struct Printer {
    pub out: Bytes,
    from: u64,
}

impl Printer {
    /// Nothing.
    pub fn new(alloc: Global, from: u64) -> Printer {
        Printer {
            out: List::new(alloc),
            from,
        }
    }

    /// Writes a module's name, exports and note, and its definitions.
    pub fn module(&mut self, alloc: Global, module: &Module) -> Result<(), Memory> {
        self.text(module.name.bytes())?;
        self.text(b"[")?;
        let mut places = module.export_places.as_slice();
        for name in module.exports.as_slice() {
            self.name(name)?;
            if let [place, others @ ..] = places {
                self.place(*place)?;
                self.text(if others.is_empty() { b"" } else { b"," })?;
                places = others;
            }
        }
        self.text(b"]")?;
        self.note(module.note)?;
        for definition in module.defs.as_slice() {
            self.write(alloc, Written::Definition(definition.get()))?;
        }
        Ok(())
    }

    // A part and all that is inside it.
    fn write(&mut self, alloc: Global, part: Written<'_>) -> Result<(), Memory> {
        let mut waiting = List::new(alloc);
        let mut parts = List::new(alloc);
        let answer = self.write_all(part, &mut waiting, &mut parts);
        drop(waiting);
        drop(parts);
        answer
    }

    // The parts wait, the next one last.
    fn write_all<'a>(
        &mut self,
        part: Written<'a>,
        waiting: &mut Parts<'a>,
        parts: &mut Parts<'a>,
    ) -> Result<(), Memory> {
        waiting.add(part)?;
        for _ in 0..1000 {
            let Some(part) = waiting.pop() else {
                return Ok(());
            };
            self.part(part, parts)?;
            for _ in 0..parts.len() {
                if let Some(part) = parts.pop() {
                    waiting.add(part)?;
                }
            }
        }
        Ok(())
    }

    // The beginning of a part. The parts inside are added.
    fn part<'a>(&mut self, part: Written<'a>, parts: &mut Parts<'a>) -> Result<(), Memory> {
        match part {
            Written::Expression(e) => {
                self.label(e.mark)?;
                self.form(&e.form)?;
                self.mark(e.mark)?;
                inside(&e.form, parts)?;
            }
            Written::Pattern(p) => {
                self.label(p.mark)?;
                self.pattern(&p.form)?;
                self.mark(p.mark)?;
                inside_pattern(&p.form, parts)?;
            }
            Written::Clause(clause) => {
                self.label(clause.mark)?;
                self.text(b"clause")?;
                self.mark(clause.mark)?;
                patterns(&clause.patterns, parts)?;
                two(b"when", &clause.guard, parts)?;
                two(b"->", &clause.body, parts)?;
            }
            Written::Step(step) => self.step(step, parts)?,
            Written::Definition(definition) => {
                self.label(definition.mark)?;
                self.text(b"def ")?;
                self.name(&definition.name)?;
                self.variables(&definition.fun.params)?;
                self.mark(definition.mark)?;
                parts.add(Written::Expression(definition.fun.body.get()))?;
            }
            Written::Text(text) => return self.text(text),
        }
        parts.add(Written::Text(b")"))
    }

    fn step<'a>(&mut self, step: &'a Step, parts: &mut Parts<'a>) -> Result<(), Memory> {
        match step {
            Step::Let(mark, names, value) => {
                self.label(*mark)?;
                self.text(b"let")?;
                self.variables(names)?;
                self.mark(*mark)?;
                parts.add(Written::Expression(value))
            }
            Step::Do(mark, value) => {
                self.label(*mark)?;
                self.text(b"do")?;
                self.mark(*mark)?;
                parts.add(Written::Expression(value))
            }
        }
    }

    fn form(&mut self, form: &Form) -> Result<(), Memory> {
        match form {
            Form::Var(name) => self.named(b"var ", name.bytes()),
            Form::Local(name) => {
                self.text(b"local ")?;
                self.name(name)
            }
            Form::External(home, name) => {
                self.named(b"external ", home.bytes())?;
                self.text(b":")?;
                self.name(name)
            }
            Form::Lit(value) => self.literal(value),
            Form::Fun(fun) => {
                self.text(b"fun")?;
                self.variables(&fun.params)
            }
            Form::Listed(_, _) => self.text(b"list"),
            Form::Tuple(_) => self.text(b"tuple"),
            Form::Map(_, _) => self.text(b"map"),
            Form::Binary(_) => self.text(b"binary"),
            Form::Values(_) => self.text(b"values"),
            Form::Chain(_, _) => self.text(b"chain"),
            Form::Case(_, _) => self.text(b"case"),
            Form::Letrec(_, _) => self.text(b"letrec"),
            Form::Apply(_, _) => self.text(b"apply"),
            Form::Call(_, _, _) => self.text(b"call"),
            Form::Primop(name, _) => self.named(b"primop ", name.bytes()),
            Form::Try(parts) => {
                self.text(b"try")?;
                self.variables(&parts.vars)?;
                self.variables(&parts.catch_vars)
            }
            Form::Receive(_, _, _) => self.text(b"receive"),
            Form::Catch(_) => self.text(b"catch"),
        }
    }

    fn pattern(&mut self, form: &PatForm) -> Result<(), Memory> {
        match form {
            PatForm::Var(name) => self.named(b"var ", name.bytes()),
            PatForm::Lit(value) => self.literal(value),
            PatForm::Listed(_, _) => self.text(b"list"),
            PatForm::Tuple(_) => self.text(b"tuple"),
            PatForm::Map(_) => self.text(b"map"),
            PatForm::Binary(_) => self.text(b"binary"),
            PatForm::Alias(name, _) => {
                self.text(b"alias[")?;
                self.variable(name)?;
                self.text(b"]")
            }
        }
    }

    fn literal(&mut self, value: &Literal) -> Result<(), Memory> {
        match value {
            Literal::Int(n) => self.out.append_decimal(*n),
            Literal::Float(text) => self.named(b"float ", text.as_slice()),
            Literal::Atom(name) => self.named(b"atom ", name.bytes()),
            Literal::Nil => self.text(b"nil"),
        }
    }

    fn text(&mut self, text: &[u8]) -> Result<(), Memory> {
        self.out.append(text)
    }

    fn named(&mut self, front: &[u8], name: &[u8]) -> Result<(), Memory> {
        self.out.append(front)?;
        self.out.append(name)
    }

    fn name(&mut self, name: &FunName) -> Result<(), Memory> {
        self.named(name.name.bytes(), b"/")?;
        self.out.append_decimal(name.arity)
    }

    fn variables(&mut self, names: &List<VarName>) -> Result<(), Memory> {
        let mut front: &[u8] = b"[";
        for name in names.as_slice() {
            self.text(front)?;
            self.variable(name)?;
            front = b",";
        }
        if names.is_empty() {
            self.text(b"[]")
        } else {
            self.text(b"]")
        }
    }

    fn variable(&mut self, name: &VarName) -> Result<(), Memory> {
        self.text(name.name.bytes())?;
        self.place(name.place)?;
        self.note(name.note)
    }

    fn label(&mut self, mark: Mark) -> Result<(), Memory> {
        self.text(b"(")?;
        self.out.append_decimal(mark.label)?;
        self.text(b" ")
    }

    fn mark(&mut self, mark: Mark) -> Result<(), Memory> {
        self.place(mark.place)?;
        self.note(mark.note)
    }

    fn place(&mut self, place: Place) -> Result<(), Memory> {
        self.text(b"@")?;
        if place.line != 1 {
            self.out.append_decimal(place.line)?;
            self.text(b":")?;
        }
        self.out
            .append_decimal(place.byte.saturating_sub(self.from))
    }

    fn note(&mut self, note: Note) -> Result<(), Memory> {
        if let Some(line) = note.line {
            self.text(b"#")?;
            self.out.append_decimal(line)?;
        }
        if note.generated {
            self.text(b"!")?;
        }
        Ok(())
    }
}

// What stands inside an expression.
fn inside<'a>(form: &'a Form, parts: &mut Parts<'a>) -> Result<(), Memory> {
    match form {
        Form::Fun(fun) => parts.add(Written::Expression(fun.body.get())),
        Form::Listed(items, tail) => {
            all(items, parts)?;
            parts.add(Written::Expression(tail.get()))
        }
        Form::Tuple(items) => all(items, parts),
        Form::Values(items) => all(items, parts),
        Form::Apply(operator, arguments) => {
            parts.add(Written::Expression(operator.get()))?;
            all(arguments, parts)
        }
        Form::Call(home, name, arguments) => {
            parts.add(Written::Expression(home.get()))?;
            parts.add(Written::Expression(name.get()))?;
            all(arguments, parts)
        }
        Form::Primop(_, arguments) => all(arguments, parts),
        Form::Try(tried) => {
            parts.add(Written::Expression(tried.arg.get()))?;
            parts.add(Written::Expression(tried.body.get()))?;
            parts.add(Written::Expression(tried.handler.get()))
        }
        Form::Catch(body) => parts.add(Written::Expression(body.get())),
        Form::Map(pairs, updated) => {
            for pair in pairs.as_slice() {
                parts.add(Written::Expression(&pair.key))?;
                two(if pair.exact { b":=" } else { b"=>" }, &pair.value, parts)?;
            }
            match updated {
                Some(map) => two(b"|", map.get(), parts),
                None => Ok(()),
            }
        }
        Form::Binary(segments) => {
            for segment in segments.as_slice() {
                two(b"<", &segment.value, parts)?;
                parts.add(Written::Text(b">"))?;
                all(&segment.args, parts)?;
            }
            Ok(())
        }
        Form::Chain(steps, last) => {
            for step in steps.as_slice() {
                parts.add(Written::Step(step))?;
            }
            parts.add(Written::Expression(last.get()))
        }
        Form::Case(argument, list) => {
            parts.add(Written::Expression(argument.get()))?;
            clauses(list, parts)
        }
        Form::Letrec(definitions, body) => {
            for definition in definitions.as_slice() {
                parts.add(Written::Definition(definition))?;
            }
            parts.add(Written::Expression(body.get()))
        }
        Form::Receive(list, timeout, action) => {
            clauses(list, parts)?;
            two(b"after", timeout.get(), parts)?;
            two(b"->", action.get(), parts)
        }
        _ => Ok(()),
    }
}

fn inside_pattern<'a>(form: &'a PatForm, parts: &mut Parts<'a>) -> Result<(), Memory> {
    match form {
        PatForm::Listed(items, tail) => {
            patterns(items, parts)?;
            parts.add(Written::Pattern(tail.get()))
        }
        PatForm::Tuple(items) => patterns(items, parts),
        PatForm::Map(pairs) => {
            for pair in pairs.as_slice() {
                parts.add(Written::Expression(&pair.key))?;
                parts.add(Written::Text(b":="))?;
                parts.add(Written::Pattern(&pair.value))?;
            }
            Ok(())
        }
        PatForm::Binary(segments) => {
            for segment in segments.as_slice() {
                parts.add(Written::Text(b"<"))?;
                parts.add(Written::Pattern(&segment.value))?;
                parts.add(Written::Text(b">"))?;
                all(&segment.args, parts)?;
            }
            Ok(())
        }
        PatForm::Alias(_, inner) => parts.add(Written::Pattern(inner.get())),
        _ => Ok(()),
    }
}

// A text and an expression.
fn two<'a>(text: &'a [u8], e: &'a Expr, parts: &mut Parts<'a>) -> Result<(), Memory> {
    parts.add(Written::Text(text))?;
    parts.add(Written::Expression(e))
}

fn all<'a>(items: &'a List<Expr>, parts: &mut Parts<'a>) -> Result<(), Memory> {
    for item in items.as_slice() {
        parts.add(Written::Expression(item))?;
    }
    Ok(())
}

fn patterns<'a>(items: &'a List<Pattern>, parts: &mut Parts<'a>) -> Result<(), Memory> {
    for item in items.as_slice() {
        parts.add(Written::Pattern(item))?;
    }
    Ok(())
}

fn clauses<'a>(items: &'a List<Clause>, parts: &mut Parts<'a>) -> Result<(), Memory> {
    for item in items.as_slice() {
        parts.add(Written::Clause(item))?;
    }
    Ok(())
}

use std::alloc::Global;
use type_kinds::{List, Memory};

/// A step of a case: its first word, the rest of its line, and the lines below, the last of them without its end. The step `case` begins
/// a case, and has its name.
#[derive(Clone, Copy)]
pub struct CaseStep<'a> {
    pub what: &'a str,
    pub rest: &'a str,
    pub lines: &'a str,
}

/// The steps of the cases of a text, in its order.
pub fn steps_of(alloc: Global, text: &str) -> Result<List<CaseStep<'_>>, Memory> {
    let mut steps = List::new(alloc);
    for case in text.split("\n== ").skip(1) {
        add_case(case, &mut steps)?;
    }
    Ok(steps)
}

fn add_case<'a>(case: &'a str, steps: &mut List<CaseStep<'a>>) -> Result<(), Memory> {
    let mut parts = case.split("\n-- ");
    if let Some(name) = parts.next() {
        steps.add(CaseStep {
            what: "case",
            rest: name,
            lines: "",
        })?;
    }
    for part in parts {
        steps.add(step_of(part))?;
    }
    Ok(())
}

fn step_of(text: &str) -> CaseStep<'_> {
    let (line, lines) = parted(text, '\n');
    let (what, rest) = parted(line, ' ');
    CaseStep { what, rest, lines }
}

// What stands before the first such character, and behind it.
fn parted(text: &str, at: char) -> (&str, &str) {
    match text.split_once(at) {
        Some(parts) => parts,
        None => (text, ""),
    }
}

//! Constraints as texts: a line makes a part, or `all 2` or `any 2` of so many constraints that were made last, the last one first.
use crate::parts::part_of;
use crate::texts::{number, parted};
use cons_tree::{Constraint, Part};
use std::alloc::Global;
use type_kinds::{List, Memory};
use type_text::TextFault;

/// All constraints that the lines of a text make.
pub fn constraint_of(alloc: Global, lines: &str) -> Result<Constraint, TextFault> {
    let mut made = List::new(alloc);
    match add_lines(alloc, lines, &mut made) {
        Ok(()) => Ok(Constraint::All(made)),
        Err(fault) => {
            drop(made);
            Err(fault)
        }
    }
}

fn add_lines(alloc: Global, lines: &str, made: &mut List<Constraint>) -> Result<(), TextFault> {
    for line in lines.lines() {
        add_line(alloc, line, made)?;
    }
    Ok(())
}

fn add_line(alloc: Global, line: &str, made: &mut List<Constraint>) -> Result<(), TextFault> {
    let (what, count) = parted(line, " ");
    match what {
        "all" => Ok(add_all(alloc, number(count), made)?),
        "any" => Ok(add_any(alloc, number(count), made)?),
        _ => {
            let part = part_of(alloc, line)?;
            Ok(add_part(part, made)?)
        }
    }
}

fn add_part(part: Part, made: &mut List<Constraint>) -> Result<(), Memory> {
    made.add(Constraint::Part(part))
}

fn add_all(alloc: Global, count: u64, made: &mut List<Constraint>) -> Result<(), Memory> {
    let members = taken(alloc, count, made)?;
    made.add(Constraint::All(members))
}

fn add_any(alloc: Global, count: u64, made: &mut List<Constraint>) -> Result<(), Memory> {
    let members = taken(alloc, count, made)?;
    made.add(Constraint::Any(members))
}

// So many items, from the last one on.
fn taken<T: Drop>(alloc: Global, count: u64, items: &mut List<T>) -> Result<List<T>, Memory> {
    let mut taken = List::new(alloc);
    for _ in 0..count {
        if let Some(item) = items.pop() {
            taken.add(item)?;
        }
    }
    Ok(taken)
}

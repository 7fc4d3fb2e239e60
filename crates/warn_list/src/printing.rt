ghost use Rattle.std.specs.Prelude.{◌≡◌, ◌++◌, map, IfOk, OnOk};
ghost use Rattle.warn_list.specs.Order.{AreInOrder};
ghost use Rattle.warn_list.specs.Lines.{name_text, remote_text, callee_text, kind_text, line_of, lines_of, AreLines};

use crate::finding::{CallText, Finding, FindingKind};
use core_ast::FunName;
use std::alloc::Global;
use type_kinds::{Atom, Bytes, List, Memory};

/// The lines of a module's findings, each ended by LF: by label, and at one label by kind. Two
/// findings of one kind at one label stand in the order passed. Fails only if allocation fails.
pub fn lines(alloc: Global, home: &Atom, findings: &List<Finding>) -> Result<Bytes, Memory>
    ensures { IfOk result (λ bytes. AreLines home.now findings.now bytes) }
{
    let ordered = in_order(alloc, findings.as_slice())?;
    let mut out = List::new(alloc);
    for finding in ordered.iter() {
        append_line(home, *finding, &mut out)?;
    }
    Ok(out)
}

// The findings, by label and kind.
fn in_order<'a>(alloc: Global, findings: &'a [Finding]) -> Result<Vec<&'a Finding>, Memory>
    ensures { IfOk result (λ ordered. AreInOrder findings.now (map (λ f. f.now) ordered.items)) }
{
    let mut ordered = Vec::new(alloc);
    for finding in findings {
        match ordered.push(finding) {
            Ok(()) => {}
            Err(_) => return Err(Memory),
        }
    }
    match ordered.sort_by_key(|finding| (finding.label, finding.kind.number())) {
        Ok(()) => Ok(ordered),
        Err(_) => Err(Memory),
    }
}

// Adds the line of a finding.
fn append_line(home: &Atom, finding: &Finding, out: &mut Bytes) -> Result<(), Memory>
    ensures { OnOk result (out.new ≡ out.old ++ line_of home.now finding.now) }
{
    home.text(out)?;
    out.append(b":")?;
    out.append_decimal(finding.line)?;
    out.append(b": ")?;
    append_kind(&finding.kind, out)?;
    out.append(b"\n")
}

// Adds what is wrong.
fn append_kind(kind: &FindingKind, out: &mut Bytes) -> Result<(), Memory>
    ensures { OnOk result (out.new ≡ out.old ++ kind_text kind.now) }
{
    match kind {
        FindingKind::NoReturn(name) => {
            out.append(b"function ")?;
            append_name(name, out)?;
            out.append(b" has no local return")
        }
        FindingKind::DeadCall(callee) => {
            append_callee(callee, out)?;
            out.append(b" never returns")?;
            Ok(())
        }
        FindingKind::DeadClause => {
            out.append(b"this clause can never match")?;
            Ok(())
        }
        FindingKind::NeverCalled(name) => {
            out.append(b"function ")?;
            append_name(name, out)?;
            out.append(b" is never called")
        }
        FindingKind::UnknownFunction(home, name) => {
            out.append(b"unknown function ")?;
            append_remote(home, name, out)
        }
    }
}

// Adds what is called.
fn append_callee(callee: &CallText, out: &mut Bytes) -> Result<(), Memory>
    ensures { OnOk result (out.new ≡ out.old ++ callee_text callee.now) }
{
    match callee {
        CallText::Local(name) => {
            out.append(b"the call ")?;
            append_name(name, out)
        }
        CallText::Remote(home, name) => {
            out.append(b"the call ")?;
            append_remote(home, name, out)
        }
        CallText::Value(count) => {
            out.append(b"the call of a value with ")?;
            out.append_decimal(*count)?;
            out.append(b" arguments")?;
            Ok(())
        }
    }
}

// Adds a function of some module.
fn append_remote(home: &Atom, name: &FunName, out: &mut Bytes) -> Result<(), Memory>
    ensures { OnOk result (out.new ≡ out.old ++ remote_text home.now name.now) }
{
    home.text(out)?;
    out.append(b":")?;
    append_name(name, out)
}

// Adds a function's name.
fn append_name(name: &FunName, out: &mut Bytes) -> Result<(), Memory>
    ensures { OnOk result (out.new ≡ out.old ++ name_text name.now) }
{
    name.name.text(out)?;
    out.append(b"/")?;
    out.append_decimal(name.arity)
}

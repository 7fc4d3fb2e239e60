ghost use Rattle.std.specs.Prelude.{◌<◌, ◌^◌, length};

use crate::finding::{CallText, Finding, FindingKind};
use crate::printing::lines;
use core_ast::FunName;
use std::alloc::Global;
use std::test::Fail;
use type_kinds::{Atom, List};

fn name(alloc: Global, bytes: &[u8], arity: u32) -> Result<FunName, Fail>
    requires { length bytes.now < 2 ^ 32 }
{
    Ok(FunName {
        name: Atom::new(alloc, bytes)?,
        arity,
    })
}

fn add(found: &mut List<Finding>, label: u32, kind: FindingKind, line: u32) -> Result<(), Fail> {
    found.add(Finding { label, kind, line })?;
    Ok(())
}

// Each kind and each way to name a call, two findings at one label, and two of one kind there.
#[test]
fn writes_lines_by_label_and_kind(rt: HostRuntime) -> Result<(), Fail> {
    let alloc = rt.alloc();
    let mut found = List::new(alloc);
    let unknown = FindingKind::UnknownFunction(
        Atom::new(alloc, b"lists")?,
        name(alloc, b"nap", 2)?,
    );
    add(&mut found, 9, unknown, 40)?;
    let remote = CallText::Remote(Atom::new(alloc, b"lists")?, name(alloc, b"nap", 2)?);
    add(&mut found, 9, FindingKind::DeadCall(remote), 41)?;
    add(&mut found, 30, FindingKind::DeadClause, 7)?;
    let never_called = FindingKind::NeverCalled(name(alloc, b"it's", 255)?);
    add(&mut found, 0, never_called, 2_147_483_647)?;
    add(
        &mut found,
        0,
        FindingKind::NoReturn(name(alloc, b"f", 0)?),
        3,
    )?;
    let local = CallText::Local(name(alloc, b"f", 0)?);
    add(&mut found, 12, FindingKind::DeadCall(local), 12)?;
    add(
        &mut found,
        12,
        FindingKind::DeadCall(CallText::Value(2)),
        11,
    )?;
    let text = lines(alloc, &Atom::new(alloc, b"m\n")?, &found)?;
    let wanted = "'m\\012':3: function 'f'/0 has no local return
'm\\012':2147483647: function 'it\\'s'/255 is never called
'm\\012':41: the call 'lists':'nap'/2 never returns
'm\\012':40: unknown function 'lists':'nap'/2
'm\\012':12: the call 'f'/0 never returns
'm\\012':11: the call of a value with 2 arguments never returns
'm\\012':7: this clause can never match
";
    assert_eq!(rt; text.as_slice(), wanted.as_bytes());
    Ok(())
}

#[test]
fn writes_nothing_for_no_finding(rt: HostRuntime) -> Result<(), Fail> {
    let alloc = rt.alloc();
    let text = lines(alloc, &Atom::new(alloc, b"m")?, &List::new(alloc))?;
    assert!(rt; text.is_empty());
    Ok(())
}

//! The text of the list.
ghost use Rattle.std.specs.Prelude.{◌≡◌, ◌++◌, ◌<◌, length, map, IfOk, OnOk};
ghost use Rattle.std.specs.List.{All};
ghost use Rattle.core_scope.specs.Checked.{module_of};
ghost use Rattle.warn_list.specs.Lines.{remote_text};
ghost use Rattle.fun_flow_answers.specs.Lines.{AreTargetsWithin, IsCallWithin, IsTargetWithin, call_line, call_lines, only_text, place_text, target_text};
ghost use Rattle.fun_flow_answers.specs.Lines.{targets_text};

use crate::target::{AppliedCall, ListedTargets, Target};
use core_ast::FunName;
use core_scope::AsChecked;
use std::alloc::Global;
use type_kinds::{Atom, Bytes, List, Memory};

/// A line for each application, ended by LF, where these are the modules. Fails only if allocation fails.
pub fn call_lines<S: AsChecked>(
    alloc: Global,
    mods: &[S],
    calls: &[AppliedCall],
) -> Result<Bytes, Memory>
    requires within { All (IsCallWithin (length mods.now)) calls.now }
    ensures { IfOk result (λ output. output ≡ call_lines (map (λ s. (module_of (S.stands_for s)).name) mods.now) calls.now) }
{
    let mut out = List::new(alloc);
    for call in calls {
        append_line(mods, call, &mut out)?;
    }
    Ok(out)
}

// Appends the line of an application.
fn append_line<S: AsChecked>(mods: &[S], call: &AppliedCall, out: &mut Bytes) -> Result<(), Memory>
    requires within { IsCallWithin (length mods.now) call.now }
    ensures { OnOk result (out.new ≡ out.old ++ call_line (map (λ s. (module_of (S.stands_for s)).name) mods.now) call.now) }
{
    append_place(mods, call.module, call.line, out)?;
    out.append(b": apply of a value with ")?;
    out.append_decimal(call.arity)?;
    out.append(b" arguments may enter ")?;
    append_targets(mods, &call.targets, out)?;
    out.append(b"\n")
}

// Appends the name of a module and a line in it.
fn append_place<S: AsChecked>(
    mods: &[S],
    position: u32,
    line: u32,
    out: &mut Bytes,
) -> Result<(), Memory>
    requires within { position < length mods.now }
    ensures { OnOk result (out.new ≡ out.old ++ place_text (map (λ s. (module_of (S.stands_for s)).name) mods.now) position line) }
{
    mods[position as usize].checked().module().name.text(out)?;
    out.append(b":")?;
    out.append_decimal(line)
}

// Appends what an application may enter.
fn append_targets<S: AsChecked>(
    mods: &[S],
    targets: &ListedTargets,
    out: &mut Bytes,
) -> Result<(), Memory>
    requires within { AreTargetsWithin (length mods.now) targets.now }
    ensures { OnOk result (out.new ≡ out.old ++ targets_text (map (λ s. (module_of (S.stands_for s)).name) mods.now) targets.now) }
{
    match targets {
        ListedTargets::Anything => out.append(b"anything"),
        ListedTargets::Only(targets) => append_only(mods, targets.as_slice(), out),
    }
}

// Appends functions with commas between.
fn append_only<S: AsChecked>(mods: &[S], targets: &[Target], out: &mut Bytes) -> Result<(), Memory>
    requires within { All (IsTargetWithin (length mods.now)) targets.now }
    ensures { OnOk result (out.new ≡ out.old ++ only_text (map (λ s. (module_of (S.stands_for s)).name) mods.now) targets.now) }
{
    let Some((first, later)) = targets.split_first() else {
        return out.append(b"nothing");
    };
    append_target(mods, first, out)?;
    for target in later {
        out.append(b", ")?;
        append_target(mods, target, out)?;
    }
    Ok(())
}

// Appends a function.
fn append_target<S: AsChecked>(mods: &[S], target: &Target, out: &mut Bytes) -> Result<(), Memory>
    requires within { IsTargetWithin (length mods.now) target.now }
    ensures { OnOk result (out.new ≡ out.old ++ target_text (map (λ s. (module_of (S.stands_for s)).name) mods.now) target.now) }
{
    match target {
        Target::Fun(module, _, line) => {
            out.append(b"fun ")?;
            append_place(mods, *module, *line, out)
        }
        Target::Name(home, name) => append_name(home, name, out),
    }
}

// Appends a function's name behind that of its module.
fn append_name(home: &Atom, name: &FunName, out: &mut Bytes) -> Result<(), Memory>
    ensures { OnOk result (out.new ≡ out.old ++ remote_text home.now name.now) }
{
    home.text(out)?;
    out.append(b":")?;
    name.name.text(out)?;
    out.append(b"/")?;
    out.append_decimal(name.arity)
}

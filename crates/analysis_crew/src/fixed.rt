//! What is fixed for a component: its functions' calls that go to no function of the modules.
ghost use Rattle.std.specs.Prelude.{◌≡◌, map, slice_get, IfOk, OnOk};
ghost use Rattle.cons_tree.specs.Callees.{found};
ghost use Rattle.comp_rounds.specs.Members.{function_of};
ghost use Rattle.analysis_summaries.specs.Known.{all_unknown};
ghost use Rattle.analysis_crew.specs.steps.Fixing.{closing, fixed_by, fixing, fixing_all, tells, with_called, with_own};

use call_graph::OutsideCall;
use comp_rounds::Member;
use cons_tree::{Callee, Summaries};
use core_ast::FunName;
use std::alloc::Global;
use type_kinds::{Atom, List, Memory};

// Whether anything is known of a function.
fn tells(callee: &Callee) -> bool
    ensures { result ≡ tells callee.now }
{
    match callee {
        Callee::Known(_) | Callee::Local(_) | Callee::Undefined => true,
        Callee::Unknown => false,
    }
}

// Fixes a name as it is known at first, if anything is.
fn fix_name(
    alloc: Global,
    first: &Summaries,
    home: &Atom,
    name: &FunName,
    fixed: &mut Summaries,
) -> Result<(), Memory>
    ensures { OnOk result (found fixed.new ≡ fixing (found first.now) (found fixed.old) (home.now, name.now)) }
{
    let callee = first.find(home, name);
    if tells(callee) {
        let callee = callee.copy(alloc)?;
        fixed.set(home, name, callee)
    } else {
        Ok(())
    }
}

// Fixes the names that are called.
fn fix_calls(
    alloc: Global,
    first: &Summaries,
    calls: &[OutsideCall],
    fixed: &mut Summaries,
) -> Result<(), Memory>
    ensures { OnOk result (found fixed.new ≡ fixing_all (found first.now) (found fixed.old) calls.now) }
{
    for call in calls {
        fix_name(alloc, first, &call.0, &call.1, fixed)?;
    }
    Ok(())
}

// Closes a module.
fn close_home(home: &Atom, fixed: &mut Summaries) -> Result<(), Memory>
    ensures { OnOk result (found fixed.new ≡ closing (found fixed.old) home.now) }
{
    fixed.close(home)
}

// Closes the module of the function of a number, if there is one.
fn close_own(members: &List<Member>, number: u32, fixed: &mut Summaries) -> Result<(), Memory>
    ensures { OnOk result (found fixed.new ≡ with_own (found fixed.old) (slice_get (map function_of members.now) number)) }
{
    match members.get(number as usize) {
        Some(member) => close_home(&member.home, fixed),
        None => Ok(()),
    }
}

// Fixes the names that the function of a number calls outside.
fn fix_outside(
    alloc: Global,
    first: &Summaries,
    outside: &List<List<OutsideCall>>,
    number: u32,
    fixed: &mut Summaries,
) -> Result<(), Memory>
    ensures { OnOk result (found fixed.new ≡ with_called (found first.now) (found fixed.old) (slice_get outside.now number)) }
{
    match outside.get(number as usize) {
        Some(calls) => fix_calls(alloc, first, calls.as_slice(), fixed),
        None => Ok(()),
    }
}

// Closes the modules of the functions of these numbers, and fixes the names that they call outside.
fn fix_all(
    alloc: Global,
    first: &Summaries,
    members: &List<Member>,
    outside: &List<List<OutsideCall>>,
    numbers: &[u32],
    fixed: &mut Summaries,
) -> Result<(), Memory>
    ensures { OnOk result (found fixed.new ≡ fixed_by (found first.now) (map function_of members.now) outside.now (found fixed.old) numbers.now) }
{
    for number in numbers {
        close_own(members, *number, fixed)?;
        fix_outside(alloc, first, outside, *number, fixed)?;
    }
    Ok(())
}

/// What is fixed for the functions of these numbers: the module of each is closed, and each name that one of them calls
/// outside is known as it is at first. `Memory` if allocation fails.
pub fn fixed_for(
    alloc: Global,
    first: &Summaries,
    members: &List<Member>,
    outside: &List<List<OutsideCall>>,
    numbers: &[u32],
) -> Result<Summaries, Memory>
    ensures { IfOk result (λ fixed. found fixed ≡ fixed_by (found first.now) (map function_of members.now) outside.now all_unknown numbers.now) }
{
    let mut fixed = Summaries::new(alloc);
    match fix_all(alloc, first, members, outside, numbers, &mut fixed) {
        Ok(()) => Ok(fixed),
        Err(Memory) => {
            drop(fixed);
            Err(Memory)
        }
    }
}

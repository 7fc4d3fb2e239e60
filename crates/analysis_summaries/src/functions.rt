//! The functions of modules that are analysed together, by their numbers.
ghost use Rattle.std.specs.Prelude.{◌≡◌, ◌<◌, [], ◌++◌, length, map, slice_get, Some, IfOk, OnOk};
ghost use Rattle.core_scope.specs.Checked.{module_of, tree_of};
ghost use Rattle.core_scope.specs.Names.{has_function};
ghost use Rattle.call_graph.specs.Calls.{module_functions};
ghost use Rattle.comp_rounds.specs.Members.{function_of};
ghost use Rattle.analysis_summaries.specs.Functions.{all_functions, perhaps, picked, summarized};

use comp_rounds::Member;
use core_ast::FunName;
use core_scope::{AsChecked, Checked, Names};
use std::alloc::Global;
use type_kinds::{List, Memory};

/// The functions of modules: the modules in the order passed, each module's functions in that of its text.
/// `Memory` if allocation fails.
pub fn all_members<S: AsChecked>(alloc: Global, mods: &[S]) -> Result<List<Member>, Memory>
    ensures { IfOk result (λ members. map function_of members ≡ all_functions (map (λ s. tree_of (S.stands_for s)) mods.now)) }
{
    let mut members = List::new(alloc);
    match add_modules(alloc, mods, &mut members) {
        Ok(()) => Ok(members),
        Err(Memory) => {
            discard_members(members);
            Err(Memory)
        }
    }
}

/// Drops functions.
pub fn discard_members(_members: List<Member>) {}

// Adds the functions of modules to a list that is empty.
fn add_modules<S: AsChecked>(
    alloc: Global,
    mods: &[S],
    members: &mut List<Member>,
) -> Result<(), Memory>
    requires { members.old ≡ [] }
    ensures { OnOk result (map function_of members.new ≡ all_functions (map (λ s. tree_of (S.stands_for s)) mods.now)) }
{
    for source in mods {
        add_members(alloc, source.checked(), members)?;
    }
    Ok(())
}

// Adds the functions of a module.
fn add_members(alloc: Global, checked: &Checked, members: &mut List<Member>) -> Result<(), Memory>
    ensures { OnOk result (map function_of members.new ≡ map function_of members.old ++ map summarized (module_functions (tree_of checked.now))) }
{
    let source = checked.module();
    let exports = export_names(alloc, source.exports.as_slice())?;
    let count = source.defs.len();
    for at in 0..count {
        let member = member_at(alloc, checked, &exports, at)?;
        members.add(member)?;
    }
    Ok(())
}

// The function at a place of a module that exports these.
fn member_at(
    alloc: Global,
    checked: &Checked,
    exports: &Names<FunName>,
    at: usize,
) -> Result<Member, Memory>
    requires { at < length (module_of checked.now).defs }
    ensures home { IfOk result (λ member. member.home ≡ (module_of checked.now).name) }
    ensures def { IfOk result (λ member. slice_get (module_of checked.now).defs at ≡ Some member.def) }
    ensures exported { IfOk result (λ member. member.exported ≡ has_function exports.now member.def.name) }
{
    let def = checked.module().defs.at(at).get();
    let exported = exports.has(&def.name);
    Member::new(alloc, checked, at, exported)
}

fn export_names(alloc: Global, exports: &[FunName]) -> Result<Names<FunName>, Memory>
    ensures { IfOk result (λ names. names ≡ exports.now) }
{
    let mut names = Names::new(alloc);
    for name in exports {
        names.push(name)?;
    }
    Ok(names)
}

/// The functions of these numbers. `Memory` if allocation fails.
pub fn members_at(
    alloc: Global,
    members: &List<Member>,
    numbers: &[u32],
) -> Result<List<Member>, Memory>
    ensures { IfOk result (λ found. map function_of found ≡ picked (map function_of members.now) numbers.now) }
{
    let mut found = List::new(alloc);
    match add_numbers(alloc, members, numbers, &mut found) {
        Ok(()) => Ok(found),
        Err(Memory) => {
            discard_members(found);
            Err(Memory)
        }
    }
}

// Adds the functions of these numbers to a list that is empty.
fn add_numbers(
    alloc: Global,
    members: &List<Member>,
    numbers: &[u32],
    found: &mut List<Member>,
) -> Result<(), Memory>
    requires { found.old ≡ [] }
    ensures { OnOk result (map function_of found.new ≡ picked (map function_of members.now) numbers.now) }
{
    for number in numbers {
        add_member(alloc, members, *number, found)?;
    }
    Ok(())
}

// Adds the function of a number, if there is one.
fn add_member(
    alloc: Global,
    members: &List<Member>,
    number: u32,
    found: &mut List<Member>,
) -> Result<(), Memory>
    ensures { OnOk result (map function_of found.new ≡ map function_of found.old ++ perhaps (slice_get (map function_of members.now) number)) }
{
    match members.get(number as usize) {
        Some(member) => {
            let copy = copied(alloc, member)?;
            found.add(copy)
        }
        None => Ok(()),
    }
}

// A second value of a member, with the same definition.
fn copied(alloc: Global, member: &Member) -> Result<Member, Memory>
    ensures { IfOk result (λ copy. function_of copy ≡ function_of member.now) }
{
    let home = member.home.copy(alloc)?;
    let def = member.def.share()?;
    Ok(Member {
        home,
        def,
        exported: member.exported,
    })
}

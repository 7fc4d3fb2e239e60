//! The rule that what is known by a certificate is closed: each function is held against its summary, component by component.
ghost use Rattle.std.specs.Prelude.{◌≡◌, ◌↔◌, ◌<◌, ℕ, List as ListOf, ◌++◌, length, map, Contains, IfOk, IsTrue};
ghost use Rattle.type_kinds.specs.declared.atom.Atom.{Atom as TheAtom};
ghost use Rattle.core_ast.specs.declared.syntax.FunName.{FunName as TheName};
ghost use Rattle.core_scope.specs.Checked.{module_of};
ghost use Rattle.core_scope.specs.Sets.{StandsEarlier};
ghost use Rattle.cons_tree.specs.Callees.{found};
ghost use Rattle.cons_gen_rows.specs.Knowing.{knowledge};
ghost use Rattle.cons_gen_rows.specs.Members.{is_member as is_own};
ghost use Rattle.comp_rounds.specs.Members.{function_of};
ghost use Rattle.comp_rounds.specs.Rounds.{Function, is_member, lenient_pass};
ghost use Rattle.analysis_summaries.specs.Functions.{all_functions, picked};
ghost use Rattle.table_keep.specs.Model.{sources_so, trees};
ghost use Rattle.table_verify_rules.specs.steps.Components.{AreComponent, AreComponents};
ghost use Rattle.table_verify_rules.specs.steps.Knowing.{KeepsBy};
ghost use Rattle.table_verify_rules.specs.steps.Leasts.{IsLeastOpen};

use crate::giving::gives_below;
use crate::least::lesser_unless;
use analysis_summaries::{all_members, discard_members};
use call_graph::graph;
use comp_rounds::Member;
use components::{Comps, components};
use cons_gen_rows::{Members, Pass};
use cons_tree::{Callee, Summaries};
use std::alloc::Global;
use table_keep::Source;
use type_kinds::{Atom, List, Memory};

/// The least name of a module with a function that gives more than is known of it. `Memory`: allocation failed, or there are 2^32 functions
/// or more.
pub fn open_module(
    alloc: Global,
    sources: &[Source],
    known: &Summaries,
) -> Result<Option<Atom>, Memory>
    requires distinct { (j : ℕ) → j < length sources.now → StandsEarlier (map (λ s. (module_of s.checked).name) sources.now) j → ⊥ }
    ensures { IfOk result (λ name. let fs = all_functions (trees (sources_so sources.now)) in IsLeastOpen fs (found known.now) fs name) }
{
    let graph = graph(alloc, sources)?;
    let comps = components(alloc, &graph)?;
    let members = all_members(alloc, sources)?;
    let least = least_open(alloc, &members, &comps, known);
    discard_members(members);
    least
}

// The same, where these are the functions and their components.
fn least_open(
    alloc: Global,
    members: &List<Member>,
    comps: &Comps,
    known: &Summaries,
) -> Result<Option<Atom>, Memory>
    requires { AreComponents (map function_of members.now) comps.now }
    ensures { IfOk result (λ name. IsLeastOpen (map function_of members.now) (found known.now) (map function_of members.now) name) }
{
    let mut least = None;
    for component in 0..comps.count() {
        let numbers = comps.members(component).as_slice();
        least = with_component(alloc, members, numbers, known, least)?;
    }
    Ok(least)
}

// The lesser of a name, which may be missing, and the least name of those of the component's functions that give more than is known of them.
fn with_component(
    alloc: Global,
    members: &List<Member>,
    numbers: &[u32],
    known: &Summaries,
    least: Option<Atom>,
) -> Result<Option<Atom>, Memory>
    requires { AreComponent (map function_of members.now) numbers.now }
    ensures { IfOk result (λ name. let fs = map function_of members.now in (before : ListOf Function) → IsLeastOpen fs (found known.now) before least
        → IsLeastOpen fs (found known.now) (before ++ picked fs numbers.now) name) }
{
    let lenient = Pass::Lenient(own_functions(alloc, members, numbers)?);
    with_members(alloc, members, numbers, known, &lenient, least)
}

// The same, where nothing is asked leniently of calls of these functions.
fn with_members(
    alloc: Global,
    members: &List<Member>,
    numbers: &[u32],
    known: &Summaries,
    lenient: &Pass,
    least: Option<Atom>,
) -> Result<Option<Atom>, Memory>
    requires component { AreComponent (map function_of members.now) numbers.now }
    requires lenient { knowledge lenient.now known.now ≡ lenient_pass (picked (map function_of members.now) numbers.now) (found known.now) }
    ensures { IfOk result (λ name. let fs = map function_of members.now in (before : ListOf Function) → IsLeastOpen fs (found known.now) before least
        → IsLeastOpen fs (found known.now) (before ++ picked fs numbers.now) name) }
{
    let mut least = least;
    for number in numbers {
        let member = members.at(*number as usize);
        let closed = is_closed(alloc, member, known, lenient)?;
        least = lesser_unless(alloc, closed, least, &member.home)?;
    }
    Ok(least)
}

// The functions of a component, to be found among.
fn own_functions(alloc: Global, members: &List<Member>, numbers: &[u32]) -> Result<Members, Memory>
    requires { (n : ℕ) → Contains numbers.now n → n < length members.now }
    ensures { IfOk result (λ own. (h : TheAtom) (f : TheName) → is_own own h f ≡ is_member (picked (map function_of members.now) numbers.now) h f) }
{
    let mut own = Members::new(alloc);
    for number in numbers {
        let member = members.at(*number as usize);
        own.add(&member.home, &member.def.get().name)?;
    }
    Ok(own)
}

// Whether a function gives no more than is known of it, strictly and by this lenient pass.
fn is_closed(
    alloc: Global,
    member: &Member,
    known: &Summaries,
    lenient: &Pass,
) -> Result<bool, Memory>
    ensures { IfOk result (λ b. IsTrue b ↔ KeepsBy (found known.now) (knowledge lenient.now known.now) (function_of member.now)) }
{
    match known.find(&member.home, &member.def.get().name) {
        Callee::Known(summary) | Callee::Local(summary) => {
            if !gives_below(alloc, member, known, &Pass::Strict, summary.strict.get())? {
                return Ok(false);
            }
            gives_below(alloc, member, known, lenient, summary.lenient.get())
        }
        Callee::Undefined | Callee::Unknown => Ok(false),
    }
}

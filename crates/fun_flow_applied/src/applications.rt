//! The applications of values among rules.
ghost use Rattle.std.specs.Prelude.{◌≡◌, ◌++◌, [], IfOk, OnOk};
ghost use Rattle.std.specs.List.{cons_option};
ghost use Rattle.fun_flow_applied.specs.steps.Applications.{AreApplications, application_in};

use fun_flow_places::{FlowPlace, FlowRule};
use std::alloc::Global;
use type_kinds::Memory;

/// An application of a value: the position of its module, its label, where its operator is, and how many arguments it has.
#[derive(Clone, Copy, Debug)]
pub struct AppliedValue {
    pub module: usize,
    pub label: u32,
    pub operator: FlowPlace,
    pub arity: usize,
}

/// The applications among the rules of so many modules, one at each label, by module and label.
pub fn applications(
    alloc: Global,
    rules: &[FlowRule],
    modules: usize,
) -> Result<Vec<AppliedValue>, Memory>
    ensures { IfOk result (λ found. AreApplications modules rules.now found.items) }
{
    let mut found = Vec::new(alloc);
    for rule in rules {
        add_application(rule, modules, &mut found)?;
    }
    found.sort_unstable_by_key(|application| (application.module, application.label));
    found.dedup_by_key(|application| (application.module, application.label));
    Ok(found)
}

// Adds the application that a rule of so many modules is.
fn add_application(
    rule: &FlowRule,
    modules: usize,
    found: &mut Vec<AppliedValue>,
) -> Result<(), Memory>
    ensures { OnOk result (found.new.items ≡ found.old.items ++ cons_option (application_in modules rule.now) []) }
{
    match application_in(rule, modules) {
        None => Ok(()),
        Some(application) => match found.push(application) {
            Ok(()) => Ok(()),
            Err(_) => Err(Memory),
        },
    }
}

// The application that a rule of so many modules is.
fn application_in(rule: &FlowRule, modules: usize) -> Option<AppliedValue>
    ensures { result ≡ application_in modules rule.now }
{
    match rule {
        FlowRule::Applies(operator, arity, module, label) if *module < modules => {
            Some(AppliedValue {
                module: *module,
                label: *label,
                operator: *operator,
                arity: *arity,
            })
        }
        _ => None,
    }
}

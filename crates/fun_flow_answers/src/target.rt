ghost use Rattle.std.proofs.Common.{rules};
ghost use Rattle.std.specs.Cmp.{eq_by_cmp_equiv, partial_equiv_from_equiv, po};
ghost use Rattle.std.specs.Cmp.Rules.{comparing};
ghost use Rattle.std.specs.Ordering.{eq_by_cmp};

use core_ast::FunName;
use std::cmp::Ordering;
use type_kinds::{Atom, List};

/// A function that an application may enter. Funs stand before names; funs go by module, label and line, and names by module, name
/// and arity.
#[derive(Debug, Drop)]
pub enum Target {
    /// A fun or a function of a `letrec`: the position of its module, its label, and its line.
    Fun(u32, u32, u32),
    /// A function by its module and its name: a definition of a module, or an external function.
    Name(Atom, FunName),
}

/// What an application may enter.
#[derive(Debug, Drop)]
pub enum ListedTargets {
    /// Any function: nothing is known of what is applied.
    Anything,
    /// These, each once, in ascending order.
    Only(List<Target>),
}

/// An application of a value: the position of its module, its label and its line, how many arguments it has, and what it may enter.
#[derive(Debug, Drop)]
pub struct AppliedCall {
    pub module: u32,
    pub label: u32,
    pub line: u32,
    pub arity: u32,
    pub targets: ListedTargets,
}

impl PartialEq for Target {
    ghost use Rattle.fun_flow_answers.specs.Order.{target_cmp, target_total};

    ghost eq = { eq_by_cmp target_cmp };

    ghost laws = { partial_equiv_from_equiv (eq_by_cmp_equiv target_total) };

    fn eq(&self, other: &Target) -> bool {
        self.cmp(other) == Ordering::Equal
    }
}

impl Eq for Target {
    ghost use Rattle.fun_flow_answers.specs.Order.{target_total};

    ghost laws = { eq_by_cmp_equiv target_total };
}

impl PartialOrd for Target {
    ghost use Rattle.fun_flow_answers.specs.Order.{target_cmp, target_total};
    ghost use Rattle.std.specs.Prelude.{refl};
    ghost use Rattle.std.specs.Ordering.{as_partial_cmp};

    ghost partial_cmp = { as_partial_cmp target_cmp };

    ghost laws = { po target_total (λ x y. refl) };

    fn partial_cmp(&self, other: &Target) -> Option<Ordering> {
        Some(self.cmp(other))
    }
}

impl Ord for Target {
    ghost use Rattle.fun_flow_answers.specs.Order.{target_cmp, target_total};
    ghost use Rattle.std.specs.Prelude.{refl};

    ghost cmp = { target_cmp };

    ghost total = { target_total };

    ghost matches_partial_cmp = { Prim.search (comparing, rules) };

    ghost matches_eq = { λ x y. refl };

    fn cmp(&self, other: &Target) -> Ordering {
        match (self, other) {
            (Target::Fun(home, label, line), Target::Fun(module, mark, place)) => home
                .cmp(module)
                .then(label.cmp(mark))
                .then(line.cmp(place)),
            (Target::Fun(_, _, _), Target::Name(_, _)) => Ordering::Less,
            (Target::Name(_, _), Target::Fun(_, _, _)) => Ordering::Greater,
            (Target::Name(home, name), Target::Name(module, other)) => home
                .cmp(module)
                .then(name.name.cmp(&other.name))
                .then(name.arity.cmp(&other.arity)),
        }
    }
}

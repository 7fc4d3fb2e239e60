//! Lists in which each item stands once, rising.
ghost use Rattle.std.specs.Prelude.{◌≡◌, [], true, not, IfOk, OnOk};
ghost use Rattle.std.specs.Cmp.{IsTotalOrder};
ghost use Rattle.std.specs.FinSet.{IsAntisymmetric};
ghost use Rattle.std.specs.List.{list_all};
ghost use Rattle.std.specs.Ordering.{is_lt};
ghost use Rattle.type_kinds_sets.specs.Ascending.{is_ascending, merged, placed};

use call_graph::OutsideCall;
use core_ast::FunName;
use std::alloc::Global;
use std::cmp::Ordering;
use type_kinds::{Atom, List, Memory};

/// Items in an order in which only equal ones tie.
pub trait InOrder: Drop {
    ghost use Rattle.std.specs.declared.cmp.Ordering.{Ordering};

    ghost order: { Self → Self → Ordering };

    /// How the two stand to each other.
    fn compare(&self, other: &Self) -> Ordering
        ensures { result ≡ order self.now other.now };

    ghost total: { IsTotalOrder order };

    ghost same: { IsAntisymmetric order };
}

impl InOrder for Atom {
    ghost use Rattle.type_kinds_sets.specs.Names.{name_cmp};
    ghost use Rattle.type_kinds_sets.proofs.NameLaws.{name_total, name_same};

    ghost order = { name_cmp };

    fn compare(&self, other: &Atom) -> Ordering {
        self.cmp(other)
    }

    ghost total = { name_total };

    ghost same = { name_same };
}

impl InOrder for FunName {
    ghost use Rattle.table_keep.specs.Made.{function_cmp};
    ghost use Rattle.table_keep.specs.Orders.{function_total, function_same};

    ghost order = { function_cmp };

    fn compare(&self, other: &FunName) -> Ordering {
        match self.name.cmp(&other.name) {
            Ordering::Equal => self.arity.cmp(&other.arity),
            different => different,
        }
    }

    ghost total = { function_total };

    ghost same = { function_same };
}

impl InOrder for OutsideCall {
    ghost use Rattle.table_keep.specs.Calls.{called_cmp};
    ghost use Rattle.table_keep.specs.Orders.{called_total, called_same};

    ghost order = { called_cmp };

    fn compare(&self, other: &OutsideCall) -> Ordering {
        match self.0.cmp(&other.0) {
            Ordering::Equal => self.1.compare(&other.1),
            different => different,
        }
    }

    ghost total = { called_total };

    ghost same = { called_same };
}

/// The items, each once, rising. `Memory` if allocation fails.
pub fn once_each<T: InOrder>(alloc: Global, items: List<T>) -> Result<List<T>, Memory>
    ensures { IfOk result (λ list. list ≡ merged T.order [] items) }
{
    let mut items = items.into_vec();
    items.sort_unstable_by(|a, b| a.compare(b));
    let mut list = List::new(alloc);
    for item in items {
        add_higher(&mut list, item)?;
    }
    Ok(list)
}

// Adds an item to a list that rises, where none of the list is above it. If it is the last of the list, nothing changes.
fn add_higher<T: InOrder>(list: &mut List<T>, item: T) -> Result<(), Memory>
    requires rising { is_ascending T.order list.old ≡ true }
    requires above { list_all (λ other. not (is_lt (T.order item other))) list.old ≡ true }
    ensures { OnOk result (list.new ≡ placed T.order item list.old) }
{
    match list.as_slice().last() {
        Some(last) => match last.compare(&item) {
            Ordering::Equal => Ok(()),
            _ => list.add(item),
        },
        None => list.add(item),
    }
}

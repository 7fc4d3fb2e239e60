//! The functions that an application may enter, in order.
ghost use Rattle.std.specs.Prelude.{◌↔◌, Contains};
ghost use Rattle.std.specs.List.Sorted.{IsStrictlySortedBy};
ghost use Rattle.fun_flow_answers.specs.declared.target.Target.{Target as TheTarget};
ghost use Rattle.fun_flow_answers.specs.Order.{target_cmp};

use crate::target::Target;
use type_kinds::List;

/// The same targets, each once, in ascending order. Takes no memory.
pub fn ascending(mut targets: Vec<Target>) -> List<Target>
    ensures ascending { IsStrictlySortedBy target_cmp result }
    ensures same { (t : TheTarget) → Contains result t ↔ Contains targets.items t }
{
    targets.sort_unstable();
    targets.dedup();
    List::from_vec(targets)
}

//! Solving with a count of turns that contracts alone see.
ghost use Rattle.std.specs.Prelude.{◌≡◌, ◌+◌, ◌<◌, ◌≤◌, ℕ, List, true, cond, IfOk};
ghost use Rattle.type_lattice.specs.Types.{Type4};
ghost use Rattle.cons_tree.specs.Constraints.{all_of, constraint, constraints};
ghost use Rattle.cons_tree.specs.Trails.{answer, summed, Falling, Trailed};
ghost use Rattle.cons_solve.specs.Environments.{solution};

use crate::index::index_of;
use crate::laws::environment_laws;
use crate::queue::Queue;
use crate::solving::solve_slots;
use cons_tree::{Constraint, Slots, frame_law, type_facts};
use std::alloc::Global;
use std::marker::Model;
use std::sync::ledger::{Blank, Book, Ledger, Share};
use type_kinds::Memory;

/// How many turns were made. It takes no bytes, only `tick` changes it, and contracts alone see it.
#[derive(Drop)]
pub struct Steps<L: Ledger> {
    book: Book<L>,
    share: Share<L>,
}

impl<L: Ledger> Model for Steps<L> {
    ghost use Rattle.std.specs.Prelude.{ℕ, ◌<◌};
    ghost use Rattle.std.specs.Coded.{coded_ℕ};

    ghost Value = { ℕ };

    ghost coded = { coded_ℕ };

    ghost view = { λ s. s.book.total };

    ghost invariant = { λ s. 0 < s.share.parts };
}

impl<L: Ledger> Steps<L> {
    /// A count of 0, under the ledger of the blank.
    pub fn new(blank: Blank) -> Steps<L>
        requires name { blank.name ≡ L.name }
        requires parts { blank.parts ≡ L.parts }
        requires some { 0 < blank.parts }
        ensures { result ≡ 0 }
    {
        let (book, share) = blank.open::<L>();
        Steps { book, share }
    }

    /// One turn more.
    pub fn tick(&mut self)
        ensures { self.new ≡ self.old + 1 }
    {
        self.book.add(&mut self.share, 1);
    }

    // One turn more, where it is to be counted.
    fn tick_where(&mut self, counted: bool)
        ensures { self.new ≡ self.old + cond counted 1 0 }
    {
        if counted {
            self.tick();
        }
    }
}

/// As `solve_slots`, with a tick for each turn of the outermost list that lowers the array or leaves
/// no environment. A turn solves one member. By every measure of types that falls, the ticks are at
/// most one more than the sum over the array. A list that is solved without a tick leaves the array as it
/// was.
pub fn count_slots<L: Ledger>(
    alloc: Global,
    c: &Constraint,
    slots: &mut Slots,
    visits: &mut u64,
    steps: &mut Steps<L>,
) -> Result<bool, Memory>
    ensures value { IfOk result (λ alive. solution (constraint c.now) slots.old.types ≡ answer alive slots.new.types) }
    ensures cost { IfOk result (λ _. (h : Type4 → ℕ) → Falling h → steps.new ≤ steps.old + (1 + summed h slots.old.types)) }
    ensures still { IfOk result (λ alive. (members : List Constraint) → c.now ≡ Constraint.All members → steps.new ≡ steps.old
        → (alive ≡ true) × (slots.new.types ≡ slots.old.types)) }
{
    match c {
        Constraint::Part(_) => solve_slots(alloc, c, slots, visits),
        Constraint::All(members) => count_work(alloc, members.as_slice(), slots, visits, steps),
        Constraint::Any(_) => solve_slots(alloc, c, slots, visits),
    }
}

// Solves members that wait until none does, with a tick for each that lowers the array or leaves no
// environment.
fn count_work<L: Ledger>(
    alloc: Global,
    members: &[Constraint],
    slots: &mut Slots,
    visits: &mut u64,
    steps: &mut Steps<L>,
) -> Result<bool, Memory>
    ensures value { IfOk result (λ alive. solution (all_of (constraints members.now)) slots.old.types ≡ answer alive slots.new.types) }
    ensures cost { IfOk result (λ _. (h : Type4 → ℕ) → Falling h → steps.new ≤ steps.old + (1 + summed h slots.old.types)) }
    ensures still { IfOk result (λ alive. steps.new ≡ steps.old → (alive ≡ true) × (slots.new.types ≡ slots.old.types)) }
{
    environment_laws();
    type_facts();
    frame_law();
    let index = index_of(alloc, members)?;
    let mut queue = Queue::all(alloc, members)?;
    'turns: loop {
        let Some(at) = queue.next()? else {
            return Ok(true);
        };
        let checkpoint = slots.trail.len();
        let alive = solve_slots(alloc, &members[at], slots, visits)?;
        if !alive {
            steps.tick();
            return Ok(false);
        }
        steps.tick_where(slots.trail.len() > checkpoint);
        queue.wake(members, at, &index, &slots.trail.as_slice()[checkpoint..])?;
    }
}

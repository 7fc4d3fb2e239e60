//! Members of a list that wait to be solved: a flag for each, and those whose flag is up in two
//! queues.
ghost use Rattle.std.specs.Prelude.{◌≡◌, ◌<◌, ◌++◌, ◌∷◌, [], ℕ, true, false, IfOk, IfSome, IfNone, length, get_or, map, set};
ghost use Rattle.cons_solve.specs.steps.Positions.{here, Queued, Enqueued, Woke};

use crate::index::{Index, Naming};
use cons_tree::{Constraint, Slot, TrailEntry};
use std::alloc::Global;
use type_kinds::{List, Memory};

/// Which members of a list wait, and in which order.
#[derive(Drop)]
pub struct Queue {
    /// Whether each member waits.
    pub flags: List<bool>,
    /// Members that wait, the next one last.
    pub soon: List<usize>,
    /// Members that wait behind all of those, the next one first.
    pub later: List<usize>,
}

// As many flags, none of which is up.
fn none_queued(alloc: Global, count: usize) -> Result<List<bool>, Memory>
    ensures { IfOk result (λ f. (length f ≡ count) × ((j : ℕ) → get_or f j false ≡ false)) }
{
    let mut flags = List::new(alloc);
    for _at in 0..count {
        flags.add(false)?;
    }
    Ok(flags)
}

impl Queue {
    /// A queue in which every member waits: the parts are solved first, and then lists and
    /// alternatives, both in their order. `Memory` comes if allocation fails.
    pub fn all(alloc: Global, members: &[Constraint]) -> Result<Queue, Memory>
        ensures long { IfOk result (λ q. length q.flags ≡ length members.now) }
        ensures queued { IfOk result (λ q. Queued q.flags (q.soon ++ q.later)) }
        ensures enqueued { IfOk result (λ q. (j : ℕ) → get_or q.flags j true ≡ true) }
    {
        let mut queue = Queue {
            flags: none_queued(alloc, members.len())?,
            soon: List::new(alloc),
            later: List::new(alloc),
        };
        queue.enqueue_lists(members)?;
        queue.enqueue_each(members)?;
        Ok(queue)
    }

    // Rouses a member, but for the one that is excepted. A part is next; a list and alternatives wait
    // behind all others, since they take longer and are best solved once the parts are.
    fn enqueue_one(
        &mut self,
        members: &[Constraint],
        except: usize,
        member: usize,
    ) -> Result<(), Memory>
        requires long { length self.old.flags ≡ length members.now }
        requires queued { Queued self.old.flags (self.old.soon ++ self.old.later) }
        ensures enqueued { IfOk result (λ _. Enqueued except (member ∷ []) self.old.flags self.new.flags) }
        ensures queued { IfOk result (λ _. Queued self.new.flags (self.new.soon ++ self.new.later)) }
    {
        if member == except || member >= self.flags.len() {
            return Ok(());
        }
        if *self.flags.at(member) {
            return Ok(());
        }
        self.flags.replace(member, true);
        match &members[member] {
            Constraint::Part(_) => self.soon.add(member),
            Constraint::All(_) | Constraint::Any(_) => self.later.add(member),
        }
    }

    // Rouses these members, but for one.
    fn enqueue(
        &mut self,
        members: &[Constraint],
        except: usize,
        woken: &[Naming],
    ) -> Result<(), Memory>
        requires long { length self.old.flags ≡ length members.now }
        requires queued { Queued self.old.flags (self.old.soon ++ self.old.later) }
        ensures enqueued { IfOk result (λ _. Enqueued except (map (λ n. n.member) woken.now) self.old.flags self.new.flags) }
        ensures queued { IfOk result (λ _. Queued self.new.flags (self.new.soon ++ self.new.later)) }
    {
        for naming in woken {
            self.enqueue_one(members, except, naming.member)?;
        }
        Ok(())
    }

    // Rouses the members at a slot, but for one.
    fn enqueue_at(
        &mut self,
        members: &[Constraint],
        except: usize,
        index: &Index,
        slot: Slot,
    ) -> Result<(), Memory>
        requires long { length self.old.flags ≡ length members.now }
        requires queued { Queued self.old.flags (self.old.soon ++ self.old.later) }
        ensures enqueued { IfOk result (λ _. Enqueued except (here index.now.namings slot) self.old.flags self.new.flags) }
        ensures queued { IfOk result (λ _. Queued self.new.flags (self.new.soon ++ self.new.later)) }
    {
        self.enqueue(members, except, index.at(slot))
    }

    /// Rouses the members at the slots of the entries, but for the one that lowered them.
    pub fn wake(
        &mut self,
        members: &[Constraint],
        except: usize,
        index: &Index,
        told: &[TrailEntry],
    ) -> Result<(), Memory>
        requires long { length self.old.flags ≡ length members.now }
        requires queued { Queued self.old.flags (self.old.soon ++ self.old.later) }
        ensures woke { IfOk result (λ _. Woke except index.now.namings told.now self.old.flags self.new.flags) }
        ensures queued { IfOk result (λ _. Queued self.new.flags (self.new.soon ++ self.new.later)) }
        ensures quiet { IfOk result (λ _. told.now ≡ [] → self.new.flags ≡ self.old.flags) }
    {
        if told.is_empty() {
            return Ok(());
        }
        for former in told {
            self.enqueue_at(members, except, index, former.slot)?;
        }
        Ok(())
    }

    // Rouses the members that are lists or alternatives.
    fn enqueue_lists(&mut self, members: &[Constraint]) -> Result<(), Memory>
        requires long { length self.old.flags ≡ length members.now }
        requires queued { Queued self.old.flags (self.old.soon ++ self.old.later) }
        ensures long { IfOk result (λ _. length self.new.flags ≡ length members.now) }
        ensures queued { IfOk result (λ _. Queued self.new.flags (self.new.soon ++ self.new.later)) }
    {
        let count = members.len();
        for at in 0..count {
            match &members[at] {
                Constraint::Part(_) => {}
                Constraint::All(_) | Constraint::Any(_) => self.enqueue_one(members, count, at)?,
            }
        }
        Ok(())
    }

    // Rouses every member, the last one first.
    fn enqueue_each(&mut self, members: &[Constraint]) -> Result<(), Memory>
        requires long { length self.old.flags ≡ length members.now }
        requires queued { Queued self.old.flags (self.old.soon ++ self.old.later) }
        ensures long { IfOk result (λ _. length self.new.flags ≡ length members.now) }
        ensures queued { IfOk result (λ _. Queued self.new.flags (self.new.soon ++ self.new.later)) }
        ensures enqueued { IfOk result (λ _. (j : ℕ) → get_or self.new.flags j true ≡ true) }
    {
        let count = members.len();
        for placed in 0..count {
            self.enqueue_one(members, count, count - 1 - placed)?;
        }
        Ok(())
    }

    // Takes those that wait behind all others as the next ones, where there are no others.
    fn turn_over(&mut self) -> Result<(), Memory>
        requires { Queued self.old.flags (self.old.soon ++ self.old.later) }
        ensures flags { IfOk result (λ _. self.new.flags ≡ self.old.flags) }
        ensures queued { IfOk result (λ _. Queued self.new.flags (self.new.soon ++ self.new.later)) }
        ensures empty { IfOk result (λ _. self.new.soon ≡ [] → self.new.later ≡ []) }
    {
        if !self.soon.is_empty() {
            return Ok(());
        }
        while let Some(member) = self.later.pop() {
            self.soon.add(member)?;
        }
        Ok(())
    }

    /// The next member, which no longer waits then. Without one, no flag is up. `Memory` comes if
    /// allocation fails.
    pub fn next(&mut self) -> Result<Option<usize>, Memory>
        requires { Queued self.old.flags (self.old.soon ++ self.old.later) }
        ensures some { IfOk result (λ next. IfSome next (λ at. (at < length self.old.flags) × (get_or self.old.flags at false ≡ true)
            × (self.new.flags ≡ set self.old.flags at false))) }
        ensures queued { IfOk result (λ next. IfSome next (λ at. Queued self.new.flags (self.new.soon ++ self.new.later))) }
        ensures none { IfOk result (λ next. IfNone next ((j : ℕ) → j < length self.old.flags → get_or self.old.flags j true ≡ false)) }
    {
        self.turn_over()?;
        match self.soon.pop() {
            None => Ok(None),
            Some(at) => {
                self.flags.replace(at, false);
                Ok(Some(at))
            }
        }
    }
}

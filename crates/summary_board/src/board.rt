ghost use Rattle.std.specs.Prelude.{◌≡◌, ℕ, List, ◌<◌, ◌≤◌, ◌↔◌, IsTrue, IfOk, OnErr, IfSome, IfNone, length};

use crate::agenda::Agenda;
use crate::event::Event;
use crate::fill::{all_waiting, callees_of, parts_of};
use crate::job::{Done, Job, Take};
use crate::looks::Looks;
use crate::progress::{Progress, called_at, done_at, is_out_at, outputs, set_progress};
use crate::same::{are_outputs, same_part, solved_from};
use crate::work::Work;
use std::alloc::Global;
use std::marker::Model;
use type_kinds::{Filling, List, Memory, Shared};

/// How far the components of a work have come, with the outputs of those that are done, and a
/// journal of what happened. All memory but that of a job's inputs is taken by `Board::new`.
#[derive(Drop)]
pub struct Board<W: Work> {
    alloc: Global,
    parts: List<Shared<W::Part>>,
    callees: List<List<u32>>,
    progress: List<Progress<W::Out>>,
    stopped: bool,
    journal: Filling<Event>,
    agenda: Agenda,
    looks: Looks,
}

impl<W: Work> Model for Board<W> {
    ghost use Rattle.std.specs.Prelude.{◌≤◌};
    ghost use Rattle.summary_board.specs.BoardValue.{BoardValue};

    ghost Value = { BoardValue W.Part W.Out };

    ghost use Rattle.summary_board.specs.BoardValue.{IsSound, standings_of};
    ghost use Rattle.summary_board.specs.steps.Agenda.{Tracks};
    ghost use Rattle.summary_board.specs.steps.Room.{left};

    ghost view = { λ b. record { parts = b.parts; callees = b.callees; progress = b.progress; stopped = b.stopped; journal = b.journal.items } };

    ghost invariant = { λ b. IsSound W.written (record {
      parts = b.parts;
      callees = b.callees;
      progress = b.progress;
      stopped = b.stopped;
      journal = b.journal.items;
    }) × (left b.progress b.stopped ≤ b.journal.spare)
        × Tracks b.callees (standings_of b.progress) b.agenda.callers b.agenda.counts b.agenda.unfinished b.agenda.ready };
}

impl<W: Work> Board<W> {
    ghost use Rattle.summary_board.specs.BoardValue.{IsSound, IsEntry};
    ghost use Rattle.summary_board.specs.Machine.{times_taken, times_finished};
    ghost use Rattle.summary_board.specs.Calls.{fresh, Takes, Fits, finished, halted};

    /// A board over the parts and callees of a work, on which nothing has happened. It has room for
    /// all that can happen.
    pub fn new(alloc: Global, work: &W) -> Result<Board<W>, Memory>
        ensures { IfOk result (λ board. board ≡ fresh (W.count_of work.now) (W.part_of work.now) (W.callees_of work.now)) }
    {
        let count = work.count();
        let parts = parts_of(alloc, work, count)?;
        let callees = callees_of(alloc, work, count)?;
        let progress = all_waiting::<W::Out>(alloc, count)?;
        let agenda = Agenda::new(alloc, &callees)?;
        let mut journal: Filling<Event> = Filling::new(alloc);
        journal.reserve(2 * count as usize + 1)?;
        Ok(Board {
            alloc,
            parts,
            callees,
            progress,
            stopped: false,
            journal,
            agenda,
            looks: Looks::new(),
        })
    }

    /// What happened, in order. Takes no memory.
    pub fn journal(&self) -> &[Event]
        ensures events { result.now ≡ self.now.journal }
        ensures sound { IsSound W.written self.now }
        ensures once { (c : ℕ) → (times_taken c result.now ≤ 1) × (times_finished c result.now ≤ 1) }
    {
        self.journal.as_slice()
    }

    /// Hands out the least ready component, with its part and the outputs of its callees, or says why
    /// there is none. If allocation fails, the board is as before.
    pub fn take(&mut self, seat: u32) -> Result<Take<W>, Memory>
        ensures ok { IfOk result (λ told. Takes self.old seat told self.new) }
        ensures err { OnErr result (self.new ≡ self.old) }
    {
        if self.stopped {
            return Ok(Take::Stopped);
        }
        if self.agenda.is_over(&mut self.looks) {
            return Ok(Take::AllDone);
        }
        let Some(c) = self.agenda.least(&mut self.looks) else {
            return Ok(Take::NoneReady);
        };
        let inputs = outputs(self.alloc, &self.progress, called_at(&self.callees, c))?;
        let part = self.parts.at(c).share()?;
        let component = c as u32;
        set_progress(&mut self.progress, c, Progress::Out(seat));
        self.agenda.take(c, &mut self.looks);
        self.journal.put(Event::Taken(seat, component));
        Ok(Take::Given(Job {
            component,
            part,
            inputs,
        }))
    }

    /// Publishes the output of a component that is out with this seat. Takes no memory.
    pub fn finish(&mut self, seat: u32, done: Done<W>)
        requires { Fits self.old seat done }
        ensures { self.new ≡ finished self.old seat done }
    {
        let Done { job, output } = done;
        let Job {
            component,
            part: _part,
            inputs,
        } = job;
        let c = component as usize;
        set_progress(&mut self.progress, c, Progress::Done(inputs, output));
        self.agenda.finish(c, &mut self.looks);
        self.journal.put(Event::Finished(seat, component));
    }

    /// Whether a solved job can be finished: its component is out with this seat, and it was solved
    /// from the part and the inputs that were handed out for it. Takes no memory.
    pub fn fits(&self, seat: u32, done: &Done<W>) -> bool
        ensures { IsTrue result ↔ Fits self.now seat done.now }
    {
        let c = done.job.component as usize;
        is_out_at(&self.progress, c, seat)
            && same_part::<W>(self.parts.at(c).get(), done.job.part.get())
            && are_outputs::<W>(
                &self.progress,
                called_at(&self.callees, c),
                &done.job.inputs,
            )
    }

    /// How many components there are. Takes no memory.
    pub fn count(&self) -> u32
        ensures { result ≡ length self.now.parts }
    {
        self.parts.len() as u32
    }

    /// The part, the inputs and the output of a component: `None` exactly where it isn't done. Takes
    /// no memory.
    pub fn entry(
        &self,
        component: u32,
    ) -> Option<(&Shared<W::Part>, &List<Shared<W::Out>>, &Shared<W::Out>)>
        ensures some { IfSome result (λ it. IsEntry self.now component it.0.now it.1.now it.2.now) }
        ensures none { IfNone result ((part : W.Part) (inputs : List W.Out) (output : W.Out) → IsEntry self.now component part inputs output → ⊥) }
        ensures written { IfSome result (λ it. it.2.now ≡ W.written it.0.now it.1.now) }
    {
        let c = component as usize;
        let (inputs, output) = done_at(self.progress.as_slice(), c)?;
        Some((self.parts.at(c), inputs, output))
    }

    /// The output of a component that was solved from this part and these inputs: `None` exactly
    /// where the component isn't done, or has another part or was solved from other inputs. Takes no
    /// memory.
    pub fn find(
        &self,
        component: u32,
        part: &W::Part,
        inputs: &List<Shared<W::Out>>,
    ) -> Option<&Shared<W::Out>>
        ensures some { IfSome result (λ output. IsEntry self.now component part.now inputs.now output.now) }
        ensures none { IfNone result ((output : W.Out) → IsEntry self.now component part.now inputs.now output → ⊥) }
        ensures written { IfSome result (λ output. output.now ≡ W.written part.now inputs.now) }
    {
        let c = component as usize;
        let found = solved_from::<W>(&self.progress, c, inputs)?;
        if same_part::<W>(self.parts.at(c).get(), part) {
            Some(found)
        } else {
            None
        }
    }

    /// Stops the board: no component is handed out any more. A second stop changes nothing. Takes no
    /// memory.
    pub fn stop(&mut self)
        ensures { self.new ≡ halted self.old }
    {
        if !self.stopped {
            self.stopped = true;
            self.journal.put(Event::Stopped);
        }
    }

    /// How many words and counts takes and finishes have read so far. The number stands still at its
    /// type's end. Takes no memory.
    pub fn looks(&self) -> u64 {
        self.looks.count()
    }
}

ghost use Rattle.std.specs.Prelude.{ℕ, ◌≤◌, IfOk};
ghost use Rattle.summary_board.specs.BoardValue.{IsSound};
ghost use Rattle.summary_board.specs.Machine.{times_taken, times_finished};

use crate::desk::Desk;
use da_shelf::Gate;
use std::sync::{Condvar, Mutex, Wait};
use std::thread;
use std::thread::{Builder, Threads};
use summary_board::{Board, Done, Job, Take, Work};
use type_kinds::Memory;

// The stack of each thread that is started, in bytes. To walk a tree of the greatest depth takes up to 2 MiB.
const STACK_SIZE: usize = 16 * 1024 * 1024;

// What the workers share.
#[derive(Drop)]
struct Crew<'a, W: Work, G: Gate> {
    work: &'a W,
    gate: &'a G,
    desk: Mutex<Desk<W>>,
    changed: Condvar,
}

impl<'a, W: Work, G: Gate> Crew<'a, W, G> {
    // Waits until there is a component to solve. `None` where there is none any more.
    fn next_job<R: Wait>(&self, rt: &R, seat: u32) -> Option<Job<W>> {
        let mut desk = self.desk.lock(rt);
        for _ in rt.forever() {
            match desk.take(seat) {
                Ok(Take::Given(job)) => return Some(job),
                Ok(Take::NoneReady) => desk = self.changed.wait(rt, desk),
                Ok(Take::AllDone) | Ok(Take::Stopped) => return None,
                Err(Memory) => {
                    drop(desk);
                    self.changed.notify_all();
                    return None;
                }
            }
        }
        unreachable!()
    }

    // Finishes a job, or stops the board, and wakes those that wait.
    fn hand_in<R: Wait>(&self, rt: &R, seat: u32, solved: Result<Done<W>, (Job<W>, Memory)>) {
        self.desk.lock(rt).hand_in(seat, solved);
        self.changed.notify_all();
    }

    // Solves one component after another until there is none.
    fn run_worker<R: Wait>(&self, rt: &R, seat: u32) {
        for _ in rt.forever() {
            let Some(job) = self.next_job(rt, seat) else {
                return;
            };
            let component = job.component;
            self.gate.enter(seat, component);
            let solved = job.run(self.work);
            self.gate.leave(seat, component);
            self.hand_in(rt, seat, solved);
        }
    }
}

/// Solves the components of a board by `workers` workers, from 1 to 64. The caller is the worker with
/// seat 0, and each other worker is a thread. Where a thread can't be started, the others do its
/// work. Each solve stands between `enter` and `leave` of the gate.
pub fn run_crew<R: Threads + Wait + Sync, W: Work + Sync, G: Gate + Sync>(
    rt: &R,
    work: &W,
    board: Board<W>,
    workers: u32,
    gate: &G,
) -> Result<Board<W>, Memory>
    requires least { 1 ≤ workers }
    requires most { workers ≤ 64 }
    ensures sound { IfOk result (λ board. IsSound W.written board) }
    ensures once { IfOk result (λ board. (c : ℕ) → (times_taken c board.journal ≤ 1) × (times_finished c board.journal ≤ 1)) }
{
    let crew = Crew {
        work,
        gate,
        desk: Mutex::new(Desk::new(board)),
        changed: Condvar::new(),
    };
    let shared = &crew;
    thread::scope(thread::scope_env(), rt, |scope| {
        for seat in 1..workers {
            let _ = Builder::new()
                .stack_size(STACK_SIZE)
                .spawn_scoped(scope, move || shared.run_worker(rt, seat));
        }
        shared.run_worker(rt, 0);
    });
    let Crew { desk, .. } = crew;
    let board = desk.into_inner().into_board()?;
    // what holds of every board is a clause of its journal
    let _ = board.journal();
    Ok(board)
}

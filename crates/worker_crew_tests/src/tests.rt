ghost use Rattle.std.specs.Prelude.{◌≤◌};

use crate::{Chains, CountingGate, MeetingGate};
use da_shelf::OpenGate;
use std::alloc::Global;
use std::process::Abort;
use std::sync::Wait;
use std::thread::Threads;
use summary_board::{Board, Done, Event, Job, Memo, MemoWork, Take, Work, assemble};
use type_kinds::{List, Memory, Shared};
use worker_crew::run_crew;

// The job that was handed out, if one was.
fn given<W: Work>(take: Take<W>) -> Option<Job<W>> {
    match take {
        Take::Given(job) => Some(job),
        _ => None,
    }
}

// The job that the seat is given.
fn taken(rt: &impl Abort, board: &mut Board<Chains>, seat: u32) -> Job<Chains> {
    given(board.take(seat).expect(rt, "memory")).expect(rt, "a job")
}

fn solved(rt: &impl Abort, work: &Chains, job: Job<Chains>) -> Done<Chains> {
    let Ok(done) = job.run(work) else {
        panic!(rt; "memory");
    };
    done
}

// Finishes what the seat solved, which has to fit.
fn finish(rt: &impl Abort, board: &mut Board<Chains>, seat: u32, done: Done<Chains>) {
    if !board.fits(seat, &done) {
        panic!(rt; "what seat {seat} solved doesn't fit");
    }
    board.finish(seat, done);
}

// What a seat is told.
#[derive(Clone, Copy, PartialEq, Eq)]
enum Reply {
    Given,
    NoneReady,
    AllDone,
    Stopped,
}

fn told(rt: &impl Abort, board: &mut Board<Chains>, seat: u32) -> Reply {
    match board.take(seat).expect(rt, "memory") {
        Take::Given(_) => Reply::Given,
        Take::NoneReady => Reply::NoneReady,
        Take::AllDone => Reply::AllDone,
        Take::Stopped => Reply::Stopped,
    }
}

// Two seats take a component each, a third none, and both are finished.
fn finish_both(rt: &impl Abort, work: &Chains, board: &mut Board<Chains>) {
    let first = taken(rt, board, 0);
    let second = taken(rt, board, 1);
    assert!(rt; first.component == 0 && second.component == 1);
    assert!(rt; told(rt, board, 2) == Reply::NoneReady);
    let done = solved(rt, work, first);
    assert!(rt; !board.fits(1, &done));
    finish(rt, board, 0, done);
    finish(rt, board, 1, solved(rt, work, second));
}

const HISTORY: &[Event] = &[
    Event::Taken(0, 0),
    Event::Taken(1, 1),
    Event::Finished(0, 0),
    Event::Finished(1, 1),
];

// The output of the second component for this part and no inputs.
fn output_of(alloc: Global, board: &Board<Chains>, part: u32) -> Option<u32> {
    let none: List<Shared<u32>> = List::new(alloc);
    board.find(1, &part, &none).map(|output| *output.get())
}

#[test]
fn a_board_step_by_step(rt: HostRuntime) {
    let alloc = rt.alloc();
    let work = Chains::new(alloc, 2, 1).expect(&rt, "memory");
    let mut board = Board::new(alloc, &work).expect(&rt, "memory");
    finish_both(&rt, &work, &mut board);
    assert!(rt; told(&rt, &mut board, 2) == Reply::AllDone);
    assert!(rt; board.journal() == HISTORY);
    assert!(rt; output_of(alloc, &board, 1) == Some(1));
    assert!(rt; output_of(alloc, &board, 0).is_none());
    board.stop();
    board.stop();
    assert!(rt; told(&rt, &mut board, 2) == Reply::Stopped);
    assert!(rt; board.journal().len() == 5);
    drop(board);
    drop(work);
}

// A plain search for the least ready component would take some 8,000,000 looks.
#[test]
fn few_looks_along_a_chain(rt: HostRuntime) {
    let alloc = rt.alloc();
    let work = Chains::new(alloc, 4096, 4096).expect(&rt, "memory");
    let mut board = Board::new(alloc, &work).expect(&rt, "memory");
    for component in 0..4096 {
        let job = taken(&rt, &mut board, 0);
        assert!(rt; job.component == component);
        let done = solved(&rt, &work, job);
        finish(&rt, &mut board, 0, done);
    }
    assert!(rt; board.journal().len() == 8192);
    // Each component that is taken was looked at.
    assert!(rt; board.looks() >= 4096);
    assert!(rt; board.looks() < 100_000);
    drop(board);
    drop(work);
}

const OUTPUTS: &[u32] = &[0, 0, 0, 3, 3, 3, 6, 6, 6];

fn are_outputs(outputs: &[Shared<u32>]) -> bool {
    for (output, number) in outputs.iter().zip(OUTPUTS) {
        if *output.get() != *number {
            return false;
        }
    }
    true
}

// Expects the nine outputs of what is solved, and that `assemble` solves nothing.
fn expect_assembled(rt: &impl Abort, alloc: Global, work: &Chains, board: &Board<Chains>) {
    let outputs = assemble(alloc, work, board).expect(rt, "memory");
    assert!(rt; outputs.len() == 9);
    assert!(rt; are_outputs(outputs.as_slice()));
    assert!(rt; work.solves() == 9);
    drop(outputs);
}

// Solves three chains of three by `workers` workers: each component is solved once, and not again by
// `assemble`.
fn solve_once<R: Threads + Wait + Abort + Sync>(rt: &R, alloc: Global, workers: u32)
    requires least { 1 ≤ workers }
    requires most { workers ≤ 64 }
{
    let work = Chains::new(alloc, 9, 3).expect(rt, "memory");
    let board = Board::new(alloc, &work).expect(rt, "memory");
    let gate = CountingGate::new();
    let board = run_crew(rt, &work, board, workers, &gate).expect(rt, "memory");
    assert!(rt; gate.entries() == 9);
    assert!(rt; work.solves() == 9);
    // nine were taken, and nine are finished
    assert!(rt; board.journal().len() == 18);
    expect_assembled(rt, alloc, &work, &board);
    drop(board);
    drop(work);
}

#[test]
fn each_solved_once(rt: HostRuntime) {
    solve_once(&rt, rt.alloc(), 1);
    solve_once(&rt, rt.alloc(), 2);
    solve_once(&rt, rt.alloc(), 64);
}

#[test]
fn two_jobs_at_once(rt: HostRuntime) {
    let alloc = rt.alloc();
    let work = Chains::new(alloc, 2, 1).expect(&rt, "memory");
    let board = Board::new(alloc, &work).expect(&rt, "memory");
    let gate = MeetingGate::new();
    drop(run_crew(&rt, &work, board, 2, &gate).expect(&rt, "memory"));
    drop(work);
    assert!(rt; gate.met());
}

#[test]
fn one_that_lacks_memory_stops_all(rt: HostRuntime) {
    let alloc = rt.alloc();
    let work = Chains::new(alloc, 9, 3).expect(&rt, "memory").refusing(4);
    let board = Board::new(alloc, &work).expect(&rt, "memory");
    let lacks = run_crew(&rt, &work, board, 3, &OpenGate);
    assert!(rt; lacks.is_err());
    drop(lacks);
    drop(work);
}

// What a crew and `assemble` give of nine components, if allocation doesn't fail.
fn count_of_outputs<R: Threads + Wait + Sync>(rt: &R, alloc: Global) -> Result<usize, Memory> {
    let work = Chains::new(alloc, 9, 3)?;
    let count = count_assembled(rt, alloc, &work);
    drop(work);
    count
}

fn count_assembled<R: Threads + Wait + Sync>(
    rt: &R,
    alloc: Global,
    work: &Chains,
) -> Result<usize, Memory> {
    let board = Board::new(alloc, work)?;
    let board = run_crew(rt, work, board, 3, &OpenGate)?;
    let outputs = assemble(alloc, work, &board);
    drop(board);
    let outputs = outputs?;
    let count = outputs.len();
    drop(outputs);
    Ok(count)
}

#[test]
fn nine_outputs_or_no_memory(rt: HostRuntime) {
    match count_of_outputs(&rt, rt.alloc()) {
        Ok(count) => assert!(rt; count == 9),
        Err(Memory) => {}
    }
}

// What three workers leave of a work that looks into a memo.
fn worked<R: Threads + Wait + Abort + Sync>(
    rt: &R,
    alloc: Global,
    work: &MemoWork<Chains>,
) -> Board<MemoWork<Chains>> {
    let board = Board::new(alloc, work).expect(rt, "memory");
    run_crew(rt, work, board, 3, &OpenGate).expect(rt, "memory")
}

// Nine components in three chains, with a memo of nothing.
fn nine(rt: &impl Abort, alloc: Global) -> MemoWork<Chains> {
    let chains = Chains::new(alloc, 9, 3).expect(rt, "memory");
    MemoWork::new(chains, Memo::new(alloc))
}

// The same work with what this board has as its memo.
fn again(
    rt: &impl Abort,
    alloc: Global,
    work: MemoWork<Chains>,
    board: &Board<MemoWork<Chains>>,
) -> MemoWork<Chains> {
    let memo = Memo::of(alloc, board).expect(rt, "memory");
    let (chains, _) = work.into_parts();
    MemoWork::new(chains, memo)
}

#[test]
fn what_the_memo_has_is_not_solved_again(rt: HostRuntime) {
    let alloc = rt.alloc();
    let work = nine(&rt, alloc);
    let board = worked(&rt, alloc, &work);
    assert!(rt; work.work().solves() == 9);
    let work = again(&rt, alloc, work, &board);
    drop(board);
    let board = worked(&rt, alloc, &work);
    assert!(rt; work.work().solves() == 9);
    let outputs = assemble(alloc, &work, &board).expect(&rt, "memory");
    assert!(rt; outputs.len() == 9 && are_outputs(outputs.as_slice()));
    drop(outputs);
    drop(board);
    drop(work);
}

// The output of a part whose only input this is.
fn solved_of(
    rt: &impl Abort,
    alloc: Global,
    work: &MemoWork<Chains>,
    part: u32,
    input: u32,
) -> u32 {
    let mut inputs = List::new(alloc);
    let input = Shared::new(alloc, input).expect(rt, "memory");
    inputs.add(input).expect(rt, "memory");
    *work.solve(&part, &inputs).expect(rt, "memory").get()
}

// The fifth component begins no chain: its input is the number of the fourth.
#[test]
fn other_inputs_are_solved(rt: HostRuntime) {
    let alloc = rt.alloc();
    let work = nine(&rt, alloc);
    let board = worked(&rt, alloc, &work);
    let work = again(&rt, alloc, work, &board);
    drop(board);
    assert!(rt; solved_of(&rt, alloc, &work, 4, 3) == 3);
    assert!(rt; work.work().solves() == 9);
    assert!(rt; solved_of(&rt, alloc, &work, 4, 8) == 8);
    assert!(rt; work.work().solves() == 10);
    drop(work);
}

#[test]
fn an_entry_is_found_by_part_and_inputs(rt: HostRuntime) {
    let alloc = rt.alloc();
    let none: List<Shared<u32>> = List::new(alloc);
    let work = nine(&rt, alloc);
    let board = worked(&rt, alloc, &work);
    let memo = Memo::of(alloc, &board).expect(&rt, "memory");
    drop(board);
    drop(work);
    assert!(rt; memo.find(&3, &none).map(|output| *output.get()) == Some(3));
    assert!(rt; memo.find(&4, &none).is_none());
    assert!(rt; memo.find(&9, &none).is_none());
    drop(memo);
}

//! The outputs of a work by workers.
ghost use Rattle.std.specs.Prelude.{◌≡◌, ◌≤◌, length, IfOk};
ghost use Rattle.summary_board.specs.Solved.{solved};

use da_shelf::Gate;
use std::alloc::Global;
use std::sync::Wait;
use std::thread::Threads;
use summary_board::{Board, Memo, MemoWork, Work, assemble};
use type_kinds::{List, Memory, Shared};
use worker_crew::run_crew;

// Takes the memo out. An empty one, if there is none.
fn taken<W: Work>(alloc: Global, memo: &mut Option<Memo<W>>) -> Memo<W> {
    match std::mem::replace(memo, None) {
        Some(memo) => memo,
        None => Memo::new(alloc),
    }
}

// The board of a work, when the workers have left it.
fn board_by<R: Threads + Wait + Sync, W: Work + Drop + Sync, G: Gate + Sync>(
    rt: &R,
    alloc: Global,
    work: &MemoWork<W>,
    workers: u32,
    gate: &G,
) -> Result<Board<MemoWork<W>>, Memory>
    requires least { 1 ≤ workers }
    requires most { workers ≤ 64 }
{
    let board = Board::new(alloc, work)?;
    run_crew(rt, work, board, workers, gate)
}

// The written outputs of a work, whatever its board has. Where there was a memo, it is that of the board then.
fn outputs_on<W: Work + Drop>(
    alloc: Global,
    work: &MemoWork<W>,
    board: &Board<MemoWork<W>>,
    keeps: bool,
    memo: &mut Option<Memo<W>>,
) -> Result<List<Shared<W::Out>>, Memory>
    ensures outputs { IfOk result (λ outputs. outputs ≡ solved W.written (W.part_of work.now.work) (W.callees_of work.now.work) (W.count_of work.now.work)) }
    ensures count { IfOk result (λ outputs. length outputs ≡ W.count_of work.now.work) }
{
    let outputs = assemble(alloc, work, board)?;
    if keeps {
        *memo = Some(Memo::of(alloc, board)?);
    }
    Ok(outputs)
}

// The written outputs of a work, by its board.
fn outputs_with<R: Threads + Wait + Sync, W: Work + Drop + Sync, G: Gate + Sync>(
    rt: &R,
    alloc: Global,
    work: &MemoWork<W>,
    keeps: bool,
    memo: &mut Option<Memo<W>>,
    workers: u32,
    gate: &G,
) -> Result<List<Shared<W::Out>>, Memory>
    requires least { 1 ≤ workers }
    requires most { workers ≤ 64 }
    ensures outputs { IfOk result (λ outputs. outputs ≡ solved W.written (W.part_of work.now.work) (W.callees_of work.now.work) (W.count_of work.now.work)) }
    ensures count { IfOk result (λ outputs. length outputs ≡ W.count_of work.now.work) }
{
    let board = board_by(rt, alloc, work, workers, gate)?;
    outputs_on(alloc, work, &board, keeps, memo)
}

/// The written outputs of a work, solved by `workers` workers, who look into the memo, if there is one, before they solve.
/// Whatever they left undone is solved here. The memo is then that of their board. `Memory` if allocation fails; then
/// there may be no memo any more.
pub fn outputs_by<R: Threads + Wait + Sync, W: Work + Drop + Sync, G: Gate + Sync>(
    rt: &R,
    alloc: Global,
    work: W,
    memo: &mut Option<Memo<W>>,
    workers: u32,
    gate: &G,
) -> Result<List<Shared<W::Out>>, Memory>
    requires least { 1 ≤ workers }
    requires most { workers ≤ 64 }
    ensures outputs { IfOk result (λ outputs. outputs ≡ solved W.written (W.part_of work) (W.callees_of work) (W.count_of work)) }
    ensures count { IfOk result (λ outputs. length outputs ≡ W.count_of work) }
{
    let keeps = memo.is_some();
    let work = MemoWork::new(work, taken(alloc, memo));
    outputs_with(rt, alloc, &work, keeps, memo, workers, gate)
}

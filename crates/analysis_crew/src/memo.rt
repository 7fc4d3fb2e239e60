//! The memo of solved components.
use comp_rounds::CompWork;
use std::alloc::Global;
use summary_board::Memo;

/// The outputs of components that were solved, by their parts and the outputs of those that they call.
pub type CompMemo = Memo<CompWork>;

/// A memo of nothing. Takes no memory.
pub fn empty_memo(alloc: Global) -> CompMemo {
    Memo::new(alloc)
}

/// Drops a memo.
pub fn discard_memo(_memo: CompMemo) {}

/// Drops a memo, if there is one.
pub fn discard_any(memo: Option<CompMemo>) {
    match memo {
        Some(memo) => discard_memo(memo),
        None => {}
    }
}

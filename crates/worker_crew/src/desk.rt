ghost use Rattle.std.specs.Prelude.{◌≡◌, true, IfOk, OnErr};
ghost use Rattle.summary_board.specs.Calls.{Takes, Fits, finished, halted};

use summary_board::{Board, Done, Job, Take, Work};
use type_kinds::Memory;

/// What lies under the lock: the board, and whether an allocation failed for a worker. Each method is one
/// critical section, and at most one event of the board.
#[derive(Drop)]
pub struct Desk<W: Work> {
    board: Board<W>,
    out_of_memory: bool,
}

impl<W: Work> Desk<W> {
    /// A desk with this board. Takes no memory.
    pub fn new(board: Board<W>) -> Desk<W>
        ensures { result.board ≡ board }
    {
        Desk {
            board,
            out_of_memory: false,
        }
    }

    // Stops the board because an allocation failed.
    fn give_up(&mut self)
        ensures stopped { self.new.board ≡ halted self.old.board }
        ensures noted { self.new.out_of_memory ≡ true }
    {
        self.board.stop();
        self.out_of_memory = true;
    }

    /// What the worker with this seat is told. If allocation fails, the board is stopped.
    pub fn take(&mut self, seat: u32) -> Result<Take<W>, Memory>
        ensures ok { IfOk result (λ told. Takes self.old.board seat told self.new.board) }
        ensures err { OnErr result ((self.new.board ≡ halted self.old.board) × (self.new.out_of_memory ≡ true)) }
    {
        match self.board.take(seat) {
            Ok(told) => Ok(told),
            Err(memory) => {
                self.give_up();
                Err(memory)
            }
        }
    }

    /// Finishes what the worker with this seat solved. The board is stopped if the job doesn't fit, so
    /// that nobody waits for its component, and if an allocation failed.
    pub fn hand_in(&mut self, seat: u32, solved: Result<Done<W>, (Job<W>, Memory)>)
        ensures fits { IfOk solved (λ done. Fits self.old.board seat done → self.new.board ≡ finished self.old.board seat done) }
        ensures misfit { IfOk solved (λ done. (Fits self.old.board seat done → ⊥) → self.new.board ≡ halted self.old.board) }
        ensures err { OnErr solved ((self.new.board ≡ halted self.old.board) × (self.new.out_of_memory ≡ true)) }
    {
        match solved {
            Ok(done) => {
                if self.board.fits(seat, &done) {
                    self.board.finish(seat, done);
                } else {
                    self.board.stop();
                }
            }
            Err(_) => self.give_up(),
        }
    }

    /// The board, unless an allocation failed for a worker. Takes no memory.
    pub fn into_board(self) -> Result<Board<W>, Memory>
        ensures ok { IfOk result (λ board. board ≡ self.board) }
        ensures err { OnErr result (self.out_of_memory ≡ true) }
    {
        let Desk {
            board,
            out_of_memory,
        } = self;
        if out_of_memory {
            Err(Memory)
        } else {
            Ok(board)
        }
    }
}

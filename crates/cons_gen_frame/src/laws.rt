//! The law, as a function that does nothing: who calls it has its clauses.
ghost use Rattle.cons_gen_frame.specs.Frame.{HeadFrame, RowsFrame};

/// The rows of an expression (`rows`), and those of the head of a clause (`head`), rest on what is known of the
/// functions that the expression, or the guard, calls, and on nothing else that is known of functions. Of a call by
/// module and name it doesn't matter whether the function is one that its module doesn't export or one that the module
/// doesn't have.
pub fn constraints_rest_on_calls()
    ensures rows { RowsFrame }
    ensures head { HeadFrame }
{}

//! The laws, as functions that do nothing: who calls one has its clauses.
ghost use Rattle.module_flow_frame.specs.Frame.{FindingsFrame, LinesFrame, OutsideFrame};
ghost use Rattle.module_flow_frame.specs.Sites.{TiedFindings, TiedLines};

use warn_list::one_text;

/// What is found in a module rests on what is known of its own functions and of those that it calls by literal names,
/// and on nothing else that is known of functions (`findings`), so the lines of its report do (`lines`). Of a function of
/// another module it doesn't matter whether it isn't exported or isn't there: where functions of other modules are seen
/// from outside, the findings are the same (`outside`).
pub fn findings_rest_on_calls()
    ensures findings { FindingsFrame }
    ensures lines { LinesFrame }
    ensures outside { OutsideFrame }
{
    one_text();
}

/// Each finding of a module is tied to its text: at its label stands a definition of the module, an application,
/// a call or a clause, as its kind says and with its names; its line is that of the node; and the compiler didn't
/// make it (`findings`). So the lines of the report are those of findings that are tied to the module (`lines`).
pub fn findings_are_tied()
    ensures findings { TiedFindings }
    ensures lines { TiedLines }
{}

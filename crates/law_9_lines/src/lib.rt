//! The log of each schedule has the order of its lines. Each function is a law: its contract is the statement, and it does nothing.
#![tactic(auto)]

ghost use Rattle.law_9_lines.specs.Laws.{ReplaysKeepOrder, SoaksKeepOrder};

/// Of whatever bytes `replay` reads, the group that the first line makes keeps one log over the lines that are played, and that has their order: what
/// each reply rests on was asked before it was put out, and what was put out as executed stands before whatever was first asked after that.
pub fn replays_keep_order()
    ensures { ReplaysKeepOrder }
{}

/// So it is of the lines that `soak` makes of a number.
pub fn soaks_keep_order()
    ensures { SoaksKeepOrder }
{}

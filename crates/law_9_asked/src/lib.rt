//! The log of a group has the order of time: what an answer rests on was asked before it. Each function is a law: its contract is the statement, and it does nothing.
#![tactic(auto)]

ghost use Rattle.law_9_asked.specs.Laws.{SchedulesKeepOrder, WorldsKeepOrder};

/// Whatever happens to a group of any number keeps one log, which has the order of what happened: what each reply rests on of it was asked before
/// that was put out, and what was put out as executed stands before whatever was first asked after that.
pub fn worlds_keep_order()
    ensures { WorldsKeepOrder }
{}

/// The group that a schedule begins keeps one log, which has the order of its lines.
pub fn schedules_keep_order()
    ensures { SchedulesKeepOrder }
{}

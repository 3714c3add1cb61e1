//! A schedule in which a request takes effect although its client never hears of it, and views change meanwhile. The prover works it on the disks that
//! lie, with the program's names, and so it is shown that what the laws on the order of time ask of a schedule can be met, and what they say of it.
//! Each function is a law: its contract is the statement, and it does nothing. No program stands on them.

ghost use Rattle.rows_computed.specs.Pending.{PendingTakesEffect};

/// Two clients ask. The primary of the first one is stopped before it answers, and that client hears nothing; its entry is committed in the next view.
/// Then the second one asks, and hears its outcome. The log has both, in this order, which is that of time.
pub fn a_pending_request_takes_effect()
    ensures { PendingTakesEffect }
{}

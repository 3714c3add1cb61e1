//! Which rule applies to an event.

/// Which rule applies to an event. Each has a number, by which it stands in the tables of docs/RULES.md.
#[derive(Clone, Copy, Debug, PartialEq, Eq)]
pub enum Rule {
    /// None: the event is ignored.
    Ignored,
    /// 1, a request: another replica leads.
    Redirected,
    /// 2: not all that is committed is applied, or blocks are missing.
    Behind,
    /// 3: an entry of the client stands above the commit number.
    InFlight,
    /// 4: the sessions answer it.
    Answered,
    /// 5: eight entries stand above the commit number, or op numbers are at their end.
    Full,
    /// 6: a new entry is made.
    Made,
    /// 7, a prepare: it is of a view that is left.
    PreparedBefore,
    /// 8: it is of a view whose log isn't here yet.
    PreparedLater,
    /// 9: the op is in the checkpoint.
    Past,
    /// 10: the op is past the window.
    Beyond,
    /// 11: its header is known.
    Known,
    /// 12: it is the next op, and stands on the head.
    Next,
    /// 13: ops before it are missing.
    Ahead,
    /// 14: another header is known, or it doesn't stand on the head.
    Other,
    /// 15, a prepare_ok: it counts.
    Counted,
    /// 16, a commit: it is of a view that is left.
    CommitBefore,
    /// 17: it is of a view whose log isn't here yet.
    CommitLater,
    /// 18: the commit number is learned.
    CommitHeard,
    /// 19, a start_view_change: it is of a view that is left.
    ChangeBefore,
    /// 20: it is of a later view, which is entered.
    ChangeLater,
    /// 21: its sender is heard.
    ChangeHeard,
    /// 22: the view has begun: its sender is told of it.
    ChangeDone,
    /// 23, a do_view_change: it is of a view that is left, or that another replica leads.
    StatedBefore,
    /// 24: the view has begun: its sender is told of it.
    StatedLate,
    /// 25: the statement is kept.
    Stated,
    /// 26, a start_view: the log is taken over.
    Taken,
    /// 27, a get_view: the log of the view is given.
    ViewGiven,
    /// 28, a get_prepare: the entry is given.
    EntryGiven,
    /// 29, a give_prepare: the entry is stored.
    EntryTaken,
    /// 30, a get_block: the block is given.
    BlockGiven,
    /// 31, a give_block: the block, which was missing, is stored.
    BlockTaken,
    /// 31 too: it is stored in place of one that has gone bad.
    BlockMended,
    /// 32, a tick: at the primary.
    TickedPrimary,
    /// 33: at another replica of a view that has begun.
    TickedBackup,
    /// 34: at a replica whose view hasn't begun.
    TickedChanging,
    /// 35, a start_view: its log is out of reach, and the view's checkpoint is asked for.
    SyncAsked,
    /// 36, a get_sync: the checkpoint and the log of the view are given.
    SyncGiven,
    /// 37, a sync_view: the checkpoint and the log are taken over.
    Jumped,
}

//! Safety of Viewstamped Replication whose stores may lose what was written: pure specification, over any type of entry headers and
//! any sizes of quorums that fit. Each function is a law: its contract is the statement, and it does nothing.
#![tactic(auto)]

ghost use Rattle.law_1_machine.specs.Laws.{EachRunKeepsTheInvariant, NothingIsTakenBack, CommittedEntriesAgree, CommittedEntriesEndure, OnlyNackQuorumsShorten, KnownHeadersStay, StatesComeFromCommittedEntries, NothingBecomesCommittable, ChoicesAreSafe};
ghost use Rattle.law_1_machine.specs.Quorums.{TableFits};
ghost use Rattle.law_1_machine.specs.Runs.{ACommittedEntryIsKept, ADeniedEntryIsDropped, ACutChoiceIsFound, AMemberJumps};

/// In every state that a run reaches the invariant holds.
pub fn each_run_keeps_the_invariant<H>()
    ensures { EachRunKeepsTheInvariant H }
{}

/// A move takes back nothing that was sent or chosen.
pub fn nothing_is_taken_back<H>()
    ensures { NothingIsTakenBack H }
{}

/// At each number at most one entry is committed, over all views, and each commit number is backed by committed entries.
pub fn committed_entries_agree<H>()
    ensures { CommittedEntriesAgree H }
{}

/// An entry committed in a view is in every log chosen in a later one, and in its prepares and start_views.
pub fn committed_entries_endure<H>()
    ensures { CommittedEntriesEndure H }
{}

/// A log is cut only where a nack quorum denied the next number, and none of it ever vouches for anything there.
pub fn only_nack_quorums_shorten<H>()
    ensures { OnlyNackQuorumsShorten H }
{}

/// A running member loses a known header above its checkpoint only as it takes over the log of a later view.
pub fn known_headers_stay<H>()
    ensures { KnownHeadersStay H }
{}

/// A member's state comes from a list of committed entries, and so does each checkpoint that it offers.
pub fn states_come_from_committed_entries<H>()
    ensures { StatesComeFromCommittedEntries H }
{}

/// Below a view that too few have still to reach, nothing new can become committed.
pub fn nothing_becomes_committable<H>()
    ensures { NothingBecomesCommittable H }
{}

/// A choice from true statements gives a log with which its view may begin.
pub fn choices_are_safe<H>()
    ensures { ChoicesAreSafe H }
{}

/// The table of quorums for 1 to 6 members fits.
pub fn the_table_fits()
    ensures { TableFits }
{}

/// There is a run in which an entry is committed and a later view keeps it, though a member denies it.
pub fn a_committed_entry_is_kept()
    ensures { ACommittedEntryIsKept }
{}

/// There is a run in which a nack quorum drops an entry, which can't be committed then.
pub fn a_denied_entry_is_dropped()
    ensures { ADeniedEntryIsDropped }
{}

/// There is a run in which a choice whose saving was cut is found by the next opening, and its view begins so.
pub fn a_cut_choice_is_found()
    ensures { ACutChoiceIsFound }
{}

/// There is a run in which a member jumps to a checkpoint of committed entries.
pub fn a_member_jumps()
    ensures { AMemberJumps }
{}

//! What every step and every opening puts out and saves. Each function is a law: its contract is the statement, and it does nothing.

ghost use Rattle.vr_rules.specs.Laws.{NothingIsDone, OnlyHearingIsDone, OpeningsArePresent, OpeningsSaveWell, SectorsFit, StepsArePresent, StepsSaveWell, WaitsOnlyLose};

/// A rule that says nothing leaves the replica as it is, and its step has no effects.
pub fn nothing_is_done<F>()
    ensures { NothingIsDone F }
{}

/// A prepare of the view that finds no place in the log only ends the replica's idle time.
pub fn only_hearing_is_done<F>()
    ensures { OnlyHearingIsDone F }
{}

/// A step that puts out that the choice waits changes nothing of what is known of the ops, but that a tick finds the entry of the slot
/// that it visits lost, where it doesn't read.
pub fn waits_only_lose<F>()
    ensures { WaitsOnlyLose F }
{}

/// Messages, replies and lines of a step name its replica and are of the replica's view at the end, go to another replica of its
/// group, and carry a commit number that it had during the step. A view is asked for of the sender of a message of that view.
pub fn steps_are_present<F>()
    ensures { StepsArePresent F }
{}

/// Messages and lines of an opening name its replica and are of its view, from any value that makes a good copy.
pub fn openings_are_present<F>()
    ensures { OpeningsArePresent F }
{}

/// Each value that a step saves makes a good copy, and what the step leaves can be saved again: from a sound replica that can be
/// saved, for every event of the program.
pub fn steps_save_well<F>()
    ensures { StepsSaveWell F }
{}

/// Each value that an opening saves makes a good copy, and what it leaves can be saved again: from any value that makes a good copy, whatever
/// headers read.
pub fn openings_save_well<F>()
    ensures { OpeningsSaveWell F }
{}

/// The program's sectors have names of 16 bytes, and the roots of its checkpoints stand in the grid.
pub fn sectors_fit()
    ensures { SectorsFit }
{}

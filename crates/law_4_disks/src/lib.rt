//! Worlds over disks that lie as runs of the group. Each function is a law: its contract is the statement, and it does nothing.
//!
//! What is asked of a line (`MayHappen`): it is one of a schedule; names don't collide, of what was read, held and written where a script
//! was cut or a fault was done; what a start reads as the header of an entry was made.
#![tactic(auto)]

ghost use Rattle.law_4_disks.specs.Chains.{OpeningsChain, StepsChain};
ghost use Rattle.law_4_disks.specs.Naming.{EntriesTell, NamesTell, ValuesTell};
ghost use Rattle.law_4_disks.specs.Laws.{EffectsCut, EffectsStay, LinesAreMoves, OpeningsCut, OpeningsFind, OpeningsStay, SchedulesBegin, ScriptsCut, ScriptsStay, WorldsBegin};

/// An effect that is carried out leaves the disk beside the member.
pub fn effects_stay()
    ensures { EffectsStay }
{}

/// An effect that is cut at one of its calls leaves the disk beside the member.
pub fn effects_cut()
    ensures { EffectsCut }
{}

/// A script that is carried out leaves the disk beside the member.
pub fn scripts_stay()
    ensures { ScriptsStay }
{}

/// A stop at any call of a script is a stop within one of its effects.
pub fn scripts_cut()
    ensures { ScriptsCut }
{}

/// A script that begins with a mending, from a stopped member, leaves the disk beside the member where it is carried out.
pub fn openings_stay()
    ensures { OpeningsStay }
{}

/// A stop at any call of a script that begins with a mending is a stop within one of its effects.
pub fn openings_cut()
    ensures { OpeningsCut }
{}

/// What an opening finds is sound, and its slots hold what was found stored.
pub fn openings_find()
    ensures { OpeningsFind }
{}

/// Each line of a schedule, over disks that lie, is a move of the group, or none; members, messages and outputs stay the same.
pub fn lines_are_moves()
    ensures { LinesAreMoves }
{}

/// A group of 1 to 6 replicas, whatever its number, of 2 at least where one is on a file of version 1, begins beside the world that begins.
pub fn worlds_begin()
    ensures { WorldsBegin }
{}

/// The world that a schedule begins is that of the group of number 0, on files of one kind.
pub fn schedules_begin()
    ensures { SchedulesBegin }
{}

/// What a step saves follows what its replica saved last, and the replica knows it.
pub fn steps_chain<F>()
    ensures { StepsChain F }
{}

/// What an opening saves follows what its replica saved last, and the replica knows it.
pub fn openings_chain<F>()
    ensures { OpeningsChain F }
{}

/// Where the names of what reads don't collide, a prepare is told apart from each other one of its header.
pub fn names_tell()
    ensures { NamesTell }
{}

/// Where names don't collide, two entries of one header are one.
pub fn entries_tell()
    ensures { EntriesTell }
{}

/// Where names don't collide, a copy with the name of a value has its text.
pub fn values_tell()
    ensures { ValuesTell }
{}

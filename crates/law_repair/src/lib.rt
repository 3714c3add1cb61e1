//! A running replica never waits at an op whose entry is here, copies that come complete it, and visits of its disk find what doesn't read,
//! of which each ask sends for one while there is some. Each function is a law: its contract is the statement, and it does nothing.
#![tactic(auto)]

ghost use Rattle.std.specs.Prelude.{ℕ};
ghost use Rattle.law_repair.specs.Asks.{ShortReplicasAsk, TicksAsk};
ghost use Rattle.law_repair.specs.Blocks.{BlocksMend};
ghost use Rattle.law_repair.specs.CaughtUp.{FreshKeepUp, OpeningsKeepUp, StepsKeepUp};
ghost use Rattle.law_repair.specs.Completing.{CopiesComplete};
ghost use Rattle.law_repair.specs.Cover.{LaysOut, VisitsCover};
ghost use Rattle.law_repair.specs.GroupCover.{GroupsCover};
ghost use Rattle.law_repair.specs.Groups.{GroupsKeepUp};
ghost use Rattle.law_repair.specs.Places.{PlacesStay};
ghost use Rattle.law_repair.specs.Turns.{VisitsTurn};
ghost use Rattle.law_repair.specs.Visits.{VisitsFind};
ghost use Rattle.vr_rules.specs.Sectors.{sectors_by};
ghost use Rattle.vr_world.specs.Lying.{lying};

/// After each step of a sound replica that had applied all that it could it has done so again, whatever reads.
pub fn steps_keep_up<F>()
    ensures { StepsKeepUp F }
{}

/// A replica that is recovered from a value which makes a good copy has applied all that it can, whatever reads.
pub fn openings_keep_up<F>()
    ensures { OpeningsKeepUp F }
{}

/// A replica of a new group has nothing to apply.
pub fn fresh_replicas_keep_up()
    ensures { FreshKeepUp }
{}

/// So in every run of a group of 1 to 6 replicas that was just made each running replica has applied all that it can, before and after
/// each move.
pub fn groups_keep_up()
    ensures { GroupsKeepUp }
{}

/// A sound replica that has its checkpoint, has applied all that it can, and whose stored entries up to its commit number all read: once
/// another member has given it, in order, the entry of each op up to there that it lacks, it has applied all that was committed. So it is in
/// each file that takes entries of the replica's version.
pub fn copies_complete()
    ensures sectors { (v : ℕ) → CopiesComplete (sectors_by v) (λ f. f) (λ f. v) }
    ensures lying { CopiesComplete lying (λ d. d.face) (λ d. d.version) }
{}

/// A block of the checkpoint that has gone bad, where no block is missing and the replica isn't frozen: where another member gives the bytes of
/// that block, it reads as they are, and no block of its address is bad any more. Nothing else of the replica changes.
pub fn blocks_mend()
    ensures sectors { (v : ℕ) → BlocksMend (sectors_by v) (λ f. f) }
    ensures lying { BlocksMend lying (λ d. d.face) }
{}

/// Of the ops above the checkpoint whose slots were visited, each entry that is here reads: one that doesn't was found lost. So it is after
/// every list of events of a sound replica, with no fault of its disk between them, in each file that takes entries of the replica's version.
pub fn visits_find()
    ensures sectors { (v : ℕ) → VisitsFind (sectors_by v) (λ f. f) (λ f. v) }
    ensures lying { VisitsFind lying (λ d. d.face) (λ d. d.version) }
{}

/// While a sound replica misses a block, lacks an entry above its checkpoint whose header it knows, or knows a block that has gone bad, each
/// ask sends for one of these, and for nothing else, where its group has another replica.
pub fn short_replicas_ask<F>()
    ensures { ShortReplicasAsk F }
{}

/// A tick that gives up no view asks last of all: where after it a block is missing, an entry above the checkpoint whose header is known is lost or
/// wanted, or a block is known as bad, the last message that it sends asks for one of these, where there is another replica.
pub fn ticks_ask<F>()
    ensures { TicksAsk F }
{}

/// Of a replica that misses no block each visit takes the place after that of the one before, around, whatever the disk reads as: as many visits
/// as there are places come to every slot, the superblock, and every block of the checkpoint.
pub fn visits_turn<F>()
    ensures { VisitsTurn F }
{}

/// After every list of events of a sound replica, with no fault of its disk between them, in which its checkpoint stayed and at least as many
/// visits were made as there are places: of each op above the checkpoint whose header is known the entry reads, or it is lost or wanted; each copy
/// of the superblock reads as the value that was saved last; each block of the checkpoint reads, or has gone bad. And while there is such an entry
/// or block each later ask sends for one, as `short_replicas_ask` says. So it is in each file that takes entries of the replica's version.
pub fn visits_cover()
    ensures sectors { (v : ℕ) → VisitsCover (sectors_by v) (λ f. f) (λ f. v) }
    ensures lying { VisitsCover lying (λ d. d.face) (λ d. d.version) }
{}

/// What `visits_cover` asks of a replica beside. While its checkpoint stays each step of a sound replica keeps this: its blocks stand apart, those
/// that have gone bad are among them, and none is known as bad while one is missing. The blocks of each checkpoint that loads stand in the
/// grid, no two at one address.
pub fn layouts_stay()
    ensures sectors { (v : ℕ) → LaysOut (sectors_by v) }
    ensures lying { LaysOut lying }
{}

/// The blocks of a replica's checkpoint stand at their places, so that no two stand at one address, and those that have gone bad are among
/// them: in a new group, after each opening from a value that makes a good copy, and after each step of a fit replica of which it was so,
/// whatever comes, where disks and blocks consist of bytes. Nothing is said of a replica whose sequence numbers are at their end.
pub fn places_stay()
    ensures sectors { (v : ℕ) → PlacesStay (sectors_by v) (λ f. f) }
    ensures lying { PlacesStay lying (λ d. d.face) }
{}

/// So what `visits_cover` says holds of each running replica, from any sectors of bytes that may lie, before and after each move of every run
/// of a group of 1 to 6 replicas that was just made. Nothing is asked of the replica; of the run, that its moves read what the program has,
/// from disks of bytes; and of the sectors, that their file takes entries of the replica's version.
pub fn groups_cover()
    ensures { GroupsCover }
{}

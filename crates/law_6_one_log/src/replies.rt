//! What every run of a group gives its replies: a checkpoint that is loaded, from whatever disk, is that of the one log. Each function is a law: its contract is the statement, and it does nothing.
ghost use Rattle.law_6_one_log.specs.ReplyLaws.{CheckpointsLoad, RunsReply};

/// A checkpoint that loads under the name of a root gives the texts that the root was made of, where names don't collide, whatever the disk reads as.
pub fn checkpoints_load()
    ensures { CheckpointsLoad }
{}

/// In a run that the machine follows, whose groups its groups stand for: what a replica has applied is committed, and each checkpoint
/// that is loaded, in an opening or once its last missing block is put, gives the state of the one log.
pub fn runs_reply()
    ensures { RunsReply }
{}

//! The checkpoint of an op is one in the whole group. The function is a law: its contract is the statement, and it does nothing.
ghost use Rattle.law_6_one_log.specs.CheckpointLaws.{CheckpointsAreOne};

/// In each run of a group that was just made, where names don't collide, the checkpoint of an op is written alike by whoever writes it.
pub fn checkpoints_are_one()
    ensures { CheckpointsAreOne }
{}

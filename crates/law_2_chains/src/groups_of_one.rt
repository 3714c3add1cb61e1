//! A replica that is a group by itself, as far as the machine is asked. Each function is a law: its contract is the statement, and it does nothing.
ghost use Rattle.law_2_chains.specs.LoneLaws.{LoneReplicasVouch, LoneStepsAreChains, RequestsAreLoneChains};

/// In the middle of a step a replica may vouch for what it has stored, and go on from there.
pub fn lone_replicas_vouch()
    ensures { LoneReplicasVouch }
{}

/// The handling of a request, in a group of any size, is a chain in which what was just made counts by itself.
pub fn requests_are_lone_chains<F>()
    ensures { RequestsAreLoneChains F }
{}

/// Each step of a replica that is a group by itself is such a chain.
pub fn lone_steps_are_chains<F>()
    ensures { LoneStepsAreChains F }
{}

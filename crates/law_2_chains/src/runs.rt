//! Every run of a group is one of the protocol's machine. Each function is a law: its contract is the statement, and it does nothing.
ghost use Rattle.law_2_chains.specs.RunLaws.{FreshRunsAreChains, MovesAreChains, RunsAreChains};

/// Each move of a group that the machine's group stands for is a chain of the machine's moves, and leaves such a group.
pub fn moves_are_chains()
    ensures { MovesAreChains }
{}

/// Each run of a group that the machine's group stands for is a chain of the machine's moves, move by move, and leaves such a group.
pub fn runs_are_chains()
    ensures { RunsAreChains }
{}

/// Every run of a group that was just made is such a run.
pub fn fresh_runs_are_chains()
    ensures { FreshRunsAreChains }
{}

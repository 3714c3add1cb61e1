//! A replica's steps and openings as chains of moves of the protocol's machine. Each function is a law: its contract is the statement, and it does nothing.
ghost use Rattle.law_2_chains.specs.ChainLaws.{OpeningsAreChains, ScriptsAgree, StepsAreChains};

/// Each step of each replica can be carried out in the machine, whatever it reads, to its end and wherever it is cut; at its end the
/// replica's tables are true again.
pub fn steps_are_chains<F>()
    ensures { StepsAreChains F }
{}

/// Each opening can be carried out in the machine, whatever it finds that is sound, to its end and wherever it is cut.
pub fn openings_are_chains<F>()
    ensures { OpeningsAreChains F }
{}

/// What a script leaves of a member, and what a cut of it leaves, are what the moves of the group say.
pub fn scripts_agree()
    ensures { ScriptsAgree }
{}

//! What the words of a member and of a trial ask for, as their runs take it.
ghost use Rattle.vr_top.specs.Roles.{IsGood, IsPlanOf, IsRoleOf};
ghost use Rattle.vr_args.specs.Asked.{Node, node_says};

use cmd_trial::Plan;
use vr_args::{NodeWords, TrialWords};
use vr_base::Config;
use vr_node::Role;

/// The role of a member with these words: their group, number, file, turns and addresses, and the kind that its file is made as, if any. The group
/// has as many members as there are addresses.
#[tactic(auto, using(crate::proofs::Coming::node_most, crate::proofs::Coming::node_config))]
pub fn role_of(words: NodeWords) -> Role
    requires { IsGood (Node (node_says words)) }
    ensures { IsRoleOf words result }
{
    Role {
        config: Config {
            cluster: words.cluster,
            replica: words.replica,
            n: words.peers.len() as u8,
        },
        fresh: words.fresh,
        file: words.file,
        turns: words.turns,
        peers: words.peers,
    }
}

/// The plan of a trial with these words: their group, turns, addresses and beginning of the disks' names.
#[tactic(auto, using(crate::proofs::Coming::planned))]
pub fn plan_of(words: TrialWords) -> Plan
    ensures { IsPlanOf words result }
{
    Plan {
        cluster: words.cluster,
        turns: words.turns,
        files: words.files,
        peers: words.peers,
    }
}

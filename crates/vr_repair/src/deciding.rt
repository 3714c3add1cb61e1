//! Which rule a message of repair leads to.
ghost use Rattle.std.specs.Prelude.{◌≡◌, Bool, if◌then◌else◌};
ghost use Rattle.vr_base.specs.Bytes.{name_of};
ghost use Rattle.vr_volatile.specs.Ready.{IsReady, MayStore};
ghost use Rattle.vr_repair.specs.Repairs.{rule_of};
ghost use Rattle.vr_rules.specs.Deciding.{first_of, get_block_table, get_prepare_table, give_prepare_table};
ghost use Rattle.vr_rules.specs.declared.rule.Rule.TheVariants.{Ignored};
ghost use Rattle.vr_rules.specs.Replica.{is_absent};

use vr_actions::{Replica, is_here};
use vr_ckpt::Name;
use vr_header::Part;
use vr_msg::{GetBlock, GetPrepare, GivePrepare};

/// What a message of repair leads to, by the name of its rule.
#[derive(Clone, Copy)]
pub enum Repair {
    /// Nothing is done.
    Ignored,
    /// The entry that is asked for is read, and given.
    EntryGiven,
    /// The entry was lost or wanted, and is stored.
    EntryTaken,
    /// The block that is asked for is given.
    BlockGiven,
    /// The block of this name was missing, and is put.
    BlockTaken(Name),
    /// The block of this name had gone bad, and is put.
    BlockMended(Name),
}

/// `EntryGiven` where the message is of this version and group and from another replica, the known header of its op has this name, and the
/// Part is `Here`. Else `Ignored`. Whether the entry reads isn't looked at.
#[tactic(auto, unfolding(vr_rules::specs::Deciding::first_of))]
pub fn decide_get_prepare(replica: &Replica, get: &GetPrepare) -> Repair
    ensures { first_of (get_prepare_table name_of get.now replica.now) ≡ rule_of result }
{
    if replica.is_from(get.version, get.cluster, get.replica)
        && replica.is_named(&get.name, get.op)
        && is_here(&replica.part_at(get.op))
    {
        Repair::EntryGiven
    } else {
        Repair::Ignored
    }
}

// Whether the Part is `Lost` or `Wanted`: a header is known, and its entry isn't to be had here.
fn is_absent(part: &Part) -> bool
    ensures { result ≡ is_absent part.now }
{
    match part {
        Part::Lost(_) | Part::Wanted(_) => true,
        Part::Here(_) | Part::Unknown | Part::Nothing => false,
    }
}

/// `EntryTaken` where the message is of this version and group and from another replica, and the entry's op, above the checkpoint, is
/// `Lost` or `Wanted` with its very header. Else `Ignored`. An entry that is taken may be stored (`MayStore`): it is in the window, and was
/// made in the log view or before.
#[tactic(auto, using(crate::proofs::Rules::may_take), unfolding(vr_rules::specs::Deciding::first_of))]
pub fn decide_give_prepare(replica: &Replica, give: &GivePrepare) -> Repair
    requires { IsReady replica.now }
    ensures rule { first_of (give_prepare_table give.now replica.now) ≡ rule_of result }
    ensures may { result ≡ Repair.EntryTaken → MayStore give.now.entry replica.now }
{
    let header = give.entry.header();
    if replica.is_from(give.version, header.cluster, give.replica)
        && replica.checkpoint() < header.op
        && replica.is_known(&header, header.op)
        && is_absent(&replica.part_at(header.op))
    {
        Repair::EntryTaken
    } else {
        Repair::Ignored
    }
}

/// `BlockGiven` where the message is of this version and group and from another replica, else `Ignored`. Whether the block reads isn't
/// looked at: where it does, this is the rule; where it doesn't, the rule is `Ignored`, whatever is answered here.
#[tactic(auto, unfolding(vr_rules::specs::Deciding::first_of))]
pub fn decide_get_block(replica: &Replica, get: &GetBlock) -> Repair
    ensures { (reads : Bool) → first_of (get_block_table reads get.now replica.now) ≡ (if reads then rule_of result else Ignored) }
{
    if replica.is_from(get.version, get.cluster, get.replica) {
        Repair::BlockGiven
    } else {
        Repair::Ignored
    }
}

//! Which missing block, or block that has gone bad, the bytes of a message are.
ghost use Rattle.std.specs.Prelude.{◌≡◌, Some, find, if◌then◌else◌};
ghost use Rattle.std.specs.List.{list_any};
ghost use Rattle.vr_rules.specs.declared.rule.Rule.TheVariants.{BlockMended, Ignored};
ghost use Rattle.vr_repair.specs.Repairs.{found_at, is_block, rule_of};
ghost use Rattle.vr_rules.specs.Deciding.{first_of, give_block_table, is_wanted};

use crate::deciding::Repair;
use vr_actions::Replica;
use vr_ckpt::{Name, NameList, is_block_of};
use vr_msg::GiveBlock;

// Whether the name has the address of the message, and the message's bytes are the whole block of this name. Only where the address is
// right they are hashed.
fn is_wanted(name: &Name, give: &GiveBlock) -> bool
    ensures { result ≡ is_wanted is_block give.now name.now }
{
    name.address == give.address && is_block_of(give.block.as_slice(), name)
}

// The name at this place, where it has the message's address and the message's bytes are its whole block. Else, and past the list, `None`.
fn wanted_at(names: &NameList, give: &GiveBlock, at: usize) -> Option<Name>
    ensures { result ≡ found_at (is_wanted is_block give.now) names.now at }
{
    match names.get(at) {
        Some(name) if is_wanted(&name, give) => Some(name),
        _ => None,
    }
}

// The first of these names that has the message's address, and whose whole block the message's bytes are; `None` where there is none.
#[tactic(auto, using(crate::proofs::Rules::found_more, crate::proofs::Rules::found_here, crate::proofs::Rules::found_past))]
fn find_wanted(names: &NameList, give: &GiveBlock) -> Option<Name>
    ensures { result ≡ find (is_wanted is_block give.now) names.now }
{
    for i in 0..names.len() {
        match wanted_at(names, give, i) {
            Some(name) => return Some(name),
            None => {}
        }
    }
    None
}

// `BlockMended` with the first worn name that has the message's address, and whose whole block its bytes are; `Ignored` where there is
// none. What is missing isn't looked at.
#[tactic(auto, using(crate::proofs::Rules::mended_some, crate::proofs::Rules::mended_none))]
fn decide_mended(replica: &Replica, give: &GiveBlock) -> Repair
    ensures name { (name : Name) → result ≡ Repair.BlockMended name → find (is_wanted is_block give.now) replica.now.worn ≡ Some name }
    ensures rule { rule_of result ≡ (if list_any (is_wanted is_block give.now) replica.now.worn then BlockMended else Ignored) }
{
    match find_wanted(replica.worn(), give) {
        Some(name) => Repair::BlockMended(name),
        None => Repair::Ignored,
    }
}

/// `Ignored` unless the message is of this version and group and from another replica. Then `BlockTaken` with the first missing name that
/// has its address, and whose whole block its bytes are. Where there is none, `BlockMended` with the first such worn name; else `Ignored`.
#[tactic(auto, using(crate::proofs::Rules::wanted_some, crate::proofs::Rules::wanted_none), unfolding(vr_rules::specs::Deciding::first_of))]
pub fn decide_give_block(replica: &Replica, give: &GiveBlock) -> Repair
    ensures rule { first_of (give_block_table is_block give.now replica.now) ≡ rule_of result }
    ensures name { (name : Name) → result ≡ Repair.BlockTaken name → find (is_wanted is_block give.now) replica.now.missing ≡ Some name }
    ensures mended { (name : Name) → result ≡ Repair.BlockMended name → find (is_wanted is_block give.now) replica.now.worn ≡ Some name }
{
    if !replica.is_from(give.version, give.cluster, give.replica) {
        return Repair::Ignored;
    }
    match find_wanted(replica.missing(), give) {
        Some(name) => Repair::BlockTaken(name),
        None => decide_mended(replica, give),
    }
}

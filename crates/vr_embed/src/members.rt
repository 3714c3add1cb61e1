//! The members of a group, each of which acts by its number.
ghost use Rattle.std.specs.Prelude.{◌≡◌, [], IfOk, OnOk, map};
ghost use Rattle.std.specs.List.{range_with_len};
ghost use Rattle.vr_world.specs.Lying.{hazards};
ghost use Rattle.vr_world.specs.World.{fresh_host, fused, handles, starts};
ghost use Rattle.vr_embed.specs.Groups.{ActsAt, ShowAll};
ghost use Rattle.vr_embed.specs.Members.{kind};

use crate::member::{MEMBERS, Member};
use std::alloc::Global;
use vr_replica::{Event, NoMemory, Outbox};

/// The members of a new group.
pub fn new_members(alloc: Global) -> Result<Vec<Member>, NoMemory>
    ensures { IfOk result (λ ms. ShowAll ms.items (map (fresh_host hazards kind 3) (range_with_len 0 3))) }
{
    let mut members = Vec::new(alloc);
    for index in 0..MEMBERS {
        let member = Member::new(alloc, index)?;
        members.push(member)?;
    }
    Ok(members)
}

/// An event reaches the member of this number, where there is one.
#[tactic(auto, using(std::proofs::lemmas::Grind::common_steps, crate::proofs::Worlds::acts_past))]
pub fn handle_at(
    members: &mut Vec<Member>,
    alloc: Global,
    index: u8,
    event: &Event,
    out: &mut Outbox,
) -> Result<(), NoMemory>
    ensures { OnOk result (ActsAt (handles hazards event.now) index members.old.items members.new.items out.new) }
{
    let at = index as usize;
    if at < members.len() {
        let member = &mut members[at];
        return member.handle(alloc, index, event, out);
    }
    out.clear();
    Ok(())
}

/// The member of this number is found again on its disk, where there is one.
#[tactic(auto, using(std::proofs::lemmas::Grind::common_steps, crate::proofs::Worlds::acts_past))]
pub fn recover_at(
    members: &mut Vec<Member>,
    alloc: Global,
    index: u8,
    out: &mut Outbox,
) -> Result<(), NoMemory>
    ensures { OnOk result (ActsAt (starts hazards) index members.old.items members.new.items out.new) }
{
    let at = index as usize;
    if at < members.len() {
        let member = &mut members[at];
        return member.recover(alloc, index, out);
    }
    out.clear();
    Ok(())
}

/// The power of the member of this number fails after so many calls of its disk, where there is one.
#[tactic(auto, using(std::proofs::lemmas::Grind::common_steps, crate::proofs::Worlds::acts_past))]
pub fn cut_at(members: &mut Vec<Member>, index: u8, calls: u64)
    ensures { ActsAt (fused calls 0) index members.old.items members.new.items [] }
{
    let at = index as usize;
    if at < members.len() {
        let member = &mut members[at];
        member.cut_after(calls);
    }
}

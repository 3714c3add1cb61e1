//! A group of members, and every message that they have sent.
ghost use Rattle.std.specs.Prelude.{ℕ, ◌≡◌, ◌<◌, ◌^◌, ◌++◌, true, false, IfOk, OnOk, OnErr, length, take};
ghost use Rattle.vr_base.specs.Groups.{is_size};
ghost use Rattle.vr_base.specs.declared.kind.Kind.{Kind};
ghost use Rattle.vr_lines.specs.Fits.{IsLineOf};
ghost use Rattle.vr_world.specs.Lying.{hazards};
ghost use Rattle.vr_world.specs.World.{fresh_world, happen, happens, no_world};
ghost use Rattle.vr_group.specs.Group.{HaveHappened, world_of};
ghost use Rattle.vr_group.specs.Headline.{HasAsked, HaveAsked, IsJustMade, LinesKeepOneLog};
ghost use Rattle.vr_group.specs.Lines.{AreLinesOf, happening, happenings, version_behind};
ghost use Rattle.vr_group.specs.Outputs.{numbered, outputs_of, text_of};
ghost use Rattle.vr_group.specs.Views.{top_view};

use crate::Outputs;
use crate::members::Members;
use crate::outputs::put_out;
use crate::views::top_view;
use std::alloc::Global;
use std::marker::Model;
use std::mem;
use vr_base::{ByteList, Kind, NoMemory, Seq, Version};
use vr_lines::Line;
use vr_msg::Output;

/// A group of members on disks that lie, and every message that they have sent. It stops where there is no memory for a line,
/// since a replica may then be in the midst of a step.
#[derive(Drop)]
pub struct World {
    members: Members,
    version: Version,
    live: bool,
}

impl Model for World {
    ghost use Rattle.vr_group.specs.Group.{Group, world_of};

    ghost Value = { Group };

    ghost view = { λ w. record { world = world_of w.members; last = w.members.out; version = w.version; live = w.live } };
}

// What happens at a line, after others.
#[tactic(auto, using(crate::proofs::Goings::sent_more, crate::proofs::Goings::put_more))]
fn happen_behind(
    members: &mut Members,
    alloc: Global,
    line: &Line,
    to: &mut Outputs,
) -> Result<(), NoMemory>
    requires group { 0 < members.old.n }
    requires of { (version : ℕ) × IsLineOf version members.old.n line.now }
    ensures happened { OnOk result (HaveHappened (happens hazards (world_of members.old) (happening line.now)) (world_of members.old) (world_of members.new) to.old to.new) }
    ensures asked { OnOk result (HasAsked line.now) }
{
    let number = members.sent.len() as u64;
    members.happen(alloc, line, &mut to.text)?;
    let out = mem::replace(&mut members.out, Seq::new(alloc));
    put_out(number, members.sent.len() as u64, out, &mut to.puts)?;
    Ok(())
}

// What happens at lines, one after the other.
#[tactic(auto, using(crate::proofs::Goings::goings))]
fn happen_all(
    members: &mut Members,
    alloc: Global,
    lines: &[Line],
    to: &mut Outputs,
) -> Result<(), NoMemory>
    requires group { 0 < members.old.n }
    requires of { (version : ℕ) × AreLinesOf version members.old.n lines.now }
    ensures happened { OnOk result (HaveHappened (happen hazards (world_of members.old) (happenings lines.now)) (world_of members.old) (world_of members.new) to.old to.new) }
    ensures asked { OnOk result (HaveAsked lines.now) }
{
    for line in lines {
        happen_behind(members, alloc, line, to)?;
    }
    Ok(())
}

// Cuts a text after so many bytes.
fn cut(alloc: Global, text: &mut ByteList, len: usize)
    ensures { text.new ≡ take len text.old }
{
    let mut bytes = mem::replace(text, ByteList::new(alloc)).into_vec();
    bytes.truncate(len);
    *text = ByteList::from_vec(bytes);
}

impl World {
    /// No group yet.
    pub fn empty(alloc: Global) -> World
        ensures world { result.world ≡ no_world }
        ensures version { result.version ≡ 1 }
        ensures live { result.live ≡ true }
    {
        World {
            members: Members {
                n: 0,
                hosts: Vec::new(alloc),
                sent: Seq::new(alloc),
                out: Seq::new(alloc),
            },
            version: Version::new(1),
            live: true,
        }
    }

    /// A new group of `n` members, 2 to 6 on files of version 1 and 1 to 6 on files of version 2, each on a new file of this kind.
    pub fn new(alloc: Global, n: u8, kind: Kind) -> Result<World, NoMemory>
        requires { is_size kind.version n ≡ true }
        ensures world { IfOk result (λ w. w.world ≡ fresh_world hazards kind n) }
        ensures version { IfOk result (λ w. w.version ≡ kind.version) }
        ensures live { IfOk result (λ w. w.live ≡ true) }
    {
        Ok(World {
            members: Members::begin(alloc, n, &kind)?,
            version: kind.version,
            live: true,
        })
    }

    /// Whether the group goes on.
    pub fn live(&self) -> bool
        ensures { result ≡ self.now.live }
    {
        self.live
    }

    /// The version of the lines that speak of it: that of its files as they were made, and 1 where there is no group yet.
    pub fn version(&self) -> Version
        ensures { result ≡ self.now.version }
    {
        self.version
    }

    /// How many members it has, 0 where there is no group yet.
    pub fn size(&self) -> u8
        ensures { result ≡ self.now.world.n }
    {
        self.members.n
    }

    /// How many messages were sent.
    pub fn messages(&self) -> usize
        ensures { result ≡ length self.now.world.sent }
    {
        self.members.sent.len()
    }

    /// The greatest view of its members, which stay as they are; that of a stopped one is what its superblock says.
    pub fn top_view(&mut self) -> u32
        requires live { self.old.live ≡ true }
        ensures view { result ≡ top_view self.old.world }
        ensures same { self.new ≡ self.old }
    {
        top_view(&mut self.members.hosts)
    }

    /// What its last line put out.
    pub fn last(&self) -> &[Output]
        ensures { result.now ≡ self.now.last }
    {
        self.members.out.as_slice()
    }

    /// What happens at one line; the text of what it puts out goes after what stands there. An `Err` stops the group and leaves the text as it was.
    #[tactic(auto, unfolding(vr_text::specs::Fronts::IsFront))]
    pub fn step(&mut self, alloc: Global, line: &Line, to: &mut ByteList) -> Result<(), NoMemory>
        requires live { self.old.live ≡ true }
        requires of { IsLineOf self.old.version self.old.world.n line.now }
        ensures world { OnOk result (self.new.world ≡ (happens hazards self.old.world (happening line.now)).world) }
        ensures version { OnOk result (self.new.version ≡ version_behind self.old.version line.now) }
        ensures outputs { OnOk result (self.new.last ≡ (happens hazards self.old.world (happening line.now)).outputs) }
        ensures text { OnOk result (to.new ≡ to.old ++ text_of (numbered (length self.old.world.sent) (happens hazards self.old.world (happening line.now)).outputs)) }
        ensures live { OnOk result (self.new.live ≡ true) }
        ensures stopped { OnErr result (self.new.live ≡ false) }
        ensures kept { OnErr result (to.new ≡ to.old) }
    {
        self.live = false;
        let len = to.len();
        if let Err(wanted) = self.members.happen(alloc, line, to) {
            cut(alloc, to, len);
            return Err(wanted);
        }
        if let Line::Cluster { kind, .. } = line {
            self.version = kind.version;
        }
        self.live = true;
        Ok(())
    }

    /// What happens at lines of a group, one after the other. An `Err` stops the group.
    #[tactic(auto, using(crate::proofs::Headline::just_made, crate::proofs::Numbering::outputs_alone))]
    pub fn run(&mut self, alloc: Global, lines: &[Line]) -> Result<Outputs, NoMemory>
        requires live { self.old.live ≡ true }
        requires group { 0 < self.old.world.n }
        requires of { AreLinesOf self.old.version self.old.world.n lines.now }
        ensures world { OnOk result (self.new.world ≡ (happen hazards self.old.world (happenings lines.now)).world) }
        ensures version { self.new.version ≡ self.old.version }
        ensures outputs { IfOk result (λ o. o ≡ outputs_of (numbered (length self.old.world.sent) (happen hazards self.old.world (happenings lines.now)).outputs)) }
        ensures live { OnOk result (self.new.live ≡ true) }
        ensures stopped { OnErr result (self.new.live ≡ false) }

        // Whatever happens to a group that was just made, on files of whichever kind, there is one log.
        ensures headline { OnOk result ((kind : Kind) → IsJustMade kind self.old.world → length lines.now < 2 ^ 60 → LinesKeepOneLog kind self.old.world.n lines.now) }
    {
        self.live = false;
        let mut outputs = Outputs::new(alloc);
        happen_all(&mut self.members, alloc, lines, &mut outputs)?;
        self.live = true;
        Ok(outputs)
    }
}

//! The members of a group, and the link between them.
ghost use Rattle.std.specs.Prelude.{◌≡◌, ◌+◌, ◌<◌, ◌≤◌, ◌∷◌, ◌++◌, [], IfOk, OnOk, false, length, true};
ghost use Rattle.vr_world.specs.Lying.{Lying, hazards};
ghost use Rattle.vr_world.specs.World.{Asks, Fuses, Starts, World, at_member, fresh_world, handles};
ghost use Rattle.vr_msg.specs.declared.event.Event.TheVariants as event;
ghost use Rattle.vr_rules.specs.Outputs.{message_of, messages};
ghost use Rattle.vr_embed.specs.Groups.{Goes, HasHappened, ShowsWorld, letters, ticks, told_line, told_lines};
ghost use Rattle.vr_embed.specs.Members.{kind};

use crate::link::Link;
use crate::member::{MEMBERS, Member};
use crate::members::{cut_at, handle_at, new_members, recover_at};
use std::alloc::{AllocError, Global};
use vr_replica::{ByteList, Event, NoMemory, Outbox, Output, Request, Sent, Seq};
use vr_text::write_text;

/// The members of a group, the link between them, and the lines of all that was put out but the letters.
#[derive(Drop)]
pub struct Group {
    pub members: Vec<Member>,
    pub link: Link,
    pub text: ByteList,
}

// One output: a letter goes to the link, and anything else is told.
fn put_out_one(link: &mut Link, text: &mut ByteList, output: Output) -> Result<(), AllocError>
    ensures letters { OnOk result (link.new.letters ≡ link.old.letters ++ message_of output) }
    ensures next { link.new.next ≡ link.old.next }
    ensures text { OnOk result (text.new ≡ text.old ++ told_line output) }
{
    match output {
        Output::Send(letter) => link.carry(letter),
        other => {
            let told = write_text(0, &other, text);
            drop(other);
            told
        }
    }
}

// All outputs of a step, in their order.
#[tactic(auto, using(std::proofs::lemmas::Grind::common_steps, crate::proofs::Telling::messages_more, crate::proofs::Telling::messages_none, crate::proofs::Telling::told_more, crate::proofs::Telling::told_none))]
fn put_out(link: &mut Link, text: &mut ByteList, out: Outbox) -> Result<(), AllocError>
    ensures letters { OnOk result (link.new.letters ≡ link.old.letters ++ messages out) }
    ensures next { link.new.next ≡ link.old.next }
    ensures text { OnOk result (text.new ≡ text.old ++ told_lines out) }
{
    for output in out.into_vec() {
        put_out_one(link, text, output)?;
    }
    Ok(())
}

impl Group {
    /// A group that was just made.
    pub fn new(alloc: Global) -> Result<Group, NoMemory>
        ensures world { IfOk result (λ g. ShowsWorld g (fresh_world hazards kind MEMBERS)) }
        ensures next { IfOk result (λ g. g.link.next ≡ 0) }
        ensures text { IfOk result (λ g. g.text ≡ []) }
    {
        Ok(Group {
            members: new_members(alloc)?,
            link: Link::new(alloc),
            text: Seq::new(alloc),
        })
    }

    // An event reaches a member, and what it puts out goes on its way.
    fn handle(&mut self, alloc: Global, index: u8, event: &Event) -> Result<(), NoMemory>
        ensures happened { OnOk result ((w : World Lying) → ShowsWorld self.old w → HasHappened (at_member w index (handles hazards event.now)) self.old self.new) }
        ensures next { self.new.link.next ≡ self.old.link.next }
    {
        let mut out = Seq::new(alloc);
        handle_at(&mut self.members, alloc, index, event, &mut out)?;
        put_out(&mut self.link, &mut self.text, out)?;
        Ok(())
    }

    /// A client asks a member.
    pub fn ask(&mut self, alloc: Global, index: u8, request: Request) -> Result<(), NoMemory>
        ensures goes { OnOk result (Goes (Asks index request ∷ []) self.old self.new) }
        ensures next { self.new.link.next ≡ self.old.link.next }
    {
        let event = Event::Request(request);
        let handled = self.handle(alloc, index, &event);
        drop(event);
        handled
    }

    /// The next letter is lost.
    pub fn lose(&mut self)
        ensures goes { Goes [] self.old self.new }
        ensures least { self.old.link.next ≤ self.new.link.next }
        ensures next { self.new.link.next ≤ self.old.link.next + 1 }
    {
        self.link.lose();
    }

    // A letter reaches its member.
    fn hand_over(&mut self, alloc: Global, letter: Sent) -> Result<(), NoMemory>
        ensures happened { OnOk result ((w : World Lying) → ShowsWorld self.old w → HasHappened (at_member w letter.to (handles hazards (event.Deliver letter.message))) self.old self.new) }
        ensures next { self.new.link.next ≡ self.old.link.next }
    {
        let event = Event::Deliver(letter.message);
        let handled = self.handle(alloc, letter.to, &event);
        drop(event);
        handled
    }

    // The next letter reaches its member; whether there was one.
    #[tactic(auto, using(std::proofs::lemmas::Grind::common_steps, crate::proofs::Worlds::goes_still, crate::proofs::Worlds::goes_lost))]
    fn deliver_one(&mut self, alloc: Global) -> Result<bool, NoMemory>
        ensures goes { OnOk result (Goes (letters self.old.link.next self.new.link.next) self.old self.new) }
        ensures least { self.old.link.next ≤ self.new.link.next }
        ensures most { self.new.link.next ≤ self.old.link.next + 1 }
        ensures one { IfOk result (λ there. there ≡ true → self.new.link.next ≡ self.old.link.next + 1) }
        ensures all { IfOk result (λ there. there ≡ false → length self.new.link.letters ≤ self.new.link.next) }
    {
        let taken = self.link.take(alloc)?;
        match taken {
            None => Ok(false),
            Some(letter) => {
                self.hand_over(alloc, letter)?;
                Ok(true)
            }
        }
    }

    /// Each letter reaches its member, and those that are sent then, up to so many.
    #[tactic(auto, using(std::proofs::lemmas::Grind::common_steps, crate::proofs::Worlds::goes_start, crate::proofs::Worlds::goes_on))]
    pub fn deliver(&mut self, alloc: Global, most: u32) -> Result<(), NoMemory>
        ensures goes { OnOk result (Goes (letters self.old.link.next self.new.link.next) self.old self.new) }
        ensures least { self.old.link.next ≤ self.new.link.next }
        ensures most { self.new.link.next ≤ self.old.link.next + most }
        ensures all { OnOk result (self.new.link.next < self.old.link.next + most → length self.new.link.letters ≤ self.new.link.next) }
    {
        for _ in 0..most {
            if !self.deliver_one(alloc)? {
                return Ok(());
            }
        }
        Ok(())
    }

    /// Time goes by at each member.
    #[tactic(auto, using(std::proofs::lemmas::Grind::common_steps, crate::proofs::Worlds::goes_nowhere))]
    pub fn tick(&mut self, alloc: Global) -> Result<(), NoMemory>
        ensures goes { OnOk result (Goes ticks self.old self.new) }
        ensures next { self.new.link.next ≡ self.old.link.next }
    {
        for index in 0..MEMBERS {
            self.handle(alloc, index, &Event::Tick)?;
        }
        Ok(())
    }

    /// After so many calls of its disk a member's power fails.
    pub fn cut_after(&mut self, index: u8, calls: u64)
        ensures goes { Goes (Fuses index calls 0 ∷ []) self.old self.new }
        ensures next { self.new.link.next ≡ self.old.link.next }
    {
        cut_at(&mut self.members, index, calls);
    }

    /// A member is found again on its disk.
    pub fn recover(&mut self, alloc: Global, index: u8) -> Result<(), NoMemory>
        ensures goes { OnOk result (Goes (Starts index ∷ []) self.old self.new) }
        ensures next { self.new.link.next ≡ self.old.link.next }
    {
        let mut out = Seq::new(alloc);
        recover_at(&mut self.members, alloc, index, &mut out)?;
        put_out(&mut self.link, &mut self.text, out)?;
        Ok(())
    }

    /// The lines of all that was put out but the letters.
    pub fn into_text(self) -> ByteList
        ensures { result ≡ self.text }
    {
        self.text
    }
}

//! The members of a group, and their messages.
ghost use Rattle.std.specs.Prelude.{ℕ, ◌≡◌, [], IfOk, OnOk, true};
ghost use Rattle.vr_base.specs.Groups.{is_size};
ghost use Rattle.vr_lines.specs.Fits.{IsLineOf};
ghost use Rattle.vr_world.specs.Lying.{hazards};
ghost use Rattle.vr_world.specs.World.{Arrives, at_member, fresh_world, happens};
ghost use Rattle.vr_group.specs.Deeds.{IsDeed, act_of};
ghost use Rattle.vr_group.specs.Headline.{HasAsked};
ghost use Rattle.vr_group.specs.Lines.{happening};
ghost use Rattle.vr_text.specs.Fronts.{IsFront};

use crate::asked::what_is_asked;
use crate::hosts::{act_at, make_hosts};
use crate::outputs::record_outputs;
use crate::{Deed, Host, Letter};
use std::alloc::Global;
use vr_base::{ByteList, Kind, NoMemory, Seq};
use vr_lie::Fault;
use vr_lines::Line;
use vr_msg::{Event, Outbox};

/// The members of a group, and every message that they have sent.
#[derive(Drop)]
pub struct Members {
    pub n: u8,
    pub hosts: Vec<Host>,
    pub sent: Seq<Letter>,
    /// What was put out last.
    pub out: Outbox,
}

impl Members {
    ghost use Rattle.vr_group.specs.Group.{HasHappened, world_of};

    /// A new group, each member on a new file of this kind.
    pub fn begin(alloc: Global, n: u8, kind: &Kind) -> Result<Members, NoMemory>
        requires { is_size kind.now.version n ≡ true }
        ensures world { IfOk result (λ m. world_of m ≡ fresh_world hazards kind.now n) }
        ensures out { IfOk result (λ m. m.out ≡ []) }
    {
        Ok(Members {
            n,
            hosts: make_hosts(alloc, n, kind)?,
            sent: Seq::new(alloc),
            out: Seq::new(alloc),
        })
    }

    // A new group takes the place of this one, which is let go of here.
    fn renew(&mut self, alloc: Global, n: u8, kind: &Kind) -> Result<(), NoMemory>
        requires { is_size kind.now.version n ≡ true }
        ensures world { OnOk result (world_of self.new ≡ fresh_world hazards kind.now n) }
        ensures out { OnOk result (self.new.out ≡ []) }
    {
        *self = Members::begin(alloc, n, kind)?;
        Ok(())
    }

    // Something is done to a member.
    #[tactic(auto, using(crate::proofs::Acts::happened_as, vr_text::proofs::Fronts::front_same))]
    fn act(
        &mut self,
        alloc: Global,
        replica: u8,
        deed: &Deed<'_>,
        to: &mut ByteList,
    ) -> Result<(), NoMemory>
        requires { IsDeed deed.now }
        ensures happened { OnOk result (HasHappened (at_member (world_of self.old) replica (act_of deed.now)) (world_of self.old) (world_of self.new) self.new.out to.old to.new) }
        ensures front { IsFront to.old to.new }
    {
        self.out.clear();
        act_at(&mut self.hosts, alloc, replica, deed, &mut self.out)?;
        record_outputs(alloc, &mut self.sent, self.out.as_slice(), to)?;
        Ok(())
    }

    // The message of this number, counted from the front again past the last, reaches its destination.
    #[tactic(auto, using(vr_text::proofs::Fronts::front_same))]
    fn deliver(&mut self, alloc: Global, number: u64, to: &mut ByteList) -> Result<(), NoMemory>
        ensures happened { OnOk result (HasHappened (happens hazards (world_of self.old) (Arrives number)) (world_of self.old) (world_of self.new) self.new.out to.old to.new) }
        ensures front { IsFront to.old to.new }
    {
        self.out.clear();
        let count = self.sent.len() as u64;
        if count == 0 {
            return Ok(());
        }
        let letter = &self.sent.as_slice()[(number % count) as usize];
        let delivery = letter.delivery(alloc)?;
        let deed = Deed::Handle(delivery.event());
        let acted = act_at(&mut self.hosts, alloc, letter.to(), &deed, &mut self.out);
        drop(delivery);
        acted?;
        record_outputs(alloc, &mut self.sent, self.out.as_slice(), to)?;
        Ok(())
    }

    /// What a line says of it; the text of what that puts out goes after what stands there, of which an `Err` may have added some.
    #[tactic(auto, using(vr_base::proofs::Members::is_sized, vr_text::proofs::Fronts::front_same, crate::proofs::Acts::begun, crate::proofs::Sectors::on_disk))]
    pub fn happen(&mut self, alloc: Global, line: &Line, to: &mut ByteList) -> Result<(), NoMemory>
        requires { (version : ℕ) × IsLineOf version self.old.n line.now }
        ensures happened { OnOk result (HasHappened (happens hazards (world_of self.old) (happening line.now)) (world_of self.old) (world_of self.new) self.new.out to.old to.new) }
        ensures asked { OnOk result (HasAsked line.now) }
        ensures front { IsFront to.old to.new }
    {
        match line {
            Line::Cluster { n, kind } => {
                self.renew(alloc, *n, kind)?;
                Ok(())
            }
            Line::Request { replica, request } => {
                self.act(alloc, *replica, &Deed::Ask(what_is_asked(request)), to)
            }
            Line::Deliver(number) => self.deliver(alloc, *number, to),
            Line::Tick(replica) => self.act(alloc, *replica, &Deed::Handle(&Event::Tick), to),
            Line::Stop(replica) => self.act(alloc, *replica, &Deed::Stop, to),
            Line::Start(replica) => self.act(alloc, *replica, &Deed::Start, to),
            Line::Migrate(replica) => self.act(alloc, *replica, &Deed::Migrate, to),
            Line::Fuse {
                replica,
                call,
                code,
            } => {
                let (call, code) = (*call as u64, *code);
                self.act(alloc, *replica, &Deed::Fuse { call, code }, to)
            }
            Line::Damage { replica, sector } => {
                self.act(alloc, *replica, &Deed::Lie(Fault::Damage(*sector)), to)
            }
            Line::Stale { replica, sector } => {
                self.act(alloc, *replica, &Deed::Lie(Fault::Stale(*sector)), to)
            }
            Line::Unread { replica, sector } => {
                self.act(alloc, *replica, &Deed::Lie(Fault::Unread(*sector)), to)
            }
            Line::Misdirect {
                replica,
                sector,
                other,
            } => {
                let fault = Fault::Misdirect(*sector, *other);
                self.act(alloc, *replica, &Deed::Lie(fault), to)
            }
        }
    }
}

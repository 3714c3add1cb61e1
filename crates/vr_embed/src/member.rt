//! A member: its replica and its disk.
ghost use Rattle.std.specs.Prelude.{◌≡◌, ◌<◌, ◌∷◌, [], None, IfOk, OnOk};
ghost use Rattle.vr_world.specs.Lying.{hazards};
ghost use Rattle.vr_world.specs.World.{fresh_host, fused, handles, starts};
ghost use Rattle.vr_host_disk.specs.Laws.{revived};
ghost use Rattle.vr_msg.specs.declared.output.Output.TheVariants as output;
ghost use Rattle.vr_embed.specs.Members.{Acts, Shows, kind};
ghost use Rattle.vr_embed.specs.Told.{told_by};

use crate::shelf::Shelf;
use std::alloc::Global;
use vr_replica::{
    Config, Event, Halt, Kind, Mode, NoMemory, NoValue, Outbox, Output, Replica, Version,
};

/// The number of the group.
pub const GROUP: u64 = 0;

/// How many members it has.
pub const MEMBERS: u8 = 3;

/// A replica, none while it is stopped, and its disk.
#[derive(Drop)]
pub struct Member {
    pub replica: Option<Replica>,
    pub disk: Shelf,
}

// The version of each member's file.
fn version() -> Version
    ensures { result ≡ 2 }
{
    Version::new(2)
}

// The power has failed in the midst of a step: the replica is gone, and the shelf is whole again, as the loss of power left it.
fn halt(
    replica: &mut Option<Replica>,
    disk: &mut Shelf,
    index: u8,
    out: &mut Outbox,
) -> Result<(), NoMemory>
    requires { out.old ≡ [] }
    ensures gone { replica.new ≡ None }
    ensures told { told_by disk.new ≡ revived (told_by disk.old) }
    ensures out { OnOk result (out.new ≡ output.Halted index ∷ []) }
{
    drop(replica.take());
    disk.restore();
    out.push(Output::Halted(index))?;
    Ok(())
}

// An event reaches a replica, which takes one step, if it runs.
fn step_on(
    replica: &mut Option<Replica>,
    disk: &mut Shelf,
    alloc: Global,
    index: u8,
    event: &Event,
    out: &mut Outbox,
) -> Result<(), NoMemory>
    ensures { OnOk result (Acts (handles hazards event.now index) replica.old (told_by disk.old) replica.new (told_by disk.new) out.new) }
{
    out.clear();
    let Some(running) = replica else {
        return Ok(());
    };
    if !running.running() {
        return Ok(());
    }
    match running.step(alloc, disk, event, out) {
        Ok(()) => Ok(()),
        Err(Halt::NoMemory) => {
            drop(replica.take());
            Err(NoMemory)
        }
        Err(Halt::DiskFault) => halt(replica, disk, index, out),
    }
}

// The replica of the shelf, which is no other member's.
fn recover_stopped(
    replica: &mut Option<Replica>,
    disk: &mut Shelf,
    alloc: Global,
    index: u8,
    out: &mut Outbox,
) -> Result<(), NoMemory>
    requires { replica.old ≡ None }
    ensures { OnOk result (Acts (starts hazards index) replica.old (told_by disk.old) replica.new (told_by disk.new) out.new) }
{
    match Replica::recover_any(alloc, disk, version(), out) {
        Ok(recovered) => {
            drop(replica.replace(recovered));
            Ok(())
        }
        Err(NoValue::Halted(Halt::NoMemory)) => Err(NoMemory),
        Err(NoValue::Halted(Halt::DiskFault)) => halt(replica, disk, index, out),
        Err(NoValue::Lost(_)) => Ok(()),
        Err(NoValue::OtherVersion) => Ok(()),
    }
}

// Recovers the member from its disk where no replica runs; where one runs, nothing happens.
fn recover_on(
    replica: &mut Option<Replica>,
    disk: &mut Shelf,
    alloc: Global,
    index: u8,
    out: &mut Outbox,
) -> Result<(), NoMemory>
    ensures { OnOk result (Acts (starts hazards index) replica.old (told_by disk.old) replica.new (told_by disk.new) out.new) }
{
    out.clear();
    if replica.is_some() {
        return Ok(());
    }
    recover_stopped(replica, disk, alloc, index, out)
}

impl Member {
    /// The member of this number of a new group, on a shelf of zeros.
    pub fn new(alloc: Global, index: u8) -> Result<Member, NoMemory>
        requires { index < MEMBERS }
        ensures { IfOk result (λ m. Shows m.replica (told_by m.disk) (fresh_host hazards kind MEMBERS index)) }
    {
        let kind = Kind {
            mode: Mode::Strict,
            version: version(),
        };
        let config = Config {
            cluster: GROUP,
            replica: index,
            n: MEMBERS,
        };
        let mut disk = Shelf::new(alloc)?;
        match Replica::fresh(alloc, &mut disk, &config, kind) {
            Ok(replica) => Ok(Member {
                replica: Some(replica),
                disk,
            }),
            Err(_) => {
                drop(disk);
                Err(NoMemory)
            }
        }
    }

    /// An event reaches it, in one step. While it is stopped nothing happens.
    pub fn handle(
        &mut self,
        alloc: Global,
        index: u8,
        event: &Event,
        out: &mut Outbox,
    ) -> Result<(), NoMemory>
        ensures { OnOk result (Acts (handles hazards event.now index) self.old.replica (told_by self.old.disk) self.new.replica (told_by self.new.disk) out.new) }
    {
        step_on(&mut self.replica, &mut self.disk, alloc, index, event, out)
    }

    /// After so many calls of its disk its power fails.
    pub fn cut_after(&mut self, calls: u64)
        ensures { Acts (fused calls 0 0) self.old.replica (told_by self.old.disk) self.new.replica (told_by self.new.disk) [] }
    {
        self.disk.cut_after(calls);
    }

    /// It is found again on its disk. Where it runs nothing happens.
    pub fn recover(&mut self, alloc: Global, index: u8, out: &mut Outbox) -> Result<(), NoMemory>
        ensures { OnOk result (Acts (starts hazards index) self.old.replica (told_by self.old.disk) self.new.replica (told_by self.new.disk) out.new) }
    {
        recover_on(&mut self.replica, &mut self.disk, alloc, index, out)
    }
}

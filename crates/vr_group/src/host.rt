//! What hosts a member of the group.
ghost use Rattle.std.specs.Prelude.{◌≡◌, ◌<◌, ◌∷◌, [], None, IfOk, OnOk, true};
ghost use Rattle.std.specs.Option.{option_map_or};
ghost use Rattle.vr_base.specs.Groups.{is_size};
ghost use Rattle.vr_super.specs.Opens as superblock;
ghost use Rattle.vr_lie.specs.Told.{version_by};
ghost use Rattle.vr_world.specs.Lying.{hazards, settled};
ghost use Rattle.vr_world.specs.World.{fresh_host, handles, migrates, starts};
ghost use Rattle.vr_msg.specs.declared.output.Output.TheVariants as output;
ghost use Rattle.vr_host_disk.specs.Disks.{lying_of, told_by};
ghost use Rattle.vr_host_disk.specs.Laws.{revived};
ghost use Rattle.vr_host_disk.specs.Told.{IsTold};
ghost use Rattle.vr_group.specs.Deeds.{IsDeed, act_of};
ghost use Rattle.vr_group.specs.Hosts.{HasActed, IsHost, host_of};
ghost use Rattle.vr_group.specs.Views.{view_of};

use crate::Deed;
use crate::asked::asked;
use std::alloc::Global;
use std::marker::Model;
use vr_base::{Config, Kind, NoMemory, Version};
use vr_host_disk::HostDisk;
use vr_lie::{Faulted, opens};
use vr_msg::{Event, Outbox, Output};
use vr_replica::{Halt, NoValue, Replica};

/// A member's replica, none while it is stopped, and its disk.
#[derive(Drop)]
pub struct Host {
    replica: Option<Replica>,
    disk: HostDisk,
}

impl Model for Host {
    ghost use Rattle.vr_world.specs.Lying.{Lying};
    ghost use Rattle.vr_world.specs.World as world;
    ghost use Rattle.vr_group.specs.Hosts.{IsHost, host_of};

    ghost Value = { world.Host Lying };

    ghost view = { λ h. host_of h.replica h.disk };

    ghost invariant = { λ h. IsHost h.replica h.disk };
}

// A fuse has cut a call: the replica is gone, and the next calls go through again.
fn halt(
    replica: &mut Option<Replica>,
    disk: &mut HostDisk,
    index: u8,
    out: &mut Outbox,
) -> Result<(), NoMemory>
    requires { out.old ≡ [] }
    ensures gone { replica.new ≡ None }
    ensures told { told_by disk.new ≡ revived (told_by disk.old) }
    ensures version { version_by disk.new.lie ≡ version_by disk.old.lie }
    ensures out { OnOk result (out.new ≡ output.Halted index ∷ []) }
{
    drop(replica.take());
    disk.revive();
    out.push(Output::Halted(index))?;
    Ok(())
}

// A replica that runs handles an event; a stopped one doesn't.
fn step_on(
    replica: &mut Option<Replica>,
    disk: &mut HostDisk,
    alloc: Global,
    index: u8,
    event: &Event,
    out: &mut Outbox,
) -> Result<(), NoMemory>
    requires host { IsHost replica.old disk.old }
    requires empty { out.old ≡ [] }
    ensures host { IsHost replica.new disk.new }
    ensures acted { OnOk result (HasActed (handles hazards event.now index (host_of replica.old disk.old)) (host_of replica.new disk.new) out.new) }
{
    let Some(running) = replica else {
        return Ok(());
    };
    match running.step(alloc, disk, event, out) {
        Ok(()) => Ok(()),
        Err(Halt::NoMemory) => {
            drop(replica.take());
            Err(NoMemory)
        }
        Err(Halt::DiskFault) => halt(replica, disk, index, out),
    }
}

// The replica of the disk, where a fuse lets it be.
fn recover_on(
    replica: &mut Option<Replica>,
    disk: &mut HostDisk,
    alloc: Global,
    index: u8,
    out: &mut Outbox,
) -> Result<(), NoMemory>
    requires stopped { replica.old ≡ None }
    requires told { IsTold (version_by disk.old.lie) (told_by disk.old) }
    ensures host { IsHost replica.new disk.new }
    ensures acted { OnOk result (HasActed (starts hazards index (host_of None disk.old)) (host_of replica.new disk.new) out.new) }
{
    let version = disk.version();
    match Replica::recover_any(alloc, disk, version, out) {
        Ok(recovered) => {
            drop(replica.replace(recovered));
            Ok(())
        }
        Err(NoValue::Halted(Halt::NoMemory)) => Err(NoMemory),
        Err(NoValue::Halted(Halt::DiskFault)) => halt(replica, disk, index, out),
        Err(NoValue::Lost(_)) => Ok(()),
        Err(NoValue::OtherVersion) => Ok(()),
    }
}

// A member is recovered. Where it runs, or its superblock doesn't open, nothing happens.
fn start_on(
    replica: &mut Option<Replica>,
    disk: &mut HostDisk,
    alloc: Global,
    index: u8,
    out: &mut Outbox,
) -> Result<(), NoMemory>
    requires host { IsHost replica.old disk.old }
    requires empty { out.old ≡ [] }
    ensures host { IsHost replica.new disk.new }
    ensures acted { OnOk result (HasActed (starts hazards index (host_of replica.old disk.old)) (host_of replica.new disk.new) out.new) }
{
    if replica.is_some() {
        return Ok(());
    }
    recover_on(replica, disk, alloc, index, out)
}

// The version of the value that a disk opens as; that of its file, where it opens as none.
#[tactic(auto, using(crate::proofs::Migrates::version_found))]
fn version_in(disk: &mut HostDisk) -> Version
    ensures value { result ≡ option_map_or (λ v. v.fields.version) (superblock.opens (told_by disk.old).face) (version_by disk.old.lie) }
    ensures told { told_by disk.new ≡ told_by disk.old }
    ensures version { version_by disk.new.lie ≡ version_by disk.old.lie }
{
    match opens(disk) {
        Some(found) => found.version,
        None => disk.version(),
    }
}

// The file on a disk is of the version of the value that opens.
#[tactic(auto, using(crate::proofs::Migrates::settles))]
fn settle(disk: &mut HostDisk)
    requires { IsTold (version_by disk.old.lie) (told_by disk.old) }
    ensures lying { lying_of disk.new ≡ settled (lying_of disk.old) }
    ensures fate { (told_by disk.new).fate ≡ (told_by disk.old).fate }
    ensures told { IsTold (version_by disk.new.lie) (told_by disk.new) }
{
    let version = version_in(disk);
    disk.set_version(version);
}

// The file of a stopped member becomes one of version 2, where a fuse lets it.
fn migrate_on(
    replica: &mut Option<Replica>,
    disk: &mut HostDisk,
    alloc: Global,
    index: u8,
    out: &mut Outbox,
) -> Result<(), NoMemory>
    requires stopped { replica.old ≡ None }
    requires first { version_by disk.old.lie ≡ 1 }
    requires told { IsTold (version_by disk.old.lie) (told_by disk.old) }
    requires empty { out.old ≡ [] }
    ensures host { IsHost replica.new disk.new }
    ensures acted { OnOk result (HasActed (migrates hazards index (host_of None disk.old)) (host_of replica.new disk.new) out.new) }
{
    match Replica::migrate_any(alloc, disk) {
        Ok(()) => {
            settle(disk);
            out.push(Output::Migrated(index))?;
            Ok(())
        }
        Err(NoValue::Halted(Halt::NoMemory)) => Err(NoMemory),
        Err(NoValue::Halted(Halt::DiskFault)) => {
            halt(replica, disk, index, out)?;
            settle(disk);
            Ok(())
        }
        Err(NoValue::Lost(_)) => Ok(()),
        Err(NoValue::OtherVersion) => Ok(()),
    }
}

// The file of a member becomes one of version 2. Where it runs, or its file is of that version already, or its superblock doesn't open,
// nothing happens.
fn move_on(
    replica: &mut Option<Replica>,
    disk: &mut HostDisk,
    alloc: Global,
    index: u8,
    out: &mut Outbox,
) -> Result<(), NoMemory>
    requires host { IsHost replica.old disk.old }
    requires empty { out.old ≡ [] }
    ensures host { IsHost replica.new disk.new }
    ensures acted { OnOk result (HasActed (migrates hazards index (host_of replica.old disk.old)) (host_of replica.new disk.new) out.new) }
{
    if replica.is_some() || disk.version().get() == 2 {
        return Ok(());
    }
    migrate_on(replica, disk, alloc, index, out)
}

// The view of a replica, or of the value that its disk opens as.
fn view_on(replica: &Option<Replica>, disk: &mut HostDisk) -> u32
    ensures view { result ≡ view_of (host_of replica.now disk.old) }
    ensures told { told_by disk.new ≡ told_by disk.old }
    ensures version { version_by disk.new.lie ≡ version_by disk.old.lie }
{
    if let Some(running) = replica {
        return running.view();
    }
    match opens(disk) {
        Some(found) => found.view,
        None => 0,
    }
}

impl Host {
    /// The member of this index of a new group of `n`, on a new file of this kind.
    pub fn new(alloc: Global, index: u8, n: u8, kind: &Kind) -> Result<Host, NoMemory>
        requires size { is_size kind.now.version n ≡ true }
        requires member { index < n }
        ensures { IfOk result (λ h. h ≡ fresh_host hazards kind.now n index) }
    {
        let mut disk = HostDisk::new(alloc, kind.version)?;
        let config = Config {
            cluster: 0,
            replica: index,
            n,
        };
        match Replica::fresh(alloc, &mut disk, &config, *kind) {
            Ok(replica) => Ok(Host {
                replica: Some(replica),
                disk,
            }),
            Err(_) => {
                drop(disk);
                Err(NoMemory)
            }
        }
    }

    /// What is done to it.
    pub fn act(
        &mut self,
        alloc: Global,
        index: u8,
        deed: &Deed<'_>,
        out: &mut Outbox,
    ) -> Result<(), NoMemory>
        requires deed { IsDeed deed.now }
        requires empty { out.old ≡ [] }
        ensures { OnOk result (HasActed (act_of deed.now index self.old) self.new out.new) }
    {
        match deed {
            Deed::Handle(event) => step_on(
                &mut self.replica,
                &mut self.disk,
                alloc,
                index,
                event,
                out,
            ),
            Deed::Ask(request) => {
                let event = asked(alloc, self.disk.version(), request)?;
                let handled = step_on(&mut self.replica, &mut self.disk, alloc, index, &event, out);
                drop(event);
                handled
            }
            Deed::Stop => {
                drop(self.replica.take());
                Ok(())
            }
            Deed::Start => start_on(&mut self.replica, &mut self.disk, alloc, index, out),
            Deed::Migrate => move_on(&mut self.replica, &mut self.disk, alloc, index, out),
            Deed::Fuse { call, code } => {
                self.disk.fuse(*call, *code);
                Ok(())
            }
            Deed::Lie(fault) => {
                match self.disk.fault(fault) {
                    Faulted::Done => out.push(Output::Done)?,
                    Faulted::KeptOut => out.push(Output::KeptOut)?,
                }
                Ok(())
            }
        }
    }

    /// The view of its replica; where it is stopped, that of the value that its disk opens as. It stays as it is.
    pub fn view(&mut self) -> u32
        ensures view { result ≡ view_of self.old }
        ensures same { self.new ≡ self.old }
    {
        view_on(&self.replica, &mut self.disk)
    }
}

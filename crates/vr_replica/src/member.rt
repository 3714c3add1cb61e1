//! A replica as its member runs it.
ghost use Rattle.std.specs.Prelude.{◌≡◌, ◌≤◌, ◌<◌, [], IfOk, IfSome, OnErr, is_ok, is_some, true};
ghost use Rattle.vr_base.specs.Groups.{is_size};
ghost use Rattle.vr_disk.specs.Counts.{CountsFault, Caused};
ghost use Rattle.vr_opening.specs.Making.{Made};
ghost use Rattle.vr_opening.specs.Migration.{Migrated, MigratedAny};
ghost use Rattle.vr_opening.specs.Recovering.{Recovered, RecoveredAny};
ghost use Rattle.vr_rules.specs.Replica.{header_at, part_at, version};
ghost use Rattle.vr_rules.specs.Rules.{react};
ghost use Rattle.vr_rules.specs.Does.{Does};
ghost use Rattle.vr_actions.specs.Waits.{EndsAtOnce};
ghost use Rattle.vr_replica.specs.AtOnce.{IsAtOnce};
ghost use Rattle.vr_replica.specs.Entries.{after_reading, entry_by};
ghost use Rattle.vr_replica.specs.Running.{memory_of};
ghost use Rattle.vr_disk.specs.Untouched.{Untouched};

use crate::entries::look_up;
use crate::reacting::react;
use std::alloc::Global;
use std::marker::Model;
use vr_actions::{Halt, Replica as Memory};
use vr_base::{Config, Kind, NoMemory, Version};
use vr_disk::SectorDisk;
use vr_header::Entry;
use vr_msg::{Event, Outbox};
use vr_opening::{FreshFault, NoValue, Refusal};

/// A replica of a group. Contracts see what it has in memory, and whether it runs: a step that stops ends that, for good.
#[derive(Drop)]
pub struct Replica {
    memory: Memory,
    running: bool,
}

impl Model for Replica {
    ghost use Rattle.std.specs.Prelude.{◌≡◌, true};
    ghost use Rattle.vr_volatile.specs.Ready.{IsReady};
    ghost use Rattle.vr_replica.specs.Running.{Running};

    ghost Value = { Running };

    ghost view = { λ r. record { memory = r.memory; running = r.running } };

    ghost invariant = { λ r. r.running ≡ true → IsReady r.memory };
}

impl Replica {
    /// The replica of a new member, running; the disk is formatted for a file of this kind (`Made`). `Occupied` exactly where two good
    /// copies of a superblock agree: then, and after `NoMemory`, nothing was written. `DiskFault` comes exactly where a call failed, and
    /// the calls of the formatting were made up to that one.
    pub fn fresh<D: SectorDisk>(
        alloc: Global,
        disk: &mut D,
        config: &Config,
        kind: Kind,
    ) -> Result<Replica, FreshFault>
        requires size { is_size kind.version config.now.n ≡ true }
        requires member { config.now.replica < config.now.n }
        ensures running { IfOk result (λ r. r.running ≡ true) }
        ensures cause { CountsFault FreshFault.DiskFault (D.faults disk.old) (D.faults disk.new) result }
        ensures made { Made kind config.now (D.told disk.old) (D.told disk.new) (memory_of result) }
    {
        match vr_opening::fresh(alloc, disk, config, kind) {
            Ok(memory) => Ok(Replica {
                memory,
                running: true,
            }),
            Err(fault) => Err(fault),
        }
    }

    /// Where the superblock opens as the asked member's value, the opening is done: value mended, Parts recovered, a primary's view left,
    /// `start` line, checkpoint loaded, what is committed applied. Then, where its view isn't started, start_view_change goes to all. The
    /// replica runs, and the outputs are those of the opening alone. `Lost`: no two good copies agree, and nothing is written.
    /// `OtherMember`, with whose it is: the value is mended, and nothing else written. `Halted`: the calls were made up to the stop, of
    /// another's disk those of the mending alone. After every `Err` the outputs are empty.
    #[tactic(auto, using(crate::proofs::Stopped::cleared))]
    pub fn recover<D: SectorDisk>(
        alloc: Global,
        disk: &mut D,
        config: &Config,
        out: &mut Outbox,
    ) -> Result<Replica, Refusal>
        ensures running { IfOk result (λ r. r.running ≡ true) }
        ensures cause { CountsFault (Refusal.Halted Halt.DiskFault) (D.faults disk.old) (D.faults disk.new) result }
        ensures halt { OnErr result (out.new ≡ []) }
        ensures recovered { Recovered config.now (D.told disk.old) (D.told disk.new) [] out.new (memory_of result) }
    {
        out.clear();
        match vr_opening::recover(alloc, disk, config, out) {
            Ok(memory) => Ok(Replica {
                memory,
                running: true,
            }),
            Err(refusal) => {
                out.clear();
                Err(refusal)
            }
        }
    }

    /// Where the superblock opens as a value of this version, the opening is done: value mended, Parts recovered, a primary's view left,
    /// `start` line, checkpoint loaded, what is committed applied. Then, where its view isn't started, start_view_change goes to all. The
    /// replica, of whatever member, runs, and the outputs are those of the opening alone. `Lost`: no two good copies agree; `OtherVersion`:
    /// they do, but the file is of another version. Neither writes anything. `Halted`: the calls of the opening were made up to the stop.
    /// After every `Err` the outputs are empty.
    #[tactic(auto, using(crate::proofs::Stopped::cleared_any))]
    pub fn recover_any<D: SectorDisk>(
        alloc: Global,
        disk: &mut D,
        version: Version,
        out: &mut Outbox,
    ) -> Result<Replica, NoValue>
        ensures running { IfOk result (λ r. r.running ≡ true) }
        ensures cause { CountsFault (NoValue.Halted Halt.DiskFault) (D.faults disk.old) (D.faults disk.new) result }
        ensures halt { OnErr result (out.new ≡ []) }
        ensures recovered { RecoveredAny version (D.told disk.old) (D.told disk.new) [] out.new (memory_of result) }
    {
        out.clear();
        match vr_opening::recover_any(alloc, disk, version, out) {
            Ok(memory) => Ok(Replica {
                memory,
                running: true,
            }),
            Err(why) => {
                out.clear();
                Err(why)
            }
        }
    }

    /// Where the superblock opens as a value of the asked member, it is mended. Then, where the file is of version 1, each slot's prepare
    /// is written at its new place, and the value is saved with version 2 and the next sequence number. `Lost`: no two good copies agree,
    /// and nothing is written. `OtherMember`, with whose it is: the value is mended, and nothing else written. `Halted`: `DiskFault` after
    /// the calls up to the one that failed, `NoMemory` before any, or once the value is mended; on another's disk only the mending was
    /// begun.
    pub fn migrate<D: SectorDisk>(
        alloc: Global,
        disk: &mut D,
        config: &Config,
    ) -> Result<(), Refusal>
        ensures cause { CountsFault (Refusal.Halted Halt.DiskFault) (D.faults disk.old) (D.faults disk.new) result }
        ensures migrated { Migrated config.now (D.told disk.old) (D.told disk.new) result }
    {
        vr_opening::migrate(alloc, disk, config)
    }

    /// Where the superblock opens as a value of version 1, of whatever member, it is mended. Then each slot's prepare is written at its new
    /// place, and the value is saved with version 2 and the next sequence number. `Lost`: no two good copies agree; `OtherVersion`: they do,
    /// but the file is of version 2. Neither writes anything. `Halted`: `DiskFault` after the calls up to the one that failed, `NoMemory`
    /// before any, or once the value is mended.
    pub fn migrate_any<D: SectorDisk>(alloc: Global, disk: &mut D) -> Result<(), NoValue>
        ensures cause { CountsFault (NoValue.Halted Halt.DiskFault) (D.faults disk.old) (D.faults disk.new) result }
        ensures migrated { MigratedAny (D.told disk.old) (D.told disk.new) result }
    {
        vr_opening::migrate_any(alloc, disk)
    }

    /// One step, of a replica that runs: `react`, the first of the event's rules (docs/RULES.md) that holds; frozen, at the end of its
    /// numbers, it ignores every event. After `Ok` replica, disk and outputs, those of this step alone, are what the rule says, and it runs
    /// on. After an `Err` it runs no more, outputs are empty, and the disk has had its calls up to the stop. Its file is of version 1 or 2.
    /// On these it answers `Ok` and leaves the very same disk: a prepare of rule `Ignored`, `PreparedBefore` or `Other`; a
    /// start_view_change of `Ignored` or `ChangeBefore`. So on a prepare_ok that isn't counted, or after which the next op has no quorum
    /// and nothing can be applied.
    #[tactic(auto, using(crate::proofs::Stopped::halted, vr_volatile::proofs::Memory::file_version))]
    pub fn step<D: SectorDisk>(
        &mut self,
        alloc: Global,
        disk: &mut D,
        event: &Event,
        out: &mut Outbox,
    ) -> Result<(), Halt>
        requires running { self.old.running ≡ true }
        ensures version { (1 ≤ version self.old.memory) × (version self.old.memory ≤ 2) }
        ensures running { self.new.running ≡ is_ok result }
        ensures halt { OnErr result (out.new ≡ []) }
        ensures cause { Caused (D.faults disk.old) (D.faults disk.new) result }
        ensures at_once { IsAtOnce self.old.memory event.now → EndsAtOnce disk.old disk.new result }
        ensures step { Does (react event.now) self.old.memory self.new.memory (D.told disk.old) (D.told disk.new) [] out.new result }
    {
        out.clear();
        match react(&mut self.memory, alloc, disk, event, out) {
            Ok(()) => Ok(()),
            Err(halt) => {
                self.running = false;
                out.clear();
                Err(halt)
            }
        }
    }
}

impl Replica {
    /// Whether it takes steps. After a step that stopped it doesn't.
    pub fn running(&self) -> bool
        ensures { result ≡ self.now.running }
    {
        self.running
    }

    /// The version of its file, which its messages have.
    pub fn version(&self) -> Version
        ensures { result ≡ version self.now.memory }
    {
        self.memory.version()
    }

    /// The group, the number in it, and its size.
    pub fn config(&self) -> Config
        ensures { result ≡ record { cluster = self.now.memory.cluster; replica = self.now.memory.index; n = self.now.memory.n } }
    {
        self.memory.config()
    }

    /// The view that it is in.
    pub fn view(&self) -> u32
        ensures { result ≡ self.now.memory.view }
    {
        self.memory.view()
    }

    /// Its commit number: each op up to it is committed.
    pub fn commit(&self) -> u64
        ensures { result ≡ self.now.memory.commit }
    {
        self.memory.commit()
    }

    /// Whether the header of an op is known.
    pub fn names(&self, op: u64) -> bool
        ensures { result ≡ is_some (header_at self.now.memory op) }
    {
        self.memory.header_at(op).is_some()
    }

    /// The entry of an op whose header is known, where it is `Here` and its slot reads as the whole one of that header. Else `None`: a Part
    /// that is `Here` and doesn't read becomes `Lost`, and nothing else changes. The disk is only read, and the replica runs on. An `Err`
    /// is want of memory, and leaves the replica as it was.
    pub fn read<D: SectorDisk>(
        &mut self,
        alloc: Global,
        disk: &mut D,
        op: u64,
    ) -> Result<Option<Entry>, NoMemory>
        requires running { self.old.running ≡ true }
        requires names { is_some (header_at self.old.memory op) ≡ true }
        ensures running { self.new.running ≡ true }
        ensures untouched { Untouched D.SectorDisk disk.old disk.new }
        ensures value { IfOk result (λ found. IfSome (D.told disk.old) (λ d. found ≡ entry_by (version self.old.memory) (part_at self.old.memory op) d.face)) }
        ensures left { IfOk result (λ found. self.new.memory ≡ after_reading (part_at self.old.memory op) found self.old.memory) }
        ensures kept { OnErr result (self.new ≡ self.old) }
    {
        look_up(&mut self.memory, alloc, disk, op)
    }
}

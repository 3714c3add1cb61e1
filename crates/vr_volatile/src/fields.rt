//! The values that a replica has.
ghost use Rattle.std.specs.Prelude.{◌≡◌, ◌<◌, ◌≤◌};
ghost use Rattle.vr_base.specs.Bytes.{name_of};
ghost use Rattle.vr_header.specs.Names.{header_name};
ghost use Rattle.vr_rules.specs.Deciding.{is_for, is_from, is_from_primary, is_known, is_named, is_unknown};
ghost use Rattle.vr_rules.specs.Replica.{header_at, is_alone, is_primary, is_spent, is_started, leads, version};
ghost use Rattle.vr_rules.specs.Words.{is_loaded};
ghost use Rattle.vr_disk.specs.Untouched.{Untouched};

use crate::Replica;
use crate::group::primary;
use vr_base::{Config, Replicas, Sum, Version};
use vr_ckpt::{Name, NameList, PayloadTable, State};
use vr_disk::{Room, SectorDisk};
use vr_header::{Header, Part, nameless};
use vr_super::Super;
use vr_window::Window;

// The greatest sequence number with which it still takes an event: the saves of one step have room above it.
const LAST_SEQUENCE: u64 = u64::MAX - 255;

// ---- as they stand

impl Replica {
    /// The group, the number in it, and its size.
    pub fn config(&self) -> Config
        ensures { result ≡ record { cluster = self.now.cluster; replica = self.now.index; n = self.now.n } }
    {
        Config {
            cluster: self.cluster,
            replica: self.index,
            n: self.n,
        }
    }

    /// The number of its group.
    pub fn cluster(&self) -> u64
        ensures { result ≡ self.now.cluster }
    {
        self.cluster
    }

    /// Which of the group it is, from 0.
    pub fn index(&self) -> u8
        ensures { result ≡ self.now.index }
    {
        self.index
    }

    /// How many replicas the group has, 1 to 6.
    pub fn n(&self) -> u8
        ensures { result ≡ self.now.n }
    {
        self.n
    }

    /// The view that it is in.
    pub fn view(&self) -> u32
        ensures { result ≡ self.now.view }
    {
        self.view
    }

    /// The view whose log it has.
    pub fn log_view(&self) -> u32
        ensures { result ≡ self.now.log_view }
    {
        self.log_view
    }

    /// Its commit number: each op up to it is committed.
    pub fn commit(&self) -> u64
        ensures { result ≡ self.now.commit }
    {
        self.commit
    }

    /// The greatest op that it has applied.
    pub fn applied(&self) -> u64
        ensures { result ≡ self.now.applied }
    {
        self.applied
    }

    /// The op of its checkpoint, 0 where it has none.
    pub fn checkpoint(&self) -> u64
        ensures { result ≡ self.now.checkpoint }
    {
        self.checkpoint
    }

    /// The block with which its checkpoint begins.
    pub fn root(&self) -> &Name
        ensures { result.now ≡ self.now.root }
    {
        &self.root
    }

    /// The blocks of its checkpoint, with what each holds.
    pub fn table(&self) -> &PayloadTable
        ensures { result.now ≡ self.now.table }
    {
        &self.table
    }

    /// The blocks of the checkpoint that were found bad.
    pub fn worn(&self) -> &NameList
        ensures { result.now ≡ self.now.worn }
    {
        &self.worn
    }

    /// What the operations that it applied have come to.
    pub fn state(&self) -> &State
        ensures { result.now ≡ self.now.state }
    {
        &self.state
    }

    /// The blocks of its checkpoint that it waits for, before it applies anything.
    pub fn missing(&self) -> &NameList
        ensures { result.now ≡ self.now.missing }
    {
        &self.missing
    }

    /// The first op of which something is remembered.
    pub fn first(&self) -> u64
        ensures { result ≡ self.now.first }
    {
        self.first
    }

    /// What is known of each op from `first` on, to the end of the window.
    pub fn parts(&self) -> &Window<Part>
        ensures { result.now ≡ self.now.parts }
    {
        &self.parts
    }

    /// Which replicas have told that they entered its view.
    pub fn heard(&self) -> Replicas
        ensures { result ≡ self.now.heard }
    {
        self.heard
    }

    /// How many ticks have gone by since it heard of its view's primary, or entered a view that isn't started.
    pub fn idle(&self) -> u64
        ensures { result ≡ self.now.idle }
    {
        self.idle
    }

    /// The superblock's value as last saved or opened.
    pub fn saved(&self) -> &Super
        ensures { result.now ≡ self.now.saved }
    {
        &self.saved
    }
}

// ---- of its place in the group

impl Replica {
    /// Whether it has the log of its view.
    pub fn is_started(&self) -> bool
        ensures { result ≡ is_started self.now }
    {
        self.view == self.log_view
    }

    /// Whether its group has no other replica.
    pub fn is_alone(&self) -> bool
        ensures { result ≡ is_alone self.now }
    {
        self.n == 1
    }

    /// Whether it is the primary of its view.
    pub fn is_primary(&self) -> bool
        requires { 0 < self.now.n }
        ensures { result ≡ is_primary self.now }
    {
        self.index == primary(self.n, self.view)
    }

    /// Whether it is the primary of a view whose log it has.
    pub fn leads(&self) -> bool
        requires { 0 < self.now.n }
        ensures { result ≡ leads self.now }
    {
        self.view == self.log_view && self.index == primary(self.n, self.view)
    }

    /// Whether its sequence numbers are at their end.
    pub fn is_spent(&self) -> bool
        ensures { result ≡ is_spent self.now }
    {
        LAST_SEQUENCE < self.saved.fields().sequence
    }

    /// The version of its file, which its messages have, and the entries that it makes.
    pub fn version(&self) -> Version
        ensures { result ≡ version self.now }
    {
        self.saved.fields().version
    }

    /// Whether a message of this version and group is for it.
    pub fn is_for(&self, version: Version, cluster: u64) -> bool
        ensures { result ≡ is_for version cluster self.now }
    {
        version == self.version() && cluster == self.cluster
    }

    /// Whether such a message is from another replica of the group.
    pub fn is_from(&self, version: Version, cluster: u64, sender: u8) -> bool
        ensures { result ≡ is_from version cluster sender self.now }
    {
        self.is_for(version, cluster) && sender < self.n && sender != self.index
    }

    /// Whether it is from the primary of its view, too.
    pub fn is_from_primary(&self, version: Version, cluster: u64, sender: u8, view: u32) -> bool
        requires { 0 < self.now.n }
        ensures { result ≡ is_from_primary version cluster sender view self.now }
    {
        self.is_from(version, cluster, sender) && sender == primary(self.n, view)
    }
}

// ---- of its log

impl Replica {
    /// Whether no block of the checkpoint is missing.
    pub fn is_loaded(&self) -> bool
        ensures { result ≡ is_loaded self.now }
    {
        self.missing.len() == 0
    }

    /// The known header of an op.
    pub fn header_at(&self, op: u64) -> Option<Header>
        ensures { result ≡ header_at self.now op }
    {
        self.part_at(op).header()
    }

    /// The name of a header, which is made only where it isn't kept.
    pub fn name_of(&self, header: &Header) -> Sum
        ensures { result ≡ header_name header.now }
    {
        self.names.name_of(header)
    }

    /// Keeps the name of a header of which the disk may have it.
    pub fn keep_name<D: SectorDisk>(&mut self, disk: &mut D, header: &Header)
        ensures same { self.new ≡ self.old }
        ensures untouched { Untouched D.SectorDisk disk.old disk.new }
    {
        if self.names.kept(header).is_none() {
            let bytes = nameless(header);
            let (_, named) = bytes.split_at(16);
            let name = disk.name_of(Room::Header(header.op), named);
            self.names.keep(header, name);
        }
    }

    /// Whether the known header of an op is this one.
    pub fn is_known(&self, header: &Header, op: u64) -> bool
        ensures { result ≡ is_known header.now op self.now }
    {
        match self.header_at(op) {
            Some(known) => known.is(header),
            None => false,
        }
    }

    /// Whether the known header of an op has this name.
    pub fn is_named(&self, name: &Sum, op: u64) -> bool
        ensures { result ≡ is_named name_of name.now op self.now }
    {
        match self.header_at(op) {
            Some(header) => self.name_of(&header) == *name,
            None => false,
        }
    }

    /// Whether no header of an op is known.
    pub fn is_unknown(&self, op: u64) -> bool
        ensures { result ≡ is_unknown op self.now }
    {
        match self.header_at(op) {
            Some(_) => false,
            None => true,
        }
    }
}

//! What repair looks for in a replica, and what it changes.
ghost use Rattle.std.specs.Prelude.{◌≡◌, ◌<◌, ◌≤◌, ◌+◌, ◌%◌, ◌^◌, ◌==◌, not, drop, filter, slice_index_or};
ghost use Rattle.std.specs.List.{prefix_len};
ghost use Rattle.vr_header.specs.declared.part.Part.TheVariants.{Nothing};
ghost use Rattle.vr_msg.specs.Choice.{ops};
ghost use Rattle.vr_rules.specs.Replica.{head, parts_from, replication};
ghost use Rattle.vr_rules.specs.Words.{advanced, has_quorum, least_absent, peer, turned, votes};
ghost use Rattle.vr_rules.specs.Rules.{not_worn, without};
ghost use Rattle.vr_volatile.specs.Absent.{absent_header, first_absent};
ghost use Rattle.vr_volatile.specs.Ready.{HasWindow};

use crate::Replica;
use crate::parts::is_here;
use vr_base::{Replicas, quorums};
use vr_ckpt::{Name, NameList};
use vr_header::{Header, Part};
use vr_window::Window;

// How many replicas have to have an op before it is committed.
fn replication(n: u8) -> usize
    ensures { result ≡ replication n }
{
    match quorums(n) {
        Some(quorums) => usize::from(quorums.replication),
        None => 0,
    }
}

// The header of an op whose entry isn't stored, or can't be read.
fn absent_header(part: &Part) -> Option<Header>
    ensures { result ≡ absent_header part.now }
{
    match part {
        Part::Lost(header) | Part::Wanted(header) => Some(*header),
        Part::Here(_) | Part::Unknown | Part::Nothing => None,
    }
}

#[tactic(auto, using(vr_window::proofs::Lists::past_is, vr_window::proofs::Lists::found_is))]
fn absent_at(parts: &Window<Part>, at: usize) -> Option<Header>
    ensures { result ≡ absent_header (slice_index_or parts.now at Nothing) }
{
    match parts.item(at) {
        Some(part) => absent_header(part),
        None => None,
    }
}

// The header of the first such op from a place on.
#[tactic(auto, using(crate::proofs::Repairs::absent_more, crate::proofs::Repairs::absent_found, crate::proofs::Repairs::absent_past))]
fn first_absent(parts: &Window<Part>, from: usize) -> Option<Header>
    ensures { result ≡ first_absent (drop from parts.now) }
{
    for i in from..parts.len() {
        match absent_at(parts, i) {
            Some(header) => return Some(header),
            None => {}
        }
    }
    None
}

// Which replica of `n` stands so many after another one.
fn place_after(index: u8, turn: u8, n: u8) -> u8
    requires { 0 < n }
    ensures { result ≡ (index + 1 + turn) % n }
{
    ((u32::from(index) + 1 + u32::from(turn)) % u32::from(n)) as u8
}

// The names of other addresses are left.
fn drop_address(names: &mut NameList, address: u64)
    ensures { names.new ≡ filter (λ name. not (name.address == address)) names.old }
{
    names.retain(|name| name.address != address);
}

impl Replica {
    // Which replicas have an op: those that have acknowledged it in this view, and itself where its entry is stored.
    fn votes(&self, op: u64) -> Replicas
        ensures { result ≡ votes self.now op }
    {
        let at = op.saturating_sub(self.first) as usize;
        let ackers = self.ackers.get_or(at, Replicas::none());
        if is_here(&self.part_at(op)) {
            ackers.with(self.index)
        } else {
            ackers
        }
    }

    fn has_quorum(&self, op: u64) -> bool
        ensures { result ≡ has_quorum self.now op }
    {
        replication(self.n) <= self.votes(op).size()
    }

    // How far the commit number may rise.
    #[tactic(auto, using(crate::proofs::Repairs::agreed_more, crate::proofs::Repairs::agreed_stops, crate::proofs::Repairs::agreed_ends))]
    fn agreed(&self) -> u64
        requires { HasWindow self.now }
        ensures { result ≡ self.now.commit + prefix_len (has_quorum self.now) (ops self.now.commit (head self.now)) }
    {
        let mut agreed = self.commit;
        for op in self.commit..self.head() {
            if !self.has_quorum(op + 1) {
                return agreed;
            }
            agreed = op + 1;
        }
        agreed
    }

    /// The commit number rises, up to the head, over each op that a replication quorum has.
    #[tactic(auto, unfolding(vr_rules::specs::Words::advanced))]
    pub fn advance_commit(&mut self)
        requires { HasWindow self.old }
        ensures advanced { self.new ≡ advanced self.old }
        ensures view { self.new.view ≡ self.old.view }
        ensures saved { self.new.saved ≡ self.old.saved }
    {
        self.commit = self.agreed();
    }

    // The header of the least op from one on whose entry isn't stored, or can't be read.
    fn absent_from(&self, op: u64) -> Option<Header>
        ensures { result ≡ first_absent (parts_from self.now op) }
    {
        first_absent(&self.parts, op.saturating_sub(self.first) as usize)
    }

    /// The header of the least op above the applied ones whose entry isn't stored, or can't be read; else of the least such op above the
    /// checkpoint.
    #[tactic(auto, using(crate::proofs::Repairs::least_first, crate::proofs::Repairs::least_second))]
    pub fn least_absent(&self) -> Option<Header>
        requires applied { self.now.applied + 1 < 2 ^ 64 }
        requires checkpoint { self.now.checkpoint + 1 < 2 ^ 64 }
        ensures { result ≡ least_absent self.now }
    {
        match self.absent_from(self.applied + 1) {
            Some(header) => Some(header),
            None => self.absent_from(self.checkpoint + 1),
        }
    }

    /// The peer whose turn it is to be asked.
    pub(crate) fn peer(&self) -> u8
        requires { 0 < self.now.n }
        ensures { result ≡ peer self.now }
    {
        place_after(self.index, self.turn, self.n)
    }

    /// The next peer's turn comes.
    pub fn turn_peer(&mut self)
        requires { 2 ≤ self.old.n }
        ensures turned { self.new ≡ turned self.old }
        ensures view { self.new.view ≡ self.old.view }
        ensures saved { self.new.saved ≡ self.old.saved }
    {
        self.turn = ((u32::from(self.turn) + 1) % (u32::from(self.n) - 1)) as u8;
    }

    /// The block of this address isn't bad any more.
    pub fn drop_worn(&mut self, name: &Name)
        ensures dropped { self.new ≡ not_worn name.now self.old }
        ensures view { self.new.view ≡ self.old.view }
        ensures saved { self.new.saved ≡ self.old.saved }
    {
        drop_address(&mut self.worn, name.address);
    }

    /// The block of this address isn't missing any more.
    pub fn drop_missing(&mut self, name: &Name)
        ensures dropped { self.new ≡ without name.now self.old }
        ensures view { self.new.view ≡ self.old.view }
        ensures saved { self.new.saved ≡ self.old.saved }
    {
        drop_address(&mut self.missing, name.address);
    }
}

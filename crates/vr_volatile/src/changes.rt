//! Changes of what a replica has in memory, one fact each.
ghost use Rattle.std.specs.Prelude.{◌≡◌, ◌<◌, ◌≤◌, ◌+◌, ◌-◌, ◌^◌, length, slice_set};
ghost use Rattle.vr_header.specs.declared.part.Part.TheVariants.{Here};
ghost use Rattle.vr_rules.specs.Opening.{in_next_view, heard_itself};
ghost use Rattle.vr_rules.specs.Replica.{part_at, with_part, forgetting};
ghost use Rattle.vr_rules.specs.Rules.{acknowledged, heard_of, idler, with_statement};
ghost use Rattle.vr_rules.specs.Words.{rested, stored, entered, lost, learned, value_of, with_missing, with_saved};
ghost use Rattle.vr_volatile.specs.Ready.{IsReady, HasWindow, MayStore};

use crate::Replica;
use crate::parts::first_remembered;
use vr_base::Replicas;
use vr_ckpt::NameList;
use vr_header::{Entry, Header, Part};
use vr_msg::{PrepareOk, Statement};
use vr_super::Super;

// ---- of its log

impl Replica {
    /// This is known of an op.
    #[tactic(auto, unfolding(vr_rules::specs::Replica::with_part))]
    pub fn put_part(&mut self, op: u64, part: Part)
        requires from { self.old.first ≤ op }
        requires within { op - self.old.first < length self.old.parts }
        ensures put { self.new ≡ with_part op part self.old }
        ensures view { self.new.view ≡ self.old.view }
        ensures saved { self.new.saved ≡ self.old.saved }
    {
        let at = (op - self.first) as usize;
        self.parts.replace(at, part);
    }

    /// Lets go what stands before the last ops up to the head that are remembered.
    #[tactic(auto, using(crate::proofs::Memory::bounds), unfolding(vr_rules::specs::Replica::forgetting))]
    pub fn forget(&mut self)
        requires { HasWindow self.old }
        ensures forgotten { self.new ≡ forgetting self.old }
        ensures view { self.new.view ≡ self.old.view }
        ensures saved { self.new.saved ≡ self.old.saved }
    {
        let gone = first_remembered(self.head()).saturating_sub(self.first);
        self.first += gone;
        self.parts.forget(gone as usize);
        self.ackers.forget(gone as usize);
    }

    /// An entry is stored.
    #[tactic(auto, using(crate::proofs::Memory::window_part))]
    pub fn store(&mut self, entry: &Entry)
        requires window { HasWindow self.old }
        requires may { MayStore entry.now self.old }
        ensures stored { self.new ≡ stored entry.now self.old }
        ensures view { self.new.view ≡ self.old.view }
        ensures saved { self.new.saved ≡ self.old.saved }
    {
        let header = entry.header();
        let op = header.op;
        self.put_part(op, Part::Here(header));
        self.forget();
        self.names.keep(&entry.header(), entry.name());
    }

    /// The entry of this header, which is stored, can't be read.
    #[tactic(auto, using(crate::proofs::Memory::here_within))]
    pub fn lose(&mut self, header: &Header)
        requires ready { IsReady self.old }
        requires here { part_at self.old header.now.op ≡ Here header.now }
        ensures lost { self.new ≡ lost header.now self.old }
        ensures view { self.new.view ≡ self.old.view }
        ensures saved { self.new.saved ≡ self.old.saved }
    {
        let op = header.op;
        self.put_part(op, Part::Lost(*header));
    }

    /// This is known of the op at a place of the list.
    pub fn replace_part(&mut self, at: usize, part: Part)
        requires { at < length self.old.parts }
        ensures { self.new ≡ record self.old { parts = slice_set self.old.parts at part } }
    {
        self.parts.replace(at, part);
    }

    /// A replica has acknowledged an op.
    pub fn add_acker(&mut self, ack: &PrepareOk)
        requires from { self.old.first ≤ ack.now.op }
        requires within { ack.now.op - self.old.first < length self.old.ackers }
        ensures added { self.new ≡ acknowledged ack.now self.old }
        ensures view { self.new.view ≡ self.old.view }
        ensures saved { self.new.saved ≡ self.old.saved }
    {
        let at = (ack.op - self.first) as usize;
        let ackers = self.ackers.get_or(at, Replicas::none());
        self.ackers.replace(at, ackers.with(ack.replica));
    }

    /// A commit number is heard of, and holds as far as the log goes.
    #[tactic(auto, unfolding(vr_rules::specs::Words::learned))]
    pub fn learn_commit(&mut self, commit: u64)
        requires { HasWindow self.old }
        ensures learned { self.new ≡ learned commit self.old }
        ensures view { self.new.view ≡ self.old.view }
        ensures saved { self.new.saved ≡ self.old.saved }
    {
        self.commit = self.commit.max(commit.min(self.head()));
    }
}

// ---- of its view

impl Replica {
    /// Is of this view from now on, of which it knows nothing.
    #[tactic(auto, unfolding(vr_rules::specs::Words::entered))]
    pub fn turn_to(&mut self, view: u32)
        requires { HasWindow self.old }
        ensures entered { self.new ≡ entered view self.old }
        ensures view { self.new.view ≡ view }
        ensures saved { self.new.saved ≡ self.old.saved }
    {
        self.view = view;
        self.ackers.fill(Replicas::none());
        self.statements.clear();
        self.heard = Replicas::none().with(self.index);
        self.idle = 0;
    }

    /// Is of the next view, in which nothing is changed yet.
    pub fn to_next_view(&mut self)
        requires { self.old.view + 1 < 2 ^ 32 }
        ensures next { self.new ≡ in_next_view self.old }
        ensures saved { self.new.saved ≡ self.old.saved }
    {
        self.view += 1;
    }

    /// Of all replicas it alone is known to have entered its view.
    pub fn hear_itself(&mut self)
        ensures heard { self.new ≡ heard_itself self.old }
        ensures view { self.new.view ≡ self.old.view }
        ensures saved { self.new.saved ≡ self.old.saved }
    {
        self.heard = Replicas::none().with(self.index);
    }

    /// A replica is known to have entered its view.
    pub fn hear(&mut self, sender: u8)
        ensures heard { self.new ≡ heard_of sender self.old }
        ensures view { self.new.view ≡ self.old.view }
        ensures saved { self.new.saved ≡ self.old.saved }
    {
        self.heard = self.heard.with(sender);
    }

    /// A replica has stated its log.
    pub fn keep_statement(&mut self, sender: u8, statement: Statement)
        requires { sender < length self.old.statements }
        ensures kept { self.new ≡ with_statement sender statement self.old }
        ensures view { self.new.view ≡ self.old.view }
        ensures saved { self.new.saved ≡ self.old.saved }
    {
        self.statements.put(sender as usize, statement);
    }
}

// ---- of time, of peers, and of the checkpoint

impl Replica {
    /// It isn't idle.
    pub fn rest(&mut self)
        ensures rested { self.new ≡ rested self.old }
        ensures view { self.new.view ≡ self.old.view }
        ensures saved { self.new.saved ≡ self.old.saved }
    {
        self.idle = 0;
    }

    /// It is idle for one more tick.
    pub fn idle_on(&mut self)
        requires { self.old.idle + 1 < 2 ^ 64 }
        ensures idle { self.new ≡ idler self.old }
        ensures view { self.new.view ≡ self.old.view }
        ensures saved { self.new.saved ≡ self.old.saved }
    {
        self.idle += 1;
    }

    /// This value, which is the present one, was saved.
    #[tactic(auto, using(crate::proofs::Memory::one_spent))]
    pub fn keep_saved(&mut self, value: Super)
        requires { value ≡ value_of self.old }
        ensures saved { self.new ≡ with_saved self.old }
        ensures spent { self.new.saved.fields.sequence ≤ self.old.saved.fields.sequence + 1 }
    {
        self.saved = value;
    }

    /// These blocks of the checkpoint are missing.
    pub(crate) fn take_missing(&mut self, names: NameList)
        ensures taken { self.new ≡ with_missing names self.old }
        ensures view { self.new.view ≡ self.old.view }
        ensures saved { self.new.saved ≡ self.old.saved }
    {
        self.missing = names;
    }
}

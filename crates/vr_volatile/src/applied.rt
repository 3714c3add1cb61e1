//! What an entry that is applied changes and answers, and how the window moves up with a checkpoint.
ghost use Rattle.std.specs.Prelude.{◌≡◌, ◌<◌, ◌≤◌, ◌-◌, ◌++◌, ◌&&◌, nat_lt, OnOk, true, if◌then◌else◌, []};
ghost use Rattle.vr_header.specs.Made.{IsEntry};
ghost use Rattle.vr_msg.specs.Asking.{IsKindValue, IsReplyKind};
ghost use Rattle.vr_rules.specs.Replica.{last_view, leads, version};
ghost use Rattle.vr_rules.specs.Outputs.{asker_of, replies, kind_of, commit_line, applied_reply};
ghost use Rattle.vr_rules.specs.Words.{with_checkpoint, is_checkpoint, is_loaded, applied};
ghost use Rattle.vr_volatile.specs.Ready.{IsReady, MayApply, HasApplied};

use crate::Replica;
use std::alloc::AllocError;
use vr_base::{NoMemory, Replicas, Sum};
use vr_ckpt::{ReplyBody, SavedCheckpoint};
use vr_disk::SLOTS;
use vr_header::{Entry, Header, Part};
use vr_msg::{Answered, Committed, Outbox, Output, Reply, ReplyFields, ReplyKind};

// A checkpoint is made of each op that is a multiple of this.
const CHECKPOINT_EVERY: u64 = 32;

impl Replica {
    /// The window moves up with the checkpoint.
    #[tactic(auto, using(crate::proofs::Memory::room_to_move), unfolding(vr_rules::specs::Words::with_checkpoint))]
    pub fn move_window(&mut self, saved: SavedCheckpoint)
        requires { HasApplied self.old }
        ensures moved { self.new ≡ with_checkpoint saved self.old }
        ensures view { self.new.view ≡ self.old.view }
        ensures saved { self.new.saved ≡ self.old.saved }
    {
        let more = self.applied.saturating_sub(self.checkpoint) as usize;
        self.parts.extend(Part::Nothing, more);
        self.ackers.extend(Replicas::none(), more);
        self.checkpoint = self.applied;
        self.root = saved.root;
        self.table = saved.table;
        self.worn.clear();
    }

    /// Whether its checkpoint is loaded, and there is an op to apply.
    pub fn may_apply(&self) -> bool
        ensures { result ≡ (is_loaded self.now && nat_lt self.now.applied self.now.commit) }
    {
        self.is_loaded() && self.applied < self.commit
    }

    /// Whether a checkpoint is made of the op that it applied last.
    pub fn is_due(&self) -> bool
        ensures { result ≡ is_checkpoint self.now.applied }
    {
        self.applied % CHECKPOINT_EVERY == 0
    }

    /// How many ops there are to apply.
    #[tactic(auto, using(crate::proofs::Memory::few_to_apply))]
    pub fn to_apply(&self) -> u64
        requires { IsReady self.now }
        ensures value { result ≡ self.now.commit - self.now.applied }
        ensures few { result ≤ SLOTS }
    {
        self.commit.saturating_sub(self.applied)
    }
}

impl Replica {
    /// Replies to a request.
    pub fn reply(
        &self,
        client: u64,
        request: u32,
        name: Sum,
        kind: ReplyKind,
        out: &mut Outbox,
    ) -> Result<(), AllocError>
        requires view { self.now.view ≤ last_view }
        requires kind { IsReplyKind kind }
        requires fits { IsKindValue (version self.now) kind }
        ensures { OnOk result (out.new ≡ out.old ++ replies (record { client = client; request = request; name = name }) kind self.now) }
    {
        let from = self.sender();
        out.push(Output::Reply(Reply::new(ReplyFields {
            version: from.version,
            cluster: from.cluster,
            replica: from.replica,
            view: from.view,
            client,
            request,
            request_name: name,
            kind,
        })))
    }

    /// Replies what an applied entry answers, at the primary alone.
    fn reply_applied(
        &self,
        header: &Header,
        body: ReplyBody,
        out: &mut Outbox,
    ) -> Result<(), AllocError>
        requires member { 0 < self.now.n }
        requires view { leads self.now ≡ true → self.now.view ≤ last_view }
        requires kind { IsReplyKind (kind_of body) }
        requires fits { IsKindValue (version self.now) (kind_of body) }
        ensures { OnOk result (out.new ≡ out.old ++ (if leads self.now then replies (record { client = header.now.client; request = header.now.request; name = header.now.request_name }) (kind_of body) self.now else [])) }
    {
        if self.leads() {
            let kind = kind_of(body);
            self.reply(
                header.client,
                header.request,
                header.request_name,
                kind,
                out,
            )
        } else {
            Ok(())
        }
    }

    // Tells of an entry that is applied: its line, and at the primary the reply to it. Both are let go of here.
    #[tactic(auto, using(crate::proofs::Applies::told_applied))]
    fn tell_applied(
        &self,
        entry: Entry,
        body: ReplyBody,
        out: &mut Outbox,
    ) -> Result<(), AllocError>
        requires member { 0 < self.now.n }
        requires view { leads self.now ≡ true → self.now.view ≤ last_view }
        requires kind { IsEntry entry → IsReplyKind (kind_of body) }
        requires fits { IsKindValue (version self.now) (kind_of body) }
        ensures { OnOk result (out.new ≡ out.old ++ (commit_line entry self.now ++ (if leads self.now then replies (asker_of entry) (kind_of body) self.now else []))) }
    {
        let header = entry.header();
        out.push(Output::Commit(Committed {
            replica: self.index,
            entry,
        }))?;
        self.reply_applied(&header, body, out)
    }

    /// Applies an entry to the state, and tells of it.
    #[tactic(auto, using(crate::proofs::Applies::said_applied))]
    pub fn apply_state(&mut self, entry: Entry, out: &mut Outbox) -> Result<(), NoMemory>
        requires may { MayApply self.old }
        ensures said { OnOk result (out.new ≡ out.old ++ (commit_line entry self.old ++ applied_reply entry self.old)) }
        ensures applied { OnOk result (self.new ≡ applied entry self.old) }
        ensures view { OnOk result (self.new.view ≡ self.old.view) }
        ensures saved { OnOk result (self.new.saved ≡ self.old.saved) }
    {
        let body = self.state.apply(&entry)?;
        self.tell_applied(entry, body, out)?;
        self.applied += 1;
        Ok(())
    }
}

fn kind_of(body: ReplyBody) -> ReplyKind
    ensures { result ≡ kind_of body }
{
    match body {
        ReplyBody::Outcome(outcome, op) => ReplyKind::Outcome(Answered { op, outcome }),
        ReplyBody::Old => ReplyKind::Old,
        ReplyBody::Gap => ReplyKind::Gap,
        ReplyBody::Evicted => ReplyKind::Evicted,
    }
}

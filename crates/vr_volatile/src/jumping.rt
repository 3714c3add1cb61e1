//! A log that is taken over with a later checkpoint.
ghost use Rattle.std.specs.Prelude.{◌≡◌, ◌<◌, ◌≤◌, ◌+◌, ◌^◌, OnErr, OnOk, [], length, map, slice_index_or, slice_set, true};
ghost use Rattle.std.specs.List.{range_with_len};
ghost use Rattle.vr_base.specs.Bytes.{name_of};
ghost use Rattle.vr_volatile.specs.Jumps.{MayJump, jumped_by, moved_to};
ghost use Rattle.vr_volatile.specs.Ready.{HasWindow};
ghost use Rattle.vr_header.specs.declared.part.Part.TheVariants.{Nothing};
ghost use Rattle.vr_msg.specs.Spelling.{AreHeaders};
ghost use Rattle.vr_rules.specs.Deciding.{may_jump};
ghost use Rattle.vr_rules.specs.Sound.{IsNameBytes};
ghost use Rattle.vr_rules.specs.Words.{jumped, jumped_part, sync_log};

use crate::loaded::only;
use crate::parts::first_remembered;
use crate::taking::is_chain;
use crate::{Log, Replica};
use std::alloc::{AllocError, Global};
use vr_base::{Replicas, Sum};
use vr_ckpt::{Name, NameList};
use vr_disk::SLOTS;
use vr_header::Part;
use vr_msg::SyncView;

// The log that a sync_view tells of.
fn sync_log(sync: &SyncView) -> Log<'_>
    ensures { result ≡ sync_log sync.now }
{
    Log {
        view: sync.view,
        lo: sync.body.lo,
        headers: &sync.body.headers,
        head: sync.head,
        commit: sync.commit,
    }
}

/// What is known of an op once the log is taken over with the checkpoint, where this was known of it: by a replica of this commit number,
/// whose log is of this view.
fn jumped_by(sync: &SyncView, commit: u64, log_view: u32, op: u64, part: Part) -> Part
    ensures { result ≡ jumped_by sync.now commit log_view op part }
{
    let log = sync_log(sync);
    if op <= log.lo {
        if op <= commit { part } else { Part::Nothing }
    } else if op <= sync.checkpoint {
        match log.header(op) {
            Some(header) => Part::Lost(header),
            None => Part::Nothing,
        }
    } else {
        log.part(sync.checkpoint, log_view, op, part)
    }
}

// The name as it is, which is of bytes.
fn valued(name: Sum) -> Sum
    ensures same { result ≡ name }
    ensures values { IsNameBytes result.0 }
{
    name
}

// The block that the checkpoint begins with.
fn root_of(sync: &SyncView) -> Name
    ensures root { result ≡ record { address = sync.now.root_address; sum = sync.now.root_name } }
    ensures name { IsNameBytes sync.now.root_name.0 }
{
    Name {
        address: sync.root_address,
        sum: valued(sync.root_name),
    }
}

impl Replica {
    /// Whether it may take over this log with its checkpoint.
    pub fn may_jump(&self, sync: &SyncView) -> bool
        requires { HasWindow self.now }
        ensures may { result ≡ may_jump name_of sync.now self.now }
        ensures values { result ≡ true → AreHeaders sync.now.body.headers }
    {
        self.is_newer(&sync_log(sync))
            && is_chain(&self.names, sync.body.headers.as_slice())
            && self.commit <= sync.head
            && self.checkpoint < sync.checkpoint
    }

    // Its lists reach from the first op remembered under the log's head to the end of the later window; nothing is known of the ops that come in.
    #[tactic(auto, unfolding(crate::specs::Jumps::moved_to))]
    fn move_lists(&mut self, sync: &SyncView)
        requires window { HasWindow self.old }
        requires above { self.old.checkpoint < sync.now.checkpoint }
        requires within { sync.now.checkpoint ≤ sync.now.head }
        requires short { sync.now.head ≤ sync.now.checkpoint + SLOTS }
        requires number { sync.now.head < 2 ^ 63 }
        ensures { self.new ≡ moved_to sync.now self.old }
    {
        let first = self.first.max(first_remembered(sync.head));
        let gone = (first - self.first) as usize;
        self.parts.forget(gone);
        self.ackers.forget(gone);
        self.first = first;
        let count = (sync.checkpoint + (SLOTS as u64 + 1) - first) as usize;
        let more = count.saturating_sub(self.parts.len());
        self.parts.extend(Part::Nothing, more);
        self.ackers.extend(Replicas::none(), more);
    }

    // The Part at one place of the list becomes what it is with the log and the checkpoint.
    fn jump_part(&mut self, sync: &SyncView, at: usize)
        requires fits { self.old.first + at < 2 ^ 64 }
        requires within { at < length self.old.parts }
        ensures { self.new ≡ record self.old { parts = slice_set self.old.parts at (jumped_by sync.now self.old.commit self.old.log_view (self.old.first + at) (slice_index_or self.old.parts at Nothing)) } }
    {
        let op = self.first + at as u64;
        let known = self.parts.get_or(at, Part::Nothing);
        let part = jumped_by(sync, self.commit, self.log_view, op, known);
        self.parts.replace(at, part);
    }

    // Each Part becomes what it is then.
    #[tactic(auto, using(crate::proofs::Jumps::steps))]
    fn jump_parts(&mut self, sync: &SyncView)
        requires { self.old.first + length self.old.parts < 2 ^ 64 }
        ensures { self.new ≡ record self.old { parts = map (jumped_part sync.now self.old) (range_with_len self.old.first (length self.old.parts)) } }
    {
        for i in 0..self.part_count() {
            self.jump_part(sync, i);
        }
    }

    // The checkpoint is this one: all up to it counts as applied, and its root is missing.
    fn land(&mut self, root: Name, missing: NameList, checkpoint: u64)
        ensures { self.new ≡ record self.old { root = root; missing = missing; worn = []; checkpoint = checkpoint; applied = checkpoint } }
    {
        self.root = root;
        self.missing = missing;
        self.worn.clear();
        self.checkpoint = checkpoint;
        self.applied = checkpoint;
    }

    /// Takes over the log of a view with a later checkpoint: all that is up to the checkpoint counts as applied, and its state is still to
    /// be had. Where memory is wanting nothing is changed.
    #[tactic(auto, using(crate::proofs::Jumps::jumps, crate::proofs::Jumps::chained, crate::proofs::Taken::window_begun))]
    pub fn jump(&mut self, alloc: Global, sync: &SyncView) -> Result<(), AllocError>
        requires window { HasWindow self.old }
        requires may { MayJump sync.now self.old }
        ensures jumped { OnOk result (self.new ≡ jumped sync.now self.old) }
        ensures same { OnErr result (self.new ≡ self.old) }
        ensures saved { self.new.saved ≡ self.old.saved }
        ensures name { OnOk result (IsNameBytes sync.now.root_name.0) }
    {
        let root = root_of(sync);
        let missing = only(alloc, root)?;
        self.move_lists(sync);
        self.jump_parts(sync);
        self.land(root, missing, sync.checkpoint);
        self.begin_log(sync.view, sync.commit);
        self.forget();
        self.keep_names(sync.body.headers.as_slice());
        Ok(())
    }
}

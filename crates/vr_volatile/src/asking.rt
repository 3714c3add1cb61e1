//! What one replica takes from another: the entries, blocks and checkpoints that it asks for, and those that it gives.
ghost use Rattle.std.specs.Prelude.{◌≡◌, ◌≤◌, ◌<◌, ◌++◌, ◌&&◌, IfOk, OnOk, length, nat_lt, true};
ghost use Rattle.vr_base.specs.Bytes.{name_of};
ghost use Rattle.vr_header.specs.Made.{IsEntryHeader};
ghost use Rattle.vr_header.specs.Parts.{has_header};
ghost use Rattle.vr_volatile.specs.Ready.{IsReady};
ghost use Rattle.vr_rules.specs.Deciding.{reaches_down};
ghost use Rattle.vr_rules.specs.Outputs.{get_block, get_prepare, get_sync, give_block, give_prepare, send_to, sync_view};
ghost use Rattle.vr_rules.specs.Replica.{last_view, part_at, version};
ghost use Rattle.vr_rules.specs.Words.{peer};

use crate::Replica;
use std::alloc::{AllocError, Global};
use vr_base::ByteList;
use vr_ckpt::{BLOCK_SIZE, Name};
use vr_header::{Entry, Header};
use vr_msg::{
    GetBlock, GetPrepare, GetSync, GiveBlock, GivePrepare, Message, Outbox, SvBody, SyncView,
};
use vr_window::has_header;

// ---- entries and blocks

impl Replica {
    /// Asks the peer whose turn it is for the entry of this header.
    pub fn ask_entry(&self, header: &Header, out: &mut Outbox) -> Result<(), AllocError>
        requires size { 0 < self.now.n }
        requires entry { IsEntryHeader header.now }
        ensures { OnOk result (out.new ≡ out.old ++ send_to (peer self.now) (get_prepare name_of header.now self.now) self.now) }
    {
        let from = self.sender();
        let get = GetPrepare {
            version: from.version,
            cluster: from.cluster,
            replica: from.replica,
            op: header.op,
            name: self.name_of(header),
            made: header.view,
        };
        self.tell(self.peer(), Message::get_prepare(get), out)
    }

    /// Gives an entry to the replica that asked for it.
    pub fn give_entry(&self, to: u8, entry: Entry, out: &mut Outbox) -> Result<(), AllocError>
        requires { entry.header.version ≤ version self.now }
        ensures { OnOk result (out.new ≡ out.old ++ send_to to (give_prepare entry self.now) self.now) }
    {
        let from = self.sender();
        let give = GivePrepare {
            version: from.version,
            replica: from.replica,
            entry,
        };
        self.tell(to, Message::give_prepare(give), out)
    }

    /// Asks the peer whose turn it is for a block.
    pub fn ask_block(&self, name: &Name, out: &mut Outbox) -> Result<(), AllocError>
        requires { 0 < self.now.n }
        ensures { OnOk result (out.new ≡ out.old ++ send_to (peer self.now) (get_block name.now self.now) self.now) }
    {
        let from = self.sender();
        let get = GetBlock {
            version: from.version,
            cluster: from.cluster,
            replica: from.replica,
            address: name.address,
            name: name.sum,
        };
        self.tell(self.peer(), Message::get_block(get), out)
    }

    /// Gives a whole block to the replica that asked for it.
    pub fn give_block(
        &self,
        to: u8,
        address: u64,
        block: ByteList,
        out: &mut Outbox,
    ) -> Result<(), AllocError>
        requires { length block ≡ BLOCK_SIZE }
        ensures { OnOk result (out.new ≡ out.old ++ send_to to (give_block address block self.now) self.now) }
    {
        let from = self.sender();
        let give = GiveBlock {
            version: from.version,
            cluster: from.cluster,
            replica: from.replica,
            address,
            block,
        };
        self.tell(to, Message::give_block(give), out)
    }
}

// ---- checkpoints

impl Replica {
    /// Asks the primary of a view for the view's checkpoint.
    pub fn ask_sync(&self, to: u8, view: u32, out: &mut Outbox) -> Result<(), AllocError>
        requires { view ≤ last_view }
        ensures { OnOk result (out.new ≡ out.old ++ send_to to (get_sync view self.now) self.now) }
    {
        let from = self.sender();
        let get = GetSync {
            version: from.version,
            cluster: from.cluster,
            replica: from.replica,
            view,
        };
        self.tell(to, Message::get_sync(get), out)
    }

    // Its checkpoint with the log of its view, as a message.
    #[tactic(auto, using(crate::proofs::Memory::window_of, crate::proofs::Told::may_sync))]
    fn sync_view(&self, alloc: Global) -> Result<Message, AllocError>
        requires ready { IsReady self.now }
        requires view { self.now.view ≤ last_view }
        requires down { reaches_down self.now ≡ true }
        ensures { IfOk result (λ m. m ≡ sync_view self.now) }
    {
        let headers = self.run(alloc)?;
        let head = self.head();
        let from = self.sender();
        Ok(Message::sync_view(SyncView {
            version: from.version,
            cluster: from.cluster,
            replica: from.replica,
            view: from.view,
            head,
            commit: self.commit,
            checkpoint: self.checkpoint,
            root_address: self.root.address,
            root_name: self.root.sum,
            body: SvBody {
                lo: head.saturating_sub(headers.len() as u64),
                headers,
            },
        }))
    }

    // Whether it has a checkpoint whose own header is known.
    fn knows_checkpoint(&self) -> bool
        ensures { result ≡ (nat_lt 0 self.now.checkpoint && has_header (part_at self.now self.now.checkpoint)) }
    {
        0 < self.checkpoint && has_header(&self.part_at(self.checkpoint))
    }

    /// Whether the known headers that reach the head without a hole reach down to the checkpoint's. Above the checkpoint they all do, up to the
    /// head, so that the checkpoint's own header decides.
    #[tactic(auto, using(crate::proofs::Told::reaches_is))]
    pub fn reaches_down(&self) -> bool
        requires { IsReady self.now }
        ensures { result ≡ reaches_down self.now }
    {
        self.knows_checkpoint()
    }

    /// Gives its checkpoint, and the log of its view, to the replica that asked for it.
    pub fn tell_sync(&self, alloc: Global, to: u8, out: &mut Outbox) -> Result<(), AllocError>
        requires ready { IsReady self.now }
        requires view { self.now.view ≤ last_view }
        requires down { reaches_down self.now ≡ true }
        ensures { OnOk result (out.new ≡ out.old ++ send_to to (sync_view self.now) self.now) }
    {
        let message = self.sync_view(alloc)?;
        self.tell(to, message, out)
    }
}

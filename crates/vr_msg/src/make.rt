//! Messages from what they say.
ghost use Rattle.std.specs.Prelude.{◌≡◌, ◌≤◌, length};
ghost use Rattle.vr_msg.specs.declared.frame.Frame.{Frame};
ghost use Rattle.vr_msg.specs.Forms.{IsDoViewChange, IsStartView, IsSyncView};
ghost use Rattle.vr_msg.specs.Numbers.{IsNumber, IsView};

use crate::{
    Commit, DoViewChange, Frame, GetBlock, GetPrepare, GetSync, GetView, GiveBlock, GivePrepare,
    Message, Prepare, PrepareOk, Reply, Request, StartView, StartViewChange, SyncView,
};

impl Message {
    /// A request.
    pub fn request(request: Request) -> Message
        ensures { result ≡ Frame.Request request }
    {
        let _ = request.fields();
        Message::new(Frame::Request(request))
    }

    /// A reply.
    pub fn reply(reply: Reply) -> Message
        ensures { result ≡ Frame.Reply reply }
    {
        let _ = reply.fields();
        Message::new(Frame::Reply(reply))
    }

    /// A prepare of an entry that was made in no later view, and of no later version.
    pub fn prepare(prepare: Prepare) -> Message
        requires view { IsView prepare.view }
        requires commit { IsNumber prepare.commit }
        requires made { prepare.entry.header.view ≤ prepare.view }
        requires of_version { prepare.entry.header.version ≤ prepare.version }
        ensures { result ≡ Frame.Prepare prepare }
    {
        let _ = prepare.entry.header();
        Message::new(Frame::Prepare(prepare))
    }

    /// A prepare_ok.
    pub fn prepare_ok(ok: PrepareOk) -> Message
        requires view { IsView ok.view }
        requires op { IsNumber ok.op }
        requires made { IsView ok.made }
        ensures { result ≡ Frame.PrepareOk ok }
    {
        Message::new(Frame::PrepareOk(ok))
    }

    /// A commit.
    pub fn commit(commit: Commit) -> Message
        requires view { IsView commit.view }
        requires head { IsNumber commit.head }
        requires commit { IsNumber commit.commit }
        ensures { result ≡ Frame.Commit commit }
    {
        Message::new(Frame::Commit(commit))
    }

    /// A start_view_change.
    pub fn start_view_change(change: StartViewChange) -> Message
        requires { IsView change.view }
        ensures { result ≡ Frame.StartViewChange change }
    {
        Message::new(Frame::StartViewChange(change))
    }

    /// A do_view_change.
    pub fn do_view_change(change: DoViewChange) -> Message
        requires { IsDoViewChange change }
        ensures { result ≡ Frame.DoViewChange change }
    {
        Message::new(Frame::DoViewChange(change))
    }

    /// A start_view.
    pub fn start_view(start: StartView) -> Message
        requires { IsStartView start }
        ensures { result ≡ Frame.StartView start }
    {
        Message::new(Frame::StartView(start))
    }

    /// A get_view.
    pub fn get_view(get: GetView) -> Message
        requires { IsView get.view }
        ensures { result ≡ Frame.GetView get }
    {
        Message::new(Frame::GetView(get))
    }

    /// A get_prepare.
    pub fn get_prepare(get: GetPrepare) -> Message
        requires op { IsNumber get.op }
        requires made { IsView get.made }
        ensures { result ≡ Frame.GetPrepare get }
    {
        Message::new(Frame::GetPrepare(get))
    }

    /// A give_prepare of an entry of no later version.
    pub fn give_prepare(give: GivePrepare) -> Message
        requires { give.entry.header.version ≤ give.version }
        ensures { result ≡ Frame.GivePrepare give }
    {
        let _ = give.entry.header();
        Message::new(Frame::GivePrepare(give))
    }

    /// A get_block.
    pub fn get_block(get: GetBlock) -> Message
        ensures { result ≡ Frame.GetBlock get }
    {
        Message::new(Frame::GetBlock(get))
    }

    /// A give_block, of a block of 4,096 bytes.
    pub fn give_block(give: GiveBlock) -> Message
        requires { length give.block ≡ 4096 }
        ensures { result ≡ Frame.GiveBlock give }
    {
        Message::new(Frame::GiveBlock(give))
    }

    /// A get_sync.
    pub fn get_sync(get: GetSync) -> Message
        requires { IsView get.view }
        ensures { result ≡ Frame.GetSync get }
    {
        Message::new(Frame::GetSync(get))
    }

    /// A sync_view.
    pub fn sync_view(sync: SyncView) -> Message
        requires { IsSyncView sync }
        ensures { result ≡ Frame.SyncView sync }
    {
        Message::new(Frame::SyncView(sync))
    }
}

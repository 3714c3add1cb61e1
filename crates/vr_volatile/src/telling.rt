//! What a replica tells: the others of its view, its log and its statement, and the lines on what it does.
ghost use Rattle.std.specs.Prelude.{◌≡◌, ◌≤◌, ◌<◌, ◌^◌, ◌++◌, IfOk, OnOk};
ghost use Rattle.vr_base.specs.Bytes.{name_of};
ghost use Rattle.vr_header.specs.Made.{IsEntryHeader};
ghost use Rattle.vr_volatile.specs.Ready.{IsReady};
ghost use Rattle.vr_volatile.specs.Sends.{sends};
ghost use Rattle.vr_volatile.specs.Choosing.{chosen_line};
ghost use Rattle.vr_rules.specs.Outputs.{commit_message, do_view_change, prepare, prepare_ok, send_to, send_to_all, start_line, start_view, start_view_change, to_primary, wait_line};
ghost use Rattle.vr_rules.specs.Replica.{head, last_view, version};

use crate::Replica;
use crate::group::primary;
use std::alloc::{AllocError, Global};
use vr_base::Version;
use vr_header::{Entry, Header};
use vr_msg::{
    Chosen, Commit, DoViewChange, Message, Outbox, Output, Prepare, PrepareOk, Sent, StartView,
    StartViewChange, Started, SvBody, Waiting,
};

/// Who sends a message, and in which view. Each message begins with these, or some of them.
#[derive(Clone, Copy)]
pub(crate) struct Sender {
    pub version: Version,
    pub cluster: u64,
    pub replica: u8,
    pub view: u32,
}

// ---- to one replica, and to each of the others

impl Replica {
    /// Itself, as the sender of a message.
    pub(crate) fn sender(&self) -> Sender
        ensures { result ≡ record { version = version self.now; cluster = self.now.cluster; replica = self.now.index; view = self.now.view } }
    {
        Sender {
            version: self.version(),
            cluster: self.cluster,
            replica: self.index,
            view: self.view,
        }
    }

    /// Sends a message to one replica.
    pub fn tell(&self, to: u8, message: Message, out: &mut Outbox) -> Result<(), AllocError>
        ensures { OnOk result (out.new ≡ out.old ++ send_to to message self.now) }
    {
        out.push(Output::Send(Sent {
            from: self.index,
            to,
            message,
        }))
    }

    // Sends a message to each of the others.
    #[tactic(auto, using(std::proofs::lemmas::Grind::common_steps, crate::proofs::Sending::sends_more, crate::proofs::Sending::sends_none))]
    fn tell_others(
        &self,
        alloc: Global,
        message: &Message,
        out: &mut Outbox,
    ) -> Result<(), AllocError>
        ensures { OnOk result (out.new ≡ out.old ++ sends self.now.index self.now.n message.now) }
    {
        for to in 0..self.n {
            if to != self.index {
                self.tell(to, message.try_clone(alloc)?, out)?;
            }
        }
        Ok(())
    }
}

// ---- of entries, and of how far they are committed

impl Replica {
    // The prepare of an entry.
    #[tactic(auto, using(crate::proofs::Repairs::ready_commit))]
    fn prepare_of(&self, alloc: Global, entry: &Entry) -> Result<Message, AllocError>
        requires ready { IsReady self.now }
        requires view { self.now.view ≤ last_view }
        requires version { entry.now.header.version ≤ version self.now }
        requires made { entry.now.header.view ≤ self.now.view }
        ensures { IfOk result (λ message. message ≡ prepare entry.now self.now) }
    {
        let copy = entry.try_clone(alloc)?;
        let from = self.sender();
        Ok(Message::prepare(Prepare {
            version: from.version,
            replica: from.replica,
            view: from.view,
            commit: self.commit,
            entry: copy,
        }))
    }

    /// Prepares an entry to all others.
    #[tactic(auto, using(std::proofs::lemmas::Grind::common_steps, crate::proofs::Sending::sends_more, crate::proofs::Sending::sends_none), unfolding(vr_rules::specs::Outputs::send_to_all, crate::specs::Sends::sends))]
    pub fn send_prepare(
        &self,
        alloc: Global,
        entry: &Entry,
        out: &mut Outbox,
    ) -> Result<(), AllocError>
        requires ready { IsReady self.now }
        requires view { self.now.view ≤ last_view }
        requires version { entry.now.header.version ≤ version self.now }
        requires made { entry.now.header.view ≤ self.now.view }
        ensures { OnOk result (out.new ≡ out.old ++ send_to_all (prepare entry.now) self.now) }
    {
        for to in 0..self.n {
            if to != self.index {
                let message = self.prepare_of(alloc, entry)?;
                self.tell(to, message, out)?;
            }
        }
        Ok(())
    }

    /// Tells the primary that the entry of this header is stored.
    #[tactic(auto, using(crate::proofs::Memory::some_member))]
    pub fn acknowledge(&self, header: &Header, out: &mut Outbox) -> Result<(), AllocError>
        requires ready { IsReady self.now }
        requires view { self.now.view ≤ last_view }
        requires entry { IsEntryHeader header.now }
        ensures { OnOk result (out.new ≡ out.old ++ to_primary (prepare_ok name_of header.now) self.now) }
    {
        let from = self.sender();
        let ok = PrepareOk {
            version: from.version,
            cluster: from.cluster,
            replica: from.replica,
            view: from.view,
            op: header.op,
            name: self.name_of(header),
            made: header.view,
        };
        self.tell(primary(self.n, self.view), Message::prepare_ok(ok), out)
    }

    // How far its log goes, which is up to this head, and how far it is committed.
    #[tactic(auto, using(crate::proofs::Memory::window_of, crate::proofs::Memory::head_fits, crate::proofs::Memory::commit_fits))]
    fn commit_message(&self, top: u64) -> Message
        requires ready { IsReady self.now }
        requires view { self.now.view ≤ last_view }
        requires head { top ≡ head self.now }
        ensures { result ≡ commit_message self.now }
    {
        let from = self.sender();
        Message::commit(Commit {
            version: from.version,
            cluster: from.cluster,
            replica: from.replica,
            view: from.view,
            head: top,
            commit: self.commit,
        })
    }

    /// The others hear how far its log goes, and how far it is committed.
    #[tactic(auto, using(std::proofs::lemmas::Grind::common_steps, crate::proofs::Memory::window_of, crate::proofs::Memory::head_fits, crate::proofs::Memory::commit_fits, crate::proofs::Sending::sends_more, crate::proofs::Sending::sends_none), unfolding(vr_rules::specs::Outputs::send_to_all, crate::specs::Sends::sends))]
    pub fn tell_commit(&self, out: &mut Outbox) -> Result<(), AllocError>
        requires ready { IsReady self.now }
        requires view { self.now.view ≤ last_view }
        ensures { OnOk result (out.new ≡ out.old ++ send_to_all commit_message self.now) }
    {
        let head = self.head();
        for to in 0..self.n {
            if to != self.index {
                self.tell(to, self.commit_message(head), out)?;
            }
        }
        Ok(())
    }
}

// ---- of its view, and of the log in it

impl Replica {
    // That it has entered its view.
    fn start_view_change(&self) -> Message
        requires { self.now.view ≤ last_view }
        ensures { result ≡ start_view_change self.now }
    {
        let from = self.sender();
        Message::start_view_change(StartViewChange {
            version: from.version,
            cluster: from.cluster,
            replica: from.replica,
            view: from.view,
        })
    }

    /// The others hear that it has entered its view.
    #[tactic(auto, using(std::proofs::lemmas::Grind::common_steps, crate::proofs::Sending::sends_more, crate::proofs::Sending::sends_none), unfolding(vr_rules::specs::Outputs::send_to_all, crate::specs::Sends::sends))]
    pub fn tell_change(&self, out: &mut Outbox) -> Result<(), AllocError>
        requires { self.now.view ≤ last_view }
        ensures { OnOk result (out.new ≡ out.old ++ send_to_all start_view_change self.now) }
    {
        for to in 0..self.n {
            if to != self.index {
                self.tell(to, self.start_view_change(), out)?;
            }
        }
        Ok(())
    }

    /// The primary of its view, which isn't started, hears what it states of its log.
    #[tactic(auto, using(crate::proofs::Memory::window_of, crate::proofs::Memory::some_member, crate::proofs::Told::may_state))]
    pub fn tell_statement(&self, alloc: Global, out: &mut Outbox) -> Result<(), AllocError>
        requires ready { IsReady self.now }
        requires view { self.now.view ≤ last_view }
        requires changing { self.now.log_view < self.now.view }
        ensures { OnOk result (out.new ≡ out.old ++ to_primary do_view_change self.now) }
    {
        let statement = self.statement(alloc)?;
        let from = self.sender();
        let message = Message::do_view_change(DoViewChange {
            version: from.version,
            cluster: from.cluster,
            replica: from.replica,
            view: from.view,
            statement,
        });
        self.tell(primary(self.n, self.view), message, out)
    }

    // The log of its view, as a message.
    #[tactic(auto, using(crate::proofs::Memory::window_of, crate::proofs::Told::may_start))]
    fn start_view(&self, alloc: Global) -> Result<Message, AllocError>
        requires ready { IsReady self.now }
        requires view { self.now.view ≤ last_view }
        ensures { IfOk result (λ m. m ≡ start_view self.now) }
    {
        let headers = self.run(alloc)?;
        let head = self.head();
        let from = self.sender();
        Ok(Message::start_view(StartView {
            version: from.version,
            cluster: from.cluster,
            replica: from.replica,
            view: from.view,
            head,
            commit: self.commit,
            body: SvBody {
                lo: head.saturating_sub(headers.len() as u64),
                headers,
            },
        }))
    }

    /// One replica hears of the log of its view.
    pub fn tell_view(&self, alloc: Global, to: u8, out: &mut Outbox) -> Result<(), AllocError>
        requires ready { IsReady self.now }
        requires view { self.now.view ≤ last_view }
        ensures { OnOk result (out.new ≡ out.old ++ send_to to (start_view self.now) self.now) }
    {
        let message = self.start_view(alloc)?;
        self.tell(to, message, out)
    }

    /// The others hear of the log of its view.
    #[tactic(auto, using(crate::proofs::Told::all_told))]
    pub fn tell_views(&self, alloc: Global, out: &mut Outbox) -> Result<(), AllocError>
        requires ready { IsReady self.now }
        requires view { self.now.view ≤ last_view }
        ensures { OnOk result (out.new ≡ out.old ++ send_to_all start_view self.now) }
    {
        let message = self.start_view(alloc)?;
        let told = self.tell_others(alloc, &message, out);
        drop(message);
        told
    }
}

// ---- the lines on what it does

impl Replica {
    /// Tells that it has recovered.
    pub fn say_start(&self, out: &mut Outbox) -> Result<(), AllocError>
        ensures { OnOk result (out.new ≡ out.old ++ start_line self.now) }
    {
        out.push(Output::Start(Started {
            replica: self.index,
            view: self.view,
            log_view: self.log_view,
            commit: self.commit,
        }))
    }

    /// A line on the log that it chose, which ends at `head`: with the greatest log view and commit
    /// number of what was stated.
    pub fn tell_choice(
        &self,
        alloc: Global,
        log_view: u32,
        commit: u64,
        head: u64,
        out: &mut Outbox,
    ) -> Result<(), AllocError>
        requires { self.now.commit < 2 ^ 63 }
        ensures { OnOk result (out.new ≡ out.old ++ chosen_line log_view commit head self.now) }
    {
        let own = self.told_from(alloc, self.commit + 1)?;
        out.push(Output::Choose(Chosen {
            replica: self.index,
            view: self.view,
            log_view,
            commit,
            head,
            own,
        }))
    }

    /// A line on the op for which its choice waits.
    pub fn tell_wait(&self, op: u64, out: &mut Outbox) -> Result<(), AllocError>
        ensures { OnOk result (out.new ≡ out.old ++ wait_line op self.now) }
    {
        out.push(Output::Wait(Waiting {
            replica: self.index,
            view: self.view,
            op,
        }))
    }
}

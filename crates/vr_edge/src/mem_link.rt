//! A link in memory.
ghost use Rattle.std.specs.Prelude.{◌≡◌, ◌≤◌, ◌<◌, ◌+◌, [], ◌∷◌, Option, Some, IfOk, IfSome, vec_capacity, vec_len, if◌then◌else◌, length};
ghost use Rattle.std.specs.Option.{option_map, option_to_list};
ghost use Rattle.vr_base.specs.Causes.{HasCause, one_more};
ghost use Rattle.vr_edge.specs.Counts.{is_listed};
ghost use Rattle.vr_edge.specs.Attaching.{attached_by, texts_of};
ghost use Rattle.vr_edge.specs.Datagrams.{sent_by, received_by};
ghost use Rattle.vr_edge.specs.Logs.{told};
ghost use Rattle.vr_edge.specs.Stocks.{Fits, IsStock, Took};
ghost use Rattle.vr_edge.specs.Told.{Grows, GrowsOn, IsNothing};

use crate::attach::note_attach;
use crate::calls::{answer, count_fault, is_listed};
use crate::link::RECEIVE_ROOM;
use crate::log::Log;
use crate::outbox::Outbox;
use crate::{Attach, Link, LinkFailed, LinkRoom, LinkScript, LogRoom, Received, TextStock};
use std::alloc::{AllocError, Global};

/// A link in memory. A datagram that waits at a receive which fails is lost. It tells its attaches and its sends in the room that
/// it was made with.
#[derive(Drop)]
pub struct MemLink {
    script: LinkScript,
    attached: Log<Attach>,
    stock: TextStock,
    outbox: Outbox,
    attaches: u64,
    receives: u64,
    faults: u64,
    send_faults: u64,
}

impl MemLink {
    ghost use Rattle.vr_edge.specs.Sending.{datagram_at, entry_at};

    /// A link on which the script runs. A send past the room fails, and so does each later one; attaches past theirs may be told no more.
    #[tactic(auto, unfolding(crate::specs::Receiving::received_told, crate::specs::Receiving::arrivals_before))]
    pub fn new(
        alloc: Global,
        script: LinkScript,
        room: LinkRoom,
        attaches: LogRoom,
    ) -> Result<MemLink, AllocError>
        ensures attached { IfOk result (λ l. ⟦<MemLink as Link>⟧.attached l ≡ Some []) }
        ensures sent { IfOk result (λ l. ⟦<MemLink as Link>⟧.sent l ≡ Some []) }
        ensures received { IfOk result (λ l. ⟦<MemLink as Link>⟧.received l ≡ Some []) }
        ensures faults { IfOk result (λ l. ⟦<MemLink as Link>⟧.faults l ≡ 0) }
        ensures send_faults { IfOk result (λ l. ⟦<MemLink as Link>⟧.send_faults l ≡ 0) }
        ensures script { IfOk result (λ l. l.script ≡ script) }
        ensures room { IfOk result (λ l. l.outbox.room ≡ room) }
        ensures log { IfOk result (λ l. l.attached.room ≡ attaches.entries) }
        ensures texts { IfOk result (λ l. IsStock attaches l.stock) }
        ensures attaches { IfOk result (λ l. l.attaches ≡ 0) }
        ensures receives { IfOk result (λ l. l.receives ≡ 0) }
    {
        Ok(MemLink {
            script,
            attached: Log::new(alloc, attaches.entries)?,
            stock: TextStock::new(alloc, attaches)?,
            outbox: Outbox::new(alloc, room)?,
            attaches: 0,
            receives: 0,
            faults: 0,
            send_faults: 0,
        })
    }

    /// What each attach so far was given, and whether it went well; `None` where there was no room for one.
    pub fn attached(&self) -> Option<&[Attach]>
        ensures { option_map (λ attached. attached.now) result ≡ ⟦<MemLink as Link>⟧.attached self.now }
    {
        self.attached.told()
    }

    /// The port and the bytes of the send with this number, from 0; `None` where it failed or is yet to come.
    #[tactic(auto, using(std::proofs::lemmas::Grind::common_steps, crate::proofs::Sending::entry_told))]
    pub fn sent(&self, at: usize) -> Option<(u32, &[u8])>
        ensures { IfSome (⟦<MemLink as Link>⟧.sent self.now) (λ sent. option_map (λ d. datagram_at d.0 d.1.now) result ≡ entry_at sent at) }
    {
        self.outbox.get(at)
    }
}

impl Link for MemLink {
    ghost use Rattle.vr_edge.specs.Receiving.{received_told, waiting_at, arrival_at};
    ghost use Rattle.vr_edge.specs.Links.{sends_well};
    ghost use Rattle.vr_edge.specs.Sending.{has_room, outbox_told};

    ghost attached = { λ l. told l.attached.whole l.attached.entries.items };

    ghost sent = { λ l. outbox_told l.outbox };

    ghost received = { λ l. received_told l.script l.receives };

    ghost waiting = { λ l. Some (option_to_list (waiting_at l.script l.receives)) };

    ghost faults = { λ l. l.faults };

    ghost send_faults = { λ l. l.send_faults };

    fn attach(&mut self, own: &str, peers: &Vec<String>) -> Result<(), LinkFailed>
        ensures cause { HasCause self.old.faults self.new.faults result }
        ensures attached { Grows (⟦<MemLink as Link>⟧.attached self.old) (⟦<MemLink as Link>⟧.attached self.new) (attached_by own.now (texts_of peers.now.items) result ∷ []) }
        // one for which there is room is told, where each before was, and uses that room
        ensures told { vec_len self.old.attached.entries < self.old.attached.room → Fits (own.now ∷ texts_of peers.now.items) self.old.stock
            → GrowsOn (⟦<MemLink as Link>⟧.attached self.old) (⟦<MemLink as Link>⟧.attached self.new) (attached_by own.now (texts_of peers.now.items) result ∷ [])
            × Took (vec_len peers.now + 1) 1 self.old.stock self.new.stock }
        ensures room { self.new.attached.room ≡ self.old.attached.room }
        ensures sent { ⟦<MemLink as Link>⟧.sent self.new ≡ ⟦<MemLink as Link>⟧.sent self.old }
        ensures received { ⟦<MemLink as Link>⟧.received self.new ≡ ⟦<MemLink as Link>⟧.received self.old }
        ensures others { self.new.send_faults ≡ self.old.send_faults }
        ensures result { result ≡ (if is_listed self.old.script.failing_attaches.items self.old.attaches then Err (record {}) else Ok (record {})) }
        ensures state { self.new ≡ record self.old { attaches = one_more self.old.attaches; attached = self.new.attached; stock = self.new.stock; faults = self.new.faults } }
    {
        let call = self.attaches;
        self.attaches = call.saturating_add(1);
        let given = answer(&self.script.failing_attaches, call, LinkFailed);
        note_attach(&mut self.attached, &mut self.stock, own, peers, &given);
        count_fault(&mut self.faults, &given);
        given
    }

    fn send(&mut self, to: u32, bytes: &[u8]) -> Result<(), LinkFailed>
        ensures cause { HasCause self.old.send_faults self.new.send_faults result }
        ensures attached { ⟦<MemLink as Link>⟧.attached self.new ≡ ⟦<MemLink as Link>⟧.attached self.old }
        ensures sent { Grows (⟦<MemLink as Link>⟧.sent self.old) (⟦<MemLink as Link>⟧.sent self.new) (sent_by to bytes.now result ∷ []) }
        ensures received { ⟦<MemLink as Link>⟧.received self.new ≡ ⟦<MemLink as Link>⟧.received self.old }
        ensures others { self.new.faults ≡ self.old.faults }
        ensures result { result ≡ (if sends_well self.old (length bytes.now) then Ok (record {}) else Err (record {})) }
        // only sends that come when no room is left use up what it tells of them
        ensures past { self.new.outbox.past ≡ (if has_room self.old.outbox (length bytes.now) then self.old.outbox.past else one_more self.old.outbox.past) }
        ensures room { self.new.outbox.room ≡ self.old.outbox.room }
        ensures state { self.new ≡ record self.old { outbox = self.new.outbox; send_faults = self.new.send_faults } }
    {
        let fails = is_listed(&self.script.failing_sends, self.outbox.len() as u64);
        if self.outbox.put(to, bytes, fails) {
            return Ok(());
        }
        self.send_faults = self.send_faults.saturating_add(1);
        Err(LinkFailed)
    }

    #[tactic(auto, using(std::proofs::lemmas::Grind::common_steps, crate::proofs::Receiving::received_more))]
    fn receive(&mut self, to: &mut Vec<u8>) -> Result<Received, LinkFailed>
        requires { RECEIVE_ROOM ≤ vec_capacity to.old }
        ensures cause { HasCause self.old.faults self.new.faults result }
        ensures attached { ⟦<MemLink as Link>⟧.attached self.new ≡ ⟦<MemLink as Link>⟧.attached self.old }
        ensures quiet { IfOk result (λ r. r ≡ Received.Quiet → IsNothing (⟦<MemLink as Link>⟧.waiting self.old)) }
        ensures sent { ⟦<MemLink as Link>⟧.sent self.new ≡ ⟦<MemLink as Link>⟧.sent self.old }
        ensures received { Grows (⟦<MemLink as Link>⟧.received self.old) (⟦<MemLink as Link>⟧.received self.new) (received_by result to.new.items ∷ []) }
        ensures room { RECEIVE_ROOM ≤ vec_capacity to.new }
        ensures others { self.new.send_faults ≡ self.old.send_faults }
        ensures result { received_by result to.new.items ≡ arrival_at self.old.script self.old.receives }
        ensures state { self.new ≡ record self.old { receives = one_more self.old.receives; faults = self.new.faults } }
    {
        let given = self.script.give(self.receives, to);
        self.receives = self.receives.saturating_add(1);
        count_fault(&mut self.faults, &given);
        given
    }
}

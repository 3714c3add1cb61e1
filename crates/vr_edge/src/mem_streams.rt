//! Streams in memory.
ghost use Rattle.std.specs.Prelude.{◌≡◌, ◌≤◌, ◌<◌, ◌+◌, [], ◌∷◌, List, Option, Some, ℕ, IfOk, IfSome, is_some, OnErr, OnOk, if◌then◌else◌, length, vec_len, replicate, false, true, slice_get, slice_set, unwrap_or};
ghost use Rattle.vr_base.specs.Causes.{HasCause, one_more};
ghost use Rattle.vr_edge.specs.Attaching.{attached_by, texts_of};
ghost use Rattle.vr_edge.specs.Counts.{is_listed};
ghost use Rattle.vr_edge.specs.Logs.{told, told_to};
ghost use Rattle.vr_edge.specs.Streaming.{IsPolled, polled_by, written_by};
ghost use Rattle.vr_edge.specs.StreamScripts.{gives, is_left_out, left_behind};
ghost use Rattle.vr_edge.specs.Stocks.{Fits, FitsOne, IsStock, Took, TookOne};
ghost use Rattle.vr_edge.specs.Told.{Grows, GrowsOn, IsNothing};
ghost use Rattle.vr_edge.specs.declared.stream_script.Coming.TheVariants as coming;
ghost use Rattle.vr_edge.specs.declared.streams.StreamCall.TheVariants as call;
ghost use Rattle.vr_edge.specs.declared.streams.StreamFailed.{StreamFailed};

use crate::attach::note_attach;
use crate::calls::{answer, count_fault};
use crate::log::{CallLog, Log};
use crate::{
    Attach, Coming, LogRoom, Piece, Polled, STREAM_ROOM, StreamCall, StreamFailed, StreamScript,
    Streams, TextStock, Write,
};
use std::alloc::{AllocError, Global};

/// The most streams at a time that others than the peers have made.
const OTHERS: usize = 64;

/// Streams in memory, which tell each of their calls in the room that they were made with.
#[derive(Drop)]
pub struct MemStreams {
    script: StreamScript,
    /// How many peers are attached.
    peers: usize,
    /// Whether what comes at a port is left out.
    left_out: Vec<bool>,
    attached: Log<Attach>,
    calls: CallLog,
    written: Log<Write>,
    stock: TextStock,
    attaches: u64,
    polls: u64,
    writes: u64,
    closes: u64,
    faults: u64,
    call_faults: u64,
}

/// Whether what comes at this port is left out.
fn is_left_out(peers: usize, left_out: &[bool], port: u32) -> bool
    ensures { result ≡ is_left_out peers left_out.now port }
{
    let at = port as usize;
    at.saturating_sub(peers) >= OTHERS || left_out.get(at).copied().unwrap_or(true)
}

/// What a poll gives of bytes that came: as much as it takes.
#[tactic(auto, using(std::proofs::lemmas::Grind::common_steps, crate::proofs::Receiving::take_most))]
fn give_piece(peers: usize, left_out: &[bool], piece: &Piece, to: &mut [u8]) -> Polled
    requires { length to.old ≡ STREAM_ROOM }
    ensures gives { polled_by {E = StreamFailed} (Ok result) to.new ≡ gives peers left_out.now (coming.Piece piece.now) }
    ensures bound { IsPolled peers result }
{
    if is_left_out(peers, left_out, piece.port) || piece.bytes.len() == 0 {
        return Polled::Quiet;
    }
    let count = piece.bytes.len().min(STREAM_ROOM);
    to[..count].copy_from_slice(&piece.bytes.as_slice()[..count]);
    Polled::Bytes(piece.port, count as u32)
}

/// What a poll gives of the end of the stream at this port.
fn give_end(peers: usize, left_out: &[bool], port: u32) -> Polled
    ensures gives { (to : List ℕ) → polled_by {E = StreamFailed} (Ok result) to ≡ gives peers left_out.now (coming.End port) }
    ensures bound { IsPolled peers result }
{
    if is_left_out(peers, left_out, port) {
        return Polled::Quiet;
    }
    Polled::Ended(port)
}

/// What a poll gives of what it finds.
fn give(
    peers: usize,
    left_out: &[bool],
    found: &Coming,
    to: &mut [u8],
) -> Result<Polled, StreamFailed>
    requires { length to.old ≡ STREAM_ROOM }
    ensures gives { polled_by result to.new ≡ gives peers left_out.now found.now }
    ensures bound { IfOk result (IsPolled peers) }
{
    match found {
        Coming::Nothing => Ok(Polled::Quiet),
        Coming::Fault => Err(StreamFailed),
        Coming::End(port) => Ok(give_end(peers, left_out, *port)),
        Coming::Piece(piece) => Ok(give_piece(peers, left_out, piece, to)),
    }
}

/// From here on what comes at this port is left out, or is not.
fn leave_out(left_out: &mut Vec<bool>, port: u32, whether: bool)
    ensures { left_out.new.items ≡ slice_set left_out.old.items port whether }
{
    let at = port as usize;
    if at < left_out.len() {
        left_out[at] = whether;
    }
}

/// An end that was found begins another connection at its port.
fn begin_anew(left_out: &mut Vec<bool>, found: &Coming)
    ensures { left_out.new.items ≡ left_behind left_out.old.items found.now }
{
    match found {
        Coming::End(port) => leave_out(left_out, *port, false),
        Coming::Nothing | Coming::Fault | Coming::Piece(_) => {}
    }
}

/// The entry of one poll, where there is room for its bytes.
fn poll_entry(
    stock: &mut TextStock,
    peers: usize,
    polled: &Result<Polled, StreamFailed>,
    bytes: &[u8],
) -> Option<StreamCall>
    requires { (length bytes.now ≡ STREAM_ROOM) × IfOk polled.now (IsPolled peers) }
    ensures is { IfSome result (λ c. c ≡ polled_by polled.now bytes.now) }
    ensures kept { FitsOne STREAM_ROOM stock.old → (is_some result ≡ true) × TookOne stock.old stock.new }
{
    match polled {
        Ok(Polled::Bytes(port, count)) => Some(StreamCall::Came(Piece {
            port: *port,
            bytes: stock.copy(&bytes[..*count as usize])?,
        })),
        Ok(Polled::Ended(port)) => Some(StreamCall::Ended(*port)),
        Ok(Polled::Quiet) => Some(StreamCall::Quiet),
        Err(_) => Some(StreamCall::Failed),
    }
}

/// The entry of one write, where there is room for its bytes.
fn write_entry(
    stock: &mut TextStock,
    port: u32,
    bytes: &[u8],
    written: &Result<usize, StreamFailed>,
) -> Option<Write>
    ensures is { IfSome result (λ w. w ≡ written_by port bytes.now written.now) }
    ensures kept { FitsOne (length bytes.now) stock.old → (is_some result ≡ true) × Took 1 0 stock.old stock.new }
{
    let bytes = stock.copy(bytes)?;
    let taken = match written {
        Ok(count) => Some(*count),
        Err(_) => None,
    };
    Some(Write { port, bytes, taken })
}

/// Tells one poll, where there is room for its bytes.
fn note_poll(
    calls: &mut CallLog,
    stock: &mut TextStock,
    peers: usize,
    polled: &Result<Polled, StreamFailed>,
    bytes: &[u8],
)
    requires { (length bytes.now ≡ STREAM_ROOM) × IfOk polled.now (IsPolled peers) }
    ensures calls { Grows (told calls.old.log.whole calls.old.log.entries.items) (told calls.new.log.whole calls.new.log.entries.items) (polled_by polled.now bytes.now ∷ []) }
    ensures polled { told_to calls.new.was_whole calls.new.polled calls.new.log.entries.items ≡ told calls.new.log.whole calls.new.log.entries.items }
    // one for which there is room is told, where each before was
    ensures kept { vec_len calls.old.log.entries < calls.old.log.room → FitsOne STREAM_ROOM stock.old
        → GrowsOn (told calls.old.log.whole calls.old.log.entries.items) (told calls.new.log.whole calls.new.log.entries.items) (polled_by polled.now bytes.now ∷ []) × TookOne stock.old stock.new }
    ensures room { calls.new.log.room ≡ calls.old.log.room }
{
    let entry = poll_entry(stock, peers, polled, bytes);
    calls.note_poll(entry);
}

/// Tells one write, where there is room for its bytes.
fn note_write(
    log: &mut Log<Write>,
    stock: &mut TextStock,
    port: u32,
    bytes: &[u8],
    written: &Result<usize, StreamFailed>,
)
    ensures told { Grows (told log.old.whole log.old.entries.items) (told log.new.whole log.new.entries.items) (written_by port bytes.now written.now ∷ []) }
    // one for which there is room is told, where each before was, and uses that room
    ensures kept { vec_len log.old.entries < log.old.room → FitsOne (length bytes.now) stock.old
        → GrowsOn (told log.old.whole log.old.entries.items) (told log.new.whole log.new.entries.items) (written_by port bytes.now written.now ∷ []) × Took 1 0 stock.old stock.new }
    ensures room { log.new.room ≡ log.old.room }
{
    let entry = write_entry(stock, port, bytes, written);
    log.note(entry);
}

/// How many peers are attached after an attach of so many; one that failed leaves them.
fn attached_after(before: usize, count: usize, given: &Result<(), StreamFailed>) -> usize
    ensures attached { OnOk given.now (result ≡ count) }
    ensures kept { OnErr given.now (result ≡ before) }
{
    match given {
        Ok(()) => count,
        Err(_) => before,
    }
}

/// What streams tell of their calls.
#[derive(Drop)]
struct Books {
    attached: Log<Attach>,
    calls: CallLog,
    written: Log<Write>,
    stock: TextStock,
}

impl Books {
    /// No call is told, and there is so much room.
    fn new(alloc: Global, room: LogRoom) -> Result<Books, AllocError>
        ensures attached { IfOk result (λ b. told b.attached.whole b.attached.entries.items ≡ Some []) }
        ensures calls { IfOk result (λ b. told b.calls.log.whole b.calls.log.entries.items ≡ Some []) }
        ensures polled { IfOk result (λ b. told_to b.calls.was_whole b.calls.polled b.calls.log.entries.items ≡ Some []) }
        ensures written { IfOk result (λ b. told b.written.whole b.written.entries.items ≡ Some []) }
        ensures logs { IfOk result (λ b. (b.attached.room ≡ room.entries) × (b.calls.log.room ≡ room.entries) × (b.written.room ≡ room.entries)) }
        ensures texts { IfOk result (λ b. IsStock room b.stock) }
    {
        Ok(Books {
            attached: Log::new(alloc, room.entries)?,
            calls: CallLog::new(alloc, room.entries)?,
            written: Log::new(alloc, room.entries)?,
            stock: TextStock::new(alloc, room)?,
        })
    }
}

impl MemStreams {
    ghost use Rattle.std.specs.Option.{option_map};
    ghost use Rattle.vr_edge.specs.StreamScripts.{found_at, gives_at};

    /// Streams at so many ports, on which the script runs. What comes at other ports is left out.
    pub fn new(
        alloc: Global,
        ports: usize,
        script: StreamScript,
        room: LogRoom,
    ) -> Result<MemStreams, AllocError>
        ensures attached { IfOk result (λ s. ⟦<MemStreams as Streams>⟧.attaches s ≡ Some []) }
        ensures calls { IfOk result (λ s. ⟦<MemStreams as Streams>⟧.calls s ≡ Some []) }
        ensures polled { IfOk result (λ s. ⟦<MemStreams as Streams>⟧.polled s ≡ Some []) }
        ensures written { IfOk result (λ s. ⟦<MemStreams as Streams>⟧.written s ≡ Some []) }
        ensures faults { IfOk result (λ s. s.faults ≡ 0) }
        ensures call_faults { IfOk result (λ s. s.call_faults ≡ 0) }
        ensures script { IfOk result (λ s. s.script ≡ script) }
        ensures peers { IfOk result (λ s. s.peers ≡ 0) }
        ensures left_out { IfOk result (λ s. s.left_out.items ≡ replicate ports false) }
        ensures attaches { IfOk result (λ s. s.attaches ≡ 0) }
        ensures polls { IfOk result (λ s. s.polls ≡ 0) }
        ensures writes { IfOk result (λ s. s.writes ≡ 0) }
        ensures closes { IfOk result (λ s. s.closes ≡ 0) }
        ensures logs { IfOk result (λ s. (s.attached.room ≡ room.entries) × (s.calls.log.room ≡ room.entries) × (s.written.room ≡ room.entries)) }
        ensures texts { IfOk result (λ s. IsStock room s.stock) }
    {
        let mut left_out = Vec::new(alloc);
        left_out.resize(ports, false)?;
        let books = Books::new(alloc, room)?;
        Ok(MemStreams {
            script,
            peers: 0,
            left_out,
            attached: books.attached,
            calls: books.calls,
            written: books.written,
            stock: books.stock,
            attaches: 0,
            polls: 0,
            writes: 0,
            closes: 0,
            faults: 0,
            call_faults: 0,
        })
    }

    /// What each attach so far was given, and whether it went well; `None` where there was no room for one.
    pub fn attached(&self) -> Option<&[Attach]>
        ensures { option_map (λ attached. attached.now) result ≡ ⟦<MemStreams as Streams>⟧.attaches self.now }
    {
        self.attached.told()
    }

    /// What each poll and each close so far did; `None` where there was no room for one.
    pub fn calls(&self) -> Option<&[StreamCall]>
        ensures { option_map (λ calls. calls.now) result ≡ ⟦<MemStreams as Streams>⟧.calls self.now }
    {
        self.calls.told()
    }

    /// Each write so far; `None` where there was no room for one.
    pub fn written(&self) -> Option<&[Write]>
        ensures { option_map (λ written. written.now) result ≡ ⟦<MemStreams as Streams>⟧.written self.now }
    {
        self.written.told()
    }

    /// What the next poll finds, of which it gives as much as it takes.
    fn find(&mut self, to: &mut [u8]) -> Result<Polled, StreamFailed>
        requires { length to.old ≡ STREAM_ROOM }
        ensures gives { polled_by result to.new ≡ gives_at self.old.peers self.old.left_out.items self.old.script self.old.polls }
        ensures bound { IfOk result (IsPolled self.old.peers) }
        ensures left { self.new.left_out.items ≡ left_behind self.old.left_out.items (found_at self.old.script self.old.polls) }
        ensures state { self.new ≡ record self.old { left_out = self.new.left_out; polls = one_more self.old.polls } }
    {
        let at = self.polls as usize;
        self.polls = self.polls.saturating_add(1);
        let Some(found) = self.script.comes.get(at) else {
            return Ok(Polled::Quiet);
        };
        let given = give(self.peers, &self.left_out, found, to);
        begin_anew(&mut self.left_out, found);
        given
    }
}

impl Streams for MemStreams {
    ghost use Rattle.vr_edge.specs.StreamScripts.{found_at, gives_at, waits, write_takes};

    ghost attaches = { λ s. told s.attached.whole s.attached.entries.items };

    ghost calls = { λ s. told s.calls.log.whole s.calls.log.entries.items };

    ghost polled = { λ s. told_to s.calls.was_whole s.calls.polled s.calls.log.entries.items };

    ghost written = { λ s. told s.written.whole s.written.entries.items };

    ghost waiting = { λ s. Some (waits (gives_at s.peers s.left_out.items s.script s.polls)) };

    ghost attached = { λ s. s.peers };

    ghost faults = { λ s. s.faults };

    ghost call_faults = { λ s. s.call_faults };

    fn attach(&mut self, own: &str, peers: &Vec<String>) -> Result<(), StreamFailed>
        ensures cause { HasCause self.old.faults self.new.faults result }
        ensures attaches { Grows (⟦<MemStreams as Streams>⟧.attaches self.old) (⟦<MemStreams as Streams>⟧.attaches self.new) (attached_by own.now (texts_of peers.now.items) result ∷ []) }
        ensures calls { ⟦<MemStreams as Streams>⟧.calls self.new ≡ ⟦<MemStreams as Streams>⟧.calls self.old }
        ensures polled { ⟦<MemStreams as Streams>⟧.polled self.new ≡ ⟦<MemStreams as Streams>⟧.polled self.old }
        ensures written { ⟦<MemStreams as Streams>⟧.written self.new ≡ ⟦<MemStreams as Streams>⟧.written self.old }
        ensures attached { OnOk result (self.new.peers ≡ vec_len peers.now) }
        ensures kept { OnErr result (self.new.peers ≡ self.old.peers) }
        ensures others { self.new.call_faults ≡ self.old.call_faults }
        // one for which there is room is told, where each before was, and uses that room
        ensures told { vec_len self.old.attached.entries < self.old.attached.room → Fits (own.now ∷ texts_of peers.now.items) self.old.stock
            → GrowsOn (⟦<MemStreams as Streams>⟧.attaches self.old) (⟦<MemStreams as Streams>⟧.attaches self.new) (attached_by own.now (texts_of peers.now.items) result ∷ [])
            × Took (vec_len peers.now + 1) 1 self.old.stock self.new.stock }
        ensures room { self.new.attached.room ≡ self.old.attached.room }
        ensures result { result ≡ (if is_listed self.old.script.failing_attaches.items self.old.attaches then Err (record {}) else Ok (record {})) }
        ensures state { self.new ≡ record self.old { peers = self.new.peers; attached = self.new.attached; stock = self.new.stock; attaches = one_more self.old.attaches; faults = self.new.faults } }
    {
        let call = self.attaches;
        self.attaches = call.saturating_add(1);
        let given = answer(&self.script.failing_attaches, call, StreamFailed);
        note_attach(&mut self.attached, &mut self.stock, own, peers, &given);
        self.peers = attached_after(self.peers, peers.len(), &given);
        count_fault(&mut self.faults, &given);
        given
    }

    fn poll(&mut self, to: &mut [u8]) -> Result<Polled, StreamFailed>
        requires { length to.old ≡ STREAM_ROOM }
        ensures bound { IfOk result (IsPolled self.old.peers) }
        ensures cause { HasCause self.old.faults self.new.faults result }
        ensures quiet { IfOk result (λ p. p ≡ Polled.Quiet → IsNothing (⟦<MemStreams as Streams>⟧.waiting self.old)) }
        ensures attaches { ⟦<MemStreams as Streams>⟧.attaches self.new ≡ ⟦<MemStreams as Streams>⟧.attaches self.old }
        ensures calls { Grows (⟦<MemStreams as Streams>⟧.calls self.old) (⟦<MemStreams as Streams>⟧.calls self.new) (polled_by result to.new ∷ []) }
        ensures polled { ⟦<MemStreams as Streams>⟧.polled self.new ≡ ⟦<MemStreams as Streams>⟧.calls self.new }
        ensures written { ⟦<MemStreams as Streams>⟧.written self.new ≡ ⟦<MemStreams as Streams>⟧.written self.old }
        ensures attached { self.new.peers ≡ self.old.peers }
        ensures others { self.new.call_faults ≡ self.old.call_faults }
        // one for which there is room is told, where each before was
        ensures told { vec_len self.old.calls.log.entries < self.old.calls.log.room → FitsOne STREAM_ROOM self.old.stock
            → GrowsOn (⟦<MemStreams as Streams>⟧.calls self.old) (⟦<MemStreams as Streams>⟧.calls self.new) (polled_by result to.new ∷ []) × TookOne self.old.stock self.new.stock }
        ensures room { self.new.calls.log.room ≡ self.old.calls.log.room }
        ensures gives { polled_by result to.new ≡ gives_at self.old.peers self.old.left_out.items self.old.script self.old.polls }
        ensures left { self.new.left_out.items ≡ left_behind self.old.left_out.items (found_at self.old.script self.old.polls) }
        ensures state { self.new ≡ record self.old { left_out = self.new.left_out; polls = one_more self.old.polls; calls = self.new.calls; stock = self.new.stock; faults = self.new.faults } }
    {
        let given = self.find(to);
        note_poll(&mut self.calls, &mut self.stock, self.peers, &given, to);
        count_fault(&mut self.faults, &given);
        given
    }

    fn write(&mut self, port: u32, bytes: &[u8]) -> Result<usize, StreamFailed>
        ensures bound { IfOk result (λ count. count ≤ length bytes.now) }
        ensures cause { HasCause self.old.call_faults self.new.call_faults result }
        ensures attaches { ⟦<MemStreams as Streams>⟧.attaches self.new ≡ ⟦<MemStreams as Streams>⟧.attaches self.old }
        ensures calls { ⟦<MemStreams as Streams>⟧.calls self.new ≡ ⟦<MemStreams as Streams>⟧.calls self.old }
        ensures polled { ⟦<MemStreams as Streams>⟧.polled self.new ≡ ⟦<MemStreams as Streams>⟧.polled self.old }
        ensures written { Grows (⟦<MemStreams as Streams>⟧.written self.old) (⟦<MemStreams as Streams>⟧.written self.new) (written_by port bytes.now result ∷ []) }
        ensures attached { self.new.peers ≡ self.old.peers }
        ensures others { self.new.faults ≡ self.old.faults }
        // one for which there is room is told, where each before was, and uses that room
        ensures told { vec_len self.old.written.entries < self.old.written.room → FitsOne (length bytes.now) self.old.stock
            → GrowsOn (⟦<MemStreams as Streams>⟧.written self.old) (⟦<MemStreams as Streams>⟧.written self.new) (written_by port bytes.now result ∷ []) × Took 1 0 self.old.stock self.new.stock }
        ensures room { self.new.written.room ≡ self.old.written.room }
        ensures result { result ≡ write_takes self.old.script self.old.writes (length bytes.now) }
        ensures state { self.new ≡ record self.old { writes = one_more self.old.writes; written = self.new.written; stock = self.new.stock; call_faults = self.new.call_faults } }
    {
        let call = self.writes;
        self.writes = call.saturating_add(1);
        let written = self.script.take(call, bytes.len());
        note_write(&mut self.written, &mut self.stock, port, bytes, &written);
        count_fault(&mut self.call_faults, &written);
        written
    }

    fn close(&mut self, port: u32) -> Result<(), StreamFailed>
        ensures cause { HasCause self.old.call_faults self.new.call_faults result }
        ensures attaches { ⟦<MemStreams as Streams>⟧.attaches self.new ≡ ⟦<MemStreams as Streams>⟧.attaches self.old }
        ensures calls { Grows (⟦<MemStreams as Streams>⟧.calls self.old) (⟦<MemStreams as Streams>⟧.calls self.new) (call.Closed port ∷ []) }
        ensures polled { ⟦<MemStreams as Streams>⟧.polled self.new ≡ ⟦<MemStreams as Streams>⟧.polled self.old }
        ensures written { ⟦<MemStreams as Streams>⟧.written self.new ≡ ⟦<MemStreams as Streams>⟧.written self.old }
        ensures attached { self.new.peers ≡ self.old.peers }
        ensures others { self.new.faults ≡ self.old.faults }
        // one for which there is room is told, where each before was
        ensures told { vec_len self.old.calls.log.entries < self.old.calls.log.room → GrowsOn (⟦<MemStreams as Streams>⟧.calls self.old) (⟦<MemStreams as Streams>⟧.calls self.new) (call.Closed port ∷ []) }
        ensures room { self.new.calls.log.room ≡ self.old.calls.log.room }
        ensures left { self.new.left_out.items ≡ slice_set self.old.left_out.items port true }
        ensures result { result ≡ (if is_listed self.old.script.failing_closes.items self.old.closes then Err (record {}) else Ok (record {})) }
        ensures state { self.new ≡ record self.old { left_out = self.new.left_out; closes = one_more self.old.closes; calls = self.new.calls; call_faults = self.new.call_faults } }
    {
        let number = self.closes;
        self.closes = number.saturating_add(1);
        leave_out(&mut self.left_out, port, true);
        self.calls.note_close(port);
        let given = answer(&self.script.failing_closes, number, StreamFailed);
        count_fault(&mut self.call_faults, &given);
        given
    }

    /// In memory nobody waits for a place.
    fn speaks(&mut self, _port: u32, _member: u8)
        ensures { self.new ≡ self.old }
    {}
}

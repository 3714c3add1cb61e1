//! What an object in memory tells of its calls, in room that is made at first.
ghost use Rattle.std.specs.Prelude.{◌≡◌, ◌≤◌, ◌<◌, [], ◌∷◌, Some, IfOk, IfSome, true, vec_capacity, vec_len};

use crate::StreamCall;
use std::alloc::{AllocError, Global};

/// Entries, in room that is made at first. Past it they are told as long as there is memory for them.
#[derive(Drop)]
pub struct Log<T> {
    entries: Vec<T>,
    /// How many entries have room.
    room: usize,
    /// Whether every entry is there.
    whole: bool,
    ghost made: { room ≤ vec_capacity entries },
}

/// What each poll and each close did, in such room.
#[derive(Drop)]
pub struct CallLog {
    log: Log<StreamCall>,
    /// How many entries there were at the last poll.
    polled: usize,
    /// Whether every entry was there then.
    was_whole: bool,
    ghost within: { polled ≤ vec_len log.entries },
}

impl<T: Drop> Log<T> {
    ghost use Rattle.std.specs.Option.{option_map};
    ghost use Rattle.vr_edge.specs.Logs.{IsNoted, told};
    ghost use Rattle.vr_edge.specs.Told.{GrowsOn};

    /// No entry, and room for so many.
    pub fn new(alloc: Global, room: usize) -> Result<Log<T>, AllocError>
        ensures told { IfOk result (λ l. (l.whole ≡ true) × (l.entries.items ≡ [])) }
        ensures room { IfOk result (λ l. l.room ≡ room) }
    {
        Ok(Log {
            entries: Vec::with_capacity(alloc, room)?,
            room,
            whole: true,
        })
    }

    /// Adds an entry; where there is none, or no memory for it, the log has no longer every one.
    pub fn note(&mut self, entry: Option<T>)
        ensures noted { IsNoted (told self.old.whole self.old.entries.items) (told self.new.whole self.new.entries.items) entry }
        // one for which there is room is told, where each before was
        ensures kept { vec_len self.old.entries < self.old.room → IfSome entry (λ e. GrowsOn (told self.old.whole self.old.entries.items) (told self.new.whole self.new.entries.items) (e ∷ [])) }
        ensures room { self.new.room ≡ self.old.room }
    {
        match entry {
            Some(entry) => {
                if self.entries.push(entry).is_err() {
                    self.whole = false;
                }
            }
            None => self.whole = false,
        }
    }

    /// The entries, where every one is there.
    pub fn told(&self) -> Option<&[T]>
        ensures { option_map (λ entries. entries.now) result ≡ told self.now.whole self.now.entries.items }
    {
        if self.whole {
            Some(self.entries.as_slice())
        } else {
            None
        }
    }
}

impl CallLog {
    ghost use Rattle.std.specs.Option.{option_map};
    ghost use Rattle.vr_edge.specs.Logs.{IsNoted, told, told_to};
    ghost use Rattle.vr_edge.specs.Told.{Grows, GrowsOn};
    ghost use Rattle.vr_edge.specs.declared.streams.StreamCall.TheVariants as call;

    /// No entry, and room for so many.
    pub fn new(alloc: Global, room: usize) -> Result<CallLog, AllocError>
        ensures calls { IfOk result (λ l. told l.log.whole l.log.entries.items ≡ Some []) }
        ensures polled { IfOk result (λ l. told_to l.was_whole l.polled l.log.entries.items ≡ Some []) }
        ensures room { IfOk result (λ l. l.log.room ≡ room) }
    {
        Ok(CallLog {
            log: Log::new(alloc, room)?,
            polled: 0,
            was_whole: true,
        })
    }

    /// Adds a poll.
    pub fn note_poll(&mut self, entry: Option<StreamCall>)
        ensures calls { IsNoted (told self.old.log.whole self.old.log.entries.items) (told self.new.log.whole self.new.log.entries.items) entry }
        ensures polled { told_to self.new.was_whole self.new.polled self.new.log.entries.items ≡ told self.new.log.whole self.new.log.entries.items }
        // one for which there is room is told, where each before was
        ensures kept { vec_len self.old.log.entries < self.old.log.room → IfSome entry (λ e. GrowsOn (told self.old.log.whole self.old.log.entries.items) (told self.new.log.whole self.new.log.entries.items) (e ∷ [])) }
        ensures room { self.new.log.room ≡ self.old.log.room }
    {
        self.log.note(entry);
        self.polled = self.log.entries.len();
        self.was_whole = self.log.whole;
    }

    /// Adds a close; it stands after the last poll.
    pub fn note_close(&mut self, port: u32)
        ensures calls { Grows (told self.old.log.whole self.old.log.entries.items) (told self.new.log.whole self.new.log.entries.items) (call.Closed port ∷ []) }
        ensures polled { told_to self.new.was_whole self.new.polled self.new.log.entries.items ≡ told_to self.old.was_whole self.old.polled self.old.log.entries.items }
        // one for which there is room is told, where each before was
        ensures kept { vec_len self.old.log.entries < self.old.log.room → GrowsOn (told self.old.log.whole self.old.log.entries.items) (told self.new.log.whole self.new.log.entries.items) (call.Closed port ∷ []) }
        ensures room { self.new.log.room ≡ self.old.log.room }
    {
        if self.log.entries.push(StreamCall::Closed(port)).is_err() {
            self.log.whole = false;
        }
    }

    /// The entries, where every one is there.
    pub fn told(&self) -> Option<&[StreamCall]>
        ensures { option_map (λ entries. entries.now) result ≡ told self.now.log.whole self.now.log.entries.items }
    {
        self.log.told()
    }
}

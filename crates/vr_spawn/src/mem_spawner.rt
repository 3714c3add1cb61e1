//! A spawner in memory.
ghost use Rattle.std.specs.Prelude.{◌≡◌, ◌<◌, [], ◌∷◌, IfOk, IfSome, Some, if◌then◌else◌, is_some, true, vec_len};
ghost use Rattle.vr_base.specs.Causes.{HasCause, one_more};
ghost use Rattle.vr_edge.specs.Attaching.{texts_of};
ghost use Rattle.vr_edge.specs.Counts.{is_listed};
ghost use Rattle.vr_edge.specs.Logs.{told};
ghost use Rattle.vr_edge.specs.Stocks.{Fits, IsStock, Took};
ghost use Rattle.vr_edge.specs.Told.{Grows, GrowsOn};
ghost use Rattle.vr_spawn.specs.Spawning.{IsNumbered, started_by, stopped_by};

use crate::{SpawnCall, SpawnFailed, Spawner, Start, Stop};
use std::alloc::{AllocError, Global};
use vr_edge::{Log, LogRoom, TextStock};

/// A spawner in memory, which starts nothing: a call goes well unless it is one of those that fail. It tells its calls in the
/// room that it was made with.
#[derive(Drop)]
pub struct MemSpawner {
    failing_starts: Vec<u64>,
    failing_stops: Vec<u64>,
    calls: Log<SpawnCall>,
    stock: TextStock,
    starts: u64,
    stops: u64,
    started: u64,
    faults: u64,
}

/// The entry of one start, where there is room for its words.
fn start_entry(
    stock: &mut TextStock,
    words: &Vec<String>,
    given: &Result<u32, SpawnFailed>,
) -> Option<SpawnCall>
    ensures is { IfSome result (λ c. c ≡ started_by (texts_of words.now.items) given.now) }
    ensures kept { Fits (texts_of words.now.items) stock.old → (is_some result ≡ true) × Took (vec_len words.now) 1 stock.old stock.new }
{
    let words = stock.copy_all(words)?;
    let id = match given {
        Ok(id) => Some(*id),
        Err(_) => None,
    };
    Some(SpawnCall::Start(Start { words, id }))
}

impl MemSpawner {
    ghost use Rattle.std.specs.Option.{option_map};
    ghost use Rattle.vr_spawn.specs.Scripted.{starts, start_fails, stops};

    /// A spawner whose starts and stops with these numbers, each kind counted from 0, fail. Calls past the room may be told no more.
    pub fn new(
        alloc: Global,
        failing_starts: Vec<u64>,
        failing_stops: Vec<u64>,
        room: LogRoom,
    ) -> Result<MemSpawner, AllocError>
        ensures calls { IfOk result (λ s. ⟦<MemSpawner as Spawner>⟧.calls s ≡ Some []) }
        ensures log { IfOk result (λ s. s.calls.room ≡ room.entries) }
        ensures texts { IfOk result (λ s. IsStock room s.stock) }
        ensures failing_starts { IfOk result (λ s. s.failing_starts.items ≡ failing_starts.items) }
        ensures failing_stops { IfOk result (λ s. s.failing_stops.items ≡ failing_stops.items) }
        ensures starts { IfOk result (λ s. s.starts ≡ 0) }
        ensures stops { IfOk result (λ s. s.stops ≡ 0) }
        ensures started { IfOk result (λ s. s.started ≡ 0) }
        ensures faults { IfOk result (λ s. s.faults ≡ 0) }
    {
        Ok(MemSpawner {
            failing_starts,
            failing_stops,
            calls: Log::new(alloc, room.entries)?,
            stock: TextStock::new(alloc, room)?,
            starts: 0,
            stops: 0,
            started: 0,
            faults: 0,
        })
    }

    /// What each call so far did; `None` where there was no room for one.
    pub fn calls(&self) -> Option<&[SpawnCall]>
        ensures { option_map (λ calls. calls.now) result ≡ ⟦<MemSpawner as Spawner>⟧.calls self.now }
    {
        self.calls.told()
    }

    /// The number of what starts next, where it starts.
    fn next_start(&self) -> Result<u32, SpawnFailed>
        ensures { result ≡ starts self.now }
    {
        if self.failing_starts.contains(&self.starts) {
            return Err(SpawnFailed);
        }
        if self.started > u64::from(u32::MAX) {
            return Err(SpawnFailed);
        }
        Ok(self.started as u32)
    }

    /// Whether the next stop goes well.
    fn next_stop(&self) -> Result<(), SpawnFailed>
        ensures { result ≡ stops self.now }
    {
        if self.failing_stops.contains(&self.stops) {
            return Err(SpawnFailed);
        }
        Ok(())
    }
}

impl Spawner for MemSpawner {
    ghost use Rattle.std.specs.Prelude.{◌+◌};
    ghost use Rattle.vr_spawn.specs.Scripted.{starts, stops, start_fails, stop_fails};

    ghost calls = { λ s. told s.calls.whole s.calls.entries.items };

    ghost started = { λ s. s.started };

    ghost faults = { λ s. s.faults };

    fn start(&mut self, words: &Vec<String>) -> Result<u32, SpawnFailed>
        ensures cause { HasCause self.old.faults self.new.faults result }
        ensures number { IsNumbered self.old.started self.new.started result }
        ensures calls { Grows (⟦<MemSpawner as Spawner>⟧.calls self.old) (⟦<MemSpawner as Spawner>⟧.calls self.new) (started_by (texts_of words.now.items) result ∷ []) }
        // one for which there is room is told, where each before was, and uses that room
        ensures told { vec_len self.old.calls.entries < self.old.calls.room → Fits (texts_of words.now.items) self.old.stock
            → GrowsOn (⟦<MemSpawner as Spawner>⟧.calls self.old) (⟦<MemSpawner as Spawner>⟧.calls self.new) (started_by (texts_of words.now.items) result ∷ [])
            × Took (vec_len words.now) 1 self.old.stock self.new.stock }
        ensures room { self.new.calls.room ≡ self.old.calls.room }
        ensures result { result ≡ starts self.old }
        ensures state { self.new ≡ record self.old { starts = one_more self.old.starts; calls = self.new.calls; stock = self.new.stock; started = self.new.started; faults = self.new.faults } }
    {
        let given = self.next_start();
        self.starts = self.starts.saturating_add(1);
        self.calls.note(start_entry(&mut self.stock, words, &given));
        match given {
            Ok(_) => self.started += 1,
            Err(_) => self.faults = self.faults.saturating_add(1),
        }
        given
    }

    fn stop(&mut self, id: u32) -> Result<(), SpawnFailed>
        ensures cause { HasCause self.old.faults self.new.faults result }
        ensures started { self.new.started ≡ self.old.started }
        ensures calls { Grows (⟦<MemSpawner as Spawner>⟧.calls self.old) (⟦<MemSpawner as Spawner>⟧.calls self.new) (stopped_by id result ∷ []) }
        // one for which there is room is told, where each before was
        ensures told { vec_len self.old.calls.entries < self.old.calls.room
            → GrowsOn (⟦<MemSpawner as Spawner>⟧.calls self.old) (⟦<MemSpawner as Spawner>⟧.calls self.new) (stopped_by id result ∷ []) }
        ensures room { self.new.calls.room ≡ self.old.calls.room }
        ensures result { result ≡ stops self.old }
        ensures state { self.new ≡ record self.old { stops = one_more self.old.stops; calls = self.new.calls; faults = self.new.faults } }
    {
        let given = self.next_stop();
        self.stops = self.stops.saturating_add(1);
        let is_done = given.is_ok();
        let entry = SpawnCall::Stop(Stop { id, is_done });
        self.calls.note(Some(entry));
        if !is_done {
            self.faults = self.faults.saturating_add(1);
        }
        given
    }
}

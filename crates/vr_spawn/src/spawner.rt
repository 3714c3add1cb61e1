//! A spawner of programs.
ghost use Rattle.std.specs.Prelude.{◌≡◌, List, [], ◌∷◌, ℕ, Option};
ghost use Rattle.vr_base.specs.Causes.{HasCause};
ghost use Rattle.vr_edge.specs.Attaching.{texts_of};
ghost use Rattle.vr_edge.specs.Told.{Grows};
ghost use Rattle.vr_spawn.specs.Spawning.{IsNumbered, started_by, stopped_by};
ghost use Rattle.vr_spawn.specs.declared.spawner.SpawnCall.{SpawnCall};

use thiserror::Error;
use vr_base::{ByteList, Seq};

/// A start or a stop that failed.
#[derive(Clone, Copy, Debug, PartialEq, Eq, Error)]
#[error("spawn failed")]
pub struct SpawnFailed;

/// A start of a program.
#[derive(Debug, Drop, PartialEq, Eq)]
pub struct Start {
    /// The words that follow the program's name.
    pub words: Seq<ByteList>,
    /// The number that was given, `None` where the start failed.
    pub id: Option<u32>,
}

/// A stop of the program with this number.
#[derive(Clone, Copy, Debug, PartialEq, Eq)]
pub struct Stop {
    pub id: u32,
    /// Whether it went well.
    pub is_done: bool,
}

/// A call of a spawner.
#[derive(Debug, Drop, PartialEq, Eq)]
pub enum SpawnCall {
    Start(Start),
    Stop(Stop),
}

/// What starts programs and ends them.
pub trait Spawner {
    /// What each start and each stop so far did, where the spawner tells it.
    ghost calls: { Self → Option (List SpawnCall) };

    /// How many programs were started.
    ghost started: { Self → ℕ };

    /// How often a start or a stop has failed.
    ghost faults: { Self → ℕ };

    /// Starts a program with these words after its name, and returns its number: they are counted from 0.
    fn start(&mut self, words: &Vec<String>) -> Result<u32, SpawnFailed>
        ensures cause { HasCause (faults self.old) (faults self.new) result }
        ensures number { IsNumbered (started self.old) (started self.new) result }
        ensures calls { Grows (calls self.old) (calls self.new) (started_by (texts_of words.now.items) result ∷ []) };

    /// Ends the program with this number, and waits until it has ended.
    fn stop(&mut self, id: u32) -> Result<(), SpawnFailed>
        ensures cause { HasCause (faults self.old) (faults self.new) result }
        ensures started { started self.new ≡ started self.old }
        ensures calls { Grows (calls self.old) (calls self.new) (stopped_by id result ∷ []) };
}

//! What the machine answers.
ghost use Rattle.std.specs.Prelude.{◌≡◌, IfOk};

use crate::Value;
use std::alloc::{AllocError, Global};

/// What the machine answers.
#[derive(Debug, Drop, PartialEq, Eq)]
pub enum Outcome {
    /// The session has begun.
    Session,
    Ok,
    /// There is no room for another key.
    Full,
    /// There is no such key.
    Absent,
    Value(Value),
}

impl Outcome {
    /// A copy of the outcome.
    pub fn try_clone(&self, alloc: Global) -> Result<Outcome, AllocError>
        ensures { IfOk result (λ copy. copy ≡ self.now) }
    {
        match self {
            Outcome::Session => Ok(Outcome::Session),
            Outcome::Ok => Ok(Outcome::Ok),
            Outcome::Full => Ok(Outcome::Full),
            Outcome::Absent => Ok(Outcome::Absent),
            Outcome::Value(value) => Ok(Outcome::Value(value.try_clone(alloc)?)),
        }
    }
}

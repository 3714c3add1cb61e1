//! One session, and what a request is to it.
ghost use Rattle.std.specs.Prelude.{◌≡◌, IfOk};
ghost use Rattle.vr_state.specs.Fitting.{outcome_fits};
ghost use Rattle.vr_state.specs.Sessions.{judged, OutcomeFits};

use crate::pair::value_fits;
use std::alloc::Global;
use vr_base::{NoMemory, Version};
use vr_header::{Outcome, Value};

/// What is kept of a client: its last request that was executed.
#[derive(Debug, Drop, PartialEq, Eq)]
pub struct Session {
    /// The request's number; 0 is that of the register.
    pub number: u32,
    /// The number of the request's entry in the log.
    pub op: u64,
    pub outcome: Outcome,
}

/// What a request is to the sessions.
#[derive(Debug, Drop, PartialEq, Eq)]
pub enum SessionAnswer {
    /// It is the next one, or it begins a session: it is to be executed.
    Fresh,
    /// It is the last one: what it gave, and the number of its entry in the log.
    Repeat(Outcome, u64),
    /// It is from before the last one.
    Old,
    /// There is one between the last one and it.
    Gap,
    /// There is no session of this client.
    Evicted,
}

/// What a request is to the session of its client.
pub fn judge(alloc: Global, session: &Session, request: u32) -> Result<SessionAnswer, NoMemory>
    ensures { IfOk result (λ answer. answer ≡ judged request session.now) }
{
    if request == session.number {
        let outcome = session.outcome.try_clone(alloc)?;
        return Ok(SessionAnswer::Repeat(outcome, session.op));
    }
    if request < session.number {
        return Ok(SessionAnswer::Old);
    }
    if u64::from(request) == u64::from(session.number) + 1 {
        return Ok(SessionAnswer::Fresh);
    }
    Ok(SessionAnswer::Gap)
}

/// Whether the outcome is one of this version.
pub fn outcome_fits(outcome: &Outcome, version: Version) -> bool
    ensures { result ≡ outcome_fits version outcome.now }
{
    match outcome {
        Outcome::Value(value) => value_fits(value, version),
        Outcome::Session | Outcome::Ok | Outcome::Full | Outcome::Absent => true,
    }
}

/// A session of its own.
pub fn new_session(
    alloc: Global,
    op: u64,
    number: u32,
    outcome: &Outcome,
) -> Result<Session, NoMemory>
    ensures session { IfOk result (λ s. s ≡ record { number = number; op = op; outcome = outcome.now }) }
    ensures fits { IfOk result (λ _. OutcomeFits outcome.now) }
{
    let outcome = copied(alloc, outcome)?;
    Ok(Session {
        number,
        op,
        outcome,
    })
}

fn copied(alloc: Global, outcome: &Outcome) -> Result<Outcome, NoMemory>
    ensures copy { IfOk result (λ copy. copy ≡ outcome.now) }
    ensures fits { IfOk result (λ _. OutcomeFits outcome.now) }
{
    match outcome {
        Outcome::Session => Ok(Outcome::Session),
        Outcome::Ok => Ok(Outcome::Ok),
        Outcome::Full => Ok(Outcome::Full),
        Outcome::Absent => Ok(Outcome::Absent),
        Outcome::Value(value) => {
            let copy = Value::from_bytes(alloc, value.as_slice())?;
            Ok(Outcome::Value(copy))
        }
    }
}
